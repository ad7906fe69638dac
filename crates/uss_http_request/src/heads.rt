ghost use Rattle.std.specs.Prelude.{◌≡◌, ◌≢◌, ◌≤◌, List, length, map, All, Err, IfOk, IfErr, IfSome, IsSome, vec_capacity};
ghost use Rattle.httparse.specs.Spans.{IsRequestOf, IsRequestWithin, IsWithin, IsHeaderWithin, span_bytes, header_bytes};
ghost use Rattle.uss_cause.specs.Cause.{Rose};
ghost use Rattle.uss_http_request.specs.Heads.{IsOpenHead, BeginsNoHead};
ghost use Rattle.uss_http_request.specs.HeadAnswers.{IsHeadAt, IsRefusedHead, TakesHead, MissesHead, refusal_of_head};
ghost use Rattle.uss_http_request.specs.Pieces.{MatchLook, piece_limit};
ghost use Rattle.uss_http_request.specs.Prompt.{IsPrompt, ButForFaults};
ghost use Rattle.uss_http_request.specs.Streams.{Hears};

use crate::fields::{Framing, body_framing, client_name};
use crate::halt::Halt;
use crate::intake::Intake;
use crate::line_ends::fields_may_end;
use crate::piece::{Look, Piece, take_piece};
use crate::refusal::ReadRefusal;
use crate::stream::Stream;
use crate::target::ends_in_target;
use httparse::spans::{EMPTY_HEADER_SPAN, HeaderSpan, RequestSpans, Span, parse_request};
use httparse::{Error, Status};
use std::alloc::{AllocError, Global};
use std::marker::Model;
use uss_intent::{Name, Sequence};

/// Bytes of a message, seen as their list.
pub type Bytes = Sequence<u8>;

/// Room for the fields of a head: as many as 16 KiB can have, so that there are never too many.
const ROOM: usize = 5462;

/// Room for the fields at first: few heads have more.
const FIRST_ROOM: usize = 64;

/// Heads of requests, with the places of the fields of the last one that was found. There is memory for all places from
/// the start; those after the first are made only where a head has more fields.
#[derive(Drop)]
pub struct RequestHeads {
    headers: Vec<HeaderSpan>,
}

impl Model for RequestHeads {
    ghost use Rattle.std.specs.Prelude.{◌≤◌, List, vec_capacity};
    ghost use Rattle.httparse.specs.declared.spans.HeaderSpan.{HeaderSpan};

    ghost Value = { List HeaderSpan };

    ghost view = { λ h. h.headers.items };

    ghost invariant = { λ h. 5462 ≤ vec_capacity h.headers };
}

/// Memory for the places of as many fields as a head can have, of which the first are made.
pub fn places(alloc: Global) -> Result<Vec<HeaderSpan>, AllocError>
    ensures { IfOk result (λ places. 5462 ≤ vec_capacity places) }
{
    let mut places = Vec::with_capacity(alloc, ROOM)?;
    places.resize(FIRST_ROOM, EMPTY_HEADER_SPAN)?;
    Ok(places)
}

/// Makes all places, for which there is memory.
pub fn make_all(places: &mut Vec<HeaderSpan>)
    requires { 5462 ≤ vec_capacity places.old }
    ensures all { length places.new.items ≡ 5462 }
    ensures room { 5462 ≤ vec_capacity places.new }
{
    let made = places.resize(ROOM, EMPTY_HEADER_SPAN).is_ok();
    prove!(made);
}

impl RequestHeads {
    /// No head was found yet.
    pub fn new(alloc: Global) -> Result<RequestHeads, AllocError> {
        let headers = places(alloc)?;
        Ok(RequestHeads { headers })
    }

    /// The places of the fields.
    pub fn headers(&self) -> &[HeaderSpan]
        ensures { result.now ≡ self.now }
    {
        self.headers.as_slice()
    }
}

impl Piece for RequestHeads {
    ghost use Rattle.httparse.specs.declared.spans.RequestSpans.{RequestSpans};

    type Found = RequestSpans;

    ghost found = { λ heads bytes spans. IsRequestOf bytes heads spans × IsRequestWithin bytes heads spans };

    ghost unfinished = { λ bytes. IsOpenHead bytes };

    ghost never = { λ _ bytes. BeginsNoHead bytes };

    fn look(&mut self, bytes: &[u8]) -> Look<RequestSpans> {
        if let Some(look) = look_for_head(bytes, self.headers.as_mut_slice()) {
            return look;
        }
        make_all(&mut self.headers);
        match look_for_head(bytes, self.headers.as_mut_slice()) {
            Some(look) => look,
            None => unreachable!(),
        }
    }

    fn may_end(&self, bytes: &[u8], from: usize) -> bool {
        fields_may_end(bytes, from)
    }
}

/// What the bytes show of a head at their start, or none where there are fewer places than it may have fields.
fn look_for_head(bytes: &[u8], headers: &mut [HeaderSpan]) -> Option<Look<RequestSpans>>
    requires { length bytes.now ≤ piece_limit }
    ensures look { IfSome result (λ look. MatchLook look (λ spans. IsRequestOf bytes.now headers.new spans × IsRequestWithin bytes.now headers.new spans) (IsOpenHead bytes.now) (BeginsNoHead bytes.now)) }
    ensures room { length headers.old ≡ 5462 → IsSome result }
{
    match parse_request(bytes, headers) {
        Ok(Status::Complete(spans)) => Some(Look::Whole(spans)),
        Ok(Status::Partial) => Some(Look::NotYet),
        Err(Error::TooManyHeaders) => None,
        Err(_) if ends_in_target(bytes) => Some(Look::NotYet),
        Err(_) => Some(Look::Never),
    }
}

/// The first line of a head and what its fields say of the body and of the client.
#[derive(Drop)]
pub struct Head {
    /// The method, as `GET`.
    pub method: Bytes,
    /// The target, as it stands.
    pub path: Bytes,
    /// The name of the client.
    pub client: Name,
    /// How the end of the body is found.
    pub framing: Framing,
}

/// A copy of the bytes that a span covers.
fn copied(alloc: Global, bytes: &[u8], span: Span) -> Result<Bytes, ReadRefusal>
    requires { IsWithin (length bytes.now) span }
    ensures bytes { IfOk result (λ copy. copy ≡ span_bytes bytes.now span) }
    ensures memory { IfErr result (λ e. e ≡ ReadRefusal.Memory) }
{
    match Vec::from_slice(alloc, span.of(bytes)) {
        Ok(copy) => Ok(Bytes::from_vec(copy)),
        Err(AllocError) => Err(ReadRefusal::Memory),
    }
}

/// The head at these places of the bytes.
fn head_at(
    alloc: Global,
    bytes: &[u8],
    headers: &[HeaderSpan],
    method: Span,
    path: Span,
) -> Result<Head, ReadRefusal>
    requires method { IsWithin (length bytes.now) method }
    requires path { IsWithin (length bytes.now) path }
    requires headers { All (IsHeaderWithin (length bytes.now)) headers.now }
    ensures { IsHeadAt (span_bytes bytes.now method) (span_bytes bytes.now path) (map (header_bytes bytes.now) headers.now) result }
{
    let framing = match body_framing(bytes, headers) {
        Some(framing) => framing,
        None => return Err(ReadRefusal::BadHead),
    };
    let client = match client_name(alloc, bytes, headers) {
        Ok(client) => client,
        Err(refusal) => return Err(refusal),
    };
    let method = match copied(alloc, bytes, method) {
        Ok(method) => method,
        Err(refusal) => return Err(refusal),
    };
    let path = match copied(alloc, bytes, path) {
        Ok(path) => path,
        Err(refusal) => return Err(refusal),
    };
    Ok(Head {
        method,
        path,
        client,
        framing,
    })
}

/// Why there is no head.
pub fn head_refusal(halt: Halt) -> ReadRefusal
    ensures { result ≡ refusal_of_head halt }
{
    match halt {
        Halt::Bad => ReadRefusal::BadHead,
        Halt::Long => ReadRefusal::HeadTooLarge,
        Halt::Cut => ReadRefusal::Truncated,
        Halt::Fault => ReadRefusal::Fault,
        Halt::Memory => ReadRefusal::Memory,
    }
}

/// Takes a head from the stream.
#[tactic(auto, using(crate::proofs::Passing::hears_then, crate::proofs::Passing::hears_same))]
pub fn take_head<K, T: Stream<K>>(
    alloc: Global,
    stream: &mut T,
    intake: &mut Intake,
    heads: &mut RequestHeads,
) -> Result<Head, ReadRefusal>
    ensures taken { IfOk result (TakesHead T.gave stream.old intake.old stream.new intake.new) }
    ensures refused { IfErr result (MissesHead T.gave T.ended stream.old intake.old stream.new) }
    ensures prompt { ButForFaults result (IsPrompt T.gave stream.old intake.old stream.new (λ seen. IsRefusedHead seen ReadRefusal.Truncated)) }
    ensures kept { T.faults stream.old ≤ T.faults stream.new }
    ensures heard { Hears T.gave stream.old stream.new }
    ensures fault { result ≡ Err ReadRefusal.Fault → Rose (T.faults stream.old) (T.faults stream.new) }
    ensures calm { result ≢ Err ReadRefusal.Fault → T.faults stream.new ≡ T.faults stream.old }
{
    let spans = match take_piece(stream, intake, heads) {
        Ok(spans) => spans,
        Err(halt) => return Err(head_refusal(halt)),
    };
    let headers = &heads.headers()[..spans.headers];
    let head = match head_at(alloc, intake.front(), headers, spans.method, spans.path) {
        Ok(head) => head,
        Err(refusal) => return Err(refusal),
    };
    intake.use_front(spans.len);
    Ok(head)
}
