ghost use Rattle.std.specs.Prelude.{◌≡◌, ◌≢◌, ◌≤◌, ◌<◌, List, ℕ, length, map, take, All, Some, None, option_map, IfOk, IfErr, IfSome, IsSome, Err};
ghost use Rattle.httparse.specs.Grammar.{NeverHasResponse};
ghost use Rattle.httparse.specs.Spans.{IsResponseOf, IsResponseWithin, IsHeaderWithin, header_bytes};
ghost use Rattle.uss_cause.specs.Cause.{Rose};
ghost use Rattle.uss_http_request.specs.Fields.{framing_of};
ghost use Rattle.uss_http_request.specs.Pieces.{MatchLook, piece_limit};
ghost use Rattle.uss_http_request.specs.Prompt.{IsPrompt, ButForFaults};
ghost use Rattle.uss_http_request.specs.Streams.{Hears};
ghost use Rattle.uss_http_response.specs.Heads.{IsOpenHead, IsRefusedHead, end_by};
ghost use Rattle.uss_http_response.specs.Answers.{IsHeadAt, TakesHead, MissesHead};

use httparse::spans::{HeaderSpan, ResponseSpans, parse_response};
use httparse::{Error, Status};
use std::alloc::{AllocError, Global};
use std::marker::Model;
use uss_http_request::{
    Framing, Intake, Look, Piece, ReadRefusal, Stream, body_framing, fields_may_end, head_refusal,
    make_all, places, take_piece,
};

/// Heads of responses, with the places of the fields of the last one that was found. There is memory for all places from
/// the start; those after the first are made only where a head has more fields.
#[derive(Drop)]
pub struct ResponseHeads {
    headers: Vec<HeaderSpan>,
}

impl Model for ResponseHeads {
    ghost use Rattle.std.specs.Prelude.{◌≤◌, List, vec_capacity};
    ghost use Rattle.httparse.specs.declared.spans.HeaderSpan.{HeaderSpan};

    ghost Value = { List HeaderSpan };

    ghost view = { λ h. h.headers.items };

    ghost invariant = { λ h. 5462 ≤ vec_capacity h.headers };
}

impl ResponseHeads {
    /// No head was found yet.
    pub fn new(alloc: Global) -> Result<ResponseHeads, AllocError> {
        let headers = places(alloc)?;
        Ok(ResponseHeads { headers })
    }

    /// The places of the fields.
    pub fn headers(&self) -> &[HeaderSpan]
        ensures { result.now ≡ self.now }
    {
        self.headers.as_slice()
    }
}

impl Piece for ResponseHeads {
    ghost use Rattle.httparse.specs.declared.spans.ResponseSpans.{ResponseSpans};

    type Found = ResponseSpans;

    ghost found = { λ heads bytes spans. IsResponseOf bytes heads spans × IsResponseWithin bytes heads spans };

    ghost unfinished = { λ bytes. IsOpenHead bytes };

    ghost never = { λ _ bytes. NeverHasResponse bytes };

    fn look(&mut self, bytes: &[u8]) -> Look<ResponseSpans> {
        if let Some(look) = look_for_head(bytes, self.headers.as_mut_slice()) {
            return look;
        }
        make_all(&mut self.headers);
        match look_for_head(bytes, self.headers.as_mut_slice()) {
            Some(look) => look,
            None => unreachable!(),
        }
    }

    fn may_end(&self, bytes: &[u8], from: usize) -> bool {
        fields_may_end(bytes, from)
    }
}

/// What the bytes show of a head at their start, or none where there are fewer places than it may have fields.
fn look_for_head(bytes: &[u8], headers: &mut [HeaderSpan]) -> Option<Look<ResponseSpans>>
    requires { length bytes.now ≤ piece_limit }
    ensures look { IfSome result (λ look. MatchLook look (λ spans. IsResponseOf bytes.now headers.new spans × IsResponseWithin bytes.now headers.new spans) (IsOpenHead bytes.now) (NeverHasResponse bytes.now)) }
    ensures room { length headers.old ≡ 5462 → IsSome result }
{
    match parse_response(bytes, headers) {
        Ok(Status::Complete(spans)) => Some(Look::Whole(spans)),
        Ok(Status::Partial) => Some(Look::NotYet),
        Err(Error::TooManyHeaders) => None,
        Err(_) => Some(Look::Never),
    }
}

/// Where the body of a response ends.
#[derive(Clone, Copy)]
pub enum BodyEnd {
    /// Where its framing says.
    Framed(Framing),
    /// With the stream.
    AtTheEnd,
}

/// The status of a response, and where its body ends.
#[derive(Clone, Copy)]
pub struct StatusHead {
    /// The status, as 200.
    pub status: u16,
    /// The end of the body.
    pub body: BodyEnd,
}

/// Where the body ends: as the fields say; where they say nothing, with the stream, but for a 204, which has none.
fn body_end(status: u16, framing: Framing) -> BodyEnd
    ensures { result ≡ end_by status framing }
{
    match framing {
        Framing::Nothing => {
            if status == 204 {
                BodyEnd::Framed(framing)
            } else {
                BodyEnd::AtTheEnd
            }
        }
        Framing::Length(_) | Framing::Chunked => BodyEnd::Framed(framing),
    }
}

/// The head with this status and these fields.
fn head_at(bytes: &[u8], headers: &[HeaderSpan], status: u16) -> Result<StatusHead, ReadRefusal>
    requires { All (IsHeaderWithin (length bytes.now)) headers.now }
    ensures { IsHeadAt status (map (header_bytes bytes.now) headers.now) result }
{
    match body_framing(bytes, headers) {
        Some(framing) => Ok(StatusHead {
            status,
            body: body_end(status, framing),
        }),
        None => Err(ReadRefusal::BadHead),
    }
}

/// Takes a head from the stream.
#[tactic(auto, using(uss_http_request::proofs::Passing::hears_then, uss_http_request::proofs::Passing::hears_same))]
pub fn take_status_head<K, T: Stream<K>>(
    stream: &mut T,
    intake: &mut Intake,
    heads: &mut ResponseHeads,
) -> Result<StatusHead, ReadRefusal>
    ensures taken { IfOk result (TakesHead T.gave stream.old intake.old stream.new intake.new) }
    ensures refused { IfErr result (MissesHead T.gave T.ended stream.old intake.old stream.new) }
    ensures prompt { ButForFaults result (IsPrompt T.gave stream.old intake.old stream.new (λ seen. IsRefusedHead seen ReadRefusal.Truncated)) }
    ensures kept { T.faults stream.old ≤ T.faults stream.new }
    ensures heard { Hears T.gave stream.old stream.new }
    ensures fault { result ≡ Err ReadRefusal.Fault → Rose (T.faults stream.old) (T.faults stream.new) }
    ensures calm { result ≢ Err ReadRefusal.Fault → T.faults stream.new ≡ T.faults stream.old }
{
    let spans = match take_piece(stream, intake, heads) {
        Ok(spans) => spans,
        Err(halt) => return Err(head_refusal(halt)),
    };
    let headers = &heads.headers()[..spans.headers];
    let head = match head_at(intake.front(), headers, spans.code) {
        Ok(head) => head,
        Err(refusal) => return Err(refusal),
    };
    intake.use_front(spans.len);
    Ok(head)
}
