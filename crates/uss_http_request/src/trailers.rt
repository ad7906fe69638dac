ghost use Rattle.std.specs.Prelude.{◌≡◌, ◌≢◌, ℕ, ◌<◌, ◌≤◌, List, length, drop, Err, IfErr, IfSome, IsSome, OnOk};
ghost use Rattle.httparse.specs.Grammar.{LineEnd, Field, print_section, ReadsSection, NeverHasSection};
ghost use Rattle.uss_cause.specs.Cause.{Rose};
ghost use Rattle.uss_http_request.specs.BodyAnswers.{TakesTrailers, MissesTrailers};
ghost use Rattle.uss_http_request.specs.Chunks.{AreOpenTrailers};
ghost use Rattle.uss_http_request.specs.Pieces.{MatchLook, piece_limit};
ghost use Rattle.uss_http_request.specs.Prompt.{IsPrompt};
ghost use Rattle.uss_http_request.specs.Streams.{Hears, UnlessOutside};

use crate::halt::Halt;
use crate::heads::{make_all, places};
use crate::intake::Intake;
use crate::line_ends::fields_may_end;
use crate::piece::{Look, Piece, take_piece};
use crate::stream::Stream;
use httparse::spans::{HeaderSpan, parse_headers};
use httparse::{Error, Status};
use std::alloc::{AllocError, Global};
use std::marker::Model;

/// The fields after the last chunk of a body, which are dropped.
#[derive(Drop)]
pub struct Trailers {
    headers: Vec<HeaderSpan>,
}

impl Model for Trailers {
    ghost use Rattle.std.specs.Prelude.{◌≤◌, List, vec_capacity};
    ghost use Rattle.httparse.specs.declared.spans.HeaderSpan.{HeaderSpan};

    ghost Value = { List HeaderSpan };

    ghost view = { λ t. t.headers.items };

    ghost invariant = { λ t. 5462 ≤ vec_capacity t.headers };
}

impl Trailers {
    /// No trailers were found yet.
    pub fn new(alloc: Global) -> Result<Trailers, AllocError> {
        let headers = places(alloc)?;
        Ok(Trailers { headers })
    }
}

impl Piece for Trailers {
    /// The length of the trailers, with the empty line after them.
    type Found = usize;

    ghost found = { λ _ bytes len. (fields : List Field) × (end : LineEnd) × ReadsSection bytes fields end (drop len bytes) };

    ghost unfinished = { λ bytes. AreOpenTrailers bytes };

    ghost never = { λ _ bytes. NeverHasSection bytes };

    fn look(&mut self, bytes: &[u8]) -> Look<usize> {
        if let Some(look) = look_for_trailers(bytes, self.headers.as_mut_slice()) {
            return look;
        }
        make_all(&mut self.headers);
        match look_for_trailers(bytes, self.headers.as_mut_slice()) {
            Some(look) => look,
            None => unreachable!(),
        }
    }

    fn may_end(&self, bytes: &[u8], from: usize) -> bool {
        fields_may_end(bytes, from)
    }
}

/// What the bytes show of trailers at their start, or none where there are fewer places than they may have fields.
fn look_for_trailers(bytes: &[u8], headers: &mut [HeaderSpan]) -> Option<Look<usize>>
    requires { length bytes.now ≤ piece_limit }
    ensures look { IfSome result (λ look. MatchLook look (λ len. (fields : List Field) × (end : LineEnd) × ReadsSection bytes.now fields end (drop len bytes.now)) (AreOpenTrailers bytes.now) (NeverHasSection bytes.now)) }
    ensures room { length headers.old ≡ 5462 → IsSome result }
{
    match parse_headers(bytes, headers) {
        Ok(Status::Complete((len, _))) => Some(Look::Whole(len)),
        Ok(Status::Partial) => Some(Look::NotYet),
        Err(Error::TooManyHeaders) => None,
        Err(_) => Some(Look::Never),
    }
}

/// Takes bytes until the trailers are whole.
#[tactic(auto, using(crate::proofs::Passing::hears_then, crate::proofs::Passing::hears_same))]
pub fn take_trailers<K, T: Stream<K>>(
    stream: &mut T,
    intake: &mut Intake,
    trailers: &mut Trailers,
) -> Result<(), Halt>
    ensures taken { OnOk result (TakesTrailers T.gave stream.old intake.old stream.new) }
    ensures refused { IfErr result (MissesTrailers T.gave T.ended stream.old intake.old stream.new) }
    ensures prompt { UnlessOutside result (IsPrompt T.gave stream.old intake.old stream.new (λ seen. (length seen < piece_limit) × AreOpenTrailers seen)) }
    ensures kept { T.faults stream.old ≤ T.faults stream.new }
    ensures heard { Hears T.gave stream.old stream.new }
    ensures fault { result ≡ Err Halt.Fault → Rose (T.faults stream.old) (T.faults stream.new) }
    ensures calm { result ≢ Err Halt.Fault → T.faults stream.new ≡ T.faults stream.old }
{
    match take_piece(stream, intake, trailers) {
        Ok(_) => Ok(()),
        Err(halt) => Err(halt),
    }
}
