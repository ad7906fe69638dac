ghost use Rattle.std.specs.Prelude.{◌≡◌, ◌≢◌, ℕ, [], ◌≤◌, length, Err, IfOk, IfErr, OnOk};
ghost use Rattle.uss_cause.specs.Cause.{Rose};
ghost use Rattle.uss_http_request.specs.Bodies.{IsRefusedBody, TakesBody, MissesBody};
ghost use Rattle.uss_http_request.specs.BodyAnswers.{TakesToLast};
ghost use Rattle.uss_http_request.specs.Chunks.{IsCutOff, StopsWhere};
ghost use Rattle.uss_http_request.specs.Prompt.{IsPrompt, ButForFaults};
ghost use Rattle.uss_http_request.specs.Streams.{Hears};

use crate::chunk::{BODY_LIMIT, Turn, piece_refusal, take_chunk};
use crate::data::take_data;
use crate::fields::Framing;
use crate::intake::Intake;
use crate::refusal::ReadRefusal;
use crate::stream::Stream;
use crate::trailers::{Trailers, take_trailers};
use std::alloc::{AllocError, Global};

/// Takes chunks up to and with the last line, and adds their bytes to the body.
#[tactic(auto, using(crate::proofs::Passing::hears_then, crate::proofs::Passing::hears_same, crate::proofs::Prompting::prompt_same))]
fn take_chunks<K, T: Stream<K>>(
    stream: &mut T,
    intake: &mut Intake,
    body: &mut Vec<u8>,
) -> Result<(), ReadRefusal>
    requires { body.old.items ≡ [] }
    ensures taken { OnOk result (TakesToLast T.gave stream.old intake.old stream.new intake.new body.new.items) }
    ensures refused { IfErr result (MissesBody T.gave T.ended stream.old intake.old stream.new Framing.Chunked) }
    ensures prompt { ButForFaults result (IsPrompt T.gave stream.old intake.old stream.new (StopsWhere IsCutOff)) }
    ensures kept { T.faults stream.old ≤ T.faults stream.new }
    ensures heard { Hears T.gave stream.old stream.new }
    ensures fault { result ≡ Err ReadRefusal.Fault → Rose (T.faults stream.old) (T.faults stream.new) }
    ensures calm { result ≢ Err ReadRefusal.Fault → T.faults stream.new ≡ T.faults stream.old }
{
    'chunks: loop {
        match take_chunk(stream, intake, body) {
            Ok(Turn::Chunk) => {}
            Ok(Turn::Last) => return Ok(()),
            Err(refusal) => return Err(refusal),
        }
    }
}

/// Takes a body in chunks, with its trailers.
#[tactic(auto, using(crate::proofs::Passing::hears_then, crate::proofs::Passing::hears_same))]
fn take_chunked<K, T: Stream<K>>(
    alloc: Global,
    stream: &mut T,
    intake: &mut Intake,
    body: &mut Vec<u8>,
) -> Result<(), ReadRefusal>
    requires { body.old.items ≡ [] }
    ensures taken { OnOk result (TakesBody T.gave stream.old intake.old stream.new Framing.Chunked body.new.items) }
    ensures refused { IfErr result (MissesBody T.gave T.ended stream.old intake.old stream.new Framing.Chunked) }
    ensures prompt { ButForFaults result (IsPrompt T.gave stream.old intake.old stream.new (StopsWhere IsCutOff)) }
    ensures kept { T.faults stream.old ≤ T.faults stream.new }
    ensures heard { Hears T.gave stream.old stream.new }
    ensures fault { result ≡ Err ReadRefusal.Fault → Rose (T.faults stream.old) (T.faults stream.new) }
    ensures calm { result ≢ Err ReadRefusal.Fault → T.faults stream.new ≡ T.faults stream.old }
{
    match take_chunks(stream, intake, body) {
        Ok(()) => {}
        Err(refusal) => return Err(refusal),
    }
    let mut trailers = match Trailers::new(alloc) {
        Ok(trailers) => trailers,
        Err(AllocError) => return Err(ReadRefusal::Memory),
    };
    match take_trailers(stream, intake, &mut trailers) {
        Ok(()) => Ok(()),
        Err(halt) => Err(piece_refusal(halt)),
    }
}

/// Takes a body by its length.
#[tactic(auto, using(crate::proofs::Passing::hears_then, crate::proofs::Passing::hears_same))]
fn take_sized<K, T: Stream<K>>(
    stream: &mut T,
    intake: &mut Intake,
    count: u32,
    body: &mut Vec<u8>,
) -> Result<(), ReadRefusal>
    requires { body.old.items ≡ [] }
    ensures taken { OnOk result (TakesBody T.gave stream.old intake.old stream.new (Framing.Length count) body.new.items) }
    ensures refused { IfErr result (MissesBody T.gave T.ended stream.old intake.old stream.new (Framing.Length count)) }
    ensures prompt { ButForFaults result (IsPrompt T.gave stream.old intake.old stream.new (λ seen. IsRefusedBody (Framing.Length count) seen ReadRefusal.Truncated)) }
    ensures kept { T.faults stream.old ≤ T.faults stream.new }
    ensures heard { Hears T.gave stream.old stream.new }
    ensures fault { result ≡ Err ReadRefusal.Fault → Rose (T.faults stream.old) (T.faults stream.new) }
    ensures calm { result ≢ Err ReadRefusal.Fault → T.faults stream.new ≡ T.faults stream.old }
{
    if count as usize > BODY_LIMIT {
        return Err(ReadRefusal::BodyTooLarge);
    }
    match take_data(stream, intake, count as usize, body) {
        Ok(()) => Ok(()),
        Err(halt) => Err(piece_refusal(halt)),
    }
}

/// Takes a body whose end is found so.
#[tactic(auto, using(crate::proofs::Passing::hears_then, crate::proofs::Passing::hears_same))]
pub fn take_body<K, T: Stream<K>>(
    alloc: Global,
    stream: &mut T,
    intake: &mut Intake,
    framing: Framing,
) -> Result<Vec<u8>, ReadRefusal>
    ensures taken { IfOk result (λ body. TakesBody T.gave stream.old intake.old stream.new framing body.items) }
    ensures refused { IfErr result (MissesBody T.gave T.ended stream.old intake.old stream.new framing) }
    ensures prompt { ButForFaults result (IsPrompt T.gave stream.old intake.old stream.new (λ seen. IsRefusedBody framing seen ReadRefusal.Truncated)) }
    ensures kept { T.faults stream.old ≤ T.faults stream.new }
    ensures heard { Hears T.gave stream.old stream.new }
    ensures fault { result ≡ Err ReadRefusal.Fault → Rose (T.faults stream.old) (T.faults stream.new) }
    ensures calm { result ≢ Err ReadRefusal.Fault → T.faults stream.new ≡ T.faults stream.old }
{
    let mut body = Vec::new(alloc);
    match framing {
        Framing::Nothing => Ok(body),
        Framing::Length(count) => match take_sized(stream, intake, count, &mut body) {
            Ok(()) => Ok(body),
            Err(refusal) => Err(refusal),
        },
        Framing::Chunked => match take_chunked(alloc, stream, intake, &mut body) {
            Ok(()) => Ok(body),
            Err(refusal) => Err(refusal),
        },
    }
}
