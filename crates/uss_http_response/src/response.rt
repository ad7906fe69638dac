ghost use Rattle.std.specs.Prelude.{◌≡◌, ◌≢◌, ◌≤◌, [], Err, IfOk, IfErr};
ghost use Rattle.uss_cause.specs.Cause.{Rose};
ghost use Rattle.uss_http_request.specs.Prompt.{IsPrompt, ButForFaults};
ghost use Rattle.uss_http_request.specs.Streams.{Hears};
ghost use Rattle.uss_http_response.specs.Responses.{IsOpen, IsOpenBodyAt};
ghost use Rattle.uss_http_response.specs.Answers.{ShowsAnswer, TakesBodyAt, MissesBodyAt};

use crate::heads::{BodyEnd, ResponseHeads, take_status_head};
use crate::rest::take_rest;
use std::alloc::{AllocError, Global};
use uss_http_request::{Bytes, Intake, ReadRefusal, Stream, take_body};

/// A response: its status and its body.
#[derive(Debug, Drop)]
pub struct Response {
    /// The status, as 200.
    pub status: u16,
    /// The body.
    pub body: Bytes,
}

/// Takes a body that ends so.
fn take_body_at<K, T: Stream<K>>(
    alloc: Global,
    stream: &mut T,
    intake: &mut Intake,
    end: BodyEnd,
) -> Result<Vec<u8>, ReadRefusal>
    ensures taken { IfOk result (λ body. TakesBodyAt T.gave T.ended stream.old intake.old stream.new end body.items) }
    ensures refused { IfErr result (MissesBodyAt T.gave T.ended stream.old intake.old stream.new end) }
    ensures prompt { ButForFaults result (IsPrompt T.gave stream.old intake.old stream.new (IsOpenBodyAt end)) }
    ensures kept { T.faults stream.old ≤ T.faults stream.new }
    ensures heard { Hears T.gave stream.old stream.new }
    ensures fault { result ≡ Err ReadRefusal.Fault → Rose (T.faults stream.old) (T.faults stream.new) }
    ensures calm { result ≢ Err ReadRefusal.Fault → T.faults stream.new ≡ T.faults stream.old }
{
    match end {
        BodyEnd::Framed(framing) => take_body(alloc, stream, intake, framing),
        BodyEnd::AtTheEnd => take_rest(alloc, stream, intake),
    }
}

/// Takes one response from a stream of which nothing was read before. Bytes after it may have been taken too: a
/// connection carries one response.
#[tactic(auto, using(uss_http_request::proofs::Passing::hears_then, uss_http_request::proofs::Passing::hears_same))]
pub fn take_response<K, T: Stream<K>>(
    alloc: Global,
    stream: &mut T,
) -> Result<Response, ReadRefusal>
    ensures answer { ShowsAnswer T.gave T.ended stream.old stream.new result }
    ensures prompt { ButForFaults result (IsPrompt T.gave stream.old [] stream.new IsOpen) }
    ensures kept { T.faults stream.old ≤ T.faults stream.new }
    ensures fault { result ≡ Err ReadRefusal.Fault → Rose (T.faults stream.old) (T.faults stream.new) }
    ensures calm { result ≢ Err ReadRefusal.Fault → T.faults stream.new ≡ T.faults stream.old }
{
    let mut intake = match Intake::new(alloc) {
        Ok(intake) => intake,
        Err(AllocError) => return Err(ReadRefusal::Memory),
    };
    let mut heads = match ResponseHeads::new(alloc) {
        Ok(heads) => heads,
        Err(AllocError) => return Err(ReadRefusal::Memory),
    };
    let head = match take_status_head(stream, &mut intake, &mut heads) {
        Ok(head) => head,
        Err(refusal) => return Err(refusal),
    };
    // a body in chunks takes such places anew, for its trailers
    drop(heads);
    let body = match take_body_at(alloc, stream, &mut intake, head.body) {
        Ok(body) => body,
        Err(refusal) => return Err(refusal),
    };
    Ok(Response {
        status: head.status,
        body: Bytes::from_vec(body),
    })
}
