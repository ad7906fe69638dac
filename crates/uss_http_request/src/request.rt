ghost use Rattle.std.specs.Prelude.{◌≡◌, ◌≢◌, ℕ, ◌≤◌, List, [], Some, Err, IsErrOf};
ghost use Rattle.uss_cause.specs.Cause.{Rose};
ghost use Rattle.uss_http_request.specs.Requests.{AnswersStream, IsAnswerOf, IsRefused};
ghost use Rattle.uss_http_request.specs.Prompt.{IsPrompt, ButForFaults};
ghost use Rattle.uss_http_request.specs.Streams.{Hears};

use crate::body::take_body;
use crate::heads::{Bytes, RequestHeads, take_head};
use crate::intake::Intake;
use crate::refusal::ReadRefusal;
use crate::stream::Stream;
use std::alloc::{AllocError, Global};
use uss_intent::Name;

/// A request: its method and path as they stand, the name of the client, and the body.
#[derive(Debug, Drop)]
pub struct Request {
    /// The method, as `GET`.
    pub method: Bytes,
    /// The target, as it stands.
    pub path: Bytes,
    /// The name of the client, of the field `USS-Client`.
    pub client: Name,
    /// The body, at most 8 MiB.
    pub body: Bytes,
}

/// Takes one request from a stream of which nothing was read before. Bytes after it may have been taken too: a
/// connection carries one request.
#[tactic(auto, using(crate::proofs::Passing::hears_then, crate::proofs::Passing::hears_same))]
pub fn take_request<K, T: Stream<K>>(alloc: Global, stream: &mut T) -> Result<Request, ReadRefusal>
    ensures answer { AnswersStream T.gave T.ended stream.old stream.new result }
    ensures prompt { ButForFaults result (IsPrompt T.gave stream.old [] stream.new (λ seen. IsRefused seen ReadRefusal.Truncated)) }
    ensures kept { T.faults stream.old ≤ T.faults stream.new }
    ensures heard { Hears T.gave stream.old stream.new }
    ensures fault { result ≡ Err ReadRefusal.Fault → Rose (T.faults stream.old) (T.faults stream.new) }
    ensures calm { result ≢ Err ReadRefusal.Fault → T.faults stream.new ≡ T.faults stream.old }
{
    let mut intake = match Intake::new(alloc) {
        Ok(intake) => intake,
        Err(AllocError) => return Err(ReadRefusal::Memory),
    };
    let mut heads = match RequestHeads::new(alloc) {
        Ok(heads) => heads,
        Err(AllocError) => return Err(ReadRefusal::Memory),
    };
    let head = match take_head(alloc, stream, &mut intake, &mut heads) {
        Ok(head) => head,
        Err(refusal) => return Err(refusal),
    };
    // a body in chunks takes such places anew, for its trailers
    drop(heads);
    let body = match take_body(alloc, stream, &mut intake, head.framing) {
        Ok(body) => body,
        Err(refusal) => return Err(refusal),
    };
    Ok(Request {
        method: head.method,
        path: head.path,
        client: head.client,
        body: Bytes::from_vec(body),
    })
}
