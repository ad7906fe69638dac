ghost use Rattle.std.specs.Prelude.{◌≡◌, ◌≢◌, ℕ, ◌≤◌, Bool, IsTrue, List, Some, Err, OnOk};
ghost use Rattle.uss_cause.specs.Cause.{Rose};
ghost use Rattle.uss_http.specs.Refusals.{IsReadFrom, ButForFaults};
ghost use Rattle.uss_http.specs.Responses.{IsReadOver};
ghost use Rattle.uss_http_request.specs.Requests.{ReadsPromptly};
ghost use Rattle.uss_http_response.specs.Dials.{ReceivesPromptly};
ghost use Rattle.uss_link.specs.Talks.{Talk, Stays};

use crate::refusal::{HttpRefusal, of_dial, of_source};
use std::alloc::Global;
use uss_http_request::{Request, request_from};
use uss_http_response::{Response, response_from};
use uss_link::{Dial, Source};

/// Reads one request. Where the source tells the bytes that it has left, the answer is theirs, whatever pieces they come
/// in: the request at their start, or why there is none. A request that isn't complete is refused. Bytes after the
/// request may have been taken too: a connection carries one request. But bytes are taken only while those before are no
/// whole request and may become one, and fewer than 24 KiB after them.
pub fn read_request<S: Source>(alloc: Global, input: &mut S) -> Result<Request, HttpRefusal>
    ensures exact { (bytes : List ℕ) → S.left input.old ≡ Some bytes → IsReadFrom bytes result }
    ensures prompt { (bytes : List ℕ) → S.left input.old ≡ Some bytes → ButForFaults result (ReadsPromptly bytes (S.left input.new)) }
    ensures kept { S.faults input.old ≤ S.faults input.new }
    ensures fault { result ≡ Err HttpRefusal.ReadFault → Rose (S.faults input.old) (S.faults input.new) }
    ensures calm { result ≢ Err HttpRefusal.ReadFault → S.faults input.new ≡ S.faults input.old }
{
    match request_from(alloc, input) {
        Ok(request) => Ok(request),
        Err(refusal) => Err(of_source(refusal)),
    }
}

/// Reads one response over the open stream of a dial, of which nothing was received before. Where the dial tells what was
/// received, the answer is that of all the bytes up to the end of the stream, whatever pieces they come in: the response at
/// their start, or why there is none. A response that isn't complete is refused. Bytes after it may have been received too: a
/// connection carries one response. But bytes are taken only while those before leave the answer open, and fewer than 24 KiB
/// after them. Whatever the answer, what was sent stays as it was, and the stream stays open. A response comes only where one was
/// open.
pub fn read_response<G: Dial>(alloc: Global, dial: &mut G) -> Result<Response, HttpRefusal>
    ensures exact { (talks : List Talk) → G.talks dial.old ≡ Some talks → IsReadOver talks (G.talks dial.new) result }
    ensures prompt { (talks : List Talk) → G.talks dial.old ≡ Some talks → ButForFaults result (ReceivesPromptly talks (G.talks dial.new)) }
    ensures stream { Stays (G.is_open dial.old) (G.is_open dial.new) }
    ensures over { (was : Bool) → G.is_open dial.old ≡ Some was → OnOk result (IsTrue was) }
    ensures kept { G.faults dial.old ≤ G.faults dial.new }
    ensures fault { result ≡ Err HttpRefusal.DialFault → Rose (G.faults dial.old) (G.faults dial.new) }
    ensures calm { result ≢ Err HttpRefusal.DialFault → G.faults dial.new ≡ G.faults dial.old }
{
    match response_from(alloc, dial) {
        Ok(response) => Ok(response),
        Err(refusal) => Err(of_dial(refusal)),
    }
}
