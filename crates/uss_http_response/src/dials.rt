ghost use Rattle.std.specs.Prelude.{◌≡◌, ◌≢◌, ◌≤◌, Bool, IsTrue, List, Some, Err, OnOk};
ghost use Rattle.uss_cause.specs.Cause.{Rose};
ghost use Rattle.uss_http_request.specs.Prompt.{ButForFaults};
ghost use Rattle.uss_link.specs.Talks.{Talk, Stays};
ghost use Rattle.uss_http_response.specs.Dials.{IsReceived, ReceivesPromptly};

use crate::response::{Response, take_response};
use std::alloc::Global;
use uss_http_request::ReadRefusal;
use uss_link::Dial;

/// Reads one response over the open stream of a dial, of which nothing was received before. Where the dial tells what was
/// received, the answer is that of all the bytes up to the end of the stream, those received now and whatever would have
/// come after them: the response at their start, or why there is none. Whatever the answer, nothing but what was received
/// over the last stream changed, and it stays open. A response comes only where a stream was open. Bytes are taken only while
/// those before leave the answer open, and fewer than 24 KiB after them.
pub fn response_from<G: Dial>(alloc: Global, dial: &mut G) -> Result<Response, ReadRefusal>
    ensures exact { (talks : List Talk) → G.talks dial.old ≡ Some talks → IsReceived talks (G.talks dial.new) result }
    ensures prompt { (talks : List Talk) → G.talks dial.old ≡ Some talks → ButForFaults result (ReceivesPromptly talks (G.talks dial.new)) }
    ensures stream { Stays (G.is_open dial.old) (G.is_open dial.new) }
    ensures over { (was : Bool) → G.is_open dial.old ≡ Some was → OnOk result (IsTrue was) }
    ensures kept { G.faults dial.old ≤ G.faults dial.new }
    ensures fault { result ≡ Err ReadRefusal.Fault → Rose (G.faults dial.old) (G.faults dial.new) }
    ensures calm { result ≢ Err ReadRefusal.Fault → G.faults dial.new ≡ G.faults dial.old }
{
    take_response(alloc, dial)
}
