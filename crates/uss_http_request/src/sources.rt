ghost use Rattle.std.specs.Prelude.{◌≡◌, ◌≢◌, ℕ, ◌≤◌, List, Some, Err};
ghost use Rattle.uss_cause.specs.Cause.{Rose};
ghost use Rattle.uss_http_request.specs.Prompt.{ButForFaults};
ghost use Rattle.uss_http_request.specs.Requests.{IsAnswerOf, ReadsPromptly};
ghost use Rattle.uss_http_request.specs.Sources.{GaveFrom, HasEnded, gave_nothing};

use crate::refusal::ReadRefusal;
use crate::request::{Request, take_request};
use crate::stream::{Stream, StreamFault};
use std::alloc::Global;
use uss_link::{ReadFault, Source};

/// The bytes come from a source.
#[derive(Clone, Copy)]
pub struct FromSource;

impl<S: Source> Stream<FromSource> for S {
    ghost faults = { S.faults };

    ghost gave = { λ s t bytes. GaveFrom (S.left s) (S.left t) bytes };

    ghost ended = { λ s. HasEnded (S.left s) };

    fn next(&mut self, buffer: &mut [u8]) -> Result<usize, StreamFault> {
        match self.read(buffer) {
            Ok(count) => Ok(count),
            Err(ReadFault) => Err(StreamFault),
        }
    }

    ghost nothing = { λ s. gave_nothing (S.left s) };
}

/// Reads one request from a source. The answer is that of the bytes that the source has left, whatever pieces they come
/// in, if it tells them: the request at their start, or why there is none. Bytes are taken only while those before are no
/// whole message and may become one, and fewer than 24 KiB after them.
pub fn request_from<S: Source>(alloc: Global, input: &mut S) -> Result<Request, ReadRefusal>
    ensures exact { (bytes : List ℕ) → S.left input.old ≡ Some bytes → IsAnswerOf bytes result }
    ensures prompt { (bytes : List ℕ) → S.left input.old ≡ Some bytes → ButForFaults result (ReadsPromptly bytes (S.left input.new)) }
    ensures kept { S.faults input.old ≤ S.faults input.new }
    ensures fault { result ≡ Err ReadRefusal.Fault → Rose (S.faults input.old) (S.faults input.new) }
    ensures calm { result ≢ Err ReadRefusal.Fault → S.faults input.new ≡ S.faults input.old }
{
    take_request(alloc, input)
}
