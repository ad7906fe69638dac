//! The top call: what the program does with its words, its input and its output, over any source and sink.
//!
//! ```
//! let words = vec![in alloc; String::from_str(alloc, "conflict")?]?;
//! let mut input = MemorySource::new(alloc, Vec::new(alloc));
//! let mut output = MemorySink::new(alloc);
//! assert_eq!(rt; command(alloc, words.as_slice(), &mut input, &mut output), 0);
//! assert!(rt; output.taken() == b"clear\n".as_slice()); // two empty lists share nothing
//! ```
#![tactic(auto)]

ghost use Rattle.std.specs.Prelude.{◌≡◌, ◌≢◌, ℕ, ◌≤◌, ◌⊎◌, ◌↔◌, ◌++◌, List, [], map, Option, Some, None, string_bytes};
ghost use Rattle.uss_cause.specs.Cause.{Rose};
ghost use Rattle.uss_link.specs.Bytes.{TookFront};
ghost use Rattle.uss_app.specs.Words as named;
ghost use Rattle.uss_app.specs.Says.{Says, Wrote, Began};
ghost use Rattle.uss_app.specs.declared.commands.Command.{Command};

mod answer;
mod commands;
mod conflict;
mod discover;

use answer::{Answer, Stop, answer_to};
pub use commands::Command;
use commands::command_of;
use std::alloc::Global;
use uss_link::{Sink, Source, WriteFault, write_all};

/// A word of the command line is refused.
const USAGE: u8 = 2;

/// An outside object answered a fault.
const FAULT: u8 = 3;

/// The program was out of memory.
const MEMORY: u8 = 4;

/// Carries out the command that the words after the program's name give, over this input and output, and
/// answers the status of the program:
///
/// - 0: the input was read to its end, and the answer written whole;
/// - 1: the input was refused, and the line `refused N line L` written;
/// - 2: the words are no command; nothing is then read or written;
/// - 3: the count of faults of the input or of the output rose; what was written is a prefix of the answer;
/// - 4: the program was out of memory; nothing was written.
///
/// The words are one of these:
///
/// - `conflict`: the least pair of volumes of two lists that shares a point of airspace and time;
/// - `discover`: calls of a discovery service that begins empty, and its replies.
///
/// The input is judged whole before its first call is carried out and before anything is written.
pub fn command<S: Source, K: Sink>(
    alloc: Global,
    words: &[String],
    input: &mut S,
    output: &mut K,
) -> u8
    ensures status { result ≤ 4 }
    ensures usage { (result ≡ 2) ↔ (named.command_of (map string_bytes words.now) ≡ None) }
    ensures unread { result ≡ 2 → input.new ≡ input.old }
    ensures unwritten { result ≡ 2 → output.new ≡ output.old }
    ensures nothing_yet { result ≡ 4 → output.new ≡ output.old }

    // where the source tells what it has left, and the sink what it took
    ensures written { (c : Command) (left taken : List ℕ) → named.command_of (map string_bytes words.now) ≡ Some c → S.left input.old ≡ Some left → K.taken output.old ≡ Some taken → result ≤ 1 → Wrote c left taken (K.taken output.new) result }
    ensures read_whole { (left : List ℕ) → S.left input.old ≡ Some left → result ≡ 0 → S.left input.new ≡ Some [] }
    ensures begun { (c : Command) (left taken : List ℕ) → named.command_of (map string_bytes words.now) ≡ Some c → S.left input.old ≡ Some left → K.taken output.old ≡ Some taken → result ≡ 3 → Began c left taken (K.taken output.new) }

    // a fault has its cause
    ensures fault { result ≡ 3 → Rose (S.faults input.old) (S.faults input.new) ⊎ Rose (K.faults output.old) (K.faults output.new) }
    ensures source_kept { S.faults input.old ≤ S.faults input.new }
    ensures sink_kept { K.faults output.old ≤ K.faults output.new }
    ensures calm { result ≢ 3 → (S.faults input.new ≡ S.faults input.old) × (K.faults output.new ≡ K.faults output.old) }
{
    let Some(command) = command_of(words) else {
        return USAGE;
    };
    match answer_to(alloc, command, input) {
        Ok(answer) => told(&answer, output),
        Err(Stop::Fault) => FAULT,
        Err(Stop::Memory) => MEMORY,
    }
}

/// Writes the answer, and gives its status, or that of a fault.
fn told<K: Sink>(answer: &Answer, output: &mut K) -> u8
    requires { answer.now.status ≤ 1 }
    ensures status { (result ≡ answer.now.status) ⊎ (result ≡ 3) }
    ensures fault { result ≡ 3 → Rose (K.faults output.old) (K.faults output.new) }
    ensures kept { K.faults output.old ≤ K.faults output.new }
    ensures calm { result ≢ 3 → K.faults output.new ≡ K.faults output.old }
    ensures written { (taken : List ℕ) → K.taken output.old ≡ Some taken → result ≤ 1 → K.taken output.new ≡ Some (taken ++ string_bytes answer.now.text) }
    ensures front { (taken : List ℕ) → K.taken output.old ≡ Some taken → result ≡ 3 → TookFront taken (K.taken output.new) (string_bytes answer.now.text) }
{
    match write_all(output, answer.text.as_bytes()) {
        Ok(()) => answer.status,
        Err(WriteFault) => FAULT,
    }
}
