ghost use Rattle.std.specs.Prelude.{◌≡◌, ◌≢◌, ◌++◌, ◌≤◌, ℕ, List, [], Option, Some, Err, codes, string_bytes, IfOk, IfErr, IsErrOf};
ghost use Rattle.uss_cause.specs.Cause.{Rose};
ghost use Rattle.uss_text.specs.Refusals.{refusal_text};
ghost use Rattle.uss_app.specs.Says.{Says};

use crate::commands::Command;
use crate::{conflict, discover};
use std::alloc::{AllocError, Global};
use uss_link::{ReadWholeRefusal, Source, read_whole};
use uss_text::{MOST_BYTES, ScriptRefusal};

/// What is to be written, and the status of the program once it was.
#[derive(Drop)]
pub struct Answer {
    pub status: u8,
    pub text: String,
}

/// Why there is no answer.
#[derive(Clone, Copy)]
pub enum Stop {
    /// A read answered a fault.
    Fault,
    /// The program was out of memory.
    Memory,
}

impl From<AllocError> for Stop {
    ghost use Rattle.std.specs.Prelude.{◌≡◌};
    ghost use Rattle.uss_app.specs.declared.answer.Stop.TheVariants.{Memory};

    ghost from_gives = { λ _ e. e ≡ Memory };

    fn from(_: AllocError) -> Stop {
        Stop::Memory
    }
}

/// Reads the input to its end and says what is to be written of it.
pub fn answer_to<S: Source>(alloc: Global, command: Command, input: &mut S) -> Result<Answer, Stop>
    ensures kept { S.faults input.old ≤ S.faults input.new }
    ensures fault { IsErrOf result Stop.Fault → Rose (S.faults input.old) (S.faults input.new) }
    ensures calm { result ≢ Err Stop.Fault → S.faults input.new ≡ S.faults input.old }
    ensures status { IfOk result (λ a. a.status ≤ 1) }
    ensures ended { (left : List ℕ) → S.left input.old ≡ Some left → IfOk result (λ a. a.status ≡ 0 → S.left input.new ≡ Some []) }
    ensures says { (left : List ℕ) → S.left input.old ≡ Some left → IfOk result (λ a. Says command left a.status (string_bytes a.text)) }
{
    match read_whole(alloc, input, MOST_BYTES) {
        Ok(text) => judged(alloc, command, text.as_slice()),
        Err(ReadWholeRefusal::TooLarge) => refused(alloc, ScriptRefusal::TextTooLarge),
        Err(ReadWholeRefusal::Fault) => Err(Stop::Fault),
        Err(ReadWholeRefusal::Memory) => Err(Stop::Memory),
    }
}

/// What is to be written of the input.
fn judged(alloc: Global, command: Command, input: &[u8]) -> Result<Answer, Stop>
    ensures memory { IfErr result (λ e. e ≡ Stop.Memory) }
    ensures status { IfOk result (λ a. a.status ≤ 1) }
    ensures says { IfOk result (λ a. Says command input.now a.status (string_bytes a.text)) }
{
    match command {
        Command::Conflict => conflict::judged(alloc, input),
        Command::Discover => discover::judged(alloc, input),
    }
}

/// The line of a refusal.
pub fn refused(alloc: Global, refusal: ScriptRefusal) -> Result<Answer, Stop>
    ensures memory { IfErr result (λ e. e ≡ Stop.Memory) }
    ensures status { IfOk result (λ a. a.status ≡ 1) }
    ensures text { IfOk result (λ a. string_bytes a.text ≡ refusal_text refusal ++ codes "\n") }
{
    Ok(Answer {
        status: 1,
        text: format!(in alloc; "{refusal}\n")?,
    })
}
