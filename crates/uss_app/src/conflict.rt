ghost use Rattle.std.specs.Prelude.{◌≡◌, ◌++◌, ◌≤◌, codes, string_bytes, IfOk, IfErr};
ghost use Rattle.std.specs.Fmt.{decimal};
ghost use Rattle.uss_text.specs.Conflict.{lists};
ghost use Rattle.uss_app.specs.declared.commands.Command.{Command};
ghost use Rattle.uss_app.specs.Conflict.{Compared};
ghost use Rattle.uss_app.specs.Says.{Says};

use crate::answer::{Answer, Stop, refused};
use std::alloc::{AllocError, Global};
use uss_text::{ConflictScript, ScriptRefusal, read_conflict};
use uss_vol4::Volume4;

/// What `uss conflict` writes of its input.
pub fn judged(alloc: Global, input: &[u8]) -> Result<Answer, Stop>
    ensures memory { IfErr result (λ e. e ≡ Stop.Memory) }
    ensures status { IfOk result (λ a. a.status ≤ 1) }
    ensures says { IfOk result (λ a. Says Command.Conflict input.now a.status (string_bytes a.text)) }
{
    match read_conflict(alloc, input) {
        Ok(script) => Ok(Answer {
            status: 0,
            text: compared(alloc, &script)?,
        }),
        Err(ScriptRefusal::Memory) => Err(Stop::Memory),
        Err(refusal) => refused(alloc, refusal),
    }
}

/// The least pair of indices whose volumes share, or that there is none.
fn compared(alloc: Global, script: &ConflictScript) -> Result<String, AllocError>
    ensures { IfOk result (λ text. Compared (lists script.now.a script.now.b) (string_bytes text)) }
{
    match Volume4::any_shared(script.a.as_slice(), script.b.as_slice()) {
        Some((i, j)) => shares(alloc, i, j),
        None => String::from_str(alloc, "clear\n"),
    }
}

/// The line of a pair of indices.
fn shares(alloc: Global, i: usize, j: usize) -> Result<String, AllocError>
    ensures { IfOk result (λ text. string_bytes text ≡ codes "shares " ++ (decimal i ++ (codes " " ++ (decimal j ++ codes "\n")))) }
{
    format!(in alloc; "shares {i} {j}\n")
}
