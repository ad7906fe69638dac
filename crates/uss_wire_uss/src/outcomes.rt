ghost use Rattle.std.specs.Prelude.{◌≡◌, ◌≢◌, IfOk};
ghost use Rattle.serde_json.specs.View.{view};
ghost use Rattle.uss_outcome.specs.declared.outcome.Outcome.TheVariants as Outcome;
ghost use Rattle.uss_wire_base.specs.Writing.{IsTextOf};
ghost use Rattle.uss_wire_uss.specs.Outcomes as spec;

use serde_json::{Value, json};
use std::alloc::{AllocError, Global};
use uss_outcome::Outcome;
use uss_wire_base::message;

#[tactic(auto, unfolding(crate::specs::Outcomes::outcome_json))]
fn outcome_value(alloc: Global, outcome: &Outcome) -> Result<Value, AllocError>
    ensures { IfOk result (λ v. view v ≡ spec.outcome_json outcome.now) }
{
    let text = format!(in alloc; "{outcome}")?;
    json!(in alloc; {"outcome": text})
}

/// The bytes of what came of a request. That memory ran out is said by the caller, and not by such a message.
pub fn write_outcome(alloc: Global, outcome: &Outcome) -> Result<Vec<u8>, AllocError>
    requires { outcome.now ≢ Outcome.Memory }
    ensures { IfOk result (λ b. IsTextOf (spec.outcome_json outcome.now) b.items) }
{
    let value = outcome_value(alloc, outcome)?;
    message(alloc, &value)
}

#[tactic(auto, unfolding(crate::specs::Outcomes::swept_json))]
fn swept(alloc: Global, tried: usize, failed: usize) -> Result<Value, AllocError>
    ensures { IfOk result (λ v. view v ≡ spec.swept_json tried failed) }
{
    json!(in alloc; {"failed": failed, "tried": tried})
}

/// The bytes of what came of a sweep: how many calls were made, and how many of those failed.
pub fn write_swept(alloc: Global, tried: usize, failed: usize) -> Result<Vec<u8>, AllocError>
    ensures { IfOk result (λ b. IsTextOf (spec.swept_json tried failed) b.items) }
{
    let value = swept(alloc, tried, failed)?;
    message(alloc, &value)
}
