ghost use Rattle.std.specs.Prelude.{◌≡◌, IfOk};
ghost use Rattle.serde_json.specs.View.{view};
ghost use Rattle.uss_wire_base.specs.Reading.{Gives, GivesBy, message_of};
ghost use Rattle.uss_wire_base.specs.Writing.{IsTextOf};
ghost use Rattle.uss_wire_uss.specs.Operator as spec;

use serde_json::{Value, json};
use std::alloc::{AllocError, Global};
use uss_wire_base::{Member, WireRefusal, data, message, natural_of, object};

#[tactic(auto, unfolding(crate::specs::Operator::cancels_at))]
fn cancels(place: Member, value: &Value) -> Result<(u64, u64), WireRefusal>
    ensures { Gives result (spec.cancels_at place (view value.now)) }
{
    object(place, value)?;
    let flight = natural_of(Member::Flight, value)?;
    let number = natural_of(Member::Number, value)?;
    Ok((flight, number))
}

/// The cancelling of a request: the numbers of its flight and of the request.
pub fn read_cancels(alloc: Global, bytes: &[u8]) -> Result<(u64, u64), WireRefusal>
    ensures { Gives result (message_of spec.cancels_at bytes.now) }
{
    let value = data(alloc, bytes)?;
    cancels(Member::Whole, &value)
}

#[tactic(auto, unfolding(crate::specs::Operator::sweeps_at))]
fn sweeps(place: Member, value: &Value) -> Result<usize, WireRefusal>
    ensures { Gives result (spec.sweeps_at place (view value.now)) }
{
    object(place, value)?;
    let skip = natural_of(Member::Skip, value)?;
    Ok(skip as usize)
}

/// How many of those owed a sweep leaves out.
pub fn read_sweeps(alloc: Global, bytes: &[u8]) -> Result<usize, WireRefusal>
    ensures { Gives result (message_of spec.sweeps_at bytes.now) }
{
    let value = data(alloc, bytes)?;
    sweeps(Member::Whole, &value)
}

#[tactic(auto, unfolding(crate::specs::Operator::cancels_json))]
fn cancels_value(alloc: Global, flight: u64, number: u64) -> Result<Value, AllocError>
    ensures { IfOk result (λ v. view v ≡ spec.cancels_json flight number) }
{
    json!(in alloc; {"flight": flight, "number": number})
}

/// The bytes of the cancelling of a request.
pub fn write_cancels(alloc: Global, flight: u64, number: u64) -> Result<Vec<u8>, AllocError>
    ensures { IfOk result (λ b. IsTextOf (spec.cancels_json flight number) b.items) }
{
    let value = cancels_value(alloc, flight, number)?;
    message(alloc, &value)
}

#[tactic(auto, unfolding(crate::specs::Operator::sweeps_json))]
fn sweeps_value(alloc: Global, skip: usize) -> Result<Value, AllocError>
    ensures { IfOk result (λ v. view v ≡ spec.sweeps_json skip) }
{
    json!(in alloc; {"skip": skip})
}

/// The bytes of how many of those owed a sweep leaves out.
pub fn write_sweeps(alloc: Global, skip: usize) -> Result<Vec<u8>, AllocError>
    ensures { IfOk result (λ b. IsTextOf (spec.sweeps_json skip) b.items) }
{
    let value = sweeps_value(alloc, skip)?;
    message(alloc, &value)
}
