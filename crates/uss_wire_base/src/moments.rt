ghost use Rattle.std.specs.Prelude.{◌≡◌, IfOk};
ghost use Rattle.serde_json.specs.View.{view};
ghost use Rattle.uss_wire_base.specs.Moments as spec;
ghost use Rattle.uss_wire_base.specs.Reading.{Gives};

use crate::instants::{InstantRefusal, read_instant, write_instant};
use crate::reading::text;
use crate::refusal::{Member, WireRefusal};
use serde_json::Value;
use std::alloc::{AllocError, Global};
use std::str;

fn refusal_at(member: Member, refusal: InstantRefusal) -> WireRefusal
    ensures { result ≡ spec.refusal_at member refusal }
{
    match refusal {
        InstantRefusal::BadTime => WireRefusal::BadTime(member),
        InstantRefusal::TimeRange => WireRefusal::TimeRange,
        InstantRefusal::Memory => WireRefusal::Memory,
    }
}

/// An instant, in ns since 1970-01-01T00:00:00Z.
pub fn instant(member: Member, value: &Value) -> Result<i64, WireRefusal>
    ensures { Gives result (spec.instant_at member (view value.now)) }
{
    let text = text(member, value)?;
    match read_instant(text.as_bytes()) {
        Ok(moment) => Ok(moment),
        Err(refusal) => Err(refusal_at(member, refusal)),
    }
}

/// The text of a moment in ns since 1970-01-01T00:00:00Z, as a value of a message.
pub fn instant_value(alloc: Global, moment: i64) -> Result<Value, AllocError>
    ensures { IfOk result (λ v. view v ≡ spec.instant_json moment) }
{
    let bytes = write_instant(alloc, moment)?;
    match str::from_utf8(bytes.as_slice()) {
        Ok(text) => Value::try_from_str(alloc, text),
        Err(_) => unreachable!(),
    }
}
