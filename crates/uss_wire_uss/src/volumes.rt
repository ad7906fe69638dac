ghost use Rattle.std.specs.Prelude.{◌≡◌, []};
ghost use Rattle.serde_json.specs.View.{view};
ghost use Rattle.uss_wire_base.specs.Reading.{Gives, field, field_or};
ghost use Rattle.uss_wire_uss.specs.Intents.{volumes_at};

use serde_json::Value;
use std::alloc::Global;
use uss_intent::Volumes;
use uss_wire_base::{Member, WireRefusal, each, find, items, member_of};
use uss_wire_words::VolumeReader;

/// Volumes, however many.
fn volumes(alloc: Global, member: Member, value: &Value) -> Result<Volumes, WireRefusal>
    ensures { Gives result (volumes_at member (view value.now)) }
{
    let items = items(member, value)?;
    Ok(Volumes::from_vec(each(alloc, &VolumeReader, member, items)?))
}

/// The volumes of a member.
pub fn volumes_of(alloc: Global, member: Member, value: &Value) -> Result<Volumes, WireRefusal>
    ensures { Gives result (field member volumes_at (view value.now)) }
{
    volumes(alloc, member, member_of(member, value)?)
}

/// The volumes of a member, and none where it is absent.
pub fn volumes_or_none(alloc: Global, member: Member, value: &Value) -> Result<Volumes, WireRefusal>
    ensures { Gives result (field_or [] member volumes_at (view value.now)) }
{
    match find(member, value) {
        None => Ok(Volumes::new(alloc)),
        Some(found) => volumes(alloc, member, found),
    }
}
