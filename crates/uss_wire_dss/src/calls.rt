ghost use Rattle.std.specs.Prelude.{◌≡◌, []};
ghost use Rattle.serde_json.specs.View.{view};
ghost use Rattle.uss_intent.specs.Limits.{most_ovns};
ghost use Rattle.uss_wire_base.specs.Reading.{Gives, GivesBy, field, list_at, message_of, field_or, few_at};
ghost use Rattle.uss_wire_words.specs.Texts.{ovn_at};
ghost use Rattle.uss_wire_words.specs.Volumes.{volume_at};
ghost use Rattle.uss_wire_dss.specs.Calls as spec;

use serde_json::Value;
use std::alloc::Global;
use uss_intent::{DssAsk, FlightId, MOST_OVNS, Ovn, Ovns, TicketId, Volumes};
use uss_vol4::Volume4;
use uss_wire_base::{
    Member, WireRefusal, data, each, few_items, find, items, member_of, object, without,
    without_true,
};
use uss_wire_words::{OvnReader, VolumeReader, base_of, state_of, ticket_of, volume};

/// The volume of a member.
fn volume_of(alloc: Global, member: Member, value: &Value) -> Result<Volume4, WireRefusal>
    ensures { Gives result (field member volume_at (view value.now)) }
{
    volume(alloc, member, member_of(member, value)?)
}

/// The volumes of a member.
fn volumes_of(alloc: Global, member: Member, value: &Value) -> Result<Volumes, WireRefusal>
    ensures { Gives result (field member (list_at volume_at) (view value.now)) }
{
    let items = items(member, member_of(member, value)?)?;
    Ok(Volumes::from_vec(each(alloc, &VolumeReader, member, items)?))
}

/// OVNs: at most `MOST_OVNS`.
fn few_ovns(alloc: Global, member: Member, value: &Value) -> Result<Ovns, WireRefusal>
    ensures { Gives result (few_at most_ovns ovn_at member (view value.now)) }
{
    let items = few_items(MOST_OVNS, member, value)?;
    Ok(Ovns::from_vec(each(alloc, &OvnReader, member, items)?))
}

/// The OVNs of a member, and none where it is absent.
fn key_of(alloc: Global, member: Member, value: &Value) -> Result<Ovns, WireRefusal>
    ensures { Gives result (field_or [] member (few_at most_ovns ovn_at) (view value.now)) }
{
    match find(member, value) {
        None => Ok(Ovns::new(alloc)),
        Some(found) => few_ovns(alloc, member, found),
    }
}

#[tactic(auto, unfolding(crate::specs::Calls::query_at))]
fn query(alloc: Global, place: Member, value: &Value) -> Result<DssAsk, WireRefusal>
    ensures { Gives result (spec.query_at place (view value.now)) }
{
    object(place, value)?;
    let area = volume_of(alloc, Member::AreaOfInterest, value)?;
    Ok(DssAsk::Query { area })
}

/// A query of the discovery service.
pub fn read_query(alloc: Global, bytes: &[u8]) -> Result<DssAsk, WireRefusal>
    ensures { Gives result (message_of spec.query_at bytes.now) }
{
    let value = data(alloc, bytes)?;
    query(alloc, Member::Whole, &value)
}

#[tactic(auto, unfolding(crate::specs::Calls::put_reference_at))]
fn put_reference(
    alloc: Global,
    flight: FlightId,
    ovn: Option<Ovn>,
    place: Member,
    value: &Value,
) -> Result<DssAsk, WireRefusal>
    ensures { Gives result (spec.put_reference_at flight ovn place (view value.now)) }
{
    object(place, value)?;
    without(Member::NewSubscription, value)?;
    let extents = volumes_of(alloc, Member::Extents, value)?;
    let key = key_of(alloc, Member::Key, value)?;
    let state = state_of(Member::State, value)?;
    let base = base_of(alloc, Member::UssBaseUrl, value)?;
    let ticket = ticket_of(Member::SubscriptionId, value)?;
    Ok(DssAsk::Put {
        flight,
        ovn,
        extents,
        key,
        state,
        base,
        ticket,
    })
}

/// The creation of a reference, where there is no OVN, or its change. The flight and the OVN stand in the path of the call.
pub fn read_put_reference(
    alloc: Global,
    bytes: &[u8],
    flight: FlightId,
    ovn: Option<Ovn>,
) -> Result<DssAsk, WireRefusal>
    ensures { Gives result (message_of (spec.put_reference_at flight ovn) bytes.now) }
{
    let value = data(alloc, bytes)?;
    put_reference(alloc, flight, ovn, Member::Whole, &value)
}

#[tactic(auto, unfolding(crate::specs::Calls::put_subscription_at))]
fn put_subscription(
    alloc: Global,
    ticket: TicketId,
    place: Member,
    value: &Value,
) -> Result<DssAsk, WireRefusal>
    ensures { Gives result (spec.put_subscription_at ticket place (view value.now)) }
{
    object(place, value)?;
    without_true(Member::NotifyForConstraints, value)?;
    let area = volume_of(alloc, Member::Extents, value)?;
    let base = base_of(alloc, Member::UssBaseUrl, value)?;
    Ok(DssAsk::TicketPut { ticket, area, base })
}

/// The making of a ticket, whose identifier stands in the path of the call.
pub fn read_put_subscription(
    alloc: Global,
    bytes: &[u8],
    ticket: TicketId,
) -> Result<DssAsk, WireRefusal>
    ensures { Gives result (message_of (spec.put_subscription_at ticket) bytes.now) }
{
    let value = data(alloc, bytes)?;
    put_subscription(alloc, ticket, Member::Whole, &value)
}
