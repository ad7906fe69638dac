ghost use Rattle.std.specs.Prelude.{◌≡◌, ◌^◌};
ghost use Rattle.serde_json.specs.View.{view};
ghost use Rattle.uss_wire_base.specs.Reading.{Gives, GivesBy, field, natural_below};
ghost use Rattle.uss_wire_words.specs.References as spec;

use crate::texts::{base_of, flight_of, name_of, optional_ovn, ovn_of, state_of, ticket_of};
use crate::volumes::time_of;
use serde_json::Value;
use std::alloc::Global;
use uss_intent::{
    Base, FlightId, MOST_REFERENCES, Name, Ovn, Reference, References, State, TicketId,
};
use uss_wire_base::{
    Member, ReadItem, WireRefusal, each, few_items, find, member_of, natural_32, object, text,
};

/// A version.
fn version_of(member: Member, value: &Value) -> Result<u32, WireRefusal>
    ensures { Gives result (field member (natural_below (2 ^ 32)) (view value.now)) }
{
    natural_32(member, member_of(member, value)?)
}

/// The members of a reference before its OVN.
#[derive(Drop)]
struct Front {
    flight: FlightId,
    manager: Name,
    version: u32,
    state: State,
}

/// The members of a reference after its OVN.
#[derive(Drop)]
struct Back {
    start: i64,
    end: i64,
    base: Base,
    ticket: TicketId,
}

#[tactic(auto, unfolding(crate::specs::References::front_at))]
fn front_of(alloc: Global, place: Member, value: &Value) -> Result<Front, WireRefusal>
    ensures { Gives result (spec.front_at place (view value.now)) }
{
    object(place, value)?;
    let flight = flight_of(Member::Id, value)?;
    let manager = name_of(alloc, Member::Manager, value)?;
    let version = version_of(Member::Version, value)?;
    let state = state_of(Member::State, value)?;
    Ok(Front {
        flight,
        manager,
        version,
        state,
    })
}

#[tactic(auto, unfolding(crate::specs::References::back_at))]
fn back_of(alloc: Global, value: &Value) -> Result<Back, WireRefusal>
    ensures { Gives result (spec.back_at (view value.now)) }
{
    let start = time_of(Member::TimeStart, value)?;
    let end = time_of(Member::TimeEnd, value)?;
    let base = base_of(alloc, Member::UssBaseUrl, value)?;
    let ticket = ticket_of(Member::SubscriptionId, value)?;
    Ok(Back {
        start,
        end,
        base,
        ticket,
    })
}

fn joined(front: Front, ovn: Option<Ovn>, back: Back) -> Reference
    ensures { result ≡ spec.joined front ovn back }
{
    Reference {
        flight: front.flight,
        manager: front.manager,
        version: front.version,
        state: front.state,
        ovn,
        start: back.start,
        end: back.end,
        base: back.base,
        ticket: back.ticket,
    }
}

/// The OVN of a reference in an answer to this client, of which another client's is dropped.
fn ovn_for(
    alloc: Global,
    client: &Name,
    manager: &Name,
    value: &Value,
) -> Result<Option<Ovn>, WireRefusal>
    ensures { Gives result (spec.ovn_for client.now manager.now (view value.now)) }
{
    if manager == client {
        return optional_ovn(alloc, Member::Ovn, value);
    }
    match find(Member::Ovn, value) {
        None => Ok(None),
        Some(found) => match text(Member::Ovn, found) {
            Ok(_) => Ok(None),
            Err(refusal) => Err(refusal),
        },
    }
}

/// A reference in an answer of the discovery service to this client: the OVN of another client's reference is dropped.
#[tactic(auto, unfolding(crate::specs::References::answered_reference_at))]
pub fn answered_reference(
    alloc: Global,
    client: &Name,
    place: Member,
    value: &Value,
) -> Result<Reference, WireRefusal>
    ensures { Gives result (spec.answered_reference_at client.now place (view value.now)) }
{
    let front = front_of(alloc, place, value)?;
    let ovn = ovn_for(alloc, client, &front.manager, value)?;
    let back = back_of(alloc, value)?;
    Ok(joined(front, ovn, back))
}

/// The reference of an intent, which shows its OVN.
#[tactic(auto, unfolding(crate::specs::References::intent_reference_at))]
pub fn intent_reference(
    alloc: Global,
    place: Member,
    value: &Value,
) -> Result<Reference, WireRefusal>
    ensures { Gives result (spec.intent_reference_at place (view value.now)) }
{
    let front = front_of(alloc, place, value)?;
    let ovn = ovn_of(alloc, Member::Ovn, value)?;
    let back = back_of(alloc, value)?;
    Ok(joined(front, Some(ovn), back))
}

/// How the references of an answer to this client are read.
#[derive(Drop)]
pub struct AnsweredReader<'a> {
    pub client: &'a Name,
}

impl<'a> ReadItem<Reference> for AnsweredReader<'a> {
    ghost use Rattle.uss_wire_words.specs.References.{answered_reference_at};

    ghost reads = { λ r. answered_reference_at r.client.now };

    fn read_item(
        &self,
        alloc: Global,
        place: Member,
        value: &Value,
    ) -> Result<Reference, WireRefusal> {
        answered_reference(alloc, self.client, place, value)
    }
}

/// The references of an answer to this client: at most `MOST_REFERENCES`.
#[tactic(auto, unfolding(crate::specs::References::references_at))]
pub fn references_of(
    alloc: Global,
    client: &Name,
    member: Member,
    value: &Value,
) -> Result<References, WireRefusal>
    ensures { Gives result (field member (spec.references_at client.now) (view value.now)) }
{
    let items = few_items(MOST_REFERENCES, member, member_of(member, value)?)?;
    let references = each(alloc, &AnsweredReader { client }, member, items)?;
    Ok(References::from_vec(references))
}
