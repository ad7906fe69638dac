ghost use Rattle.std.specs.Prelude.{◌≡◌};
ghost use Rattle.serde_json.specs.View.{view};
ghost use Rattle.uss_wire_base.specs.Reading.{Gives, field, optional};
ghost use Rattle.uss_wire_words.specs.Texts as spec;

use serde_json::Value;
use std::alloc::Global;
use uss_intent::{Base, FlightId, IntentRefusal, Name, Ovn, State, TicketId};
use uss_wire_base::{Member, ReadItem, WireRefusal, find, member_of, text};

fn intent_refusal(refusal: IntentRefusal) -> WireRefusal
    ensures { result ≡ spec.intent_refusal refusal }
{
    match refusal {
        IntentRefusal::BadName => WireRefusal::BadName,
        IntentRefusal::BadBase => WireRefusal::BadBase,
        IntentRefusal::BadOvn => WireRefusal::BadOvn,
        IntentRefusal::Memory => WireRefusal::Memory,
    }
}

#[tactic(auto, unfolding(crate::specs::Texts::name_of))]
fn name_from(alloc: Global, bytes: &[u8]) -> Result<Name, WireRefusal>
    ensures { Gives result (spec.name_of bytes.now) }
{
    match Name::of(alloc, bytes) {
        Ok(name) => Ok(name),
        Err(refusal) => Err(intent_refusal(refusal)),
    }
}

#[tactic(auto, unfolding(crate::specs::Texts::base_of))]
fn base_from(alloc: Global, bytes: &[u8]) -> Result<Base, WireRefusal>
    ensures { Gives result (spec.base_of bytes.now) }
{
    match Base::of(alloc, bytes) {
        Ok(base) => Ok(base),
        Err(refusal) => Err(intent_refusal(refusal)),
    }
}

#[tactic(auto, unfolding(crate::specs::Texts::ovn_of))]
fn ovn_from(alloc: Global, bytes: &[u8]) -> Result<Ovn, WireRefusal>
    ensures { Gives result (spec.ovn_of bytes.now) }
{
    match Ovn::of(alloc, bytes) {
        Ok(ovn) => Ok(ovn),
        Err(refusal) => Err(intent_refusal(refusal)),
    }
}

#[tactic(auto, unfolding(crate::specs::Texts::state_of))]
fn state_from(bytes: &[u8]) -> Option<State>
    ensures { result ≡ spec.state_of bytes.now }
{
    if bytes == b"Accepted".as_slice() {
        return Some(State::Accepted);
    }
    if bytes == b"Activated".as_slice() {
        return Some(State::Activated);
    }
    if bytes == b"Nonconforming".as_slice() {
        return Some(State::Nonconforming);
    }
    if bytes == b"Contingent".as_slice() {
        return Some(State::Contingent);
    }
    None
}

/// A text that is an OVN.
fn ovn(alloc: Global, member: Member, value: &Value) -> Result<Ovn, WireRefusal>
    ensures { Gives result (spec.ovn_at member (view value.now)) }
{
    let text = text(member, value)?;
    ovn_from(alloc, text.as_bytes())
}

/// The name of a client.
pub fn name_of(alloc: Global, member: Member, value: &Value) -> Result<Name, WireRefusal>
    ensures { Gives result (field member spec.name_at (view value.now)) }
{
    let text = text(member, member_of(member, value)?)?;
    name_from(alloc, text.as_bytes())
}

/// A base URL.
pub fn base_of(alloc: Global, member: Member, value: &Value) -> Result<Base, WireRefusal>
    ensures { Gives result (field member spec.base_at (view value.now)) }
{
    let text = text(member, member_of(member, value)?)?;
    base_from(alloc, text.as_bytes())
}

/// An OVN.
pub fn ovn_of(alloc: Global, member: Member, value: &Value) -> Result<Ovn, WireRefusal>
    ensures { Gives result (field member spec.ovn_at (view value.now)) }
{
    ovn(alloc, member, member_of(member, value)?)
}

/// An OVN that may be absent.
pub fn optional_ovn(
    alloc: Global,
    member: Member,
    value: &Value,
) -> Result<Option<Ovn>, WireRefusal>
    ensures { Gives result (optional member spec.ovn_at (view value.now)) }
{
    match find(member, value) {
        None => Ok(None),
        Some(found) => Ok(Some(ovn(alloc, member, found)?)),
    }
}

/// The state of an operational intent.
pub fn state_of(member: Member, value: &Value) -> Result<State, WireRefusal>
    ensures { Gives result (field member spec.state_at (view value.now)) }
{
    let text = text(member, member_of(member, value)?)?;
    state_from(text.as_bytes()).ok_or(WireRefusal::WrongKind(member))
}

/// The identifier of a flight.
pub fn flight_of(member: Member, value: &Value) -> Result<FlightId, WireRefusal>
    ensures { Gives result (field member spec.identifier_at (view value.now)) }
{
    let text = text(member, member_of(member, value)?)?;
    FlightId::read(text.as_bytes()).ok_or(WireRefusal::WrongKind(member))
}

/// The identifier of a ticket.
pub fn ticket_of(member: Member, value: &Value) -> Result<TicketId, WireRefusal>
    ensures { Gives result (field member spec.identifier_at (view value.now)) }
{
    let text = text(member, member_of(member, value)?)?;
    TicketId::read(text.as_bytes()).ok_or(WireRefusal::WrongKind(member))
}

/// How the OVNs of a list are read.
#[derive(Clone, Copy)]
pub struct OvnReader;

impl ReadItem<Ovn> for OvnReader {
    ghost use Rattle.uss_wire_words.specs.Texts.{ovn_at};

    ghost reads = { λ _. ovn_at };

    fn read_item(&self, alloc: Global, place: Member, value: &Value) -> Result<Ovn, WireRefusal> {
        ovn(alloc, place, value)
    }
}
