ghost use Rattle.std.specs.Prelude.{◌≡◌, IfOk, string_bytes, Some, None};
ghost use Rattle.serde_json.specs.View.{view};
ghost use Rattle.uss_intent.specs.Identifiers.{identifier_text};
ghost use Rattle.uss_intent.specs.States.{state_text};
ghost use Rattle.uss_wire_words.specs.ReferenceWriting as spec;

use crate::volume_writing::time_value;
use serde_json::{Value, json};
use std::alloc::{AllocError, Global};
use uss_intent::{FlightId, Ovn, Reference, State, Subscriber, Ticket, TicketId};
use uss_wire_base::WriteItem;

/// The text of a flight's identifier.
pub fn flight_text(alloc: Global, id: FlightId) -> Result<String, AllocError>
    ensures { IfOk result (λ s. string_bytes s ≡ identifier_text id) }
{
    format!(in alloc; "{id}")
}

/// The text of a ticket's identifier.
pub fn ticket_text(alloc: Global, id: TicketId) -> Result<String, AllocError>
    ensures { IfOk result (λ s. string_bytes s ≡ identifier_text id) }
{
    format!(in alloc; "{id}")
}

/// The word for a state.
pub fn state_word(state: State) -> &'static str
    ensures { result.now ≡ state_text state }
{
    match state {
        State::Accepted => "Accepted",
        State::Activated => "Activated",
        State::Nonconforming => "Nonconforming",
        State::Contingent => "Contingent",
    }
}

#[tactic(auto, unfolding(crate::specs::ReferenceWriting::reference_json))]
fn shown(alloc: Global, reference: &Reference, ovn: &Ovn) -> Result<Value, AllocError>
    requires { reference.now.ovn ≡ Some ovn.now }
    ensures { IfOk result (λ v. view v ≡ spec.reference_json reference.now) }
{
    let id = flight_text(alloc, reference.flight)?;
    let ticket = ticket_text(alloc, reference.ticket)?;
    let end = time_value(alloc, reference.end)?;
    let start = time_value(alloc, reference.start)?;
    json!(in alloc; {
        "id": id,
        "manager": reference.manager.as_str(),
        "ovn": ovn.as_str(),
        "state": state_word(reference.state),
        "subscription_id": ticket,
        "time_end": end,
        "time_start": start,
        "uss_availability": "Unknown",
        "uss_base_url": reference.base.as_str(),
        "version": reference.version
    })
}

#[tactic(auto, unfolding(crate::specs::ReferenceWriting::reference_json))]
fn hidden(alloc: Global, reference: &Reference) -> Result<Value, AllocError>
    requires { reference.now.ovn ≡ None }
    ensures { IfOk result (λ v. view v ≡ spec.reference_json reference.now) }
{
    let id = flight_text(alloc, reference.flight)?;
    let ticket = ticket_text(alloc, reference.ticket)?;
    let end = time_value(alloc, reference.end)?;
    let start = time_value(alloc, reference.start)?;
    json!(in alloc; {
        "id": id,
        "manager": reference.manager.as_str(),
        "state": state_word(reference.state),
        "subscription_id": ticket,
        "time_end": end,
        "time_start": start,
        "uss_availability": "Unknown",
        "uss_base_url": reference.base.as_str(),
        "version": reference.version
    })
}

/// The value of a reference, with its OVN where it shows one.
pub fn reference_value(alloc: Global, reference: &Reference) -> Result<Value, AllocError>
    ensures { IfOk result (λ v. view v ≡ spec.reference_json reference.now) }
{
    match &reference.ovn {
        Some(ovn) => shown(alloc, reference, ovn),
        None => hidden(alloc, reference),
    }
}

/// How references are written.
#[derive(Clone, Copy)]
pub struct ReferenceWriter;

impl WriteItem<Reference> for ReferenceWriter {
    ghost use Rattle.uss_wire_words.specs.ReferenceWriting.{reference_json};

    ghost json = { λ _. reference_json };

    fn write_item(&self, alloc: Global, item: &Reference) -> Result<Value, AllocError> {
        reference_value(alloc, item)
    }
}

#[tactic(auto, unfolding(crate::specs::ReferenceWriting::notified_json))]
fn notified(alloc: Global, subscriber: &Subscriber) -> Result<Value, AllocError>
    ensures { IfOk result (λ v. view v ≡ spec.notified_json subscriber.now) }
{
    let ticket = ticket_text(alloc, subscriber.ticket)?;
    json!(in alloc; {"notification_index": subscriber.index, "subscription_id": ticket})
}

#[tactic(auto, unfolding(crate::specs::ReferenceWriting::subscriber_json))]
fn subscriber_value(alloc: Global, subscriber: &Subscriber) -> Result<Value, AllocError>
    ensures { IfOk result (λ v. view v ≡ spec.subscriber_json subscriber.now) }
{
    let notified = notified(alloc, subscriber)?;
    json!(in alloc; {"subscriptions": [notified], "uss_base_url": subscriber.base.as_str()})
}

/// How those that are to be notified are written, each with one subscription.
#[derive(Clone, Copy)]
pub struct SubscriberWriter;

impl WriteItem<Subscriber> for SubscriberWriter {
    ghost use Rattle.uss_wire_words.specs.ReferenceWriting.{subscriber_json};

    ghost json = { λ _. subscriber_json };

    fn write_item(&self, alloc: Global, item: &Subscriber) -> Result<Value, AllocError> {
        subscriber_value(alloc, item)
    }
}

/// The value of a ticket, with the times of its area.
#[tactic(auto, unfolding(crate::specs::ReferenceWriting::ticket_json))]
pub fn ticket_value(alloc: Global, ticket: &Ticket) -> Result<Value, AllocError>
    ensures { IfOk result (λ v. view v ≡ spec.ticket_json ticket.now) }
{
    let id = ticket_text(alloc, ticket.id)?;
    let end = time_value(alloc, ticket.area.end())?;
    let start = time_value(alloc, ticket.area.start())?;
    json!(in alloc; {
        "id": id,
        "notification_index": ticket.index,
        "notify_for_constraints": false,
        "notify_for_operational_intents": true,
        "time_end": end,
        "time_start": start,
        "uss_base_url": ticket.base.as_str(),
        "version": "1"
    })
}
