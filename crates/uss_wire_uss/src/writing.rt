ghost use Rattle.std.specs.Prelude.{◌≡◌, ℕ, List, IfOk, Ok, Some, None};
ghost use Rattle.serde_json.specs.View.{view};
ghost use Rattle.uss_event.specs.declared.asks.FlightAsk.{FlightAsk};
ghost use Rattle.uss_event.specs.declared.asks.PositionAsk.{PositionAsk};
ghost use Rattle.uss_event.specs.declared.calls.Note.{Note};
ghost use Rattle.uss_event.specs.Pairs.{OperationalIntent};
ghost use Rattle.uss_event.specs.declared.asks.Wish.TheVariants as Wish;
ghost use Rattle.uss_wire_base.specs.Reading.{message_of};
ghost use Rattle.uss_wire_base.specs.Writing.{IsTextOf};
ghost use Rattle.uss_wire_uss.specs.Intents.{details_answer_at, notification_at};
ghost use Rattle.uss_wire_uss.specs.Asks.{asks_at, positions_at};
ghost use Rattle.uss_wire_uss.specs.Writing.{IsReadable, IsReadableNote, IsReadableWish, IsReadablePosition};
ghost use Rattle.uss_wire_uss.specs.Operator.{cancels_at, sweeps_at, cancels_json, sweeps_json};
ghost use Rattle.uss_wire_uss.specs.Writing as spec;

use serde_json::{Value, json};
use std::alloc::{AllocError, Global};
use uss_event::{Details, FlightAsk, Note, Pair, PositionAsk, Proposal, Proposals, Wish};
use uss_intent::{State, TicketId};
use uss_wire_base::{WriteItem, list, message};
use uss_wire_words::{VolumeWriter, flight_text, reference_value, state_word, ticket_text};

#[tactic(auto, unfolding(crate::specs::Writing::details_json))]
fn details(alloc: Global, details: &Details) -> Result<Value, AllocError>
    ensures { IfOk result (λ v. view v ≡ spec.details_json details.now) }
{
    let off_nominal = list(alloc, &VolumeWriter, details.off_nominal.as_slice())?;
    let volumes = list(alloc, &VolumeWriter, details.volumes.as_slice())?;
    json!(in alloc; {"off_nominal_volumes": off_nominal, "priority": details.priority, "volumes": volumes})
}

#[tactic(auto, unfolding(crate::specs::Writing::intent_json))]
fn intent(alloc: Global, pair: &Pair) -> Result<Value, AllocError>
    ensures { IfOk result (λ v. view v ≡ spec.intent_json pair.now) }
{
    let details = details(alloc, pair.details())?;
    let reference = reference_value(alloc, pair.reference())?;
    json!(in alloc; {"details": details, "reference": reference})
}

#[tactic(auto, unfolding(crate::specs::Writing::details_answer_json))]
fn details_answer(alloc: Global, pair: &Pair) -> Result<Value, AllocError>
    ensures { IfOk result (λ v. view v ≡ spec.details_answer_json pair.now) }
{
    let intent = intent(alloc, pair)?;
    json!(in alloc; {"operational_intent": intent})
}

/// The bytes of the intent that is held of a flight.
pub fn write_details_answer(alloc: Global, pair: &Pair) -> Result<Vec<u8>, AllocError>
    ensures { IfOk result (λ b. IsTextOf (spec.details_answer_json pair.now) b.items) }
{
    let value = details_answer(alloc, pair)?;
    message(alloc, &value)
}

#[tactic(auto, unfolding(crate::specs::Writing::notified_json))]
fn notified(alloc: Global, ticket: TicketId, index: u64) -> Result<Value, AllocError>
    ensures { IfOk result (λ v. view v ≡ spec.notified_json ticket index) }
{
    let ticket = ticket_text(alloc, ticket)?;
    json!(in alloc; {"notification_index": index, "subscription_id": ticket})
}

#[tactic(auto, unfolding(crate::specs::Writing::notification_json))]
fn changed(alloc: Global, note: &Note, pair: &Pair) -> Result<Value, AllocError>
    requires { note.now.pair ≡ Some pair.now }
    ensures { IfOk result (λ v. view v ≡ spec.notification_json note.now) }
{
    let intent = intent(alloc, pair)?;
    let flight = flight_text(alloc, note.flight)?;
    let notified = notified(alloc, note.ticket, note.index)?;
    json!(in alloc; {"operational_intent": intent, "operational_intent_id": flight, "subscriptions": [notified]})
}

#[tactic(auto, unfolding(crate::specs::Writing::notification_json))]
fn ended(alloc: Global, note: &Note) -> Result<Value, AllocError>
    requires { note.now.pair ≡ None }
    ensures { IfOk result (λ v. view v ≡ spec.notification_json note.now) }
{
    let flight = flight_text(alloc, note.flight)?;
    let notified = notified(alloc, note.ticket, note.index)?;
    json!(in alloc; {"operational_intent_id": flight, "subscriptions": [notified]})
}

fn notification(alloc: Global, note: &Note) -> Result<Value, AllocError>
    ensures { IfOk result (λ v. view v ≡ spec.notification_json note.now) }
{
    match &note.pair {
        Some(pair) => changed(alloc, note, pair),
        None => ended(alloc, note),
    }
}

/// The bytes of a notification of a change for another supplier.
pub fn write_notification(alloc: Global, note: &Note) -> Result<Vec<u8>, AllocError>
    ensures { IfOk result (λ b. IsTextOf (spec.notification_json note.now) b.items) }
{
    let value = notification(alloc, note)?;
    message(alloc, &value)
}

/// How the alternatives of a request are written.
#[derive(Clone, Copy)]
struct ProposalWriter;

impl WriteItem<Proposal> for ProposalWriter {
    ghost use Rattle.uss_wire_uss.specs.Writing.{proposal_json};

    ghost json = { λ _. proposal_json };

    fn write_item(&self, alloc: Global, item: &Proposal) -> Result<Value, AllocError> {
        proposal(alloc, item)
    }
}

#[tactic(auto, unfolding(crate::specs::Writing::proposal_json))]
fn proposal(alloc: Global, proposal: &Proposal) -> Result<Value, AllocError>
    ensures { IfOk result (λ v. view v ≡ spec.proposal_json proposal.now) }
{
    let off_nominal = list(alloc, &VolumeWriter, proposal.off_nominal.as_slice())?;
    let volumes = list(alloc, &VolumeWriter, proposal.volumes.as_slice())?;
    json!(in alloc; {"off_nominal_volumes": off_nominal, "volumes": volumes})
}

#[tactic(auto, unfolding(crate::specs::Writing::asks_json))]
fn put(
    alloc: Global,
    ask: &FlightAsk,
    to: State,
    priority: u16,
    rounds: u8,
    proposals: &Proposals,
) -> Result<Value, AllocError>
    requires { ask.now.wish ≡ Wish.Put to priority rounds proposals.now }
    ensures { IfOk result (λ v. view v ≡ spec.asks_json ask.now) }
{
    let alternatives = list(alloc, &ProposalWriter, proposals.as_slice())?;
    json!(in alloc; {
        "alternatives": alternatives,
        "flight": ask.flight,
        "number": ask.number,
        "priority": priority,
        "rounds": rounds,
        "to": state_word(to),
        "wish": "put"
    })
}

#[tactic(auto, unfolding(crate::specs::Writing::asks_json))]
fn end(alloc: Global, ask: &FlightAsk) -> Result<Value, AllocError>
    requires { ask.now.wish ≡ Wish.End }
    ensures { IfOk result (λ v. view v ≡ spec.asks_json ask.now) }
{
    json!(in alloc; {"flight": ask.flight, "number": ask.number, "wish": "end"})
}

fn asks(alloc: Global, ask: &FlightAsk) -> Result<Value, AllocError>
    ensures { IfOk result (λ v. view v ≡ spec.asks_json ask.now) }
{
    match &ask.wish {
        Wish::Put {
            to,
            priority,
            rounds,
            proposals,
        } => put(alloc, ask, *to, *priority, *rounds, proposals),
        Wish::End => end(alloc, ask),
    }
}

/// The bytes of a request.
pub fn write_asks(alloc: Global, ask: &FlightAsk) -> Result<Vec<u8>, AllocError>
    ensures { IfOk result (λ b. IsTextOf (spec.asks_json ask.now) b.items) }
{
    let value = asks(alloc, ask)?;
    message(alloc, &value)
}

#[tactic(auto, unfolding(crate::specs::Writing::positions_json))]
fn positions(alloc: Global, position: &PositionAsk) -> Result<Value, AllocError>
    ensures { IfOk result (λ v. view v ≡ spec.positions_json position.now) }
{
    let off_nominal = list(alloc, &VolumeWriter, position.off_nominal.as_slice())?;
    json!(in alloc; {
        "altitude_mm": position.altitude,
        "flight": position.flight,
        "lat_e7": position.place.y,
        "lng_e7": position.place.x,
        "number": position.number,
        "off_nominal_volumes": off_nominal
    })
}

/// The bytes of where a flight is.
pub fn write_positions(alloc: Global, position: &PositionAsk) -> Result<Vec<u8>, AllocError>
    ensures { IfOk result (λ b. IsTextOf (spec.positions_json position.now) b.items) }
{
    let value = positions(alloc, position)?;
    message(alloc, &value)
}

/// What is written of an intent, a notification, a request or a position is read again as the same, and so is what is written of a
/// cancel or a sweep by `write_cancels` and `write_sweeps`. The function does nothing.
pub fn messages_are_read_again()
    ensures details_answer { (p : OperationalIntent) (b : List ℕ) → IsReadable p → IsTextOf (spec.details_answer_json p) b → message_of details_answer_at b ≡ Ok p }
    ensures notification { (n : Note) (b : List ℕ) → IsReadableNote n → IsTextOf (spec.notification_json n) b → message_of notification_at b ≡ Ok n }
    ensures asks { (a : FlightAsk) (b : List ℕ) → IsReadableWish a.wish → IsTextOf (spec.asks_json a) b → message_of asks_at b ≡ Ok a }
    ensures positions { (p : PositionAsk) (b : List ℕ) → IsReadablePosition p → IsTextOf (spec.positions_json p) b → message_of positions_at b ≡ Ok p }
    ensures cancels { (f n : ℕ) (b : List ℕ) → IsTextOf (cancels_json f n) b → message_of cancels_at b ≡ Ok (f, n) }
    ensures sweeps { (n : ℕ) (b : List ℕ) → IsTextOf (sweeps_json n) b → message_of sweeps_at b ≡ Ok n }
{}
