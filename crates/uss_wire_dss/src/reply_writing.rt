ghost use Rattle.std.specs.Prelude.{◌≡◌, ◌≤◌, ℕ, List, length, Ok, IfOk};
ghost use Rattle.serde_json.specs.View.{view};
ghost use Rattle.uss_wire_base.specs.Reading.{message_of};
ghost use Rattle.uss_wire_base.specs.Writing.{IsTextOf, AllOf, list_json};
ghost use Rattle.uss_intent.specs.Limits.{most_references, most_tickets};
ghost use Rattle.uss_intent.specs.declared.records.Reference.{Reference};
ghost use Rattle.uss_intent.specs.declared.records.Subscriber.{Subscriber};
ghost use Rattle.uss_wire_base.specs.declared.refusal.Member.{Member};
ghost use Rattle.uss_wire_words.specs.References.{answered_reference_at, references_at};
ghost use Rattle.uss_wire_words.specs.ReferenceWriting.{reference_json};
ghost use Rattle.uss_wire_dss.specs.ChangesAndErrors.{change_answer_at};
ghost use Rattle.uss_wire_dss.specs.ReplyWriting.{IsReadable, IsReadableSubscriber};
ghost use Rattle.uss_wire_dss.specs.ReplyWriting as spec;

use serde_json::{Value, json};
use std::alloc::{AllocError, Global};
use uss_intent::{Owed, Reference, References, Ticket};
use uss_wire_base::{list, message};
use uss_wire_words::{ReferenceWriter, SubscriberWriter, reference_value, ticket_value};

#[tactic(auto, unfolding(crate::specs::ReplyWriting::query_answer_json))]
fn query_answer(alloc: Global, references: &References) -> Result<Value, AllocError>
    ensures { IfOk result (λ v. view v ≡ spec.query_answer_json references.now) }
{
    let references = list(alloc, &ReferenceWriter, references.as_slice())?;
    json!(in alloc; {"operational_intent_references": references})
}

/// The bytes of the references that a query found.
pub fn write_query_answer(alloc: Global, references: &References) -> Result<Vec<u8>, AllocError>
    ensures { IfOk result (λ b. IsTextOf (spec.query_answer_json references.now) b.items) }
{
    let value = query_answer(alloc, references)?;
    message(alloc, &value)
}

#[tactic(auto, unfolding(crate::specs::ReplyWriting::get_answer_json))]
fn get_answer(alloc: Global, reference: &Reference) -> Result<Value, AllocError>
    ensures { IfOk result (λ v. view v ≡ spec.get_answer_json reference.now) }
{
    let reference = reference_value(alloc, reference)?;
    json!(in alloc; {"operational_intent_reference": reference})
}

/// The bytes of one reference.
pub fn write_get_answer(alloc: Global, reference: &Reference) -> Result<Vec<u8>, AllocError>
    ensures { IfOk result (λ b. IsTextOf (spec.get_answer_json reference.now) b.items) }
{
    let value = get_answer(alloc, reference)?;
    message(alloc, &value)
}

#[tactic(auto, unfolding(crate::specs::ReplyWriting::change_answer_json))]
fn change_answer(
    alloc: Global,
    reference: &Reference,
    subscribers: &Owed,
) -> Result<Value, AllocError>
    ensures { IfOk result (λ v. view v ≡ spec.change_answer_json reference.now subscribers.now) }
{
    let reference = reference_value(alloc, reference)?;
    let subscribers = list(alloc, &SubscriberWriter, subscribers.as_slice())?;
    json!(in alloc; {"operational_intent_reference": reference, "subscribers": subscribers})
}

/// The bytes of a reference as it is recorded, and of those that are to be notified, each with one subscription.
pub fn write_change_answer(
    alloc: Global,
    reference: &Reference,
    subscribers: &Owed,
) -> Result<Vec<u8>, AllocError>
    ensures { IfOk result (λ b. IsTextOf (spec.change_answer_json reference.now subscribers.now) b.items) }
{
    let value = change_answer(alloc, reference, subscribers)?;
    message(alloc, &value)
}

#[tactic(auto, unfolding(crate::specs::ReplyWriting::subscription_answer_json))]
fn subscription_answer(alloc: Global, ticket: &Ticket) -> Result<Value, AllocError>
    ensures { IfOk result (λ v. view v ≡ spec.subscription_answer_json ticket.now) }
{
    let ticket = ticket_value(alloc, ticket)?;
    json!(in alloc; {"subscription": ticket})
}

/// The bytes of a ticket. Its manager and its area aren't in the message.
pub fn write_subscription_answer(alloc: Global, ticket: &Ticket) -> Result<Vec<u8>, AllocError>
    ensures { IfOk result (λ b. IsTextOf (spec.subscription_answer_json ticket.now) b.items) }
{
    let value = subscription_answer(alloc, ticket)?;
    message(alloc, &value)
}

/// A reference that is written is read again as the same by the client that it was shown to, and so is a list of at most
/// `MOST_REFERENCES`. The function does nothing.
pub fn references_are_read_again()
    ensures one { (client : List ℕ) (place : Member) (r : Reference) → IsReadable client r → answered_reference_at client place (reference_json r) ≡ Ok r }
    ensures list { (client : List ℕ) (place : Member) (rs : List Reference) → AllOf (IsReadable client) rs → length rs ≤ most_references
        → references_at client place (list_json reference_json rs) ≡ Ok rs }
{}

/// What is written of a change is read again as the same by the client that it was shown to. The function does nothing.
pub fn changes_are_read_again()
    ensures { (client : List ℕ) (r : Reference) (ss : List Subscriber) (b : List ℕ) → IsReadable client r → AllOf IsReadableSubscriber ss → length ss ≤ most_tickets
        → IsTextOf (spec.change_answer_json r ss) b → message_of (change_answer_at client) b ≡ Ok (r, ss) }
{}
