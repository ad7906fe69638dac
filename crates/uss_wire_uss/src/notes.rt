ghost use Rattle.std.specs.Prelude.{◌≡◌};
ghost use Rattle.serde_json.specs.View.{view};
ghost use Rattle.uss_wire_base.specs.Reading.{Gives, field, optional, one_at, message_of};
ghost use Rattle.uss_wire_uss.specs.Intents as spec;

use crate::intents::intent;
use serde_json::Value;
use std::alloc::Global;
use uss_event::{Note, Pair};
use uss_intent::TicketId;
use uss_wire_base::{
    Member, WireRefusal, data, find, items, member_of, natural_of, object, only_item,
};
use uss_wire_words::{flight_of, ticket_of};

fn intent_of(alloc: Global, member: Member, value: &Value) -> Result<Pair, WireRefusal>
    ensures { Gives result (field member spec.intent_at (view value.now)) }
{
    intent(alloc, member, member_of(member, value)?)
}

#[tactic(auto, unfolding(crate::specs::Intents::details_answer_at))]
fn details_answer(alloc: Global, place: Member, value: &Value) -> Result<Pair, WireRefusal>
    ensures { Gives result (spec.details_answer_at place (view value.now)) }
{
    object(place, value)?;
    intent_of(alloc, Member::OperationalIntent, value)
}

/// The intent that another supplier holds of a flight, in its answer to a question for details.
pub fn read_details_answer(alloc: Global, bytes: &[u8]) -> Result<Pair, WireRefusal>
    ensures { Gives result (message_of spec.details_answer_at bytes.now) }
{
    let value = data(alloc, bytes)?;
    details_answer(alloc, Member::Whole, &value)
}

/// The intent of a member that may be absent.
fn optional_intent(
    alloc: Global,
    member: Member,
    value: &Value,
) -> Result<Option<Pair>, WireRefusal>
    ensures { Gives result (optional member spec.intent_at (view value.now)) }
{
    match find(member, value) {
        None => Ok(None),
        Some(found) => Ok(Some(intent(alloc, member, found)?)),
    }
}

#[tactic(auto, unfolding(crate::specs::Intents::notified_at))]
fn notified(place: Member, value: &Value) -> Result<(TicketId, u64), WireRefusal>
    ensures { Gives result (spec.notified_at place (view value.now)) }
{
    object(place, value)?;
    let ticket = ticket_of(Member::SubscriptionId, value)?;
    let index = natural_of(Member::NotificationIndex, value)?;
    Ok((ticket, index))
}

/// The one subscription of a member's list.
fn notified_of(member: Member, value: &Value) -> Result<(TicketId, u64), WireRefusal>
    ensures { Gives result (field member (one_at spec.notified_at) (view value.now)) }
{
    let items = items(member, member_of(member, value)?)?;
    notified(member, only_item(member, items)?)
}

#[tactic(auto, unfolding(crate::specs::Intents::notification_at))]
fn notification(alloc: Global, place: Member, value: &Value) -> Result<Note, WireRefusal>
    ensures { Gives result (spec.notification_at place (view value.now)) }
{
    object(place, value)?;
    let flight = flight_of(Member::OperationalIntentId, value)?;
    let pair = optional_intent(alloc, Member::OperationalIntent, value)?;
    let (ticket, index) = notified_of(Member::Subscriptions, value)?;
    Ok(Note {
        flight,
        pair,
        ticket,
        index,
    })
}

/// What another supplier tells of a change. The intent, where there is one, needn't be of the named flight.
pub fn read_notification(alloc: Global, bytes: &[u8]) -> Result<Note, WireRefusal>
    ensures { Gives result (message_of spec.notification_at bytes.now) }
{
    let value = data(alloc, bytes)?;
    notification(alloc, Member::Whole, &value)
}
