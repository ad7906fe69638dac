ghost use Rattle.std.specs.Prelude.{◌≡◌};
ghost use Rattle.serde_json.specs.View.{view};
ghost use Rattle.uss_wire_base.specs.Reading.{Gives, message_of};
ghost use Rattle.uss_wire_dss.specs.Replies as spec;

use serde_json::Value;
use std::alloc::Global;
use uss_intent::{Name, Reference, References, Ticket};
use uss_vol4::Volume4;
use uss_wire_base::{Member, WireRefusal, data, member_of, natural_of, object, text};
use uss_wire_words::{answered_reference, base_of, references_of, ticket_of, time_of};

#[tactic(auto, unfolding(crate::specs::Replies::query_answer_at))]
fn query_answer(
    alloc: Global,
    client: &Name,
    place: Member,
    value: &Value,
) -> Result<References, WireRefusal>
    ensures { Gives result (spec.query_answer_at client.now place (view value.now)) }
{
    object(place, value)?;
    references_of(alloc, client, Member::OperationalIntentReferences, value)
}

/// The references that the discovery service found for this client: at most `MOST_REFERENCES`. Another client's OVN is dropped.
pub fn read_query_answer(
    alloc: Global,
    bytes: &[u8],
    client: &Name,
) -> Result<References, WireRefusal>
    ensures { Gives result (message_of (spec.query_answer_at client.now) bytes.now) }
{
    let value = data(alloc, bytes)?;
    query_answer(alloc, client, Member::Whole, &value)
}

#[tactic(auto, unfolding(crate::specs::Replies::get_answer_at))]
fn get_answer(
    alloc: Global,
    client: &Name,
    place: Member,
    value: &Value,
) -> Result<Reference, WireRefusal>
    ensures { Gives result (spec.get_answer_at client.now place (view value.now)) }
{
    object(place, value)?;
    answered_reference(
        alloc,
        client,
        Member::OperationalIntentReference,
        member_of(Member::OperationalIntentReference, value)?,
    )
}

/// The reference that the discovery service shows to this client. Another client's OVN is dropped.
pub fn read_get_answer(alloc: Global, bytes: &[u8], client: &Name) -> Result<Reference, WireRefusal>
    ensures { Gives result (message_of (spec.get_answer_at client.now) bytes.now) }
{
    let value = data(alloc, bytes)?;
    get_answer(alloc, client, Member::Whole, &value)
}

/// That a member is a text.
fn any_text(member: Member, value: &Value) -> Result<(), WireRefusal>
    ensures { Gives result (spec.any_text_at member (view value.now)) }
{
    match text(member, member_of(member, value)?) {
        Ok(_) => Ok(()),
        Err(refusal) => Err(refusal),
    }
}

#[tactic(auto, unfolding(crate::specs::Replies::ticket_at))]
fn ticket(
    alloc: Global,
    client: &Name,
    area: &Volume4,
    place: Member,
    value: &Value,
) -> Result<Ticket, WireRefusal>
    ensures { Gives result (spec.ticket_at client.now area.now place (view value.now)) }
{
    object(place, value)?;
    let id = ticket_of(Member::Id, value)?;
    any_text(Member::Version, value)?;
    let index = natural_of(Member::NotificationIndex, value)?;
    time_of(Member::TimeStart, value)?;
    time_of(Member::TimeEnd, value)?;
    let base = base_of(alloc, Member::UssBaseUrl, value)?;
    Ok(Ticket {
        id,
        manager: client.clone()?,
        area: area.clone()?,
        base,
        index,
    })
}

#[tactic(auto, unfolding(crate::specs::Replies::subscription_answer_at))]
fn subscription_answer(
    alloc: Global,
    client: &Name,
    area: &Volume4,
    place: Member,
    value: &Value,
) -> Result<Ticket, WireRefusal>
    ensures { Gives result (spec.subscription_answer_at client.now area.now place (view value.now)) }
{
    object(place, value)?;
    ticket(
        alloc,
        client,
        area,
        Member::Subscription,
        member_of(Member::Subscription, value)?,
    )
}

/// The ticket that the discovery service shows to this client, which manages it. Its area isn't in the message: it is that of the
/// call, or one that the caller knows.
pub fn read_subscription_answer(
    alloc: Global,
    bytes: &[u8],
    client: &Name,
    area: &Volume4,
) -> Result<Ticket, WireRefusal>
    ensures { Gives result (message_of (spec.subscription_answer_at client.now area.now) bytes.now) }
{
    let value = data(alloc, bytes)?;
    subscription_answer(alloc, client, area, Member::Whole, &value)
}
