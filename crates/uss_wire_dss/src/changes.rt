ghost use Rattle.std.specs.Prelude.{◌≡◌, ◌++◌, [], map, IfOk, OnOk, OnErr};
ghost use Rattle.serde_json.specs.View.{view};
ghost use Rattle.uss_intent.specs.Limits.{most_tickets};
ghost use Rattle.uss_wire_base.specs.Reading.{Gives, GivesBy, field, list_at, few_at, message_of};
ghost use Rattle.uss_wire_words.specs.References.{answered_reference_at};
ghost use Rattle.uss_wire_dss.specs.ChangesAndErrors as spec;

use serde_json::Value;
use std::alloc::{AllocError, Global};
use uss_intent::{Base, MOST_TICKETS, Name, Owed, Reference, Sequence, Subscriber, TicketId};
use uss_wire_base::{
    Member, ReadItem, WireRefusal, data, each, few_items, items, member_of, natural_of, object,
};
use uss_wire_words::{answered_reference, base_of, ticket_of};

/// By which subscription one is notified of a change, and how often it was.
#[derive(Clone, Copy)]
struct Notified {
    ticket: TicketId,
    index: u64,
}

#[derive(Clone, Copy)]
struct NotifiedReader;

impl ReadItem<Notified> for NotifiedReader {
    ghost use Rattle.uss_wire_dss.specs.ChangesAndErrors.{notified_at};

    ghost reads = { λ _. notified_at };

    #[tactic(auto, unfolding(crate::specs::ChangesAndErrors::notified_at))]
    fn read_item(&self, _: Global, place: Member, value: &Value) -> Result<Notified, WireRefusal> {
        object(place, value)?;
        let ticket = ticket_of(Member::SubscriptionId, value)?;
        let index = natural_of(Member::NotificationIndex, value)?;
        Ok(Notified { ticket, index })
    }
}

fn notified_of(alloc: Global, member: Member, value: &Value) -> Result<Vec<Notified>, WireRefusal>
    ensures { GivesBy (λ v. v.items) result (field member (list_at spec.notified_at) (view value.now)) }
{
    let items = items(member, member_of(member, value)?)?;
    each(alloc, &NotifiedReader, member, items)
}

/// Where one is notified of a change, and by which subscriptions.
#[derive(Drop)]
struct Listed {
    base: Base,
    notified: Sequence<Notified>,
}

#[derive(Clone, Copy)]
struct ListedReader;

impl ReadItem<Listed> for ListedReader {
    ghost use Rattle.uss_wire_dss.specs.ChangesAndErrors.{listed_at};

    ghost reads = { λ _. listed_at };

    #[tactic(auto, unfolding(crate::specs::ChangesAndErrors::listed_at))]
    fn read_item(
        &self,
        alloc: Global,
        place: Member,
        value: &Value,
    ) -> Result<Listed, WireRefusal> {
        object(place, value)?;
        let notified = Sequence::from_vec(notified_of(alloc, Member::Subscriptions, value)?);
        let base = base_of(alloc, Member::UssBaseUrl, value)?;
        Ok(Listed { base, notified })
    }
}

/// The items of a list of at most `MOST_TICKETS`: each names a ticket that the service keeps.
fn lists(alloc: Global, member: Member, value: &Value) -> Result<Vec<Listed>, WireRefusal>
    ensures { GivesBy (λ v. v.items) result (few_at most_tickets spec.listed_at member (view value.now)) }
{
    let items = few_items(MOST_TICKETS, member, value)?;
    each(alloc, &ListedReader, member, items)
}

/// Whether the items name at most `MOST_TICKETS` subscriptions in all. No base is copied for it.
fn are_few(lists: &[Listed]) -> bool
    ensures { result ≡ spec.fit most_tickets lists.now }
{
    let mut room: usize = MOST_TICKETS;
    for one in lists {
        if one.notified.len() > room {
            return false;
        }
        room -= one.notified.len();
    }
    true
}

/// Puts those of one item after the others.
fn append(all: &mut Owed, one: &Listed) -> Result<(), AllocError>
    ensures { OnOk result (all.new ≡ all.old ++ spec.owed_by one.now) }
{
    for notified in one.notified.as_slice() {
        let subscriber = Subscriber {
            base: one.base.clone()?,
            ticket: notified.ticket,
            index: notified.index,
        };
        all.push(subscriber)?;
    }
    Ok(())
}

fn flattened(alloc: Global, lists: Vec<Listed>) -> Result<Owed, AllocError>
    ensures { IfOk result (λ all. all ≡ spec.flatten (map spec.owed_by lists.items)) }
{
    let mut all = Owed::new(alloc);
    for one in lists {
        append(&mut all, &one)?;
    }
    Ok(all)
}

/// Those of all items, where they are few.
fn few(alloc: Global, member: Member, lists: Vec<Listed>) -> Result<Owed, WireRefusal>
    ensures { Gives result (spec.at_most_tickets member (spec.flatten (map spec.owed_by lists.items))) }
{
    if are_few(lists.as_slice()) {
        Ok(flattened(alloc, lists)?)
    } else {
        Err(WireRefusal::TooMany(member))
    }
}

fn subscribers(alloc: Global, member: Member, value: &Value) -> Result<Owed, WireRefusal>
    ensures { Gives result (spec.subscribers_at member (view value.now)) }
{
    let lists = lists(alloc, member, value)?;
    few(alloc, member, lists)
}

fn subscribers_of(alloc: Global, member: Member, value: &Value) -> Result<Owed, WireRefusal>
    ensures { Gives result (field member spec.subscribers_at (view value.now)) }
{
    subscribers(alloc, member, member_of(member, value)?)
}

fn reference_of(
    alloc: Global,
    client: &Name,
    member: Member,
    value: &Value,
) -> Result<Reference, WireRefusal>
    ensures { Gives result (field member (answered_reference_at client.now) (view value.now)) }
{
    answered_reference(alloc, client, member, member_of(member, value)?)
}

#[tactic(auto, unfolding(crate::specs::ChangesAndErrors::change_answer_at))]
fn change_answer(
    alloc: Global,
    client: &Name,
    place: Member,
    value: &Value,
) -> Result<(Reference, Owed), WireRefusal>
    ensures { Gives result (spec.change_answer_at client.now place (view value.now)) }
{
    object(place, value)?;
    let subscribers = subscribers_of(alloc, Member::Subscribers, value)?;
    let reference = reference_of(alloc, client, Member::OperationalIntentReference, value)?;
    Ok((reference, subscribers))
}

/// The answer to a change of a reference: the reference, and who is to be notified, at most `MOST_TICKETS` in all. Another client's OVN is dropped.
pub fn read_change_answer(
    alloc: Global,
    bytes: &[u8],
    client: &Name,
) -> Result<(Reference, Owed), WireRefusal>
    ensures { Gives result (message_of (spec.change_answer_at client.now) bytes.now) }
{
    let value = data(alloc, bytes)?;
    change_answer(alloc, client, Member::Whole, &value)
}
