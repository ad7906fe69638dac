// How jobs end, and who is to be notified, as bytes.
ghost use Rattle.std.specs.Prelude.{◌≡◌, ◌<◌, ◌^◌, ◌++◌, All, OnOk};
ghost use Rattle.std.specs.List.{flat_map};
ghost use Rattle.uss_intent.specs.Texts.{IsName};
ghost use Rattle.uss_law_book.specs.Coding.{IsSubscriber, AreOwed, IsRule, IsEnding};
ghost use Rattle.uss_codec.specs.Spelling.{in_16_bytes, text, list};
ghost use Rattle.uss_codec.specs.Reading.{Gives, made_at, many_at};
ghost use Rattle.uss_event.specs.declared.entries.Ending.TheVariants as Endings;
ghost use Rattle.uss_book_codec.specs.Coding.{subscriber, rule, ending};
ghost use Rattle.uss_book_codec.specs.Reading.{subscriber_at, owed_at, conflict_at, conflict_of, missing_at, ending_at, is_decision, decision_at};

use crate::values::{put_rule, take_rule};
use std::alloc::{AllocError, Global};
use uss_codec::{Coded, Unread, put_list, take_list};
use uss_event::{Ending, Verdict};
use uss_intent::{
    Base, FlightId, MOST_REFERENCES, MOST_TICKETS, Name, Owed, Sequence, Subscriber, TicketId,
};

fn put_subscriber(value: &Subscriber, out: &mut Vec<u8>) -> Result<(), AllocError>
    requires { IsSubscriber value.now }
    ensures { OnOk result (out.new.items ≡ out.old.items ++ subscriber value.now) }
{
    value.base.put(out)?;
    value.ticket.put(out)?;
    value.index.put(out)
}

#[tactic(auto, unfolding(crate::specs::Reading::subscriber_at))]
fn take_subscriber(alloc: Global, bytes: &[u8]) -> Result<(Subscriber, &[u8]), Unread>
    ensures { Gives (λ x. (x.0, x.1.now)) result (subscriber_at bytes.now) }
{
    let (base, rest) = Base::take(alloc, bytes)?;
    let (ticket, rest) = u128::take(alloc, rest)?;
    let (index, rest) = u64::take(alloc, rest)?;
    Ok((
        Subscriber {
            base,
            ticket: TicketId::from_number(ticket),
            index,
        },
        rest,
    ))
}

fn put_each_subscriber(values: &[Subscriber], out: &mut Vec<u8>) -> Result<(), AllocError>
    requires { All IsSubscriber values.now }
    ensures { OnOk result (out.new.items ≡ out.old.items ++ flat_map subscriber values.now) }
{
    for value in values {
        put_subscriber(value, out)?;
    }
    Ok(())
}

fn take_each_subscriber(
    alloc: Global,
    count: u32,
    bytes: &[u8],
) -> Result<(Vec<Subscriber>, &[u8]), Unread>
    ensures { Gives (λ x. (x.0.items, x.1.now)) result (many_at subscriber_at count bytes.now) }
{
    let mut items = Vec::new(alloc);
    let mut rest = bytes;
    for _ in 0..count {
        let (item, behind) = take_subscriber(alloc, rest)?;
        items.push(item)?;
        rest = behind;
    }
    Ok((items, rest))
}

/// Writes who is to be notified.
pub(crate) fn put_owed(values: &Owed, out: &mut Vec<u8>) -> Result<(), AllocError>
    requires { AreOwed values.now }
    ensures { OnOk result (out.new.items ≡ out.old.items ++ list subscriber values.now) }
{
    (values.len() as u32).put(out)?;
    put_each_subscriber(values.as_slice(), out)
}

/// Who is to be notified, at most 8,192, and the bytes after it.
#[tactic(auto, unfolding(crate::specs::Reading::owed_at, uss_codec::specs::Reading::counted_at))]
pub(crate) fn take_owed(alloc: Global, bytes: &[u8]) -> Result<(Owed, &[u8]), Unread>
    ensures { Gives (λ x. (x.0, x.1.now)) result (owed_at bytes.now) }
{
    let (count, rest) = u32::take(alloc, bytes)?;
    if count > MOST_TICKETS as u32 {
        return Err(Unread::Malformed);
    }
    let (items, rest) = take_each_subscriber(alloc, count, rest)?;
    Ok((Sequence::from_vec(items), rest))
}

fn put_conflict(
    flight: FlightId,
    manager: &Name,
    why: Verdict,
    out: &mut Vec<u8>,
) -> Result<(), AllocError>
    requires identifier { flight < 2 ^ 128 }
    requires name { IsName manager.now }
    requires refuses { IsRule why }
    ensures { OnOk result (out.new.items ≡ out.old.items ++ (in_16_bytes flight ++ (text manager.now ++ rule why))) }
{
    flight.put(out)?;
    manager.put(out)?;
    put_rule(why, out)
}

/// Writes how a job ends.
pub(crate) fn put_ending(value: &Ending, out: &mut Vec<u8>) -> Result<(), AllocError>
    requires { IsEnding value.now }
    ensures { OnOk result (out.new.items ≡ out.old.items ++ ending value.now) }
{
    match value {
        Ending::Conflict {
            flight,
            manager,
            rule,
        } => {
            out.push(1)?;
            put_conflict(*flight, manager, *rule, out)
        }
        Ending::Stale { missing } => {
            out.push(2)?;
            put_list(missing.as_slice(), out)
        }
        Ending::Cancelled => {
            out.push(3)?;
            Ok(())
        }
        Ending::Ended { owed } => {
            out.push(4)?;
            put_owed(owed, out)
        }
    }
}

#[tactic(auto, unfolding(crate::specs::Reading::conflict_at))]
fn take_conflict(alloc: Global, bytes: &[u8]) -> Result<(Ending, &[u8]), Unread>
    ensures { Gives (λ x. (x.0, x.1.now)) result (made_at conflict_of conflict_at bytes.now) }
{
    let (flight, rest) = u128::take(alloc, bytes)?;
    let (manager, rest) = Name::take(alloc, rest)?;
    let (rule, rest) = take_rule(alloc, rest)?;
    Ok((
        Ending::Conflict {
            flight: FlightId::from_number(flight),
            manager,
            rule,
        },
        rest,
    ))
}

#[tactic(auto, unfolding(crate::specs::Reading::missing_at))]
fn take_stale(alloc: Global, bytes: &[u8]) -> Result<(Ending, &[u8]), Unread>
    ensures { Gives (λ x. (x.0, x.1.now)) result (made_at Endings.Stale missing_at bytes.now) }
{
    let (missing, rest) = take_list::<FlightId>(alloc, MOST_REFERENCES as u32, bytes)?;
    let missing = Sequence::from_vec(missing);
    Ok((Ending::Stale { missing }, rest))
}

fn take_ended(alloc: Global, bytes: &[u8]) -> Result<(Ending, &[u8]), Unread>
    ensures { Gives (λ x. (x.0, x.1.now)) result (made_at Endings.Ended owed_at bytes.now) }
{
    let (owed, rest) = take_owed(alloc, bytes)?;
    Ok((Ending::Ended { owed }, rest))
}

/// How a job ends, and the bytes after it.
#[tactic(auto, unfolding(crate::specs::Reading::ending_at))]
pub(crate) fn take_ending(alloc: Global, bytes: &[u8]) -> Result<(Ending, &[u8]), Unread>
    ensures { Gives (λ x. (x.0, x.1.now)) result (ending_at bytes.now) }
{
    match bytes {
        [1, rest @ ..] => take_conflict(alloc, rest),
        [2, rest @ ..] => take_stale(alloc, rest),
        [3, rest @ ..] => Ok((Ending::Cancelled, rest)),
        [4, rest @ ..] => take_ended(alloc, rest),
        _ => Err(Unread::Malformed),
    }
}

fn is_decision(value: &Ending) -> bool
    ensures { result ≡ is_decision value.now }
{
    !matches!(value, Ending::Ended { .. })
}

/// How a job is to end that makes no further attempt, and the bytes after it.
#[tactic(auto, unfolding(crate::specs::Reading::decision_at))]
pub(crate) fn take_decision(alloc: Global, bytes: &[u8]) -> Result<(Ending, &[u8]), Unread>
    ensures { Gives (λ x. (x.0, x.1.now)) result (decision_at bytes.now) }
{
    let (end, rest) = take_ending(alloc, bytes)?;
    if !is_decision(&end) {
        return Err(Unread::Malformed);
    }
    Ok((end, rest))
}
