// The entries as bytes, kind by kind.
ghost use Rattle.std.specs.Prelude.{◌≡◌, ◌<◌, ◌≤◌, ◌^◌, ◌++◌, ◌∷◌, length, All, IfSome, OnOk};
ghost use Rattle.uss_vol4.specs.Volume.{InTime};
ghost use Rattle.uss_intent.specs.Texts.{IsOvn};
ghost use Rattle.uss_event.specs.declared.entries.Entry.TheVariants as Enters;
ghost use Rattle.uss_law_book.specs.Coding.{IsAsk, IsDecision, IsEnding, AreOwed, IsPending, IsHolding, HasCoding};
ghost use Rattle.uss_codec.specs.Spelling.{in_1_byte, in_4_bytes, in_8_bytes, signed_in_8_bytes, text, optional, list};
ghost use Rattle.uss_codec.specs.Reading.{Gives, made_at, in_8_bytes_at};
ghost use Rattle.uss_book_codec.specs.Coding.{ask, ending, subscriber, kind_of, fields_of, coding_of};
ghost use Rattle.uss_book_codec.specs.Reading.{owner_at, opened_at, key_at, pending_at, held_at, deciding_at, done_at, sent_at, fields_at, entry_at};

use crate::asks::{put_ask, take_ask};
use crate::endings::{put_ending, put_owed, take_decision, take_ending, take_owed};
use crate::owner::{put_owner, take_owner};
use crate::values::take_instant;
use std::alloc::{AllocError, Global};
use uss_codec::{Coded, Unread, put_list, put_option, take_list, take_option};
use uss_event::{Closing, Ending, Entry, FlightAsk, Holding, Opening, Sending, Trial};
use uss_intent::{MOST_OVNS, Ovn, Ovns, Owed, Sequence};

fn put_opened(job: u64, moment: i64, value: &FlightAsk, out: &mut Vec<u8>) -> Result<(), AllocError>
    requires time { InTime moment }
    requires valid { IsAsk value.now }
    ensures { OnOk result (out.new.items ≡ out.old.items ++ (in_8_bytes job ++ (signed_in_8_bytes moment ++ ask value.now))) }
{
    job.put(out)?;
    moment.put(out)?;
    put_ask(value, out)
}

fn put_pending(
    job: u64,
    tag: u64,
    alternative: u8,
    previous: &Option<Ovn>,
    key: &Ovns,
    out: &mut Vec<u8>,
) -> Result<(), AllocError>
    requires { IsPending job tag alternative previous.now key.now }
    ensures { OnOk result (out.new.items ≡ out.old.items
        ++ (in_8_bytes job ++ (in_8_bytes tag ++ (in_1_byte alternative ++ (optional text previous.now ++ list text key.now))))) }
{
    job.put(out)?;
    tag.put(out)?;
    alternative.put(out)?;
    put_option(previous, out)?;
    put_list(key.as_slice(), out)?;
    Ok(())
}

fn put_held(
    job: u64,
    tag: u64,
    ovn: &Ovn,
    version: u32,
    owed: &Owed,
    out: &mut Vec<u8>,
) -> Result<(), AllocError>
    requires { IsHolding job tag ovn.now version owed.now }
    ensures { OnOk result (out.new.items ≡ out.old.items
        ++ (in_8_bytes job ++ (in_8_bytes tag ++ (text ovn.now ++ (in_4_bytes version ++ list subscriber owed.now))))) }
{
    job.put(out)?;
    tag.put(out)?;
    ovn.put(out)?;
    version.put(out)?;
    put_owed(owed, out)?;
    Ok(())
}

fn put_end(job: u64, end: &Ending, out: &mut Vec<u8>) -> Result<(), AllocError>
    requires { IsEnding end.now }
    ensures { OnOk result (out.new.items ≡ out.old.items ++ (in_8_bytes job ++ ending end.now)) }
{
    job.put(out)?;
    put_ending(end, out)
}

fn put_sent(job: u64, index: u32, out: &mut Vec<u8>) -> Result<(), AllocError>
    ensures { OnOk result (out.new.items ≡ out.old.items ++ (in_8_bytes job ++ in_4_bytes index)) }
{
    job.put(out)?;
    index.put(out)
}

/// The byte for the entry's kind.
fn kind_of(entry: &Entry) -> u8
    ensures { result ≡ kind_of entry.now }
{
    match entry {
        Entry::Owner(_) => 1,
        Entry::Opened(_) => 2,
        Entry::TicketOpen { .. } => 3,
        Entry::Pending(_) => 4,
        Entry::Held(_) => 5,
        Entry::Deciding(_) => 6,
        Entry::Done(_) => 7,
        Entry::TicketGone { .. } => 8,
        Entry::Sent(_) => 9,
    }
}

/// Writes the fields of an entry.
fn put_fields(entry: &Entry, out: &mut Vec<u8>) -> Result<(), AllocError>
    requires { HasCoding entry.now }
    ensures { OnOk result (out.new.items ≡ out.old.items ++ fields_of entry.now) }
{
    match entry {
        Entry::Owner(owner) => put_owner(owner, out),
        Entry::Opened(Opening { job, moment, ask }) => put_opened(*job, *moment, ask, out),
        Entry::TicketOpen { job } => job.put(out),
        Entry::Pending(
            Trial {
                job,
                tag,
                alternative,
                previous,
                key,
            },
        ) => put_pending(*job, *tag, *alternative, previous, key, out),
        Entry::Held(
            Holding {
                job,
                tag,
                ovn,
                version,
                owed,
            },
        ) => put_held(*job, *tag, ovn, *version, owed, out),
        Entry::Deciding(Closing { job, end }) => put_end(*job, end, out),
        Entry::Done(Closing { job, end }) => put_end(*job, end, out),
        Entry::TicketGone { job } => job.put(out),
        Entry::Sent(Sending { job, index }) => put_sent(*job, *index, out),
    }
}

/// Writes an entry.
#[tactic(auto, unfolding(crate::specs::Coding::coding_of))]
pub(crate) fn put_entry(entry: &Entry, out: &mut Vec<u8>) -> Result<(), AllocError>
    requires { HasCoding entry.now }
    ensures { OnOk result (out.new.items ≡ out.old.items ++ coding_of entry.now) }
{
    kind_of(entry).put(out)?;
    put_fields(entry, out)
}

fn take_owner_entry(alloc: Global, bytes: &[u8]) -> Result<(Entry, &[u8]), Unread>
    ensures { Gives (λ x. (x.0, x.1.now)) result (made_at Enters.Owner owner_at bytes.now) }
{
    let (owner, rest) = take_owner(alloc, bytes)?;
    Ok((Entry::Owner(owner), rest))
}

#[tactic(auto, unfolding(crate::specs::Reading::opened_at))]
fn take_opened(alloc: Global, bytes: &[u8]) -> Result<(Entry, &[u8]), Unread>
    ensures { Gives (λ x. (x.0, x.1.now)) result (made_at (λ t. Enters.Opened (record { job = t.0; moment = t.1.0; ask = t.1.1 })) opened_at bytes.now) }
{
    let (job, rest) = u64::take(alloc, bytes)?;
    let (moment, rest) = take_instant(alloc, rest)?;
    let (ask, rest) = take_ask(alloc, rest)?;
    Ok((Entry::Opened(Opening { job, moment, ask }), rest))
}

fn take_ticket_open(alloc: Global, bytes: &[u8]) -> Result<(Entry, &[u8]), Unread>
    ensures { Gives (λ x. (x.0, x.1.now)) result (made_at Enters.TicketOpen in_8_bytes_at bytes.now) }
{
    let (job, rest) = u64::take(alloc, bytes)?;
    Ok((Entry::TicketOpen { job }, rest))
}

#[tactic(auto, unfolding(crate::specs::Reading::key_at))]
fn take_key(alloc: Global, bytes: &[u8]) -> Result<(Ovns, &[u8]), Unread>
    ensures { Gives (λ x. (x.0, x.1.now)) result (key_at bytes.now) }
{
    let (key, rest) = take_list::<Ovn>(alloc, MOST_OVNS as u32, bytes)?;
    Ok((Sequence::from_vec(key), rest))
}

#[tactic(auto, unfolding(crate::specs::Reading::pending_at))]
fn take_pending(alloc: Global, bytes: &[u8]) -> Result<(Entry, &[u8]), Unread>
    ensures { Gives (λ x. (x.0, x.1.now)) result (made_at (λ t. Enters.Pending (record { job = t.0; tag = t.1.0; alternative = t.1.1.0; previous = t.1.1.1.0; key = t.1.1.1.1 })) pending_at bytes.now) }
{
    let (job, rest) = u64::take(alloc, bytes)?;
    let (tag, rest) = u64::take(alloc, rest)?;
    let (alternative, rest) = u8::take(alloc, rest)?;
    let (previous, rest) = take_option::<Ovn>(alloc, rest)?;
    let (key, rest) = take_key(alloc, rest)?;
    let entry = Entry::Pending(Trial {
        job,
        tag,
        alternative,
        previous,
        key,
    });
    Ok((entry, rest))
}

#[tactic(auto, unfolding(crate::specs::Reading::held_at))]
fn take_held(alloc: Global, bytes: &[u8]) -> Result<(Entry, &[u8]), Unread>
    ensures { Gives (λ x. (x.0, x.1.now)) result (made_at (λ t. Enters.Held (record { job = t.0; tag = t.1.0; ovn = t.1.1.0; version = t.1.1.1.0; owed = t.1.1.1.1 })) held_at bytes.now) }
{
    let (job, rest) = u64::take(alloc, bytes)?;
    let (tag, rest) = u64::take(alloc, rest)?;
    let (ovn, rest) = Ovn::take(alloc, rest)?;
    let (version, rest) = u32::take(alloc, rest)?;
    let (owed, rest) = take_owed(alloc, rest)?;
    let entry = Entry::Held(Holding {
        job,
        tag,
        ovn,
        version,
        owed,
    });
    Ok((entry, rest))
}

#[tactic(auto, unfolding(crate::specs::Reading::deciding_at))]
fn take_deciding(alloc: Global, bytes: &[u8]) -> Result<(Entry, &[u8]), Unread>
    ensures { Gives (λ x. (x.0, x.1.now)) result (made_at (λ t. Enters.Deciding (record { job = t.0; end = t.1 })) deciding_at bytes.now) }
{
    let (job, rest) = u64::take(alloc, bytes)?;
    let (end, rest) = take_decision(alloc, rest)?;
    Ok((Entry::Deciding(Closing { job, end }), rest))
}

#[tactic(auto, unfolding(crate::specs::Reading::done_at))]
fn take_done(alloc: Global, bytes: &[u8]) -> Result<(Entry, &[u8]), Unread>
    ensures { Gives (λ x. (x.0, x.1.now)) result (made_at (λ t. Enters.Done (record { job = t.0; end = t.1 })) done_at bytes.now) }
{
    let (job, rest) = u64::take(alloc, bytes)?;
    let (end, rest) = take_ending(alloc, rest)?;
    Ok((Entry::Done(Closing { job, end }), rest))
}

fn take_ticket_gone(alloc: Global, bytes: &[u8]) -> Result<(Entry, &[u8]), Unread>
    ensures { Gives (λ x. (x.0, x.1.now)) result (made_at Enters.TicketGone in_8_bytes_at bytes.now) }
{
    let (job, rest) = u64::take(alloc, bytes)?;
    Ok((Entry::TicketGone { job }, rest))
}

#[tactic(auto, unfolding(crate::specs::Reading::sent_at))]
fn take_sent(alloc: Global, bytes: &[u8]) -> Result<(Entry, &[u8]), Unread>
    ensures { Gives (λ x. (x.0, x.1.now)) result (made_at (λ t. Enters.Sent (record { job = t.0; index = t.1 })) sent_at bytes.now) }
{
    let (job, rest) = u64::take(alloc, bytes)?;
    let (index, rest) = u32::take(alloc, rest)?;
    Ok((Entry::Sent(Sending { job, index }), rest))
}

/// The entry of a kind with the fields at the start, and the bytes after them.
#[tactic(auto, unfolding(crate::specs::Reading::fields_at))]
fn take_fields(alloc: Global, kind: u8, bytes: &[u8]) -> Result<(Entry, &[u8]), Unread>
    ensures { Gives (λ x. (x.0, x.1.now)) result (fields_at kind bytes.now) }
{
    match kind {
        1 => take_owner_entry(alloc, bytes),
        2 => take_opened(alloc, bytes),
        3 => take_ticket_open(alloc, bytes),
        4 => take_pending(alloc, bytes),
        5 => take_held(alloc, bytes),
        6 => take_deciding(alloc, bytes),
        7 => take_done(alloc, bytes),
        8 => take_ticket_gone(alloc, bytes),
        9 => take_sent(alloc, bytes),
        _ => Err(Unread::Malformed),
    }
}

/// The entry at the start, and the bytes after it.
#[tactic(auto, unfolding(crate::specs::Reading::entry_at))]
pub(crate) fn take_entry(alloc: Global, bytes: &[u8]) -> Result<(Entry, &[u8]), Unread>
    ensures { Gives (λ x. (x.0, x.1.now)) result (entry_at bytes.now) }
{
    let (kind, rest) = u8::take(alloc, bytes)?;
    take_fields(alloc, kind, rest)
}
