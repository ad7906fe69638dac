// The room that a book keeps free, as entries come.
ghost use Rattle.std.specs.Prelude.{◌≡◌, ◌↔◌, IsTrue, ◌≤◌, ◌<◌, ◌^◌, ◌&&◌, not, ◌++◌, ◌∷◌, [], length};
ghost use Rattle.std.specs.List.{list_any};
ghost use Rattle.uss_law_book.specs.Coding.{HasCoding, record_length, journal_length};
ghost use Rattle.uss_law_book.specs.Legal.{IsLegal, IsDue, MayFollow};
ghost use Rattle.uss_law_book.specs.Contents.{owed_at_end};
ghost use Rattle.uss_law_book.specs.Reserve.{need, settled, ReserveCovers};
ghost use Rattle.uss_book_index.specs.Marks.{has_mark};
ghost use Rattle.uss_book_index.specs.Firsts.{AreFirsts};
ghost use Rattle.uss_book_index.specs.Index.{IsIndex};
ghost use Rattle.uss_law_book.specs.Changes.{for_ticket, taken, released, settled_by};

use crate::firsts::Firsts;
use crate::index::Index;
use crate::indexed::first;
use crate::marks::Mark;
use uss_book_codec::length_of;
use uss_event::{Closing, Ending, Entry, Holding};

fn has(entries: &[Entry], firsts: &Firsts, mark: Mark) -> bool
    ensures { AreFirsts firsts.now.places entries.now → result ≡ list_any (has_mark mark) entries.now }
{
    first(entries, firsts, mark).is_some()
}

fn for_ticket(kept: bool) -> u64
    ensures value { result ≡ for_ticket kept }
    ensures bound { result ≤ 64 }
{
    if kept { 64 } else { 0 }
}

fn for_kept_ticket(there: bool, decided: bool) -> u64
    ensures value { result ≡ for_ticket (there && not decided) }
    ensures bound { result ≤ 64 }
{
    for_ticket(there && !decided)
}

fn owed_at_end(end: &Ending) -> usize
    ensures { result ≡ length (owed_at_end end.now) }
{
    match end {
        Ending::Ended { owed } => owed.len(),
        Ending::Conflict { .. } | Ending::Stale { .. } | Ending::Cancelled => 0,
    }
}

/// The bytes that the entry adds to those kept free.
fn taken(entries: &[Entry], firsts: &Firsts, e: &Entry) -> u64
    requires index { AreFirsts firsts.now.places entries.now }
    requires coding { HasCoding e.now }
    ensures value { result ≡ taken entries.now e.now }
    ensures bound { result ≤ 8388608 }
{
    match e {
        Entry::Opened(_) => 8_388_608,
        Entry::Held(holding) => {
            let there = has(entries, firsts, Mark::TicketOpen(holding.job));
            64 * holding.owed.len() as u64 + for_ticket(there)
        }
        Entry::Done(ending) => {
            let there = has(entries, firsts, Mark::TicketOpen(ending.job));
            let decided = has(entries, firsts, Mark::Deciding(ending.job));
            64 * owed_at_end(&ending.end) as u64 + for_kept_ticket(there, decided)
        }
        Entry::Owner(_)
        | Entry::TicketOpen { .. }
        | Entry::Pending(_)
        | Entry::Deciding(_)
        | Entry::TicketGone { .. }
        | Entry::Sent(_) => 0,
    }
}

/// The bytes that the entry takes away from those kept free.
fn released(e: &Entry) -> u64
    ensures { result ≡ released e.now }
{
    match e {
        Entry::Held(_) | Entry::Done(_) => 8_388_608,
        Entry::TicketGone { .. } | Entry::Sent(_) => 64,
        Entry::Owner(_)
        | Entry::Opened(_)
        | Entry::TicketOpen { .. }
        | Entry::Pending(_)
        | Entry::Deciding(_) => 0,
    }
}

/// The bytes to be kept free after the entry.
pub(crate) fn need_after(now: u64, entries: &[Entry], firsts: &Firsts, e: &Entry) -> u64
    requires index { AreFirsts firsts.now.places entries.now }
    requires legal { IsLegal entries.now }
    requires follows { MayFollow entries.now e.now }
    requires now { now ≡ need entries.now }
    ensures { result ≡ need (entries.now ++ e.now ∷ []) }
{
    now + taken(entries, firsts, e) - released(e)
}

/// The bytes that the entry adds to those of the settled entries.
fn settled_by(entries: &[Entry], index: &Index, e: &Entry) -> u128
    requires index { IsIndex index.now entries.now }
    requires small { length entries.now < 2 ^ 64 }
    requires coding { HasCoding e.now }
    ensures value { result ≡ settled_by entries.now e.now }
    ensures bound { result ≤ 2 ^ 100 }
{
    match e {
        Entry::Owner(_) | Entry::Opened(_) | Entry::TicketGone { .. } | Entry::Sent(_) => 5
            + u128::from(length_of(e)),
        Entry::Held(Holding { job, .. }) | Entry::Done(Closing { job, .. }) => {
            index.tallies.tally(*job).bytes + (5 + u128::from(length_of(e)))
        }
        Entry::TicketOpen { .. } | Entry::Pending(_) | Entry::Deciding(_) => 0,
    }
}

/// The bytes of the journal of the settled entries after the entry.
pub(crate) fn settled_after(now: u64, entries: &[Entry], index: &Index, e: &Entry) -> u64
    requires index { IsIndex index.now entries.now }
    requires small { length entries.now < 2 ^ 64 }
    requires legal { IsLegal entries.now }
    requires follows { MayFollow entries.now e.now }
    requires now { now ≡ journal_length (settled entries.now) }
    ensures { result ≡ journal_length (settled (entries.now ++ e.now ∷ [])) }
{
    now + settled_by(entries, index, e) as u64
}

/// Whether the book keeps its room free after the entry; so many bytes are to be kept free now, and so many are settled.
pub(crate) fn covers(kept: u64, bytes: u64, entries: &[Entry], index: &Index, e: &Entry) -> bool
    requires index { IsIndex index.now entries.now }
    requires small { length entries.now < 2 ^ 64 }
    requires legal { IsLegal entries.now }
    requires coding { HasCoding e.now }
    requires due { IsDue entries.now e.now }
    requires kept { kept ≡ need entries.now }
    requires bytes { bytes ≡ journal_length (settled entries.now) }
    ensures { IsTrue result ↔ ReserveCovers (entries.now ++ e.now ∷ []) }
{
    let bytes = u128::from(bytes) + settled_by(entries, index, e);
    let kept = u128::from(kept) + u128::from(taken(entries, &index.firsts, e));
    bytes + kept - u128::from(released(e)) <= 536_870_912
}
