// The index, as entries come.
ghost use Rattle.std.specs.Prelude.{◌≡◌, ◌++◌, ◌∷◌, [], List, length, find, slice_get, OnOk, IfOk};
ghost use Rattle.std.specs.Option.{option_copied, option_and_then, option_map};
ghost use Rattle.std.specs.BTreeMap.{get};
ghost use Rattle.std.specs.Ordering.{nat_cmp};
ghost use Rattle.uss_event.specs.declared.entries.Entry.{Entry};
ghost use Rattle.uss_law_book.specs.Coding.{HasCoding};
ghost use Rattle.uss_law_book.specs.Legal.{IsLegal, MayFollow};
ghost use Rattle.uss_law_book.specs.Orderly.{IsOrderly};
ghost use Rattle.uss_law_book.specs.Contents.{opening_of, trial_of};
ghost use Rattle.uss_book_rules.specs.Speaks.{job_of, opening_in, trial_in, holding_in, decision_in, ending_in};
ghost use Rattle.uss_book_index.specs.Marks.{mark_of, has_mark};
ghost use Rattle.uss_book_index.specs.Firsts.{AreFirsts};
ghost use Rattle.uss_book_index.specs.Tallies.{AreTallies, CanGrow};
ghost use Rattle.uss_book_index.specs.Flights.{flight_in};
ghost use Rattle.uss_book_index.specs.Ordinals.{ordinal_for};
ghost use Rattle.uss_book_index.specs.Records.{pair_for};
ghost use Rattle.uss_book_index.specs.Index.{IsIndex, HasRoom, room_for, job_after, tag_after};

use crate::firsts::Firsts;
use crate::flights::Flights;
use crate::index::Index;
use crate::made::pair_for;
use crate::marks::{Mark, mark_of};
use crate::ordinal::Ordinal;
use crate::ordinals::Ordinals;
use crate::records::Records;
use crate::room::Room;
use crate::tallies::{Tallies, job_of};
use std::alloc::{AllocError, Global};
use uss_event::{Closing, Entry, Holding, Opening, Pair, Trial};

/// The entry at the place.
pub(crate) fn at(entries: &[Entry], place: Option<usize>) -> Option<&Entry>
    ensures { option_copied result ≡ option_and_then (slice_get entries.now) place }
{
    match place {
        Some(n) => entries.get(n),
        None => None,
    }
}

/// The first entry with the mark.
pub(crate) fn first<'a>(entries: &'a [Entry], firsts: &Firsts, mark: Mark) -> Option<&'a Entry>
    ensures { AreFirsts firsts.now.places entries.now → option_copied result ≡ find (has_mark mark) entries.now }
{
    at(entries, firsts.place(mark))
}

/// The opening that the entry is, if it is one.
pub(crate) fn opening_in(found: Option<&Entry>) -> Option<&Opening>
    ensures { option_copied result ≡ option_and_then opening_in (option_copied found.entry) }
{
    match found {
        Some(Entry::Opened(opening)) => Some(opening),
        _ => None,
    }
}

/// The attempt that the entry is, if it is one.
pub(crate) fn trial_in(found: Option<&Entry>) -> Option<&Trial>
    ensures { option_copied result ≡ option_and_then trial_in (option_copied found.entry) }
{
    match found {
        Some(Entry::Pending(trial)) => Some(trial),
        _ => None,
    }
}

/// What the entry says was recorded, if it says so.
pub(crate) fn holding_in(found: Option<&Entry>) -> Option<&Holding>
    ensures { option_copied result ≡ option_and_then holding_in (option_copied found.entry) }
{
    match found {
        Some(Entry::Held(holding)) => Some(holding),
        _ => None,
    }
}

/// How the entry says that a job is to end, if it says so.
pub(crate) fn decision_in(found: Option<&Entry>) -> Option<&Closing>
    ensures { option_copied result ≡ option_and_then decision_in (option_copied found.entry) }
{
    match found {
        Some(Entry::Deciding(decision)) => Some(decision),
        _ => None,
    }
}

/// How the entry says that a job ended, if it says so.
pub(crate) fn ending_in(found: Option<&Entry>) -> Option<&Closing>
    ensures { option_copied result ≡ option_and_then ending_in (option_copied found.entry) }
{
    match found {
        Some(Entry::Done(ending)) => Some(ending),
        _ => None,
    }
}

/// The opening of the job.
pub(crate) fn opening<'a>(entries: &'a [Entry], firsts: &Firsts, job: u64) -> Option<&'a Opening>
    ensures { AreFirsts firsts.now.places entries.now → option_copied result ≡ opening_of job entries.now }
{
    opening_in(first(entries, firsts, Mark::Opened(job)))
}

/// The attempt with the tag.
pub(crate) fn trial<'a>(entries: &'a [Entry], firsts: &Firsts, tag: u64) -> Option<&'a Trial>
    ensures { AreFirsts firsts.now.places entries.now → option_copied result ≡ trial_of tag entries.now }
{
    trial_in(first(entries, firsts, Mark::Pending(tag)))
}

fn flight_of(opening: Option<&Opening>) -> Option<u64>
    ensures { result ≡ option_map (λ o. o.ask.flight) (option_copied opening.entry) }
{
    match opening {
        Some(opening) => Some(opening.ask.flight),
        None => None,
    }
}

/// The flight of which an entry changes what is kept.
fn flight_in(entries: &[Entry], firsts: &Firsts, e: &Entry) -> Option<u64>
    ensures { AreFirsts firsts.now.places entries.now → result ≡ flight_in entries.now e.now }
{
    match e {
        Entry::Opened(Opening { ask, .. }) => Some(ask.flight),
        Entry::Held(Holding { job, .. }) => flight_of(opening(entries, firsts, *job)),
        Entry::Done(Closing { job, .. }) => flight_of(opening(entries, firsts, *job)),
        Entry::Owner(_)
        | Entry::TicketOpen { .. }
        | Entry::Pending(_)
        | Entry::Deciding(_)
        | Entry::TicketGone { .. }
        | Entry::Sent(_) => None,
    }
}

/// Which attempt of its job the entry makes.
fn ordinal_for(tallies: &Tallies, e: &Entry) -> Option<Ordinal>
    ensures { (es : List Entry) → AreTallies tallies.now.tallies es → result ≡ ordinal_for es e.now }
{
    match e {
        Entry::Pending(Trial { job, .. }) => Some(Ordinal {
            job: *job,
            number: tallies.tally(*job).attempts,
        }),
        Entry::Owner(_)
        | Entry::Opened(_)
        | Entry::TicketOpen { .. }
        | Entry::Held(_)
        | Entry::Deciding(_)
        | Entry::Done(_)
        | Entry::TicketGone { .. }
        | Entry::Sent(_) => None,
    }
}

/// What the entry needs room for, and what it records.
pub(crate) fn room_for(
    alloc: Global,
    entries: &[Entry],
    index: &Index,
    e: &Entry,
) -> Result<Room, AllocError>
    requires legal { IsLegal entries.now }
    requires index { IsIndex index.now entries.now }
    ensures { IfOk result (λ room. room ≡ room_for entries.now e.now) }
{
    Ok(Room {
        mark: mark_of(e),
        job: job_of(e),
        flight: flight_in(entries, &index.firsts, e),
        ordinal: ordinal_for(&index.tallies, e),
        pair: pair_for(alloc, entries, &index.firsts, e)?,
    })
}

fn job_after(jobs: u64, e: &Entry) -> u64
    ensures { result ≡ job_after jobs e.now }
{
    match e {
        Entry::Opened(Opening { job, .. }) => *job,
        _ => jobs,
    }
}

fn tag_after(tags: u64, e: &Entry) -> u64
    ensures { result ≡ tag_after tags e.now }
{
    match e {
        Entry::Pending(Trial { tag, .. }) => *tag,
        _ => tags,
    }
}

impl Index {
    /// Of no entry. Takes no memory.
    pub(crate) fn new(alloc: Global) -> Index
        ensures { IsIndex result [] }
    {
        Index {
            jobs: 0,
            tags: 0,
            firsts: Firsts::new(alloc),
            tallies: Tallies::new(alloc),
            flights: Flights::new(alloc),
            ordinals: Ordinals::new(alloc),
            records: Records::new(alloc),
        }
    }

    /// Makes room for what an entry brings.
    pub(crate) fn make_room(&mut self, room: &Room) -> Result<(), AllocError>
        ensures kept { (es : List Entry) → IsIndex self.old es → IsIndex self.new es }
        ensures room { OnOk result (HasRoom self.new room.now) }
    {
        self.firsts.make_room(room.mark)?;
        self.tallies.make_room(room.job)?;
        self.flights.make_room(room.flight)?;
        self.ordinals.make_room(room.ordinal)?;
        self.records.make_room(room.flight)
    }

    /// Takes an entry down, which comes at this place, changes what is kept of this flight, makes this attempt and records this. Takes no
    /// memory.
    pub(crate) fn enter(
        &mut self,
        e: &Entry,
        place: usize,
        flight: Option<u64>,
        ordinal: Option<Ordinal>,
        pair: Option<Pair>,
    )
        requires coding { HasCoding e.now }
        requires fits { CanGrow (get nat_cmp self.old.tallies.tallies (job_of e.now)) e.now }
        requires room { HasRoom self.old (record { mark = mark_of e.now; job = job_of e.now; flight = flight; ordinal = ordinal; pair = pair }) }
        ensures { (es : List Entry) → IsIndex self.old es → IsOrderly es → MayFollow es e.now → flight ≡ flight_in es e.now → ordinal ≡ ordinal_for es e.now → pair ≡ pair_for es e.now → length es ≡ place → IsIndex self.new (es ++ e.now ∷ []) }
    {
        self.jobs = job_after(self.jobs, e);
        self.tags = tag_after(self.tags, e);
        self.firsts.enter(mark_of(e), place);
        self.tallies.enter(e);
        self.flights.enter(flight, e, place);
        self.ordinals.enter(ordinal, place);
        self.records.enter(flight, pair);
    }
}
