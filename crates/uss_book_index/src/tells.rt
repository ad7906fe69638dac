// What the entries tell.
ghost use Rattle.std.specs.Prelude.{◌≡◌, find, Some};
ghost use Rattle.std.specs.List.{list_any};
ghost use Rattle.std.specs.Option.{option_copied};
ghost use Rattle.uss_law_book.specs.Attempts.{held};
ghost use Rattle.uss_law_book.specs.Contents.{is_closed};
ghost use Rattle.uss_book_index.specs.Marks.{has_mark};
ghost use Rattle.uss_book_index.specs.Flights.{IsFlight};
ghost use Rattle.uss_book_index.specs.Sent.{is_by_job, is_unclosed};

use crate::Entries;
use crate::flight::Flight;
use crate::indexed::{at, decision_in, ending_in, first, holding_in, opening_in, trial_in};
use crate::marks::Mark;
use uss_book_rules::Tells;
use uss_event::{Closing, Entry, Holding, Opening, Owner, Pair, Trial};

/// Whether the attempt is one of the job.
fn is_by_job(job: u64, trial: Option<&Trial>) -> bool
    ensures { result ≡ is_by_job job (option_copied trial.entry) }
{
    match trial {
        Some(trial) => trial.job == job,
        None => false,
    }
}

impl Entries {
    /// The first entry with the mark.
    fn first(&self, mark: Mark) -> Option<&Entry>
        ensures { option_copied result ≡ find (has_mark mark) self.now.entries }
    {
        first(&self.entries, &self.index.firsts, mark)
    }

    /// Whether an entry has the mark.
    fn has(&self, mark: Mark) -> bool
        ensures { result ≡ list_any (has_mark mark) self.now.entries }
    {
        self.first(mark).is_some()
    }

    /// Whether the job recorded something or ended.
    fn is_closed(&self, job: u64) -> bool
        ensures { result ≡ is_closed job self.now.entries }
    {
        self.is_held(job) || self.is_done(job)
    }

    /// Whether the opening is that of a job that isn't closed.
    fn is_unclosed(&self, opening: Option<&Opening>) -> bool
        ensures { result ≡ is_unclosed self.now.entries (option_copied opening.entry) }
    {
        match opening {
            Some(opening) => !self.is_closed(opening.job),
            None => false,
        }
    }

    /// What is kept of the flight.
    fn kept_of(&self, flight: u64) -> Flight
        ensures { IsFlight self.now.entries flight (Some result) }
    {
        self.index.flights.flight(flight)
    }

    /// What the book holds of the flight: the last that was recorded of it, and none where it has ended. Takes no memory.
    #[tactic(auto, unfolding(uss_law_book::specs::Attempts::held, uss_law_book::specs::Contents::holding))]
    pub fn held(&self, flight: u64) -> Option<&Pair>
        ensures { option_copied result ≡ held flight self.now.entries }
    {
        if self.kept_of(flight).ended {
            None
        } else {
            self.index.records.pair(flight)
        }
    }
}

impl Tells for Entries {
    ghost entries = { λ k. k.entries };

    fn jobs(&self) -> usize {
        self.index.jobs as usize
    }

    fn tags(&self) -> usize {
        self.index.tags as usize
    }

    fn opening(&self, job: u64) -> Option<&Opening> {
        opening_in(self.first(Mark::Opened(job)))
    }

    fn trial(&self, tag: u64) -> Option<&Trial> {
        trial_in(self.first(Mark::Pending(tag)))
    }

    fn holding(&self, job: u64) -> Option<&Holding> {
        holding_in(self.first(Mark::Held(job)))
    }

    fn decision(&self, job: u64) -> Option<&Closing> {
        decision_in(self.first(Mark::Deciding(job)))
    }

    fn ending(&self, job: u64) -> Option<&Closing> {
        ending_in(self.first(Mark::Done(job)))
    }

    fn is_held(&self, job: u64) -> bool {
        self.has(Mark::Held(job))
    }

    fn is_done(&self, job: u64) -> bool {
        self.has(Mark::Done(job))
    }

    fn attempts(&self, job: u64) -> usize {
        self.index.tallies.tally(job).attempts
    }

    fn owns(&self, job: u64, tag: u64) -> bool {
        // What is true of the index is brought to the proof.
        let _ = &self.index;
        is_by_job(job, self.trial(tag))
    }

    fn is_new(&self) -> bool {
        match self.as_slice() {
            [] => true,
            [_, ..] => false,
        }
    }

    fn has_ticket(&self, job: u64) -> bool {
        self.has(Mark::TicketOpen(job))
    }

    fn has_gone_entry(&self, job: u64) -> bool {
        self.has(Mark::TicketGone(job))
    }

    fn is_sent(&self, job: u64, index: u32) -> bool {
        self.has(Mark::Sent(job, index))
    }

    fn owner(&self) -> Option<&Owner> {
        match self.as_slice() {
            [Entry::Owner(owner), ..] => Some(owner),
            _ => None,
        }
    }

    fn open_job(&self, flight: u64) -> Option<&Opening> {
        // What is true of the index is brought to the proof.
        let _ = &self.index;
        let last = self.last(flight);
        if self.is_unclosed(last) { last } else { None }
    }

    fn last(&self, flight: u64) -> Option<&Opening> {
        opening_in(at(self.as_slice(), self.kept_of(flight).last))
    }

    fn has_ended(&self, flight: u64) -> bool {
        self.kept_of(flight).ended
    }

    fn last_holding(&self, flight: u64) -> Option<&Holding> {
        holding_in(at(self.as_slice(), self.kept_of(flight).recorded))
    }
}
