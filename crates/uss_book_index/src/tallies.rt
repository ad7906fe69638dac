ghost use Rattle.std.specs.Prelude.{◌≡◌, ◌≤◌, ◌+◌, ◌*◌, ◌++◌, ◌∷◌, [], ℕ, List, length, filter, sum_by, IsTrue, OnOk, if◌then◌else◌};
ghost use Rattle.std.specs.BTreeMap.{get};
ghost use Rattle.std.specs.Ordering.{nat_cmp};
ghost use Rattle.uss_event.specs.declared.entries.Entry.{Entry};
ghost use Rattle.uss_law_book.specs.Coding.{HasCoding, record_length};
ghost use Rattle.uss_law_book.specs.Lists.{trials};
ghost use Rattle.uss_law_book.specs.Contents.{trials_of};
ghost use Rattle.uss_book_rules.specs.Speaks.{job_of};
ghost use Rattle.uss_law_book.specs.Changes.{bytes_of, is_later_of};
ghost use Rattle.uss_book_index.specs.Tallies.{AreTallies, has_tally, CanGrow};

use crate::tally::Tally;
use std::alloc::{AllocError, Global};
use std::collections::BTreeMap;
use uss_book_codec::length_of;
use uss_event::{Closing, Entry, Holding, Opening, Sending, Trial};

/// What is counted of each job in a list of entries.
#[derive(Drop)]
pub(crate) struct Tallies {
    tallies: BTreeMap<u64, Tally>,
}

/// The job of an entry, and 0 for the owner's.
pub(crate) fn job_of(entry: &Entry) -> u64
    ensures { result ≡ job_of entry.now }
{
    match entry {
        Entry::Owner(_) => 0,
        Entry::Opened(Opening { job, .. })
        | Entry::TicketOpen { job }
        | Entry::Pending(Trial { job, .. })
        | Entry::Held(Holding { job, .. })
        | Entry::Deciding(Closing { job, .. })
        | Entry::Done(Closing { job, .. })
        | Entry::TicketGone { job }
        | Entry::Sent(Sending { job, .. }) => *job,
    }
}

/// The bytes that the entry adds to its job's.
fn added(entry: &Entry) -> u128
    requires { HasCoding entry.now }
    ensures value { result ≡ sum_by record_length (filter (is_later_of (job_of entry.now)) (entry.now ∷ [])) }
    ensures bound { result ≤ 2085482354 }
{
    match entry {
        Entry::Owner(_) | Entry::Opened(_) => 0,
        Entry::TicketOpen { .. }
        | Entry::Pending(_)
        | Entry::Held(_)
        | Entry::Deciding(_)
        | Entry::Done(_)
        | Entry::TicketGone { .. }
        | Entry::Sent(_) => 5 + u128::from(length_of(entry)),
    }
}

/// The attempts that the entry adds to its job's.
#[tactic(auto, unfolding(uss_law_book::specs::Contents::trials_of))]
fn tried(entry: &Entry) -> usize
    ensures value { result ≡ length (trials_of (job_of entry.now) (entry.now ∷ [])) }
    ensures bound { result ≤ 1 }
{
    match entry {
        Entry::Pending(_) => 1,
        Entry::Owner(_)
        | Entry::Opened(_)
        | Entry::TicketOpen { .. }
        | Entry::Held(_)
        | Entry::Deciding(_)
        | Entry::Done(_)
        | Entry::TicketGone { .. }
        | Entry::Sent(_) => 0,
    }
}

impl Tallies {
    /// Of no entry. Takes no memory.
    pub(crate) fn new(alloc: Global) -> Tallies
        ensures { AreTallies result.tallies [] }
    {
        Tallies {
            tallies: BTreeMap::new(alloc),
        }
    }

    /// Makes room for what is counted of this job.
    pub(crate) fn make_room(&mut self, job: u64) -> Result<(), AllocError>
        ensures kept { (es : List Entry) → AreTallies self.old.tallies es → AreTallies self.new.tallies es }
        ensures room { OnOk result (IsTrue (has_tally self.new.tallies job)) }
    {
        if self.tallies.contains_key(&job) {
            return Ok(());
        }
        let none = Tally {
            attempts: 0,
            bytes: 0,
        };
        match self.tallies.insert(job, none) {
            Ok(_) => Ok(()),
            Err(_) => Err(AllocError),
        }
    }

    /// Counts an entry. Takes no memory.
    pub(crate) fn enter(&mut self, e: &Entry)
        requires coding { HasCoding e.now }
        requires room { IsTrue (has_tally self.old.tallies (job_of e.now)) }
        requires fits { CanGrow (get nat_cmp self.old.tallies (job_of e.now)) e.now }
        ensures { (es : List Entry) → AreTallies self.old.tallies es → AreTallies self.new.tallies (es ++ e.now ∷ []) }
    {
        let job = job_of(e);
        match self.tallies.get(&job) {
            Some(tally) => {
                let more = Tally {
                    attempts: tally.attempts + tried(e),
                    bytes: tally.bytes + added(e),
                };
                let _ = self.tallies.insert(job, more);
            }
            None => {}
        }
    }

    /// What is counted of the job.
    pub(crate) fn tally(&self, job: u64) -> Tally
        ensures attempts { (es : List Entry) → AreTallies self.now.tallies es → result.attempts ≡ length (trials_of job es) }
        ensures bytes { (es : List Entry) → AreTallies self.now.tallies es → result.bytes ≡ bytes_of job es }
        ensures small { (es : List Entry) → AreTallies self.now.tallies es → result.bytes ≤ 2085482354 * length es }
    {
        match self.tallies.get(&job) {
            Some(tally) => *tally,
            None => Tally {
                attempts: 0,
                bytes: 0,
            },
        }
    }
}
