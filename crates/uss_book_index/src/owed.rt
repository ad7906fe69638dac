// Whom a closed job owes a notification, and which of these weren't answered.
ghost use Rattle.std.specs.Prelude.{◌≡◌, nat_le, find, length};
ghost use Rattle.std.specs.Option.{option_copied};
ghost use Rattle.uss_law_book.specs.Contents.{owed_at_end, owed_by, owed_of, unsent};

use crate::Entries;
use uss_book_rules::{Tells, owed_by as owed_length};
use uss_event::{Closing, Ending, Holding};
use uss_intent::Subscriber;

/// Whom a job owes a notification that ended so.
fn owed_at_end(end: &Ending) -> &[Subscriber]
    ensures { result.now ≡ owed_at_end end.now }
{
    match end {
        Ending::Ended { owed } => owed.as_slice(),
        Ending::Conflict { .. } | Ending::Stale { .. } | Ending::Cancelled => &[],
    }
}

/// Whom a job owes a notification that recorded this, or ended so.
fn owed_by<'a>(holding: Option<&'a Holding>, ending: Option<&'a Closing>) -> &'a [Subscriber]
    ensures { result.now ≡ owed_by (option_copied holding.entry) (option_copied ending.entry) }
{
    match (holding, ending) {
        (Some(holding), _) => holding.owed.as_slice(),
        (None, Some(ending)) => owed_at_end(&ending.end),
        (None, None) => &[],
    }
}

impl Entries {
    /// Whom the job owes a notification, answered or not: those that its record or its end names, and nobody while it is open. Takes no
    /// memory.
    #[tactic(auto, unfolding(uss_law_book::specs::Contents::owed_of))]
    pub fn owed(&self, job: u64) -> &[Subscriber]
        ensures { result.now ≡ owed_of job self.now.entries }
    {
        owed_by(self.holding(job), self.ending(job))
    }

    /// How many notifications the job owes, answered or not.
    fn owed_count(&self, job: u64) -> u32
        ensures { result ≡ length (owed_of job self.now.entries) }
    {
        // What is true of the index is brought to the proof.
        let _ = &self.index;
        owed_length(self, job) as u32
    }

    /// The least index, `from` or above, of the notifications that the job owes and that weren't answered. It looks up each index from
    /// `from` to there. Takes no memory.
    pub fn unsent(&self, job: u64, from: u32) -> Option<u32>
        ensures { result ≡ find (nat_le from) (unsent job self.now.entries) }
    {
        for index in from..self.owed_count(job) {
            if !self.is_sent(job, index) {
                return Some(index);
            }
        }
        None
    }
}
