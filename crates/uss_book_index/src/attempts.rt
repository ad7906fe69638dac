// The attempts of a job, by their numbers.
ghost use Rattle.std.specs.Prelude.{◌≡◌, slice_get, None};
ghost use Rattle.std.specs.List.{last_or};
ghost use Rattle.std.specs.Option.{option_copied};
ghost use Rattle.uss_law_book.specs.Contents.{trials_of};
ghost use Rattle.uss_book_index.specs.Ordinals.{IsPlaceOf};

use crate::Entries;
use crate::indexed::{at, trial_in};
use crate::ordinal::Ordinal;
use uss_book_rules::Tells;
use uss_event::Trial;

impl Entries {
    /// Where the attempt stands.
    fn place_of(&self, ordinal: Ordinal) -> Option<usize>
        ensures { IsPlaceOf self.now.entries result (slice_get (trials_of ordinal.job self.now.entries) ordinal.number) }
    {
        self.index.ordinals.place(ordinal)
    }

    /// The job's attempt with this number among the job's, from 0, the oldest first. Takes no memory.
    pub fn trial_at(&self, job: u64, number: usize) -> Option<&Trial>
        ensures { option_copied result ≡ slice_get (trials_of job self.now.entries) number }
    {
        trial_in(at(self.as_slice(), self.place_of(Ordinal { job, number })))
    }

    /// The job's last attempt. Takes no memory.
    pub fn last_trial(&self, job: u64) -> Option<&Trial>
        ensures { option_copied result ≡ last_or None (trials_of job self.now.entries) }
    {
        let made = self.attempts(job);
        if made == 0 {
            None
        } else {
            self.trial_at(job, made - 1)
        }
    }
}
