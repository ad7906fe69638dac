ghost use Rattle.std.specs.Prelude.{◌≡◌, List, length};
ghost use Rattle.std.specs.Option.{option_copied};
ghost use Rattle.uss_intent.specs.Numbers.{is_one_of};
ghost use Rattle.uss_event.specs.declared.entries.Entry.{Entry};
ghost use Rattle.uss_law_book.specs.Legal.{is_new};
ghost use Rattle.uss_law_book.specs.Lists.{owner_of, openings, trials, tickets_gone};
ghost use Rattle.uss_law_book.specs.Contents.{opening_of, is_held, is_done, trials_of, trial_of, owns, decision_of, holding_of, ending_of, open_job_of, last_of, has_ended, last_holding, is_ticket_open, is_sent};

use uss_event::{Closing, Holding, Opening, Owner, Trial};

/// What a book tells, in whatever form it is kept. No answer takes memory.
pub trait Tells {
    /// The entries, the oldest first.
    ghost entries: { Self → List Entry };

    /// Whether the book has no entry yet.
    fn is_new(&self) -> bool
        ensures { result ≡ is_new (entries self.now) };

    /// How many jobs were opened.
    fn jobs(&self) -> usize
        ensures { result ≡ length (openings (entries self.now)) };

    /// How many attempts were made.
    fn tags(&self) -> usize
        ensures { result ≡ length (trials (entries self.now)) };

    /// The opening of a job.
    fn opening(&self, job: u64) -> Option<&Opening>
        ensures { option_copied result ≡ opening_of job (entries self.now) };

    /// The attempt with a tag.
    fn trial(&self, tag: u64) -> Option<&Trial>
        ensures { option_copied result ≡ trial_of tag (entries self.now) };

    /// What a job recorded.
    fn holding(&self, job: u64) -> Option<&Holding>
        ensures { option_copied result ≡ holding_of job (entries self.now) };

    /// How a job that makes no further attempt is to end.
    fn decision(&self, job: u64) -> Option<&Closing>
        ensures { option_copied result ≡ decision_of job (entries self.now) };

    /// How a job ended that recorded nothing.
    fn ending(&self, job: u64) -> Option<&Closing>
        ensures { option_copied result ≡ ending_of job (entries self.now) };

    /// Whether a job recorded something.
    fn is_held(&self, job: u64) -> bool
        ensures { result ≡ is_held job (entries self.now) };

    /// Whether a job ended without recording anything.
    fn is_done(&self, job: u64) -> bool
        ensures { result ≡ is_done job (entries self.now) };

    /// How many attempts a job made.
    fn attempts(&self, job: u64) -> usize
        ensures { result ≡ length (trials_of job (entries self.now)) };

    /// Whether the tag is that of an attempt of the job.
    fn owns(&self, job: u64, tag: u64) -> bool
        ensures { result ≡ owns job tag (entries self.now) };

    /// Whether a job's ticket was heard to be there.
    fn has_ticket(&self, job: u64) -> bool
        ensures { result ≡ is_ticket_open job (entries self.now) };

    /// Whether an entry of its own says that a closed job's ticket is gone.
    fn has_gone_entry(&self, job: u64) -> bool
        ensures { result ≡ is_one_of job (tickets_gone (entries self.now)) };

    /// Whether the notification with this index among those that a job owes was answered.
    fn is_sent(&self, job: u64, index: u32) -> bool
        ensures { result ≡ is_sent job index (entries self.now) };

    /// Whose book it is.
    fn owner(&self) -> Option<&Owner>
        ensures { option_copied result ≡ owner_of (entries self.now) };

    /// The opening of the flight's open job.
    fn open_job(&self, flight: u64) -> Option<&Opening>
        ensures { option_copied result ≡ open_job_of flight (entries self.now) };

    /// The opening of the flight's request with the greatest number.
    fn last(&self, flight: u64) -> Option<&Opening>
        ensures { option_copied result ≡ last_of flight (entries self.now) };

    /// Whether the flight has ended.
    fn has_ended(&self, flight: u64) -> bool
        ensures { result ≡ has_ended flight (entries self.now) };

    /// What was recorded last of the flight, whether it has ended or not.
    fn last_holding(&self, flight: u64) -> Option<&Holding>
        ensures { option_copied result ≡ last_holding flight (entries self.now) };
}
