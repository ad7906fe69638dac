// Whether an entry is due after those of a book.
ghost use Rattle.std.specs.Prelude.{◌≡◌, is_some, length};
ghost use Rattle.std.specs.Option.{option_copied, option_map, option_eq};
ghost use Rattle.uss_intent.specs.Same.{same_text};
ghost use Rattle.uss_law_book.specs.Contents.{puts, is_closed, is_open, is_put_job, is_ticket_gone, holding, is_by, needed_for, is_ticket_needed, owed_by, owed_of};
ghost use Rattle.uss_book_rules.specs.Due.{is_open_put, may_open_ticket, is_blind, fits_wish, fits_opening, may_try, may_hold, may_end_so, may_end_opening, may_decide, may_retire, may_send};

use crate::Tells;
use uss_event::{Closing, Ending, Holding, Opening, Wish};
use uss_intent::{MOST_OVNS, Ovn, Ovns};

/// Whether a job recorded something or ended.
pub fn is_closed<T: Tells>(book: &T, job: u64) -> bool
    ensures { result ≡ is_closed job (T.entries book.now) }
{
    book.is_held(job) || book.is_done(job)
}

fn wants_put(opening: Option<&Opening>) -> bool
    ensures { result ≡ puts (option_copied opening.entry) }
{
    match opening {
        Some(Opening { ask, .. }) => matches!(ask.wish, Wish::Put { .. }),
        _ => false,
    }
}

/// Whether a job is to record something.
fn is_put_job<T: Tells>(book: &T, job: u64) -> bool
    ensures { result ≡ is_put_job job (T.entries book.now) }
{
    wants_put(book.opening(job))
}

/// Whether a job was opened and isn't closed.
pub fn is_open<T: Tells>(book: &T, job: u64) -> bool
    ensures { result ≡ is_open job (T.entries book.now) }
{
    book.opening(job).is_some() && !is_closed(book, job)
}

/// Whether the job's ticket may be heard to be there.
#[tactic(auto, unfolding(crate::specs::Due::may_open_ticket, crate::specs::Due::is_open_put))]
pub fn may_open_ticket<T: Tells>(book: &T, job: u64) -> bool
    ensures { result ≡ may_open_ticket (T.entries book.now) job }
{
    is_put_job(book, job) && !is_closed(book, job) && !book.has_ticket(job)
}

/// Whether the job may record the attempt with the tag.
#[tactic(auto, unfolding(crate::specs::Due::may_hold))]
pub fn may_hold<T: Tells>(book: &T, job: u64, tag: u64) -> bool
    ensures { result ≡ may_hold (T.entries book.now) job tag }
{
    is_open(book, job) && book.owns(job, tag)
}

/// What is recorded of the flight: nothing once it has ended. Takes no memory.
#[tactic(auto, unfolding(uss_law_book::specs::Contents::holding))]
pub fn holding<T: Tells>(book: &T, flight: u64) -> Option<&Holding>
    ensures { option_copied result ≡ holding flight (T.entries book.now) }
{
    if book.has_ended(flight) {
        None
    } else {
        book.last_holding(flight)
    }
}

fn is_base(previous: &Option<Ovn>, recorded: Option<&Holding>) -> bool
    ensures { result ≡ option_eq same_text previous.now (option_map (λ h. h.ovn) (option_copied recorded.entry)) }
{
    match (previous, recorded) {
        (None, Some(_)) => false,
        (None, _) => true,
        (Some(previous), Some(Holding { ovn, .. })) => previous == ovn,
        (Some(_), _) => false,
    }
}

fn is_blind(keyed: bool, alternative: u8, key: &Ovns) -> bool
    ensures { result ≡ is_blind keyed alternative key.now }
{
    keyed || (alternative == 0 && key.is_empty())
}

fn fits_wish<T: Tells>(book: &T, job: u64, alternative: u8, key: &Ovns, wish: &Wish) -> bool
    ensures { result ≡ fits_wish (T.entries book.now) job alternative key.now wish.now }
{
    match wish {
        Wish::Put {
            to,
            rounds,
            proposals,
            ..
        } => {
            book.attempts(job) < usize::from(*rounds)
                && usize::from(alternative) < proposals.len()
                && is_blind(to.is_strategic(), alternative, key)
        }
        Wish::End => false,
    }
}

fn fits_opening<T: Tells>(
    book: &T,
    job: u64,
    alternative: u8,
    previous: &Option<Ovn>,
    key: &Ovns,
    opening: Option<&Opening>,
) -> bool
    ensures { result ≡ fits_opening (T.entries book.now) job alternative previous.now key.now (option_copied opening.entry) }
{
    match opening {
        Some(Opening { ask, .. }) => {
            is_base(previous, holding(book, ask.flight))
                && fits_wish(book, job, alternative, key, &ask.wish)
        }
        _ => false,
    }
}

fn is_decided(decision: Option<&Closing>) -> bool
    ensures { result ≡ is_some (option_copied decision.entry) }
{
    decision.is_some()
}

/// Whether the job may make this attempt.
#[tactic(auto, unfolding(crate::specs::Due::may_try))]
pub fn may_try<T: Tells>(
    book: &T,
    job: u64,
    tag: u64,
    alternative: u8,
    previous: &Option<Ovn>,
    key: &Ovns,
) -> bool
    ensures { result ≡ may_try (T.entries book.now) job tag alternative previous.now key.now }
{
    !is_closed(book, job)
        && book.has_ticket(job)
        && !is_decided(book.decision(job))
        && tag.checked_sub(1) == Some(book.tags() as u64)
        && key.len() <= MOST_OVNS
        && fits_opening(book, job, alternative, previous, key, book.opening(job))
}

fn may_end_so(tried: usize, rounds: u8, end: &Ending) -> bool
    ensures { result ≡ may_end_so tried rounds end.now }
{
    match end {
        Ending::Conflict { .. } | Ending::Cancelled => true,
        Ending::Stale { .. } => tried == usize::from(rounds),
        Ending::Ended { .. } => false,
    }
}

fn may_end_opening(tried: usize, end: &Ending, opening: Option<&Opening>) -> bool
    ensures { result ≡ may_end_opening tried end.now (option_copied opening.entry) }
{
    match opening {
        Some(Opening { ask, .. }) => match &ask.wish {
            Wish::Put { rounds, .. } => may_end_so(tried, *rounds, end),
            Wish::End => false,
        },
        _ => false,
    }
}

/// Whether the job may decide to make no further attempt, and to end so.
#[tactic(auto, unfolding(crate::specs::Due::may_decide))]
pub fn may_decide<T: Tells>(book: &T, job: u64, end: &Ending) -> bool
    ensures { result ≡ may_decide (T.entries book.now) job end.now }
{
    !is_closed(book, job)
        && 1 <= book.attempts(job)
        && !is_decided(book.decision(job))
        && may_end_opening(book.attempts(job), end, book.opening(job))
}

/// Whether the job's ticket was heard as gone.
#[tactic(auto, unfolding(uss_law_book::specs::Contents::is_ticket_gone))]
pub fn is_ticket_gone<T: Tells>(book: &T, job: u64) -> bool
    ensures { result ≡ is_ticket_gone job (T.entries book.now) }
{
    book.has_gone_entry(job) || (book.is_done(job) && is_decided(book.decision(job)))
}

fn is_by(job: u64, recorded: Option<&Holding>) -> bool
    ensures { result ≡ is_by job (option_copied recorded.entry) }
{
    match recorded {
        Some(Holding { job: by, .. }) => *by == job,
        _ => false,
    }
}

fn needed_for<T: Tells>(book: &T, job: u64, opening: Option<&Opening>) -> bool
    ensures { result ≡ needed_for job (T.entries book.now) (option_copied opening.entry) }
{
    match opening {
        Some(Opening { ask, .. }) => {
            !book.has_ended(ask.flight) && is_by(job, book.last_holding(ask.flight))
        }
        _ => false,
    }
}

/// Whether the job's ticket is needed while what the job recorded is the last of its flight.
#[tactic(auto, unfolding(uss_law_book::specs::Contents::is_ticket_needed))]
fn is_ticket_needed<T: Tells>(book: &T, job: u64) -> bool
    ensures { result ≡ is_ticket_needed job (T.entries book.now) }
{
    needed_for(book, job, book.opening(job))
}

/// Whether the job's ticket may be heard as gone.
#[tactic(auto, unfolding(crate::specs::Due::may_retire))]
pub fn may_retire<T: Tells>(book: &T, job: u64) -> bool
    ensures { result ≡ may_retire (T.entries book.now) job }
{
    is_put_job(book, job)
        && is_closed(book, job)
        && book.has_ticket(job)
        && !is_ticket_gone(book, job)
        && !is_ticket_needed(book, job)
}

/// How many a closed job is to notify.
fn owed_count(recorded: Option<&Holding>, ending: Option<&Closing>) -> usize
    ensures { result ≡ length (owed_by (option_copied recorded.entry) (option_copied ending.entry)) }
{
    match (recorded, ending) {
        (Some(Holding { owed, .. }), _) => owed.len(),
        (
            _,
            Some(
                Closing {
                    end: Ending::Ended { owed },
                    ..
                },
            ),
        ) => owed.len(),
        _ => 0,
    }
}

/// How many notifications a closed job owes, answered or not. Takes no memory.
#[tactic(auto, unfolding(uss_law_book::specs::Contents::owed_of))]
pub fn owed_by<T: Tells>(book: &T, job: u64) -> usize
    ensures { result ≡ length (owed_of job (T.entries book.now)) }
{
    owed_count(book.holding(job), book.ending(job))
}

/// Whether the notification with this index among those that the job owes may be answered.
#[tactic(auto, unfolding(crate::specs::Due::may_send, uss_law_book::specs::Contents::owed_of))]
pub fn may_send<T: Tells>(book: &T, job: u64, index: u32) -> bool
    ensures { result ≡ may_send (T.entries book.now) job index }
{
    is_closed(book, job)
        && (index as usize) < owed_count(book.holding(job), book.ending(job))
        && !book.is_sent(job, index)
}
