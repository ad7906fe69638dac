// Whether a job may end without recording anything.
ghost use Rattle.std.specs.Prelude.{◌≡◌};
ghost use Rattle.std.specs.Option.{option_copied};
ghost use Rattle.uss_law_book.specs.Contents.{is_ended};
ghost use Rattle.uss_book_rules.specs.Ends.{same_rule, same_ending, is_decided_so, ends_untried, ends_put, ends_wish, ends_opening, may_end};

use crate::Tells;
use crate::due::is_closed;
use uss_event::{Closing, Ending, Opening, Verdict, Wish};

fn same_rule(a: Verdict, b: Verdict) -> bool
    ensures { result ≡ same_rule a b }
{
    match (a, b) {
        (Verdict::Clear, Verdict::Clear)
        | (Verdict::EqualForbidden, Verdict::EqualForbidden)
        | (Verdict::HigherStands, Verdict::HigherStands) => true,
        _ => false,
    }
}

/// Whether two endings are the same.
fn same_ending(a: &Ending, b: &Ending) -> bool
    ensures { result ≡ same_ending a.now b.now }
{
    match a {
        Ending::Conflict {
            flight,
            manager,
            rule,
        } => match b {
            Ending::Conflict {
                flight: f,
                manager: m,
                rule: r,
            } => flight == f && manager == m && same_rule(*rule, *r),
            _ => false,
        },
        Ending::Stale { missing } => matches!(b, Ending::Stale { missing: m } if missing == m),
        Ending::Cancelled => matches!(b, Ending::Cancelled),
        Ending::Ended { owed } => matches!(b, Ending::Ended { owed: o } if owed == o),
    }
}

fn is_decided_so(job: u64, end: &Ending, decision: Option<&Closing>) -> bool
    ensures { result ≡ is_decided_so job end.now (option_copied decision.entry) }
{
    match decision {
        Some(
            Closing {
                job: by,
                end: decided,
            },
        ) => *by == job && same_ending(decided, end),
        _ => false,
    }
}

fn ends_untried(ticket_open: bool, end: &Ending) -> bool
    ensures { result ≡ ends_untried ticket_open end.now }
{
    match end {
        Ending::Conflict { .. } => ticket_open,
        Ending::Cancelled => true,
        Ending::Stale { .. } | Ending::Ended { .. } => false,
    }
}

fn ends_put<T: Tells>(book: &T, job: u64, end: &Ending) -> bool
    ensures { result ≡ ends_put (T.entries book.now) job end.now }
{
    is_decided_so(job, end, book.decision(job))
        || (book.attempts(job) == 0 && ends_untried(book.has_ticket(job), end))
}

fn is_ended(end: &Ending) -> bool
    ensures { result ≡ is_ended end.now }
{
    matches!(end, Ending::Ended { .. })
}

fn ends_wish<T: Tells>(book: &T, job: u64, end: &Ending, wish: &Wish) -> bool
    ensures { result ≡ ends_wish (T.entries book.now) job end.now wish.now }
{
    match wish {
        Wish::Put { .. } => ends_put(book, job, end),
        Wish::End => is_ended(end),
    }
}

fn ends_opening<T: Tells>(book: &T, job: u64, end: &Ending, opening: Option<&Opening>) -> bool
    ensures { result ≡ ends_opening (T.entries book.now) job end.now (option_copied opening.entry) }
{
    match opening {
        Some(Opening { ask, .. }) => ends_wish(book, job, end, &ask.wish),
        _ => false,
    }
}

/// Whether the job may end so: as it decided, or without an attempt, or with its flight.
#[tactic(auto, unfolding(crate::specs::Ends::may_end))]
pub fn may_end<T: Tells>(book: &T, job: u64, end: &Ending) -> bool
    ensures { result ≡ may_end (T.entries book.now) job end.now }
{
    !is_closed(book, job) && ends_opening(book, job, end, book.opening(job))
}
