// Whether a job may be opened.
ghost use Rattle.std.specs.Prelude.{◌≡◌, is_some};
ghost use Rattle.std.specs.List.{list_all};
ghost use Rattle.std.specs.Option.{option_copied};
ghost use Rattle.uss_event.specs.Plans.{is_plan};
ghost use Rattle.uss_law_book.specs.Attempts.{held_state};
ghost use Rattle.uss_book_rules.specs.States.{state_by_wish, state_by_opening, state_by_owner, state_by_trial, state_by_holding};
ghost use Rattle.uss_book_rules.specs.Due.{are_plans, may_wish, is_later, may_open};

use crate::Tells;
use crate::due::holding;
use uss_event::{FlightAsk, Holding, Opening, Owner, Proposal, Trial, Wish, may_go, refusal_of};
use uss_intent::State;
use uss_vol4::Volume4;

fn state_by_wish(alternative: u8, wish: &Wish) -> Option<State>
    ensures { result ≡ state_by_wish alternative wish.now }
{
    match wish {
        Wish::Put { to, proposals, .. } => {
            if usize::from(alternative) < proposals.len() {
                Some(*to)
            } else {
                None
            }
        }
        Wish::End => None,
    }
}

fn state_by_opening(alternative: u8, opening: Option<&Opening>) -> Option<State>
    ensures { result ≡ state_by_opening alternative (option_copied opening.entry) }
{
    match opening {
        Some(Opening { ask, .. }) => state_by_wish(alternative, &ask.wish),
        _ => None,
    }
}

fn state_by_owner(
    owner: Option<&Owner>,
    alternative: u8,
    opening: Option<&Opening>,
) -> Option<State>
    ensures { result ≡ state_by_owner (option_copied owner.entry) alternative (option_copied opening.entry) }
{
    match owner {
        Some(_) => state_by_opening(alternative, opening),
        None => None,
    }
}

fn state_by_trial<T: Tells>(book: &T, trial: Option<&Trial>) -> Option<State>
    ensures { result ≡ state_by_trial (T.entries book.now) (option_copied trial.entry) }
{
    match trial {
        Some(
            Trial {
                job,
                alternative,
                ..
            },
        ) => state_by_owner(book.owner(), *alternative, book.opening(*job)),
        _ => None,
    }
}

fn state_by_holding<T: Tells>(book: &T, recorded: Option<&Holding>) -> Option<State>
    ensures { result ≡ state_by_holding (T.entries book.now) (option_copied recorded.entry) }
{
    match recorded {
        Some(Holding { tag, .. }) => state_by_trial(book, book.trial(*tag)),
        _ => None,
    }
}

/// The state of what is held of the flight.
fn held_state<T: Tells>(book: &T, flight: u64) -> Option<State>
    ensures { result ≡ held_state flight (T.entries book.now) }
{
    state_by_holding(book, holding(book, flight))
}

fn is_plan(to: State, priority: u16, proposal: &Proposal) -> bool
    ensures { result ≡ is_plan to proposal.now.volumes proposal.now.off_nominal priority }
{
    refusal_of(
        to,
        proposal.volumes.as_slice(),
        proposal.off_nominal.as_slice(),
        priority,
    )
    .is_none()
}

fn are_each_plans(to: State, priority: u16, proposals: &[Proposal]) -> bool
    ensures { result ≡ list_all (λ p. is_plan to p.volumes p.off_nominal priority) proposals.now }
{
    proposals.iter().all(|p| is_plan(to, priority, p))
}

#[tactic(auto, unfolding(crate::specs::Due::are_plans))]
fn are_plans(to: State, priority: u16, rounds: u8, proposals: &[Proposal]) -> bool
    ensures { result ≡ are_plans to priority rounds proposals.now }
{
    1 <= rounds
        && rounds <= 16
        && 1 <= proposals.len()
        && proposals.len() <= 8
        && are_each_plans(to, priority, proposals)
}

fn may_wish(old: Option<State>, wish: &Wish) -> bool
    ensures { result ≡ may_wish old wish.now }
{
    match wish {
        Wish::Put {
            to,
            priority,
            rounds,
            proposals,
        } => are_plans(*to, *priority, *rounds, proposals.as_slice()) && may_go(old, *to),
        Wish::End => old.is_some(),
    }
}

fn is_later(ask: &FlightAsk, last: Option<&Opening>) -> bool
    ensures { result ≡ is_later ask.now (option_copied last.entry) }
{
    match last {
        Some(Opening { ask: last, .. }) => last.number < ask.number,
        _ => true,
    }
}

fn is_opening(opening: Option<&Opening>) -> bool
    ensures { result ≡ is_some (option_copied opening.entry) }
{
    opening.is_some()
}

/// Whether the job may be opened for this request: it has the next number, the flight has no open job and hasn't ended, the request is
/// later than each other one for the flight, and what it wishes is a plan that the flight may go to.
#[tactic(auto, unfolding(crate::specs::Due::may_open))]
pub fn may_open<T: Tells>(book: &T, job: u64, ask: &FlightAsk) -> bool
    ensures { result ≡ may_open (T.entries book.now) job ask.now }
{
    job.checked_sub(1) == Some(book.jobs() as u64)
        && !is_opening(book.open_job(ask.flight))
        && !book.has_ended(ask.flight)
        && is_later(ask, book.last(ask.flight))
        && may_wish(held_state(book, ask.flight), &ask.wish)
}
