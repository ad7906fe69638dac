ghost use Rattle.std.specs.Prelude.{◌≡◌, ◌&&◌, ◌++◌, not, nat_lt, nat_eq, option_copied, if◌then◌else◌};
ghost use Rattle.uss_vol4.specs.Sharing.{any_shares};
ghost use Rattle.uss_intent.specs.States.{is_strategic};
ghost use Rattle.uss_intent.specs.Numbers.{is_one_of};
ghost use Rattle.uss_event.specs.Plans.{extents_of};
ghost use Rattle.uss_event.specs.Verdicts.{is_activated, meet, is_excepted, verdict};
ghost use Rattle.uss_event.specs.Candidates.{candidate, flown};

use crate::{Candidate, Details, Pair, RuleTable, Verdict};
use uss_intent::{FlightId, State};
use uss_vol4::Volume4;

fn is_activated(state: State) -> bool
    ensures { result ≡ is_activated state }
{
    match state {
        State::Activated => true,
        State::Accepted | State::Nonconforming | State::Contingent => false,
    }
}

fn any_shares(a: &[Volume4], b: &[Volume4]) -> bool
    ensures { result ≡ any_shares a.now b.now }
{
    Volume4::any_shared(a, b).is_some()
}

/// Whether one of the volumes shares with an extent of the other intent.
#[tactic(auto, using(crate::proofs::SharedExtents::shares_with_both))]
fn shares_with(volumes: &[Volume4], other: &Details) -> bool
    ensures { result ≡ any_shares volumes.now (extents_of other.now) }
{
    any_shares(volumes, other.volumes.as_slice())
        || any_shares(volumes, other.off_nominal.as_slice())
}

/// Whether one of the volumes and off-nominal volumes shares with an extent of the other intent.
#[tactic(auto, using(crate::proofs::SharedExtents::both_share))]
fn share_with(volumes: &[Volume4], off_nominal: &[Volume4], other: &Details) -> bool
    ensures { result ≡ any_shares (volumes.now ++ off_nominal.now) (extents_of other.now) }
{
    shares_with(volumes, other) || shares_with(off_nominal, other)
}

/// Whether both are intents of different flights, in states in which conflict is looked at.
fn are_looked_at(flight: FlightId, state: State, pair: &Pair) -> bool
    ensures { result ≡ ((is_strategic state && is_strategic pair.now.reference.state) && not (nat_eq flight pair.now.reference.flight)) }
{
    let reference = pair.reference();
    state.is_strategic() && reference.state.is_strategic() && flight != reference.flight
}

/// Whether the table or the order of the priorities speaks against the candidate, if the two share.
fn is_weaker(table: &RuleTable, priority: u16, other: u16) -> bool
    ensures { result ≡ (if nat_eq priority other then is_one_of priority table.now else nat_lt priority other) }
{
    if priority == other {
        table.forbids(priority)
    } else {
        priority < other
    }
}

/// Whether the flight is flown, and what was recorded of it before is flown and shares with the pair already.
fn is_excepted(state: State, pair: &Pair, previous: Option<&Pair>) -> bool
    ensures { result ≡ is_excepted (flown state) pair.now (option_copied previous.entry) }
{
    match previous {
        None => false,
        Some(before) => {
            let details = before.details();
            is_activated(state)
                && is_activated(before.reference().state)
                && share_with(
                    details.volumes.as_slice(),
                    details.off_nominal.as_slice(),
                    pair.details(),
                )
        }
    }
}

/// What comes of holding the candidate with this flight, state and priority, and with the volumes and the off-nominal volumes as its
/// extents, against the pair, where `previous` is the pair of its own flight that it would replace. Takes no memory, and makes no
/// candidate.
pub fn verdict_of(
    table: &RuleTable,
    flight: FlightId,
    state: State,
    priority: u16,
    volumes: &[Volume4],
    off_nominal: &[Volume4],
    pair: &Pair,
    previous: Option<&Pair>,
) -> Verdict
    ensures { result ≡ verdict table.now (candidate flight state priority volumes.now off_nominal.now) pair.now (option_copied previous.entry) }
{
    let details = pair.details();
    if !are_looked_at(flight, state, pair) || !is_weaker(table, priority, details.priority) {
        return Verdict::Clear;
    }
    if !share_with(volumes, off_nominal, details) {
        return Verdict::Clear;
    }
    if priority == details.priority {
        return Verdict::EqualForbidden;
    }
    if is_excepted(state, pair, previous) {
        return Verdict::Clear;
    }
    Verdict::HigherStands
}

/// What comes of holding the candidate against the pair, where `previous` is the pair of its own flight that it would replace: the
/// planner records nothing beside a pair unless this is `Clear`. Takes no memory.
pub fn verdict(table: &RuleTable, c: &Candidate, p: &Pair, previous: Option<&Pair>) -> Verdict
    ensures { result ≡ verdict table.now c.now p.now (option_copied previous.entry) }
{
    verdict_of(
        table,
        c.flight,
        c.state,
        c.priority,
        c.volumes.as_slice(),
        &[],
        p,
        previous,
    )
}
