// Ranges of time: what lasts within one shares with nothing that is over before it or begins after it.
ghost use Rattle.std.specs.Prelude.{◌≡◌, ◌++◌, true, false, List};
ghost use Rattle.std.specs.Int.{int_min, int_max};
ghost use Rattle.uss_vol4.specs.Volume.{Volume4D};
ghost use Rattle.uss_vol4.specs.Sharing.{any_shares};
ghost use Rattle.uss_event.specs.Plans.{extents_of};
ghost use Rattle.uss_plan.specs.Times.{joined, all_joined, are_within};

use uss_event::{Pair, Proposal};
use uss_vol4::Volume4;

/// A range of time, in ns since 1970-01-01T00:00:00Z. That of no volume begins after its end.
#[derive(Clone, Copy, Drop)]
pub(crate) struct Times {
    pub(crate) start: i64,
    pub(crate) end: i64,
}

fn lesser(a: i64, b: i64) -> i64
    ensures { result ≡ int_min a b }
{
    a.min(b)
}

fn greater(a: i64, b: i64) -> i64
    ensures { result ≡ int_max a b }
{
    a.max(b)
}

fn joined(t: Times, v: &Volume4) -> Times
    ensures { result ≡ joined t v.now }
{
    Times {
        start: lesser(t.start, v.start()),
        end: greater(t.end, v.end()),
    }
}

fn all_joined(t: Times, volumes: &[Volume4]) -> Times
    ensures { result ≡ all_joined t volumes.now }
{
    volumes.iter().fold(t, |t, v| joined(t, v))
}

/// From the least start of an alternative's extents to their greatest end.
#[tactic(auto, using(crate::proofs::Apart::within_both))]
pub(crate) fn times_of(proposal: &Proposal) -> Times
    ensures { are_within result (proposal.now.volumes ++ proposal.now.off_nominal) ≡ true }
{
    let none = Times {
        start: i64::MAX,
        end: i64::MIN,
    };
    let some = all_joined(none, proposal.volumes.as_slice());
    all_joined(some, proposal.off_nominal.as_slice())
}

/// Whether the intent is over before the range begins, or begins after its end.
pub(crate) fn is_apart(t: Times, pair: &Pair) -> bool
    ensures { result ≡ true → (volumes : List Volume4D) → are_within t volumes ≡ true → any_shares volumes (extents_of pair.now.details) ≡ false }
{
    let reference = pair.reference();
    reference.end < t.start || t.end < reference.start
}
