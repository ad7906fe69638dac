ghost use Rattle.std.specs.Prelude.{◌≡◌, ◌<◌, ◌≤◌, ◌++◌, length, drop, option_copied, is_none, IfSome, true, false};
ghost use Rattle.std.specs.Option.{option_map};
ghost use Rattle.uss_plan.specs.Firsts.{first_from, first_passing};
ghost use Rattle.uss_plan.specs.Times.{are_within};
ghost use Rattle.uss_plan.specs.Choice.{wanted, is_clear, verdict_on, stands, is_free, choice, IsOf};

use crate::times::{Times, is_apart, times_of};
use uss_event::{Pair, Proposal, Proposals, RuleTable, Verdict, verdict_of};
use uss_intent::{FlightId, State};

/// What comes of a request's alternatives.
#[derive(Clone, Copy, Debug, PartialEq, Eq)]
pub enum Choice {
    /// Nothing stands against this alternative, counted from 0, and something stands against each before it.
    Chosen { alternative: u8 },
    /// Something stands against each alternative: against the first of them the pair at this place, counted from 0, by this verdict, and
    /// none before it.
    Blocked { place: usize, rule: Verdict },
}

fn is_clear(rule: Verdict) -> bool
    ensures { result ≡ is_clear rule }
{
    match rule {
        Verdict::Clear => true,
        Verdict::EqualForbidden | Verdict::HigherStands => false,
    }
}

/// What comes of holding the proposal, whose extents are within these times, against the pair: nothing where the pair's times are apart
/// from them, and only else are its volumes looked at.
#[tactic(auto, unfolding(crate::specs::Choice::verdict_on))]
fn verdict_on(
    times: Times,
    table: &RuleTable,
    flight: FlightId,
    to: State,
    priority: u16,
    proposal: &Proposal,
    pair: &Pair,
    previous: Option<&Pair>,
) -> Verdict
    requires { are_within times (proposal.now.volumes ++ proposal.now.off_nominal) ≡ true }
    ensures { result ≡ verdict_on (wanted table.now flight to priority (option_copied previous.entry)) proposal.now pair.now }
{
    if is_apart(times, pair) {
        return Verdict::Clear;
    }
    verdict_of(
        table,
        flight,
        to,
        priority,
        proposal.volumes.as_slice(),
        proposal.off_nominal.as_slice(),
        pair,
        previous,
    )
}

/// The place of the first pair that stands against the proposal, and by which verdict.
fn first_standing(
    table: &RuleTable,
    flight: FlightId,
    to: State,
    priority: u16,
    proposal: &Proposal,
    pairs: &[Pair],
    previous: Option<&Pair>,
) -> Option<(usize, Verdict)>
    ensures first { let w = wanted table.now flight to priority (option_copied previous.entry) in
        result ≡ option_map (λ found. (found.0, verdict_on w proposal.now found.1)) (first_passing (stands w proposal.now) pairs.now) }
    ensures free { is_none result ≡ is_free (wanted table.now flight to priority (option_copied previous.entry)) pairs.now proposal.now }
    ensures some { IfSome result (λ r. (r.0 < length pairs.now) × (is_clear r.1 ≡ false)) }
{
    let times = times_of(proposal);
    for (place, pair) in pairs.iter().enumerate() {
        let rule = verdict_on(times, table, flight, to, priority, proposal, pair, previous);
        if !is_clear(rule) {
            return Some((place, rule));
        }
    }
    None
}

/// The first proposal from this place on against which no pair stands.
fn first_free(
    table: &RuleTable,
    flight: FlightId,
    to: State,
    priority: u16,
    proposals: &[Proposal],
    from: usize,
    pairs: &[Pair],
    previous: Option<&Pair>,
) -> Option<usize>
    requires { from ≤ length proposals.now }
    ensures first { let w = wanted table.now flight to priority (option_copied previous.entry) in
        result ≡ option_map (λ found. found.0) (first_from from (is_free w pairs.now) (drop from proposals.now)) }
    ensures some { IfSome result (λ k. k < length proposals.now) }
{
    for alternative in from..proposals.len() {
        let proposal = &proposals[alternative];
        if first_standing(table, flight, to, priority, proposal, pairs, previous).is_none() {
            return Some(alternative);
        }
    }
    None
}

/// The least of the proposals against which no pair stands, as an intent of this flight that goes to this state at this priority. Where
/// there is none, the first pair that stands against the first proposal, with the verdict: the pairs ascend by flight, so it is that of
/// the least flight. `previous` is the pair of the flight itself that it would replace. Takes no memory.
pub fn choose(
    table: &RuleTable,
    flight: FlightId,
    to: State,
    priority: u16,
    proposals: &Proposals,
    pairs: &[Pair],
    previous: Option<&Pair>,
) -> Choice
    requires some { 0 < length proposals.now }
    requires few { length proposals.now ≤ 8 }
    ensures best { result ≡ choice (wanted table.now flight to priority (option_copied previous.entry)) proposals.now pairs.now }
    ensures of { IsOf proposals.now pairs.now result }
{
    let proposals = proposals.as_slice();
    let first = first_standing(table, flight, to, priority, &proposals[0], pairs, previous);
    let Some((place, rule)) = first else {
        return Choice::Chosen { alternative: 0 };
    };
    match first_free(table, flight, to, priority, proposals, 1, pairs, previous) {
        Some(alternative) => Choice::Chosen {
            alternative: alternative as u8,
        },
        None => Choice::Blocked { place, rule },
    }
}
