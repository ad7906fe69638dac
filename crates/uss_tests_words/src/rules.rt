//! Details, tables of rules, transitions, verdicts and copies with known answers.

use crate::fixtures::{EARLY, LATE, intent, proposal, square, squares};
use std::alloc::Global;
use std::test::Fail;
use uss_event::{
    Candidate, Details, DetailsRefusal, Pair, Proposal, RuleTable, Verdict, may_go, verdict,
};
use uss_intent::{State, Volumes, flight_id};
use uss_shape::{Outline, Place};
use uss_vol4::Volume4;

// ---- copies

fn same_details(a: &Details, b: &Details) -> bool {
    a.volumes == b.volumes && a.off_nominal == b.off_nominal && a.priority == b.priority
}

fn is_pair_copied(pair: &Pair) -> bool {
    match pair.clone() {
        Ok(copy) => {
            copy.reference() == pair.reference() && same_details(copy.details(), pair.details())
        }
        Err(_) => false,
    }
}

fn are_details_copied(details: &Details) -> bool {
    match details.clone() {
        Ok(copy) => same_details(&copy, details),
        Err(_) => false,
    }
}

fn is_proposal_copied(proposal: &Proposal) -> bool {
    match proposal.clone() {
        Ok(copy) => { copy.volumes == proposal.volumes && copy.off_nominal == proposal.off_nominal }
        Err(_) => false,
    }
}

fn is_table_copied(table: &RuleTable) -> bool {
    match table.clone() {
        Ok(copy) => copy.priorities() == table.priorities(),
        Err(_) => false,
    }
}

fn is_intent_copied(alloc: Global) -> Result<bool, Fail> {
    let pair = intent(alloc, flight_id(2, 1), State::Activated, 7, 20)?;
    Ok(is_pair_copied(&pair) && are_details_copied(pair.details()))
}

fn is_alternative_copied(alloc: Global) -> Result<bool, Fail> {
    let mut proposal = proposal(alloc, 1)?;
    proposal.off_nominal = squares(alloc, &[2, 3])?;
    Ok(is_proposal_copied(&proposal))
}

fn is_list_copied(alloc: Global) -> Result<bool, Fail> {
    let table = RuleTable::of(alloc, &[5, 0, 1000])?;
    Ok(is_table_copied(&table))
}

#[test]
fn copies_are_the_same(rt: HostRuntime) -> Result<(), Fail> {
    let alloc = rt.alloc();
    assert!(rt; is_intent_copied(alloc)?);
    assert!(rt; is_alternative_copied(alloc)?);
    assert!(rt; is_list_copied(alloc)?);
    Ok(())
}

// ---- details and tables of rules

// Eleven volumes of 1,000 vertices each have too many together.
fn winding(alloc: Global) -> Result<Volume4, Fail> {
    let mut vertices = Vec::new(alloc);
    for i in 0..1000i64 {
        vertices.push(Place { x: i, y: i % 2 })?;
    }
    let outline = Outline::of(vertices)?;
    Ok(Volume4::of(outline, 0, 100, EARLY, LATE)?)
}

fn one(alloc: Global, is_winding: bool) -> Result<Volume4, Fail> {
    if is_winding {
        winding(alloc)
    } else {
        square(alloc, 0)
    }
}

fn many(alloc: Global, count: usize, is_winding: bool) -> Result<Volumes, Fail> {
    let mut volumes = Volumes::new(alloc);
    for _ in 0..count {
        volumes.push(one(alloc, is_winding)?)?;
    }
    Ok(volumes)
}

fn refused<T: Drop>(made: Result<T, DetailsRefusal>) -> u16 {
    match made {
        Ok(_) => 0,
        Err(refusal) => refusal.number().unwrap_or(999),
    }
}

// The state, how many volumes and off-nominal volumes, whether they wind, the priority, and the refusal, 0 where they are accepted.
type Judged = (State, usize, usize, bool, u16, u16);

const JUDGED: [Judged; 9] = [
    (State::Accepted, 64, 0, false, 1000, 0),
    (State::Contingent, 60, 4, false, 0, 0),
    (State::Accepted, 60, 5, false, 1001, 121),
    (State::Accepted, 10, 0, true, 0, 0),
    (State::Accepted, 9, 2, true, 1001, 122),
    (State::Accepted, 0, 1, false, 1001, 123),
    (State::Activated, 1, 1, false, 0, 123),
    (State::Contingent, 0, 0, false, 1001, 124),
    (State::Contingent, 0, 1, false, 1001, 125),
];

fn is_judged_so(alloc: Global, row: &Judged) -> Result<bool, Fail> {
    let (state, volumes, off_nominal, is_winding, priority, refusal) = *row;
    let volumes = many(alloc, volumes, is_winding)?;
    let off_nominal = many(alloc, off_nominal, is_winding)?;
    Ok(refused(Details::of(state, volumes, off_nominal, priority)) == refusal)
}

#[test]
fn details_are_judged(rt: HostRuntime) -> Result<(), Fail> {
    for row in JUDGED.iter() {
        assert!(rt; is_judged_so(rt.alloc(), row)?);
    }
    Ok(())
}

fn is_table_in_order(alloc: Global) -> Result<bool, Fail> {
    let table = RuleTable::of(alloc, &[100, 0, 1000, 100, 0])?;
    let listed = table.priorities() == [0, 100, 1000].as_slice();
    Ok(listed && table.forbids(100) && !table.forbids(5))
}

#[test]
fn tables_are_judged(rt: HostRuntime) -> Result<(), Fail> {
    let alloc = rt.alloc();
    assert!(rt; is_table_in_order(alloc)?);
    assert!(rt; refused(RuleTable::of(alloc, &[0, 1001, 5])) == 125);
    Ok(())
}

// ---- transitions

fn goes_so(from: Option<State>, row: [bool; 4]) -> bool {
    may_go(from, State::Accepted) == row[0]
        && may_go(from, State::Activated) == row[1]
        && may_go(from, State::Nonconforming) == row[2]
        && may_go(from, State::Contingent) == row[3]
}

#[test]
fn intents_go_from_state_to_state(rt: HostRuntime) {
    assert!(rt; goes_so(None, [true, false, false, false]));
    assert!(rt; goes_so(Some(State::Accepted), [true, true, true, true]));
    assert!(rt; goes_so(Some(State::Activated), [false, true, true, true]));
    assert!(rt; goes_so(Some(State::Nonconforming), [false, true, true, true]));
    assert!(rt; goes_so(Some(State::Contingent), [false, false, false, true]));
}

// ---- verdicts

fn candidate(alloc: Global, x: i64) -> Result<Candidate, Fail> {
    let volumes = squares(alloc, &[x])?;
    Ok(Candidate {
        flight: flight_id(1, 1),
        state: State::Accepted,
        priority: 0,
        volumes,
    })
}

// The verdict on a candidate of priority 0 at the place, beside a flight of this priority at 20.
fn verdict_at(alloc: Global, table: &RuleTable, x: i64, other: u16) -> Result<Verdict, Fail> {
    let pair = intent(alloc, flight_id(2, 1), State::Activated, other, 20)?;
    let own = candidate(alloc, x)?;
    Ok(verdict(table, &own, &pair, None))
}

#[test]
fn a_candidate_is_judged_by_its_own_extents(rt: HostRuntime) -> Result<(), Fail> {
    let alloc = rt.alloc();
    let table = RuleTable::of(alloc, &[0])?;
    assert!(rt; verdict_at(alloc, &table, 50, 500)? == Verdict::Clear);
    assert!(rt; verdict_at(alloc, &table, 25, 0)? == Verdict::EqualForbidden);
    assert!(rt; verdict_at(alloc, &table, 25, 500)? == Verdict::HigherStands);
    Ok(())
}
