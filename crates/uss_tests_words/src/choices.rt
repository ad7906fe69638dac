//! Choices and crowds with known answers.

use crate::fixtures::{intent, proposal};
use std::alloc::Global;
use std::test::Fail;
use uss_event::{Pair, Proposals, RuleTable, Verdict};
use uss_intent::{State, flight_id};
use uss_plan::{Choice, PlanRefusal, choose, crowd};

fn proposals(alloc: Global, places: &[i64]) -> Result<Proposals, Fail> {
    let mut list = Proposals::new(alloc);
    for x in places {
        list.push(proposal(alloc, *x)?)?;
    }
    Ok(list)
}

// ---- choices

const EQUAL: Choice = Choice::Blocked {
    place: 1,
    rule: Verdict::EqualForbidden,
};

const HIGHER: Choice = Choice::Blocked {
    place: 2,
    rule: Verdict::HigherStands,
};

// Where the alternatives are, whose flight it is, into which state, at which priority, in which state it was recorded before and
// where, and the choice. Flight 9 is the request's own; flights 1, 2 and 3 are those of the pairs, at 100, 20 and -60.
type Row = (
    &'static [i64],
    u64,
    State,
    u16,
    Option<(State, i64)>,
    Choice,
);

const ROWS: [Row; 14] = [
    (
        &[30, 50],
        9,
        State::Accepted,
        0,
        None,
        Choice::Chosen { alternative: 1 },
    ),
    (&[30, 20], 9, State::Accepted, 0, None, EQUAL),
    (
        &[50, 60],
        9,
        State::Accepted,
        0,
        None,
        Choice::Chosen { alternative: 0 },
    ),
    (
        &[30, 20, 31],
        9,
        State::Accepted,
        0,
        None,
        Choice::Chosen { alternative: 2 },
    ),
    (
        &[30],
        2,
        State::Accepted,
        0,
        None,
        Choice::Chosen { alternative: 0 },
    ),
    (
        &[30],
        9,
        State::Nonconforming,
        0,
        None,
        Choice::Chosen { alternative: 0 },
    ),
    (
        &[30],
        9,
        State::Accepted,
        5,
        None,
        Choice::Chosen { alternative: 0 },
    ),
    (
        &[100, 20],
        9,
        State::Accepted,
        0,
        None,
        Choice::Blocked {
            place: 0,
            rule: Verdict::EqualForbidden,
        },
    ),
    (&[-60], 9, State::Accepted, 0, None, HIGHER),
    (
        &[-60],
        9,
        State::Activated,
        0,
        Some((State::Activated, -55)),
        Choice::Chosen { alternative: 0 },
    ),
    (
        &[-60],
        9,
        State::Activated,
        0,
        Some((State::Activated, 0)),
        HIGHER,
    ),
    (
        &[-60],
        9,
        State::Accepted,
        0,
        Some((State::Activated, -55)),
        HIGHER,
    ),
    (
        &[-60],
        9,
        State::Activated,
        0,
        Some((State::Accepted, -55)),
        HIGHER,
    ),
    (
        &[30],
        9,
        State::Activated,
        0,
        Some((State::Activated, 25)),
        EQUAL,
    ),
];

fn others(alloc: Global) -> Result<Vec<Pair>, Fail> {
    let mut pairs = Vec::new(alloc);
    pairs.push(intent(alloc, flight_id(2, 1), State::Accepted, 0, 100)?)?;
    pairs.push(intent(alloc, flight_id(2, 2), State::Activated, 0, 20)?)?;
    pairs.push(intent(alloc, flight_id(2, 3), State::Activated, 500, -60)?)?;
    Ok(pairs)
}

fn is_chosen(
    table: &RuleTable,
    pairs: &[Pair],
    row: &Row,
    list: &Proposals,
    previous: Option<&Pair>,
) -> bool {
    if list.is_empty() || list.len() > 8 {
        return false;
    }
    choose(
        table,
        flight_id(2, row.1),
        row.2,
        row.3,
        list,
        pairs,
        previous,
    ) == row.5
}

fn is_chosen_after(
    alloc: Global,
    table: &RuleTable,
    pairs: &[Pair],
    row: &Row,
    list: &Proposals,
) -> Result<bool, Fail> {
    match row.4 {
        None => Ok(is_chosen(table, pairs, row, list, None)),
        Some((state, x)) => {
            let previous = intent(alloc, flight_id(2, row.1), state, row.3, x)?;
            Ok(is_chosen(table, pairs, row, list, Some(&previous)))
        }
    }
}

fn is_met(alloc: Global, table: &RuleTable, pairs: &[Pair], row: &Row) -> Result<bool, Fail> {
    let list = proposals(alloc, row.0)?;
    is_chosen_after(alloc, table, pairs, row, &list)
}

// The place of the first row of which another choice is made, and else how many rows there are.
fn first_unmet(alloc: Global, table: &RuleTable, pairs: &[Pair]) -> Result<usize, Fail> {
    for (place, row) in ROWS.iter().enumerate() {
        if !is_met(alloc, table, pairs, row)? {
            return Ok(place);
        }
    }
    Ok(ROWS.len())
}

#[test]
fn the_first_clear_alternative_is_chosen(rt: HostRuntime) -> Result<(), Fail> {
    let alloc = rt.alloc();
    let table = RuleTable::of(alloc, &[0])?;
    let pairs = others(alloc)?;
    assert_eq!(rt; first_unmet(alloc, &table, &pairs)?, ROWS.len());
    Ok(())
}

// ---- crowds

fn crowded(count: usize) -> u16 {
    match crowd(count) {
        Ok(()) => 0,
        Err(refusal) => refusal.number(),
    }
}

#[test]
fn crowds_are_refused(rt: HostRuntime) {
    assert!(rt; crowded(1024) == 0);
    assert!(rt; crowded(1025) == 171);
    assert!(rt; crowd(1025) == Err(PlanRefusal::Crowded(1025)));
}
