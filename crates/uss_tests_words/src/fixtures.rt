//! Instants, squares, names, references and details that several tests use.

use std::alloc::Global;
use std::test::Fail;
use uss_event::{Details, Pair, Proposal};
use uss_intent::{Base, FlightId, Name, Ovn, Reference, State, Volumes, ticket_id};
use uss_shape::{Outline, Rect};
use uss_vol4::Volume4;

/// 2023-11-14T23:13:20Z.
pub const EARLY: i64 = 1_700_003_600_000_000_000;

/// Half an hour later, 23:43:20Z.
pub const LATE: i64 = 1_700_005_400_000_000_000;

// ---- squares

/// The corners (x, x) and (x + 10, x + 10).
pub fn corners(x: i64) -> Rect {
    Rect {
        x1: x,
        y1: x,
        x2: x.wrapping_add(10),
        y2: x.wrapping_add(10),
    }
}

/// The square from (x, x) to (x + 10, x + 10).
pub fn flat_square(alloc: Global, x: i64) -> Result<Outline, Fail> {
    Ok(Outline::rect(alloc, corners(x))?)
}

/// That square at these altitudes, in that half hour.
pub fn square_between(alloc: Global, x: i64, low: i64, high: i64) -> Result<Volume4, Fail> {
    Ok(Volume4::of(flat_square(alloc, x)?, low, high, EARLY, LATE)?)
}

/// That square from 0 to 100 mm, in that half hour.
pub fn square(alloc: Global, x: i64) -> Result<Volume4, Fail> {
    square_between(alloc, x, 0, 100)
}

/// The squares at these places.
pub fn squares(alloc: Global, places: &[i64]) -> Result<Volumes, Fail> {
    let mut volumes = Volumes::new(alloc);
    for x in places {
        volumes.push(square(alloc, *x)?)?;
    }
    Ok(volumes)
}

// ---- names and references

/// The name with this text.
pub fn name(alloc: Global, text: &str) -> Result<Name, Fail> {
    Ok(Name::of(alloc, text.as_bytes())?)
}

/// The base URL `http://a.test`.
pub fn base(alloc: Global) -> Result<Base, Fail> {
    Ok(Base::of(alloc, b"http://a.test")?)
}

/// The OVN that a discovery service gives first.
pub fn ovn(alloc: Global) -> Result<Ovn, Fail> {
    Ok(Ovn::of(alloc, b"ovn-0000000000000001")?)
}

/// The first version of a reference, for that half hour, which shows its OVN.
pub fn reference(
    alloc: Global,
    manager: &str,
    flight: FlightId,
    state: State,
) -> Result<Reference, Fail> {
    Ok(Reference {
        flight,
        manager: name(alloc, manager)?,
        version: 1,
        state,
        ovn: Some(ovn(alloc)?),
        start: EARLY,
        end: LATE,
        base: base(alloc)?,
        ticket: ticket_id(1, 1),
    })
}

// ---- details and pairs

/// The details with this priority and one volume, the square at this place.
pub fn details(alloc: Global, state: State, priority: u16, x: i64) -> Result<Details, Fail> {
    let volumes = squares(alloc, &[x])?;
    Ok(Details::of(state, volumes, Volumes::new(alloc), priority)?)
}

/// An intent of another supplier's, `uss2`: its reference with its details.
pub fn intent(
    alloc: Global,
    flight: FlightId,
    state: State,
    priority: u16,
    x: i64,
) -> Result<Pair, Fail> {
    let details = details(alloc, state, priority, x)?;
    let reference = reference(alloc, "uss2", flight, state)?;
    Ok(Pair::of(reference, details).ok_or("no pair")?)
}

/// An alternative with one volume, the square at this place.
pub fn proposal(alloc: Global, x: i64) -> Result<Proposal, Fail> {
    let volumes = squares(alloc, &[x])?;
    Ok(Proposal {
        volumes,
        off_nominal: Volumes::new(alloc),
    })
}
