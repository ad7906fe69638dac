//! Names, references, tickets and areas that the tests stand on.

use std::alloc::Global;
use std::test::Fail;
use uss_intent::{
    Base, FlightId, Name, Ovn, Owed, Reference, State, Subscriber, Ticket, TicketId, flight_id,
    ticket_id,
};
use uss_shape::{Outline, Rect};
use uss_vol4::Volume4;

/// 2023-11-14T23:13:20Z.
pub const EARLY: i64 = 1_700_003_600_000_000_000;

/// Half an hour later, 23:43:20Z.
pub const LATE: i64 = 1_700_005_400_000_000_000;

pub fn own(alloc: Global) -> Result<Name, Fail> {
    Ok(Name::of(alloc, b"uss1")?)
}

pub fn base(alloc: Global) -> Result<Base, Fail> {
    Ok(Base::of(alloc, b"http://uss1.test/a/1")?)
}

pub fn ovn(alloc: Global) -> Result<Ovn, Fail> {
    Ok(Ovn::of(alloc, b"ovn-0000000000000001")?)
}

pub fn flight(number: u64) -> FlightId {
    flight_id(1, number)
}

pub fn ticket(number: u64) -> TicketId {
    ticket_id(1, number)
}

/// A square from (x, x) to (x + 10, x + 10), from 0 to 100 mm, in that half hour.
pub fn area(alloc: Global, x: i64) -> Result<Volume4, Fail> {
    let corners = Rect {
        x1: x,
        y1: x,
        x2: x.wrapping_add(10),
        y2: x.wrapping_add(10),
    };
    let outline = Outline::rect(alloc, corners)?;
    Ok(Volume4::of(outline, 0, 100, EARLY, LATE)?)
}

/// The reference of a flight of uss1 that is Accepted.
pub fn reference(alloc: Global, number: u64) -> Result<Reference, Fail> {
    Ok(Reference {
        flight: flight(number),
        manager: own(alloc)?,
        version: 1,
        state: State::Accepted,
        ovn: Some(ovn(alloc)?),
        start: EARLY,
        end: LATE,
        base: base(alloc)?,
        ticket: ticket(number),
    })
}

/// The ticket of uss1 with this number and area.
pub fn ticket_in(alloc: Global, number: u64, area: Volume4) -> Result<Ticket, Fail> {
    Ok(Ticket {
        id: ticket(number),
        manager: own(alloc)?,
        area,
        base: base(alloc)?,
        index: 7,
    })
}

/// One who is to be notified.
pub fn told(alloc: Global) -> Result<Owed, Fail> {
    let mut owed = Owed::new(alloc);
    owed.push(Subscriber {
        base: Base::of(alloc, b"http://uss2.test")?,
        ticket: ticket_id(2, 1),
        index: 3,
    })?;
    Ok(owed)
}
