//! Replies as responses, and responses that are no reply.

use crate::fixtures::{area, base, flight, ovn, own, reference, ticket, ticket_in, told};
use std::alloc::Global;
use std::test::Fail;
use uss_intent::{DssAsk, DssReply, Ovns, Owed, References, State, Ticket, Volumes};
use uss_rest::{fits, read_reply, write_reply};

/// The creation of the reference of the first flight, or its change.
fn put(alloc: Global, is_change: bool) -> Result<DssAsk, Fail> {
    let mut extents = Volumes::new(alloc);
    extents.push(area(alloc, 0)?)?;
    Ok(DssAsk::Put {
        flight: flight(1),
        ovn: if is_change { Some(ovn(alloc)?) } else { None },
        extents,
        key: Ovns::new(alloc),
        state: State::Accepted,
        base: base(alloc)?,
        ticket: ticket(1),
    })
}

fn found(alloc: Global) -> Result<DssReply, Fail> {
    let mut references = References::new(alloc);
    references.push(reference(alloc, 1)?)?;
    references.push(reference(alloc, 2)?)?;
    Ok(DssReply::Found(references))
}

/// Whether the reply goes out with this status, comes back as this one, and is none with another status.
fn comes_back(
    alloc: Global,
    ask: &DssAsk,
    reply: DssReply,
    again: DssReply,
    status: u16,
) -> Result<bool, Fail> {
    let client = own(alloc)?;
    let given = area(alloc, 0)?;
    let fitting = fits(ask, &reply);
    let response = write_reply(alloc, ask, reply)?;
    let body = response.body.as_slice();
    let read = read_reply(alloc, &client, &given, ask, status, body)?;
    let other = read_reply(alloc, &client, &given, ask, 202, body)?;
    Ok(fitting && response.status == status && read == Some(again) && other.is_none())
}

fn got(alloc: Global) -> Result<DssReply, Fail> {
    Ok(DssReply::Got(reference(alloc, 1)?))
}

fn landed(alloc: Global, subscribers: Owed) -> Result<DssReply, Fail> {
    Ok(DssReply::Landed {
        reference: reference(alloc, 1)?,
        subscribers,
    })
}

fn removed(alloc: Global) -> Result<DssReply, Fail> {
    Ok(DssReply::Removed {
        reference: reference(alloc, 1)?,
        subscribers: told(alloc)?,
    })
}

#[test]
fn found_references_come_back(rt: HostRuntime) -> Result<(), Fail> {
    let query = DssAsk::Query {
        area: area(rt.alloc(), 0)?,
    };
    let reply = found(rt.alloc())?;
    let again = found(rt.alloc())?;
    assert!(rt; comes_back(rt.alloc(), &query, reply, again, 200)?);
    Ok(())
}

#[test]
fn a_reference_comes_back(rt: HostRuntime) -> Result<(), Fail> {
    let get = DssAsk::Get { flight: flight(1) };
    let reply = got(rt.alloc())?;
    let again = got(rt.alloc())?;
    assert!(rt; comes_back(rt.alloc(), &get, reply, again, 200)?);
    Ok(())
}

#[test]
fn a_creation_comes_back(rt: HostRuntime) -> Result<(), Fail> {
    let creation = put(rt.alloc(), false)?;
    let reply = landed(rt.alloc(), told(rt.alloc())?)?;
    let again = landed(rt.alloc(), told(rt.alloc())?)?;
    assert!(rt; comes_back(rt.alloc(), &creation, reply, again, 201)?);
    Ok(())
}

#[test]
fn a_change_comes_back(rt: HostRuntime) -> Result<(), Fail> {
    let change = put(rt.alloc(), true)?;
    let reply = landed(rt.alloc(), Owed::new(rt.alloc()))?;
    let again = landed(rt.alloc(), Owed::new(rt.alloc()))?;
    assert!(rt; comes_back(rt.alloc(), &change, reply, again, 200)?);
    Ok(())
}

#[test]
fn a_removal_comes_back(rt: HostRuntime) -> Result<(), Fail> {
    let remove = DssAsk::Remove {
        flight: flight(1),
        ovn: ovn(rt.alloc())?,
    };
    let reply = removed(rt.alloc())?;
    let again = removed(rt.alloc())?;
    assert!(rt; comes_back(rt.alloc(), &remove, reply, again, 200)?);
    Ok(())
}

/// The first ticket, with this area.
fn made(alloc: Global, x: i64) -> Result<Ticket, Fail> {
    ticket_in(alloc, 1, area(alloc, x)?)
}

#[test]
fn a_new_ticket_comes_back(rt: HostRuntime) -> Result<(), Fail> {
    let make = DssAsk::TicketPut {
        ticket: ticket(1),
        area: area(rt.alloc(), 50)?,
        base: base(rt.alloc())?,
    };
    let reply = DssReply::TicketMade(made(rt.alloc(), 50)?);
    let again = DssReply::TicketMade(made(rt.alloc(), 50)?);
    assert!(rt; comes_back(rt.alloc(), &make, reply, again, 200)?);
    Ok(())
}

#[test]
fn a_ticket_comes_back(rt: HostRuntime) -> Result<(), Fail> {
    let get = DssAsk::TicketGet { ticket: ticket(1) };
    let reply = DssReply::TicketGot(made(rt.alloc(), 0)?);
    let again = DssReply::TicketGot(made(rt.alloc(), 0)?);
    assert!(rt; comes_back(rt.alloc(), &get, reply, again, 200)?);
    Ok(())
}

#[test]
fn a_removed_ticket_comes_back(rt: HostRuntime) -> Result<(), Fail> {
    let remove = DssAsk::TicketRemove {
        ticket: ticket(1),
        version: 1,
    };
    let reply = DssReply::TicketRemoved(made(rt.alloc(), 0)?);
    let again = DssReply::TicketRemoved(made(rt.alloc(), 0)?);
    assert!(rt; comes_back(rt.alloc(), &remove, reply, again, 200)?);
    Ok(())
}

#[test]
fn a_reply_to_another_call_is_none(rt: HostRuntime) -> Result<(), Fail> {
    let client = own(rt.alloc())?;
    let given = area(rt.alloc(), 0)?;
    let ask = DssAsk::Get { flight: flight(1) };
    let reply = DssReply::Got(reference(rt.alloc(), 2)?);
    assert!(rt; !fits(&ask, &reply));
    let response = write_reply(rt.alloc(), &ask, reply)?;
    let body = response.body.as_slice();
    let read = read_reply(rt.alloc(), &client, &given, &ask, 200, body)?;
    assert!(rt; read.is_none());
    let created = put(rt.alloc(), false)?;
    let landed = DssReply::Landed {
        reference: reference(rt.alloc(), 1)?,
        subscribers: Owed::new(rt.alloc()),
    };
    // a creation has status 201, and a change 200
    let response = write_reply(rt.alloc(), &created, landed)?;
    let body = response.body.as_slice();
    let read = read_reply(rt.alloc(), &client, &given, &created, 200, body)?;
    assert!(rt; read.is_none());
    Ok(())
}

#[test]
fn refusals_are_replies_to_all_but_queries(rt: HostRuntime) -> Result<(), Fail> {
    let client = own(rt.alloc())?;
    let given = area(rt.alloc(), 0)?;
    let body = b"{\"message\":\"Absent\",\"refusal\":205}";
    let get = DssAsk::Get { flight: flight(1) };
    let read = read_reply(rt.alloc(), &client, &given, &get, 404, body)?;
    assert!(rt; matches!(read, Some(DssReply::Refused(_))));
    let query = DssAsk::Query {
        area: area(rt.alloc(), 0)?,
    };
    let read = read_reply(rt.alloc(), &client, &given, &query, 404, body)?;
    assert!(rt; read.is_none());
    Ok(())
}
