//! The calls of the jobs of one book, written down by hand, and what replies say to them.
ghost use Rattle.std.specs.Prelude.{IsTrue};
ghost use Rattle.uss_job.specs.Area.{HasArea};

use std::alloc::{AllocError, Global};
use std::process::Abort;
use std::test::Fail;
use uss_book_codec::read;
use uss_book_index::Entries;
use uss_book_rules::Tells;
use uss_event::{DssCall, Outgoing, PeerReply, Wish};
use uss_intent::{
    Base, DssAsk, DssRefusal, DssReply, FlightId, Name, Ovn, Ovns, Reference, References, State,
    TicketId, Volumes, flight_id, ticket_id,
};
use uss_job::{call_of, heard_of_dss, heard_of_peer, resume, view_of};
use uss_law_supplier::Awaited;
use uss_shape::{Outline, Place, Rect};
use uss_vol4::Volume4;

/// 2023-11-14T23:13:20Z, when the first alternative begins; the second lasts from 1 ns before it to 1 ns before its end.
const START: i64 = 1_700_003_600_000_000_000;

/// Half an hour later.
const END: i64 = 1_700_005_400_000_000_000;

// The codings weren't made by this program.

/// The owner: number 7, uss, http://u.test.
const OWNER: &[u8] =
    b"\x01\x00\x00\x00\x07\x00\x00\x00\x03uss\x00\x00\x00\x0dhttp://u.test\x00\x00\x00\x02\x00\x05\x03\xe8";

/// Job 1, to plan flight 7 into Accepted in two rounds: the square from (0, 0) to (100, 100) from 0 to 1,000 mm, or the triangle of
/// (-200, 50), (-100, 50) and (-150, 150) from 500 to 2,000 mm.
const PLAN: &[u8] =
    b"\x02\x00\x00\x00\x00\x00\x00\x00\x01\x17\x97\xa0Df\xe2\xa0\x00\x00\x00\x00\x00\x00\x00\x00\x07\x00\x00\x00\x00\x00\x00\x00\x01\x01\x01\x00\x00\x02\x02\x01\x00\x00\x00\x04\x00\x00\x00\x00\x00\x00\x00\x00\x00\x00\x00\x00\x00\x00\x00\x00\x00\x00\x00\x00\x00\x00\x00d\x00\x00\x00\x00\x00\x00\x00\x00\x00\x00\x00\x00\x00\x00\x00d\x00\x00\x00\x00\x00\x00\x00d\x00\x00\x00\x00\x00\x00\x00\x00\x00\x00\x00\x00\x00\x00\x00d\x00\x00\x00\x00\x00\x00\x00\x00\x00\x00\x00\x00\x00\x00\x03\xe8\x17\x97\xa0Df\xe2\xa0\x00\x17\x97\xa1\xe7\x7f>\xf0\x00\x00\x01\x00\x00\x00\x03\xff\xff\xff\xff\xff\xff\xff8\x00\x00\x00\x00\x00\x00\x002\xff\xff\xff\xff\xff\xff\xff\x9c\x00\x00\x00\x00\x00\x00\x002\xff\xff\xff\xff\xff\xff\xffj\x00\x00\x00\x00\x00\x00\x00\x96\x00\x00\x00\x00\x00\x00\x01\xf4\x00\x00\x00\x00\x00\x00\x07\xd0\x17\x97\xa0Df\xe2\x9f\xff\x17\x97\xa1\xe7\x7f>\xef\xff\x00";

/// The ticket of job 1 is there.
const TICKET: &[u8] = b"\x03\x00\x00\x00\x00\x00\x00\x00\x01";

/// Its attempt with tag 1, of the second alternative, with two OVNs in its key.
const FIRST: &[u8] =
    b"\x04\x00\x00\x00\x00\x00\x00\x00\x01\x00\x00\x00\x00\x00\x00\x00\x01\x01\x00\x00\x00\x00\x02\x00\x00\x00\x14ovn-0000000000000003\x00\x00\x00\x14ovn-0000000000000004";

/// Its attempt with tag 2, of the first alternative, with one.
const SECOND: &[u8] =
    b"\x04\x00\x00\x00\x00\x00\x00\x00\x01\x00\x00\x00\x00\x00\x00\x00\x02\x00\x00\x00\x00\x00\x01\x00\x00\x00\x14ovn-0000000000000005";

/// The second is held.
const HELD: &[u8] =
    b"\x05\x00\x00\x00\x00\x00\x00\x00\x01\x00\x00\x00\x00\x00\x00\x00\x02\x00\x00\x00\x14ovn-0000000000000001\x00\x00\x00\x01\x00\x00\x00\x00";

/// Job 2, to end flight 7.
const ENDING: &[u8] =
    b"\x02\x00\x00\x00\x00\x00\x00\x00\x02\x17\x97\xa0Df\xe2\xa0\x00\x00\x00\x00\x00\x00\x00\x00\x07\x00\x00\x00\x00\x00\x00\x00\x02\x02";

/// Enters the entry with this coding, where it may follow.
fn enter(alloc: Global, book: &mut Entries, coding: &[u8]) -> Result<bool, AllocError> {
    let Some(entry) = read(alloc, coding)? else {
        return Ok(false);
    };
    if !book.may_follow(&entry) {
        return Ok(false);
    }
    book.make_room(&entry)?;
    book.enter(entry);
    Ok(true)
}

/// Whether a job with this wish makes a call of this kind.
fn is_asked(kind: Awaited, wish: &Wish) -> bool
    ensures { IsTrue result → HasArea kind wish.now }
{
    match wish {
        Wish::Put { .. } => true,
        Wish::End => match kind {
            Awaited::TicketPut | Awaited::Query => false,
            Awaited::Details
            | Awaited::Put
            | Awaited::Get
            | Awaited::TicketRemove
            | Awaited::Remove => true,
        },
    }
}

/// The job's call of this kind.
fn call(
    alloc: Global,
    book: &Entries,
    job: u64,
    kind: Awaited,
) -> Result<Option<DssAsk>, AllocError> {
    let Some(owner) = book.owner() else {
        return Ok(None);
    };
    let Some(opening) = book.opening(job) else {
        return Ok(None);
    };
    if is_asked(kind, &opening.ask.wish) {
        call_of(alloc, owner, book, opening, kind)
    } else {
        Ok(None)
    }
}

/// Whether the job's call of this kind is this one.
fn calls(
    alloc: Global,
    book: &Entries,
    job: u64,
    kind: Awaited,
    wanted: &DssAsk,
) -> Result<bool, AllocError> {
    match call(alloc, book, job, kind)? {
        Some(ask) => Ok(ask == *wanted),
        None => Ok(false),
    }
}

fn flight() -> FlightId {
    flight_id(7, 7)
}

fn ticket() -> TicketId {
    ticket_id(7, 1)
}

fn rectangle(alloc: Global, r: Rect, low: i64, high: i64, start: i64) -> Result<Volume4, Fail> {
    let outline = Outline::rect(alloc, r)?;
    Ok(Volume4::of(outline, low, high, start, END)?)
}

/// The rectangle round both alternatives.
fn area(alloc: Global) -> Result<Volume4, Fail> {
    let round = Rect {
        x1: -200,
        y1: 0,
        x2: 100,
        y2: 150,
    };
    rectangle(alloc, round, 0, 2000, START - 1)
}

fn square(alloc: Global) -> Result<Volume4, Fail> {
    let square = Rect {
        x1: 0,
        y1: 0,
        x2: 100,
        y2: 100,
    };
    rectangle(alloc, square, 0, 1000, START)
}

fn triangle(alloc: Global) -> Result<Volume4, Fail> {
    let corners = vec![in alloc;
        Place { x: -200, y: 50 },
        Place { x: -100, y: 50 },
        Place { x: -150, y: 150 },
    ]?;
    let outline = Outline::of(corners)?;
    Ok(Volume4::of(outline, 500, 2000, START - 1, END - 1)?)
}

/// The Put of the attempt of one volume with this key and base URL.
fn put(alloc: Global, volume: Volume4, key: &[&[u8]], base: &[u8]) -> Result<DssAsk, Fail> {
    let mut extents = Volumes::new(alloc);
    extents.push(volume)?;
    let mut ovns = Ovns::new(alloc);
    for ovn in key {
        ovns.push(Ovn::of(alloc, ovn)?)?;
    }
    Ok(DssAsk::Put {
        flight: flight(),
        ovn: None,
        extents,
        key: ovns,
        state: State::Accepted,
        base: Base::of(alloc, base)?,
        ticket: ticket(),
    })
}

/// Whether the job does this when it is resumed.
fn does(
    alloc: Global,
    book: &Entries,
    job: u64,
    awaited: Option<&Outgoing>,
    wanted: &str,
) -> Result<bool, Fail> {
    let Some(opening) = book.opening(job) else {
        return Ok(false);
    };
    let duty = resume(&view_of(book, opening, awaited));
    Ok(format!(in alloc; "{duty:?}")?.as_str() == wanted)
}

/// The book with these entries.
fn book(rt: &impl Abort, alloc: Global, codings: &[&[u8]]) -> Result<Entries, Fail> {
    let mut book = Entries::new(alloc);
    for coding in codings {
        assert!(rt; enter(alloc, &mut book, coding)?);
    }
    Ok(book)
}

#[test]
fn an_opened_job_makes_its_calls(rt: HostRuntime) -> Result<(), Fail> {
    let alloc = rt.alloc();
    let book = book(&rt, alloc, &[OWNER, PLAN])?;
    let made = DssAsk::TicketPut {
        ticket: ticket(),
        area: area(alloc)?,
        base: Base::of(alloc, b"http://u.test")?,
    };
    assert!(rt; calls(alloc, &book, 1, Awaited::TicketPut, &made)?);
    let asked = DssAsk::Query { area: area(alloc)? };
    assert!(rt; calls(alloc, &book, 1, Awaited::Query, &asked)?);
    let got = DssAsk::Get { flight: flight() };
    assert!(rt; calls(alloc, &book, 1, Awaited::Get, &got)?);
    let removed = DssAsk::TicketRemove {
        ticket: ticket(),
        version: 1,
    };
    assert!(rt; calls(alloc, &book, 1, Awaited::TicketRemove, &removed)?);
    assert!(rt; call(alloc, &book, 1, Awaited::Details)?.is_none());
    assert!(rt; call(alloc, &book, 1, Awaited::Put)?.is_none());
    assert!(rt; call(alloc, &book, 1, Awaited::Remove)?.is_none());
    assert!(rt; does(alloc, &book, 1, None, "Call(TicketPut)")?);
    Ok(())
}

#[test]
fn a_job_puts_its_last_attempt(rt: HostRuntime) -> Result<(), Fail> {
    let alloc = rt.alloc();
    let mut book = book(&rt, alloc, &[OWNER, PLAN, TICKET])?;
    assert!(rt; does(alloc, &book, 1, None, "Call(Query)")?);
    assert!(rt; enter(alloc, &mut book, FIRST)?);
    let key: [&[u8]; 2] = [b"ovn-0000000000000003", b"ovn-0000000000000004"];
    let first = put(alloc, triangle(alloc)?, &key, b"http://u.test/a/1")?;
    assert!(rt; calls(alloc, &book, 1, Awaited::Put, &first)?);
    assert!(rt; does(alloc, &book, 1, None, "Call(Put)")?);
    assert!(rt; enter(alloc, &mut book, SECOND)?);
    let key: [&[u8]; 1] = [b"ovn-0000000000000005"];
    let second = put(alloc, square(alloc)?, &key, b"http://u.test/a/2")?;
    assert!(rt; calls(alloc, &book, 1, Awaited::Put, &second)?);
    // it waits for its reference
    let ask = DssAsk::Get { flight: flight() };
    let awaited = Outgoing::Dss(DssCall { job: 1, ask });
    assert!(rt; does(alloc, &book, 1, Some(&awaited), "Call(Get)")?);
    Ok(())
}

#[test]
fn an_end_removes_what_is_recorded(rt: HostRuntime) -> Result<(), Fail> {
    let alloc = rt.alloc();
    let entries = [OWNER, PLAN, TICKET, FIRST, SECOND, HELD, ENDING];
    let book = book(&rt, alloc, &entries)?;
    let removed = DssAsk::Remove {
        flight: flight(),
        ovn: Ovn::of(alloc, b"ovn-0000000000000001")?,
    };
    assert!(rt; calls(alloc, &book, 2, Awaited::Remove, &removed)?);
    assert!(rt; does(alloc, &book, 2, None, "Call(Remove)")?);
    Ok(())
}

/// A reference of this flight of this supplier, with or without its OVN.
fn reference(
    alloc: Global,
    flight: FlightId,
    ovn: Option<Ovn>,
    base: &[u8],
) -> Result<Reference, Fail> {
    Ok(Reference {
        flight,
        manager: Name::of(alloc, b"uss")?,
        version: 1,
        state: State::Accepted,
        ovn,
        start: START,
        end: END,
        base: Base::of(alloc, base)?,
        ticket: ticket(),
    })
}

/// Whether the reply says this to job 1, with a reference left to be asked for.
fn says(alloc: Global, book: &Entries, reply: &DssReply, wanted: &str) -> Result<bool, Fail> {
    let Some(owner) = book.owner() else {
        return Ok(false);
    };
    let Some(opening) = book.opening(1) else {
        return Ok(false);
    };
    let heard = heard_of_dss(owner, book, opening, reply, true);
    Ok(format!(in alloc; "{heard:?}")?.as_str() == wanted)
}

#[test]
fn references_say_whose_they_are(rt: HostRuntime) -> Result<(), Fail> {
    let alloc = rt.alloc();
    let book = book(&rt, alloc, &[OWNER, PLAN, TICKET, FIRST])?;
    let mut list = References::new(alloc);
    for id in [flight(), flight_id(7, 8), flight_id(8, 7)] {
        list.push(reference(alloc, id, None, b"http://u.test/a/1")?)?;
    }
    let found = DssReply::Found(list);
    assert!(rt; says(alloc, &book, &found, "Found { others: 2, unheard: true }")?);
    let ovn = Ovn::of(alloc, b"ovn-0000000000000009")?;
    let own = reference(alloc, flight(), Some(ovn), b"http://u.test/a/1")?;
    assert!(rt; says(alloc, &book, &DssReply::Got(own), "Got { own: true }")?);
    let ovn = Ovn::of(alloc, b"ovn-0000000000000009")?;
    let other = reference(alloc, flight(), Some(ovn), b"http://u.test/a/2")?;
    assert!(rt; says(alloc, &book, &DssReply::Got(other), "Got { own: false }")?);
    let hidden = reference(alloc, flight(), None, b"http://u.test/a/1")?;
    assert!(rt; says(alloc, &book, &DssReply::Got(hidden), "Got { own: false }")?);
    let refused = DssReply::Refused(DssRefusal::StaleOvn);
    assert!(rt; says(alloc, &book, &refused, "Refused(206)")?);
    Ok(())
}

/// Whether another supplier's reply says this, with no reference left to be asked for.
fn peer_says(alloc: Global, reply: &PeerReply, wanted: &str) -> Result<bool, Fail> {
    let heard = heard_of_peer(reply, false);
    Ok(format!(in alloc; "{heard:?}")?.as_str() == wanted)
}

#[test]
fn other_suppliers_answer_or_not(rt: HostRuntime) -> Result<(), Fail> {
    let alloc = rt.alloc();
    assert!(rt; peer_says(alloc, &PeerReply::Gone, "Answered { unheard: false }")?);
    assert!(rt; peer_says(alloc, &PeerReply::Status(404), "Status(404)")?);
    Ok(())
}
