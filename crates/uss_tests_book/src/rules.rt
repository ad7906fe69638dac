// Which entry is due after those of a book.
use crate::bytes::{GONE, TICKET, TRIAL};
use crate::index::enter;
use crate::records::{Coding, bytes_of};
use std::alloc::{AllocError, Global};
use std::process::Abort;
use std::test::Fail;
use uss_book_codec::read;
use uss_book_index::Entries;
use uss_book_rules::{
    Tells, is_due, may_decide, may_end, may_hold, may_open, may_open_ticket, may_retire, may_send,
    may_try,
};
use uss_event::{Ending, Entry, FlightAsk, Wish};
use uss_intent::Sequence;

// Flight 7 is planned; it isn't changed, since what it needs to know is stale; it ends. The bytes weren't made by this program.
fn whole() -> [&'static [u8]; 13] {
    [
        bytes_of(Coding::Owner),
        bytes_of(Coding::Plan),
        TICKET,
        TRIAL,
        bytes_of(Coding::Held),
        // job 2: another plan, of one round
        b"\x02\0\0\0\0\0\0\0\x02\x0d#L\xcfRC\0\0\0\0\0\0\0\0\0\x07\0\0\0\0\0\0\0\x03\x01\x01\0\x05\x01\x01\x01\0\0\0\x03\0\0\0\0\0\0\0\0\0\0\0\0\0\0\0\0\0\0\0\0\0\0\0\x0a\0\0\0\0\0\0\0\0\xff\xff\xff\xff\x94\xb6.\0\xff\xff\xff\xff\xff\xff\xff\xfb\xff\xff\xff\xff\xff\xff\xff\xff\0\0\0\0\0\x01\xd4\xc0\x0d#L\xcfRC\0\0\x0d#L\xcfRC\0\x01\0",
        b"\x03\0\0\0\0\0\0\0\x02",
        b"\x04\0\0\0\0\0\0\0\x02\0\0\0\0\0\0\0\x02\0\x01\0\0\0\x14ovn-0000000000000001\0\0\0\0",
        b"\x06\0\0\0\0\0\0\0\x02\x02\0\0\0\0",
        b"\x07\0\0\0\0\0\0\0\x02\x02\0\0\0\0",
        // job 3: the end
        b"\x02\0\0\0\0\0\0\0\x03\x0d#L\xcfRC\0\0\0\0\0\0\0\0\0\x07\0\0\0\0\0\0\0\x04\x02",
        b"\x07\0\0\0\0\0\0\0\x03\x04\0\0\0\0",
        GONE,
    ]
}

fn entry_of(rt: &impl Abort, alloc: Global, coding: &[u8]) -> Result<Entry, AllocError> {
    match read(alloc, coding)? {
        Some(entry) => Ok(entry),
        None => rt.abort(),
    }
}

// A book of the first so many entries, or of fewer where one of them may not follow.
fn first(alloc: Global, count: usize) -> Result<Entries, AllocError> {
    let mut book = Entries::new(alloc);
    for coding in whole().iter().take(count) {
        enter(alloc, &mut book, coding)?;
    }
    Ok(book)
}

fn stale(alloc: Global) -> Ending {
    Ending::Stale {
        missing: Sequence::new(alloc),
    }
}

#[test]
fn each_entry_is_due_at_its_place_and_at_no_other(rt: HostRuntime) -> Result<(), Fail> {
    let codings = whole();
    for place in 0..codings.len() {
        let book = first(rt.alloc(), place)?;
        assert_eq!(rt; book.len(), place);
        for at in 0..codings.len() {
            let entry = entry_of(&rt, rt.alloc(), codings[at])?;
            assert_eq!(rt; is_due(&book, &entry), at == place);
        }
    }
    Ok(())
}

#[test]
fn a_job_goes_its_way(rt: HostRuntime) -> Result<(), Fail> {
    let alloc = rt.alloc();
    let none = Sequence::new(alloc);
    let opened = first(alloc, 2)?;
    assert!(rt; may_open_ticket(&opened, 1));
    assert!(rt; !may_open_ticket(&opened, 2));
    assert!(rt; !may_try(&opened, 1, 1, 0, &None, &none));
    assert!(rt; may_end(&opened, 1, &Ending::Cancelled));
    assert!(rt; !may_end(&opened, 1, &stale(alloc)));
    let heard = first(alloc, 3)?;
    assert!(rt; may_try(&heard, 1, 1, 0, &None, &none));
    assert!(rt; !may_try(&heard, 1, 2, 0, &None, &none));
    assert!(rt; !may_try(&heard, 1, 1, 1, &None, &none));
    let tried = first(alloc, 4)?;
    assert!(rt; may_hold(&tried, 1, 1));
    assert!(rt; !may_hold(&tried, 1, 2));
    assert!(rt; may_decide(&tried, 1, &Ending::Cancelled));
    assert!(rt; !may_decide(&tried, 1, &stale(alloc)));
    assert!(rt; !may_end(&tried, 1, &Ending::Cancelled));
    Ok(())
}

#[test]
fn a_closed_job_keeps_its_ticket_while_it_is_needed(rt: HostRuntime) -> Result<(), Fail> {
    let recorded = first(rt.alloc(), 5)?;
    assert!(rt; !may_retire(&recorded, 1));
    assert!(rt; may_send(&recorded, 1, 0));
    assert!(rt; !may_send(&recorded, 1, 2));
    assert!(rt; recorded.open_job(7).is_none());
    assert!(rt; recorded.last(7).is_some());
    assert!(rt; recorded.owner().is_some());
    assert!(rt; !recorded.has_ended(7));
    Ok(())
}

#[test]
fn a_flight_is_asked_for_again_once_its_job_is_closed(rt: HostRuntime) -> Result<(), Fail> {
    let alloc = rt.alloc();
    let ask = |number| FlightAsk {
        flight: 7,
        number,
        wish: Wish::End,
    };
    let open = first(alloc, 4)?;
    assert!(rt; !may_open(&open, 2, &ask(3)));
    let recorded = first(alloc, 5)?;
    assert!(rt; may_open(&recorded, 2, &ask(3)));
    assert!(rt; !may_open(&recorded, 2, &ask(2)));
    assert!(rt; !may_open(&recorded, 3, &ask(3)));
    let unowned = first(alloc, 0)?;
    assert!(rt; !may_open(&unowned, 1, &ask(3)));
    let ended = first(alloc, 13)?;
    assert!(rt; !may_open(&ended, 4, &ask(6)));
    Ok(())
}
