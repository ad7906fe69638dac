//! Scripts with known answers. The answers were written by hand from the format of scripts.

use crate::fixtures::{base, name, reference, square};
use std::alloc::{AllocError, Global};
use std::test::Fail;
use uss_intent::{
    DssRefusal, DssReply, Owed, Reference, References, State, Subscriber, Ticket, flight_id,
    ticket_id,
};
use uss_text::{integer, natural, read_conflict, read_discover, write_reply};

/// What `uss conflict` reads of a script: how many volumes each list has, or the refusal's line.
fn conflict_of(alloc: Global, text: &str) -> Result<String, AllocError> {
    match read_conflict(alloc, text.as_bytes()) {
        Ok(script) => {
            let a = script.a.len();
            let b = script.b.len();
            format!(in alloc; "a {a} b {b}")
        }
        Err(refusal) => format!(in alloc; "{refusal}"),
    }
}

/// What `uss discover` reads of a script: how many lines it has, or the refusal's line.
fn discover_of(alloc: Global, text: &str) -> Result<String, AllocError> {
    match read_discover(alloc, text.as_bytes()) {
        Ok(script) => {
            let lines = script.len();
            format!(in alloc; "lines {lines}")
        }
        Err(refusal) => format!(in alloc; "{refusal}"),
    }
}

/// The script that a row of a table stands for.
fn script(alloc: Global, row: &str) -> Result<String, AllocError> {
    let lines = row.replace(alloc, ";", "\n")?;
    let volumes = lines.replace(alloc, "@V", "rect 0 0 10 10 @H")?;
    let heights = volumes.replace(alloc, "@H", "0 100 @W")?;
    let times = heights.replace(alloc, "@W", "1700003600000000000 1700005400000000000")?;
    let flights = times.replace(alloc, "@F", "00000001-0000-4000-8000-000000000001")?;
    let tickets = flights.replace(alloc, "@T", "00000001-0001-4000-8000-000000000001")?;
    let bases = tickets.replace(alloc, "@B", "http://a.test")?;
    bases.replace(alloc, "@O", "ovn-0000000000000001")
}

// What is read, and the script: `;` is an LF, `@V` a volume, `@H` its heights and times, `@W` its times.
const CONFLICTS: &str = "\
a 0 b 0|
a 1 b 0|a @V
a 1 b 0|a @V;
a 1 b 2|b @V;a @V;b @V
a 1 b 0|a poly 3 0 0 10 0 5 5 @H
a 1 b 0|a rect -1800000000 -900000000 1800000000 900000000 @H
refused 103 line 1|a rect -1800000001 0 1 1 @H
refused 103 line 1|a rect 0 0 1800000001 1 @H
refused 103 line 1|a rect 0 -900000001 1 1 @H
refused 103 line 1|a rect 0 0 1 900000001 @H
a 1 b 0|a rect 0 0 1 1 -1000000 100000000 @W
refused 113 line 1|a rect 0 0 1 1 -1000001 0 @W
refused 113 line 1|a rect 0 0 1 1 0 100000001 @W
a 1 b 0|a rect 0 0 1 1 5 5 946684800000000000 7258118400000000000
refused 114 line 1|a rect 0 0 1 1 0 1 946684799999999999 946684800000000000
refused 114 line 1|a rect 0 0 1 1 0 1 946684800000000000 7258118400000000001
refused 111 line 1|a rect 0 0 1 1 1 0 @W
refused 111 line 1|a rect 0 0 1 1 1 0 2 1
refused 112 line 1|a rect 0 0 1 1 0 1 1700005400000000000 1700003600000000000
refused 112 line 1|a rect 0 0 1 1 -1000001 1 1 0
refused 103 line 1|a rect 0 0 1 900000001 1 0 2 1
refused 101 line 1|a poly 2 0 0 1 0 @H
refused 101 line 1|a poly 0 @H
refused 101 line 1|a poly 1 1800000001 0 @H
refused 442 line 1|a poly -1 @H
refused 442 line 1|a poly 4294967296 @H
refused 441 line 1|a poly 4294967295 0 0
refused 441 line 1|a poly 3 0 0 1 0 1 1
refused 441 line 1|a poly 3 0 0 1 0 1 1 0 100 1700003600000000000
refused 442 line 1|a poly 2 0 0 1 x @H
refused 442 line 1|a rect +1 0 1 1 @H
refused 442 line 1|a rect 01 0 1 1 @H
refused 442 line 1|a rect 00 0 1 1 @H
refused 442 line 1|a rect -0 0 1 1 @H
refused 442 line 1|a rect -01 0 1 1 @H
refused 442 line 1|a rect - 0 1 1 @H
refused 442 line 1|a rect --1 0 1 1 @H
refused 442 line 1|a rect 1.5 0 1 1 @H
refused 442 line 1|a rect 0x1 0 1 1 @H
refused 442 line 1|a rect 9223372036854775808 0 1 1 @H
refused 442 line 1|a rect -9223372036854775809 0 1 1 @H
refused 442 line 1|a rect 99999999999999999999999 0 1 1 @H
refused 103 line 1|a rect 9223372036854775807 0 1 1 @H
refused 103 line 1|a rect -9223372036854775808 0 1 1 @H
refused 441 line 1|;
refused 441 line 2|a @V;;a @V
refused 441 line 2|a @V;;
refused 441 line 1| a @V
refused 441 line 1|a @V 
refused 441 line 1|a  @V
refused 441 line 1|a rect  0 0 1 1 @H
refused 441 line 1|a rect 0 0 1  1 @H
refused 441 line 1|a
refused 441 line 1|a 
refused 441 line 1|a circle 0 0 1
refused 441 line 1|A @V
refused 441 line 1|c @V
refused 441 line 1|ab @V
refused 441 line 1|a @V 0
refused 441 line 3|a @V;b @V;a rect 0 0
refused 442 line 2|a @V;b rect 0 0 1 y;c
refused 112 line 1|a rect 0 0 1 1 0 1 2 1;c
refused 113 line 1|a rect 0 0 1 1 -1000001 0 @W 7
refused 441 line 1|a\trect 0 0 1 1 @H
refused 442 line 1|a @V\r;
refused 441 line 1|\r;
refused 441 line 1|a\r;";

// The same of discovery calls: `@F` is a flight, `@T` a ticket, `@B` a base URL, `@O` an OVN.
const DISCOVERS: &str = "\
lines 0|
lines 1|a query @V
lines 1|a query @V;
lines 2|a get @F;b-1._Z get @F
lines 1|a put @F - Accepted @B @T key 0 vols 0
lines 1|a put @F @O Activated @B/a/1 @T key 2 @O @O vols 2 @V poly 3 0 0 10 0 5 5 @H
lines 1|a put @F @O Nonconforming @B @T key 0 vols 1 @V
lines 1|a put @F @O Contingent @B @T key 0 vols 1 @V
lines 1|a remove @F @O
lines 1|a tput @T @B @V
lines 1|a tget @T
lines 1|a tremove @T 0
lines 1|a tremove @T 4294967295
refused 442 line 1|a tremove @T 4294967296
refused 442 line 1|a tremove @T -1
refused 442 line 1|a tremove @T 01
refused 442 line 1|a tremove @T one
refused 441 line 1|a tremove @T
refused 441 line 1|a tremove @T 1 1
refused 441 line 1|a tremove @T 
refused 441 line 1|a
refused 441 line 1|a 
refused 441 line 1|;a get @F
refused 441 line 1| a get @F
refused 441 line 1|a get @F 
refused 441 line 1|a  get @F
refused 441 line 1|a Get @F
refused 441 line 1|a gets @F
refused 441 line 1|a get
refused 441 line 1|a get 00000001-0000-4000-8000-00000000000
refused 441 line 1|a get 0000000A-0000-4000-8000-000000000001
refused 441 line 1|a get 00000001000040008000000000000001
refused 441 line 1|a get {@F}
refused 441 line 1|a get @F\r;
refused 441 line 1|a get @F @F
refused 128 line 1|a/b get @F
refused 128 line 1|a/b nothing
refused 128 line 1|aaaaaaaaaaaaaaaaaaaaaaaaaaaaaaaaaaaaaaaaaaaaaaaaaaaaaaaaaaaaaaaaa get @F
lines 1|aaaaaaaaaaaaaaaaaaaaaaaaaaaaaaaaaaaaaaaaaaaaaaaaaaaaaaaaaaaaaaaa get @F
refused 129 line 1|a tput @T http://a.test/ @V
refused 129 line 1|a tput @T https://a.test x
refused 441 line 1|a tput x https://a.test @V
refused 441 line 1|a tput @T @B
refused 111 line 1|a tput @T @B rect 0 0 1 1 1 0 @W
refused 130 line 1|a remove @F short
refused 130 line 1|a remove @F -
refused 441 line 1|a remove @F
refused 441 line 1|a remove @F @O @O
refused 130 line 1|a put @F short nothing
refused 441 line 1|a put @F - accepted @B @T key 0 vols 0
refused 441 line 1|a put @F - Ended @B @T key 0 vols 0
refused 129 line 1|a put @F - Accepted a @T key 0 vols 0
refused 441 line 1|a put @F - Accepted @B @F0 key 0 vols 0
refused 441 line 1|a put @F - Accepted @B @T keys 0 vols 0
refused 442 line 1|a put @F - Accepted @B @T key -0 vols 0
refused 130 line 1|a put @F - Accepted @B @T key 1 vols 0
refused 441 line 1|a put @F - Accepted @B @T key 1 @O @O vols 0
refused 441 line 1|a put @F - Accepted @B @T key 4294967295 @O
refused 130 line 1|a put @F - Accepted @B @T key 2 @O - vols 0
refused 441 line 1|a put @F - Accepted @B @T key 0 vol 0
refused 441 line 1|a put @F - Accepted @B @T key 0
refused 441 line 1|a put @F - Accepted @B @T key 0 vols 4294967295 @V
refused 442 line 1|a put @F - Accepted @B @T key 0 vols 4294967296 @V
refused 441 line 1|a put @F - Accepted @B @T key 0 vols 1 @V @V
refused 113 line 1|a put @F - Accepted @B @T key 0 vols 2 @V rect 0 0 1 1 0 100000001 @W
refused 103 line 1|a query rect 0 0 1 900000001 @H x
refused 441 line 1|a query
refused 441 line 2|a get @F;a got @F;a/b get @F
refused 128 line 3|a get @F;a get @F;+ got @F";

#[test]
fn scripts_of_volumes_are_read(rt: HostRuntime) -> Result<(), Fail> {
    let alloc = rt.alloc();
    for row in CONFLICTS.split('\n') {
        if let Some((told, rest)) = row.split_once('|') {
            let text = script(alloc, rest)?;
            let found = conflict_of(alloc, text.as_str())?;
            assert_eq!(rt; found.as_str(), told, "{row}");
        }
    }
    Ok(())
}

#[test]
fn scripts_of_calls_are_read(rt: HostRuntime) -> Result<(), Fail> {
    let alloc = rt.alloc();
    for row in DISCOVERS.split('\n') {
        if let Some((told, rest)) = row.split_once('|') {
            let text = script(alloc, rest)?;
            let found = discover_of(alloc, text.as_str())?;
            assert_eq!(rt; found.as_str(), told, "{row}");
        }
    }
    Ok(())
}

/// A polygon of so many vertices, all at one place.
fn polygon(alloc: Global, count: u32) -> Result<String, AllocError> {
    let mut text = format!(in alloc; "a poly {count}")?;
    for _ in 0..count {
        text.push_str(" 0 0")?;
    }
    text.push_str(" 0 100 1700003600000000000 1700005400000000000\n")?;
    Ok(text)
}

#[test]
fn long_polygons_are_refused(rt: HostRuntime) -> Result<(), Fail> {
    let alloc = rt.alloc();
    let rows = [
        (1000, "a 1 b 0"),
        (1001, "refused 102 line 1"),
        (1002, "refused 102 line 1"),
        (5000, "refused 102 line 1"),
    ];
    for (count, told) in rows {
        let text = polygon(alloc, count)?;
        let found = conflict_of(alloc, text.as_str())?;
        assert_eq!(rt; found.as_str(), told, "{count}");
    }
    Ok(())
}

#[test]
fn numbers_are_their_decimal_texts(rt: HostRuntime) -> Result<(), Fail> {
    let naturals: [(&[u8], Option<u64>); 9] = [
        (b"0", Some(0)),
        (b"10", Some(10)),
        (b"18446744073709551615", Some(u64::MAX)),
        (b"18446744073709551616", None),
        (b"01", None),
        (b"+1", None),
        (b"-1", None),
        (b"", None),
        (b"1 ", None),
    ];
    for (word, number) in naturals {
        assert_eq!(rt; natural(word), number, "{word:?}");
    }
    let integers: [(&[u8], Option<i64>); 9] = [
        (b"0", Some(0)),
        (b"-10", Some(-10)),
        (b"9223372036854775807", Some(i64::MAX)),
        (b"-9223372036854775808", Some(i64::MIN)),
        (b"9223372036854775808", None),
        (b"-9223372036854775809", None),
        (b"-0", None),
        (b"+1", None),
        (b"-", None),
    ];
    for (word, number) in integers {
        assert_eq!(rt; integer(word), number, "{word:?}");
    }
    Ok(())
}

// A flight from its ticket to its end, with calls that are refused.
const TRANSCRIPT: &str = "\
alpha tput @T http://a.test rect 0 0 100 100 0 1000 @W
alpha put @F - Accepted http://a.test/a/1 @T key 0 vols 1 rect 0 0 100 100 0 1000 @W
beta get @F
beta remove @F @O
alpha tremove @T 1
alpha remove @F ovn-0000000000000009
alpha remove @F @O
alpha tremove @T 1
alpha tget @T
beta get 00000002-0000-4000-8000-000000000001
";

#[test]
fn a_whole_script_is_read(rt: HostRuntime) -> Result<(), Fail> {
    let alloc = rt.alloc();
    let text = script(alloc, TRANSCRIPT)?;
    match read_discover(alloc, text.as_bytes()) {
        Ok(lines) => {
            assert_eq!(rt; lines.len(), 10);
            for (place, line) in lines.as_slice().iter().enumerate() {
                let beta = place == 2 || place == 3 || place == 9;
                let name = if beta { "beta" } else { "alpha" };
                assert_eq!(rt; line.client.as_str(), name, "{place}");
            }
        }
        Err(refusal) => panic!(rt; "{refusal}"),
    }
    Ok(())
}

fn shown(alloc: Global) -> Result<Reference, Fail> {
    let mut made = reference(alloc, "alpha", flight_id(1, 1), State::Activated)?;
    made.version = 7;
    Ok(made)
}

fn hidden(alloc: Global) -> Result<Reference, Fail> {
    let mut made = shown(alloc)?;
    made.ovn = None;
    Ok(made)
}

fn references(alloc: Global) -> Result<References, Fail> {
    let list = vec![in alloc; shown(alloc)?, hidden(alloc)?]?;
    Ok(References::from_vec(list))
}

fn owed(alloc: Global) -> Result<Owed, Fail> {
    let first = Subscriber {
        base: base(alloc)?,
        ticket: ticket_id(1, 1),
        index: u64::MAX,
    };
    let list = vec![in alloc; first]?;
    Ok(Owed::from_vec(list))
}

fn ticket(alloc: Global) -> Result<Ticket, Fail> {
    Ok(Ticket {
        id: ticket_id(1, 1),
        manager: name(alloc, "alpha")?,
        area: square(alloc, 0)?,
        base: base(alloc)?,
        index: 3,
    })
}

/// What is written of the reply after `<`.
fn text_of(alloc: Global, reply: &DssReply) -> Result<String, AllocError> {
    let mut text = String::from_str(alloc, "<")?;
    write_reply(reply, &mut text)?;
    Ok(text)
}

#[test]
fn replies_are_written(rt: HostRuntime) -> Result<(), Fail> {
    let alloc = rt.alloc();
    let landed = DssReply::Landed {
        reference: shown(alloc)?,
        subscribers: owed(alloc)?,
    };
    let removed = DssReply::Removed {
        reference: hidden(alloc)?,
        subscribers: Owed::new(alloc),
    };
    let missing = DssReply::Refused(DssRefusal::MissingKey(references(alloc)?));
    let rows = [
        (DssReply::Found(References::new(alloc)), "<found 0;"),
        (DssReply::Found(references(alloc)?), "<found 2;@S@N"),
        (DssReply::Got(hidden(alloc)?), "<@N"),
        (
            landed,
            "<landed;@Ssubscribers 1;sub @T 18446744073709551615 @B;",
        ),
        (removed, "<removed;@Nsubscribers 0;"),
        (
            DssReply::TicketMade(ticket(alloc)?),
            "<ticket @T alpha 1 3;",
        ),
        (DssReply::TicketGot(ticket(alloc)?), "<ticket @T alpha 1 3;"),
        (DssReply::TicketRemoved(ticket(alloc)?), "<tremoved @T;"),
        (DssReply::Refused(DssRefusal::Absent), "<refused 205;"),
        (DssReply::Refused(DssRefusal::Full(9)), "<refused 211;"),
        (missing, "<refused 209;missing 2;@S@N"),
    ];
    for (reply, row) in rows {
        let all = row.replace(alloc, "@S", "ref @F alpha 7 Activated @O @W @B @T;")?;
        let told = all.replace(alloc, "@N", "ref @F alpha 7 Activated - @W @B @T;")?;
        let expected = script(alloc, told.as_str())?;
        let found = text_of(alloc, &reply)?;
        assert_eq!(rt; found.as_str(), expected.as_str(), "{row}");
    }
    Ok(())
}
