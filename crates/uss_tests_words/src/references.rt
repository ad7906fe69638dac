//! Texts, identifiers, tags and calls with known answers.

use crate::fixtures::{base, name, ovn, reference, square};
use std::alloc::{AllocError, Global};
use std::test::Fail;
use uss_intent::{
    Base, DssAsk, DssReply, FlightId, IntentRefusal, Landing, Name, Ovn, Ovns, Recorded, Reference,
    References, Sequence, State, Subscriber, Ticket, TicketId, Volumes, flight_id, tag_of,
    ticket_id,
};

// The number that refuses a text, and 0 where it is accepted.
fn refused(number: Option<u16>) -> u16 {
    number.unwrap_or(999)
}

fn name_of(alloc: Global, bytes: &[u8]) -> u16 {
    match Name::of(alloc, bytes) {
        Ok(_) => 0,
        Err(refusal) => refused(refusal.number()),
    }
}

fn ovn_of(alloc: Global, bytes: &[u8]) -> u16 {
    match Ovn::of(alloc, bytes) {
        Ok(_) => 0,
        Err(refusal) => refused(refusal.number()),
    }
}

fn base_of(alloc: Global, bytes: &[u8]) -> u16 {
    match Base::of(alloc, bytes) {
        Ok(_) => 0,
        Err(refusal) => refused(refusal.number()),
    }
}

#[test]
fn texts_are_judged(rt: HostRuntime) -> Result<(), Fail> {
    let long = [b'n'; 129];
    let names: [(&[u8], u16); 8] = [
        (b"uss1", 0),
        (b"A-b.c_9", 0),
        (&long[..64], 0),
        (b"", 128),
        (&long[..65], 128),
        (b"two words", 128),
        (b"a/b", 128),
        (b"caf\xc3\xa9", 128),
    ];
    for (bytes, number) in names {
        assert_eq!(rt; name_of(rt.alloc(), bytes), number, "name {bytes:?}");
    }
    let ovns: [(&[u8], u16); 7] = [
        (b"ovn-0000000000000001", 0),
        (&long[..16], 0),
        (&long[..128], 0),
        (&long[..15], 130),
        (&long[..129], 130),
        (b"ovn-00000000 0000001", 130),
        (b"ovn-0000000000\xc3\xa9001", 130),
    ];
    for (bytes, number) in ovns {
        assert_eq!(rt; ovn_of(rt.alloc(), bytes), number, "ovn {bytes:?}");
    }
    let bases: [(&[u8], u16); 12] = [
        (b"http://uss1.test", 0),
        (b"http://127.0.0.1:8001/uss", 0),
        (b"http://a.test/a/1", 0),
        (b"http://a.test/", 129),
        (b"https://a.test", 129),
        (b"http://a.test?x=1", 129),
        (b"http://a.test#part", 129),
        (b"http://", 129),
        (b"a.test", 129),
        (b"", 129),
        (b"http://a .test", 129),
        (b"http://caf\xc3\xa9.test", 129),
    ];
    for (bytes, number) in bases {
        assert_eq!(rt; base_of(rt.alloc(), bytes), number, "base {bytes:?}");
    }
    Ok(())
}

fn tag_in(alloc: Global, text: &[u8]) -> Result<Option<u64>, IntentRefusal> {
    Ok(tag_of(&Base::of(alloc, text)?))
}

#[test]
fn tags_are_read(rt: HostRuntime) -> Result<(), Fail> {
    let rows: [(&[u8], Option<u64>); 11] = [
        (b"http://a.test/a/1", Some(1)),
        (b"http://a.test/a/20", Some(20)),
        (
            b"http://a.test/a/18446744073709551615",
            Some(18446744073709551615),
        ),
        (b"http://a.test/a/18446744073709551616", None),
        (b"http://a.test/a/0", None),
        (b"http://a.test/a/01", None),
        (b"http://a.test/a/x", None),
        (b"http://a.test/a/+1", None),
        (b"http://a.test/ba/1", None),
        (b"http://a.test/a/1/a/2", Some(2)),
        (b"http://a.test", None),
    ];
    for (text, tag) in rows {
        assert_eq!(rt; tag_in(rt.alloc(), text)?, tag, "base {text:?}");
    }
    for tag in [1, 10, 7_000_000_000, u64::MAX] {
        let base = Base::of(rt.alloc(), b"http://uss1.test")?.tagged(rt.alloc(), tag)?;
        assert_eq!(rt; tag_of(&base), Some(tag));
    }
    let base = Base::of(rt.alloc(), b"http://uss1.test/x")?.tagged(rt.alloc(), 12)?;
    assert_eq!(rt; base.as_str(), "http://uss1.test/x/a/12");
    Ok(())
}

#[test]
fn identifiers_are_printed_and_read(rt: HostRuntime) -> Result<(), Fail> {
    let rows = [
        (1, 1, "00000001-0000-4000-8000-000000000001"),
        (
            2,
            0x1234_5678_9abc_def0,
            "00000002-0000-4001-8234-56789abcdef0",
        ),
        (u32::MAX, u64::MAX, "ffffffff-0000-400f-8fff-ffffffffffff"),
        (0, 0, "00000000-0000-4000-8000-000000000000"),
    ];
    for (supplier, number, text) in rows {
        let flight = flight_id(supplier, number);
        assert_eq!(rt; format!(in rt.alloc(); "{flight}")?.as_str(), text);
        assert_eq!(rt; FlightId::read(text.as_bytes()), Some(flight));
    }
    let ticket = ticket_id(1, 1);
    let number = (1 << 96) + (4 << 76) + (2 << 62) + 1;
    assert_eq!(rt; FlightId::from_number(number), flight_id(1, 1));
    assert_eq!(rt; TicketId::from_number(number + (1 << 80)), ticket);
    let text = "00000001-0001-4000-8000-000000000001";
    assert_eq!(rt; format!(in rt.alloc(); "{ticket}")?.as_str(), text);
    assert_eq!(rt; TicketId::read(text.as_bytes()), Some(ticket));
    let others: [&[u8]; 8] = [
        b"FFFFFFFF-0000-400F-8FFF-FFFFFFFFFFFF",
        b"ffffffff-0000-400F-8fff-ffffffffffff",
        b"ffffffff0000400f8fffffffffffffff",
        b"{ffffffff-0000-400f-8fff-ffffffffffff}",
        b"urn:uuid:ffffffff-0000-400f-8fff-ffffffffffff",
        b"ffffffff-0000-400f-8fff-fffffffffff",
        b"ffffffff-0000-400f-8fff-fffffffffff\xff",
        b"",
    ];
    for text in others {
        assert_eq!(rt; FlightId::read(text), None, "identifier {text:?}");
        assert_eq!(rt; TicketId::read(text), None, "identifier {text:?}");
    }
    Ok(())
}

fn put_with(alloc: Global, key: &[u8]) -> Result<DssAsk, Fail> {
    let mut ovns = Sequence::new(alloc);
    ovns.push(Ovn::of(alloc, key)?).map_err(AllocError::from)?;
    Ok(DssAsk::Put {
        flight: flight_id(1, 1),
        ovn: None,
        extents: Sequence::new(alloc),
        key: ovns,
        state: State::Accepted,
        base: base(alloc)?,
        ticket: ticket_id(1, 1),
    })
}

#[test]
fn calls_are_compared(rt: HostRuntime) -> Result<(), Fail> {
    let put = put_with(rt.alloc(), b"ovn-0000000000000001")?;
    let other = put_with(rt.alloc(), b"ovn-0000000000000002")?;
    assert!(rt; put.is_same(&put.clone()?));
    assert!(rt; !put.is_same(&other));
    let get = DssAsk::Get {
        flight: flight_id(1, 1),
    };
    assert!(rt; !put.is_same(&get));
    assert!(rt; get.is_same(&get.clone()?));
    for (state, text) in [
        (State::Accepted, "Accepted"),
        (State::Activated, "Activated"),
        (State::Nonconforming, "Nonconforming"),
        (State::Contingent, "Contingent"),
    ] {
        assert_eq!(rt; format!(in rt.alloc(); "{state}")?.as_str(), text);
    }
    Ok(())
}

/// The version of a reference of `uss1`.
fn version(alloc: Global, version: u32) -> Result<Reference, Fail> {
    let mut made = reference(alloc, "uss1", flight_id(1, 1), State::Accepted)?;
    made.version = version;
    Ok(made)
}

#[test]
fn copies_are_the_same(rt: HostRuntime) -> Result<(), Fail> {
    let first = version(rt.alloc(), 1)?;
    let second = version(rt.alloc(), 2)?;
    assert!(rt; first.clone()?.is_same(&first));
    assert!(rt; !first.is_same(&second));
    let recorded = Recorded {
        reference: first.clone()?,
        extents: Volumes::from_vec(vec![in rt.alloc(); square(rt.alloc(), 0)?]?),
    };
    assert!(rt; recorded.clone()?.is_same(&recorded));
    let ticket = Ticket {
        id: ticket_id(1, 1),
        manager: name(rt.alloc(), "uss1")?,
        area: square(rt.alloc(), 0)?,
        base: base(rt.alloc())?,
        index: 3,
    };
    assert!(rt; ticket.clone()?.is_same(&ticket));
    let subscriber = Subscriber {
        base: base(rt.alloc())?,
        ticket: ticket_id(1, 1),
        index: 3,
    };
    assert!(rt; subscriber.clone()?.is_same(&subscriber));
    let landing = Landing {
        ovn: Ovn::of(rt.alloc(), b"ovn-0000000000000002")?,
        manager: name(rt.alloc(), "uss1")?,
        tag: 2,
        flight: flight_id(1, 1),
        previous: Some(ovn(rt.alloc())?),
        ticket: ticket_id(1, 2),
    };
    assert!(rt; landing.clone()?.is_same(&landing));
    let reply = DssReply::Landed {
        reference: first,
        subscribers: Sequence::from_vec(vec![in rt.alloc(); subscriber]?),
    };
    assert!(rt; reply.clone()? == reply);
    Ok(())
}

#[test]
fn lists_give_back_their_items(rt: HostRuntime) -> Result<(), Fail> {
    let mut list = References::new(rt.alloc());
    assert!(rt; list.is_empty());
    list.push(version(rt.alloc(), 1)?)
        .map_err(AllocError::from)?;
    list.push(version(rt.alloc(), 2)?)
        .map_err(AllocError::from)?;
    assert_eq!(rt; list.len(), 2);
    let copy = list.clone()?;
    assert!(rt; copy == list);
    assert_eq!(rt; list.pop().map(|r| r.version), Some(2));
    assert!(rt; copy != list);
    let items = list.into_vec();
    assert_eq!(rt; items.len(), 1);
    let mut ovns = Ovns::from_vec(vec![in rt.alloc(); ovn(rt.alloc())?]?);
    assert!(rt; ovns.as_slice() == ovns.clone()?.as_slice());
    assert!(rt; ovns.pop().is_some());
    assert!(rt; ovns.pop().is_none());
    Ok(())
}
