// The cache of heard pairs: over its limit, and where no room was made beforehand.
use crate::volumes::{EARLY, LATE, square};
use std::alloc::Global;
use std::test::Fail;
use uss_event::{Details, Pair};
use uss_intent::{Base, FlightId, Name, Ovn, Reference, State, Volumes, flight_id, ticket_id};
use uss_key::Cache;

fn intent(alloc: Global, flight: FlightId, version: u32) -> Result<Pair, Fail> {
    let volumes = square(alloc)?;
    let reference = Reference {
        flight,
        manager: Name::of(alloc, b"uss2")?,
        version,
        state: State::Accepted,
        ovn: Some(Ovn::of(alloc, b"ovn-0000000000000001")?),
        start: EARLY,
        end: LATE,
        base: Base::of(alloc, b"http://uss2.test/a/1")?,
        ticket: ticket_id(2, 1),
    };
    let details = Details::of(State::Accepted, volumes, Volumes::new(alloc), 0)?;
    Ok(Pair::of(reference, details).ok_or("no pair")?)
}

// The version of the kept pair, and 0 where none is kept.
fn version(cache: &Cache, flight: u64) -> u32 {
    match cache.pair(flight_id(2, flight)) {
        Some(pair) => pair.reference().version,
        None => 0,
    }
}

fn hear(alloc: Global, cache: &mut Cache, flight: u64, version: u32) -> Result<(), Fail> {
    cache.reserve()?;
    let pair = intent(alloc, flight_id(2, flight), version)?;
    cache.hear(pair)?;
    Ok(())
}

fn hear_at_once(alloc: Global, cache: &mut Cache, flight: u64) -> Result<(), Fail> {
    let pair = intent(alloc, flight_id(2, flight), 1)?;
    cache.hear(pair)?;
    Ok(())
}

#[test]
fn a_pair_is_heard_where_no_room_was_made(rt: HostRuntime) -> Result<(), Fail> {
    let mut cache = Cache::new(rt.alloc());
    for flight in 1..4 {
        hear_at_once(rt.alloc(), &mut cache, flight)?;
    }
    assert_eq!(rt; version(&cache, 1), 1);
    assert_eq!(rt; version(&cache, 2), 1);
    assert_eq!(rt; version(&cache, 3), 1);
    Ok(())
}

#[test]
fn the_newer_version_stays_and_the_oldest_goes(rt: HostRuntime) -> Result<(), Fail> {
    let mut cache = Cache::new(rt.alloc());
    for (flight, heard, kept) in [
        (1, 2, 2),
        (2, 1, 1),
        (1, 1, 2),
        (1, 2, 2),
        (2, 7, 7),
        (1, 3, 3),
    ] {
        hear(rt.alloc(), &mut cache, flight, heard)?;
        assert_eq!(rt; version(&cache, flight), kept);
    }
    cache.forget(flight_id(2, 1));
    assert_eq!(rt; version(&cache, 1), 0);
    for flight in 3..4098 {
        hear(rt.alloc(), &mut cache, flight, 1)?;
    }
    assert_eq!(rt; version(&cache, 2), 7);
    assert_eq!(rt; cache.next_forgotten(flight_id(2, 2)), None);
    assert_eq!(rt;
        cache.next_forgotten(flight_id(2, 4098)),
        Some(flight_id(2, 2))
    );
    hear(rt.alloc(), &mut cache, 4098, 1)?;
    assert_eq!(rt; version(&cache, 2), 0);
    assert_eq!(rt; version(&cache, 3), 1);
    Ok(())
}
