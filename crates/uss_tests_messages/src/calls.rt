//! Calls of the discovery service and operators' cancels and sweeps, each with what it is read as or how it is refused.

use std::alloc::Global;
use std::test::Fail;
use uss_intent::{DssAsk, FlightId, TicketId};
use uss_wire::{
    Member, WireRefusal, read_cancels, read_put_reference, read_put_subscription, read_query,
    read_sweeps, write_cancels, write_query, write_sweeps,
};

const POLYGON: &str =
    "{\"vertices\":[{\"lat_e7\":0,\"lng_e7\":0},{\"lat_e7\":0,\"lng_e7\":100},{\"lat_e7\":100,\"lng_e7\":100}]}";

const LOW: &str = "{\"reference\":\"W84\",\"units\":\"MM\",\"value_mm\":0}";

const START: &str = "{\"format\":\"RFC3339\",\"value\":\"2023-11-14T23:13:20.000000000Z\"}";

// A polygon of a query, and how the query is refused.
const POLYGONS: [(&str, Option<WireRefusal>); 20] = [
    (POLYGON, None),
    (
        "{\"vertices\":[{\"lat\":34.1,\"lng\":-118.2}]}",
        Some(WireRefusal::NotThisProfile(Member::Lat)),
    ),
    (
        "{\"vertices\":[{\"lat_e7\":1,\"lng_e7\":1,\"lng\":2}]}",
        Some(WireRefusal::NotThisProfile(Member::Lng)),
    ),
    (
        "{\"vertices\":[{\"lat_e7\":1.5,\"lng_e7\":1}]}",
        Some(WireRefusal::WrongKind(Member::LatE7)),
    ),
    (
        "{\"vertices\":[{\"lat_e7\":1.0,\"lng_e7\":1}]}",
        Some(WireRefusal::WrongKind(Member::LatE7)),
    ),
    (
        "{\"vertices\":[{\"lat_e7\":-0,\"lng_e7\":1}]}",
        Some(WireRefusal::WrongKind(Member::LatE7)),
    ),
    (
        "{\"vertices\":[{\"lat_e7\":1e3,\"lng_e7\":1}]}",
        Some(WireRefusal::WrongKind(Member::LatE7)),
    ),
    (
        "{\"vertices\":[{\"lat_e7\":9223372036854775808,\"lng_e7\":1}]}",
        Some(WireRefusal::WrongKind(Member::LatE7)),
    ),
    (
        "{\"vertices\":[{\"lat_e7\":\"1\",\"lng_e7\":1}]}",
        Some(WireRefusal::WrongKind(Member::LatE7)),
    ),
    (
        "{\"vertices\":[{\"lat_e7\":1,\"lng_e7\":null}]}",
        Some(WireRefusal::WrongKind(Member::LngE7)),
    ),
    (
        "{\"vertices\":[{\"lng_e7\":1}]}",
        Some(WireRefusal::Missing(Member::LatE7)),
    ),
    (
        "{\"vertices\":[{\"lat_e7\":1}]}",
        Some(WireRefusal::Missing(Member::LngE7)),
    ),
    (
        "{\"vertices\":[1]}",
        Some(WireRefusal::WrongKind(Member::Vertices)),
    ),
    (
        "{\"vertices\":{}}",
        Some(WireRefusal::WrongKind(Member::Vertices)),
    ),
    ("{\"vertices\":[]}", Some(WireRefusal::TooFewVertices)),
    (
        "{\"vertices\":[{\"lat_e7\":0,\"lng_e7\":0},{\"lat_e7\":0,\"lng_e7\":1}]}",
        Some(WireRefusal::TooFewVertices),
    ),
    (
        "{\"vertices\":[{\"lat_e7\":0,\"lng_e7\":0},{\"lat_e7\":0,\"lng_e7\":1},{\"lat_e7\":900000001,\"lng_e7\":1}]}",
        Some(WireRefusal::OutOfRange(2)),
    ),
    (
        "{\"vertices\":[{\"lat_e7\":0,\"lng_e7\":-1800000001},{\"lat_e7\":0,\"lng_e7\":1},{\"lat_e7\":1,\"lng_e7\":1}]}",
        Some(WireRefusal::OutOfRange(0)),
    ),
    ("{}", Some(WireRefusal::Missing(Member::Vertices))),
    ("[]", Some(WireRefusal::WrongKind(Member::OutlinePolygon))),
];

// A lower altitude of a query, and how the query is refused.
const ALTITUDES: [(&str, Option<WireRefusal>); 12] = [
    (LOW, None),
    (
        "{\"value\":1,\"reference\":\"W84\",\"units\":\"MM\"}",
        Some(WireRefusal::NotThisProfile(Member::Value)),
    ),
    (
        "{\"reference\":\"W84\",\"units\":\"MM\"}",
        Some(WireRefusal::Missing(Member::ValueMm)),
    ),
    (
        "{\"value_mm\":0.5,\"reference\":\"W84\",\"units\":\"MM\"}",
        Some(WireRefusal::WrongKind(Member::ValueMm)),
    ),
    (
        "{\"value_mm\":0,\"units\":\"MM\"}",
        Some(WireRefusal::Missing(Member::Reference)),
    ),
    (
        "{\"value_mm\":0,\"reference\":\"SFC\",\"units\":\"MM\"}",
        Some(WireRefusal::WrongKind(Member::Reference)),
    ),
    (
        "{\"value_mm\":0,\"reference\":\"W84\",\"units\":\"M\"}",
        Some(WireRefusal::WrongKind(Member::Units)),
    ),
    (
        "{\"value_mm\":0,\"reference\":\"W84\"}",
        Some(WireRefusal::Missing(Member::Units)),
    ),
    (
        "{\"value_mm\":1001,\"reference\":\"W84\",\"units\":\"MM\"}",
        Some(WireRefusal::LowAboveHigh),
    ),
    (
        "{\"value_mm\":-1000001,\"reference\":\"W84\",\"units\":\"MM\"}",
        Some(WireRefusal::AltitudeRange),
    ),
    (
        "{\"value_mm\":0,\"reference\":\"W84\",\"units\":\"MM\",\"other\":1}",
        None,
    ),
    ("0", Some(WireRefusal::WrongKind(Member::AltitudeLower))),
];

// A start of a query, and how the query is refused.
const STARTS: [(&str, Option<WireRefusal>); 10] = [
    (START, None),
    (
        "{\"format\":\"RFC3339\",\"value\":\"2023-02-29T00:00:00Z\"}",
        Some(WireRefusal::BadTime(Member::Value)),
    ),
    (
        "{\"format\":\"RFC3339\",\"value\":\"1999-12-31T00:00:00Z\"}",
        Some(WireRefusal::TimeRange),
    ),
    (
        "{\"format\":\"RFC3339\",\"value\":1700003600000000000}",
        Some(WireRefusal::WrongKind(Member::Value)),
    ),
    (
        "{\"format\":\"RFC3339\"}",
        Some(WireRefusal::Missing(Member::Value)),
    ),
    (
        "{\"value\":\"2023-11-14T23:13:20Z\"}",
        Some(WireRefusal::Missing(Member::Format)),
    ),
    (
        "{\"format\":\"RFC3338\",\"value\":\"2023-11-14T23:13:20Z\"}",
        Some(WireRefusal::WrongKind(Member::Format)),
    ),
    (
        "{\"format\":\"RFC3339\",\"value\":\"2023-11-15T00:13:20+01:00\"}",
        None,
    ),
    (
        "{\"format\":\"RFC3339\",\"value\":\"2023-11-14T23:43:20.000000001Z\"}",
        Some(WireRefusal::StartAfterEnd),
    ),
    (
        "\"2023-11-14T23:13:20Z\"",
        Some(WireRefusal::WrongKind(Member::TimeStart)),
    ),
];

// A whole query that is refused.
const QUERIES: [(&str, Option<WireRefusal>); 14] = [
    ("", Some(WireRefusal::BadJson)),
    ("{", Some(WireRefusal::BadJson)),
    ("{\"area_of_interest\":", Some(WireRefusal::BadJson)),
    ("{}x", Some(WireRefusal::BadJson)),
    ("{\"area_of_interest\":NaN}", Some(WireRefusal::BadJson)),
    ("{'area_of_interest':1}", Some(WireRefusal::BadJson)),
    ("{\"area_of_interest\":1,}", Some(WireRefusal::BadJson)),
    ("{}", Some(WireRefusal::Missing(Member::AreaOfInterest))),
    (
        "{\"Area_of_interest\":1}",
        Some(WireRefusal::Missing(Member::AreaOfInterest)),
    ),
    ("[]", Some(WireRefusal::WrongKind(Member::Whole))),
    ("null", Some(WireRefusal::WrongKind(Member::Whole))),
    (
        "{\"area_of_interest\":null}",
        Some(WireRefusal::WrongKind(Member::AreaOfInterest)),
    ),
    (
        "{\"area_of_interest\":{}}",
        Some(WireRefusal::Missing(Member::Volume)),
    ),
    (
        "{\"area_of_interest\":{\"volume\":{\"outline_circle\":1,\"outline_polygon\":2}}}",
        Some(WireRefusal::NotThisProfile(Member::OutlineCircle)),
    ),
];

// The members of a change of a reference, and how it is refused.
const PUTS: [(&str, Option<WireRefusal>); 14] = [
    (
        "{\"extents\":[],\"state\":\"Accepted\",\"uss_base_url\":\"http://uss1.test/a/1\",\"subscription_id\":\"00000001-0001-4000-8000-000000000001\"}",
        None,
    ),
    (
        "{\"extents\":1,\"new_subscription\":null}",
        Some(WireRefusal::NotThisProfile(Member::NewSubscription)),
    ),
    (
        "{\"state\":\"Accepted\"}",
        Some(WireRefusal::Missing(Member::Extents)),
    ),
    (
        "{\"extents\":[1]}",
        Some(WireRefusal::WrongKind(Member::Extents)),
    ),
    (
        "{\"extents\":[],\"key\":null}",
        Some(WireRefusal::WrongKind(Member::Key)),
    ),
    (
        "{\"extents\":[],\"key\":[\"short\"]}",
        Some(WireRefusal::BadOvn),
    ),
    (
        "{\"extents\":[],\"key\":[1]}",
        Some(WireRefusal::WrongKind(Member::Key)),
    ),
    (
        "{\"extents\":[]}",
        Some(WireRefusal::Missing(Member::State)),
    ),
    (
        "{\"extents\":[],\"state\":\"Ended\"}",
        Some(WireRefusal::WrongKind(Member::State)),
    ),
    (
        "{\"extents\":[],\"state\":\"Contingent\"}",
        Some(WireRefusal::Missing(Member::UssBaseUrl)),
    ),
    (
        "{\"extents\":[],\"state\":\"Activated\",\"uss_base_url\":\"https://uss1.test\"}",
        Some(WireRefusal::BadBase),
    ),
    (
        "{\"extents\":[],\"state\":\"Activated\",\"uss_base_url\":\"http://uss1.test/\"}",
        Some(WireRefusal::BadBase),
    ),
    (
        "{\"extents\":[],\"state\":\"Activated\",\"uss_base_url\":\"http://uss1.test\"}",
        Some(WireRefusal::Missing(Member::SubscriptionId)),
    ),
    (
        "{\"extents\":[],\"state\":\"Activated\",\"uss_base_url\":\"http://uss1.test\",\"subscription_id\":\"00000001-0001-4000-8000-00000000000A\"}",
        Some(WireRefusal::WrongKind(Member::SubscriptionId)),
    ),
];

fn refusal<T: Drop>(answer: Result<T, WireRefusal>) -> Option<WireRefusal> {
    match answer {
        Ok(_) => None,
        Err(refusal) => Some(refusal),
    }
}

// A query with this polygon, lower altitude and start.
fn query_text(rt: &HostRuntime, polygon: &str, low: &str, start: &str) -> Result<String, Fail> {
    Ok(format!(in rt.alloc();
        "{{\"area_of_interest\":{{\"time_end\":{{\"format\":\"RFC3339\",\"value\":\"2023-11-14T23:43:20.000000000Z\"}},\"time_start\":{start},\"volume\":{{\"altitude_lower\":{low},\"altitude_upper\":{{\"reference\":\"W84\",\"units\":\"MM\",\"value_mm\":1000}},\"outline_polygon\":{polygon}}}}}}}"
    )?)
}

#[test]
fn refuses_the_first_of_a_query(rt: HostRuntime) -> Result<(), Fail> {
    for (polygon, answer) in POLYGONS {
        let text = query_text(&rt, polygon, LOW, START)?;
        assert!(rt; refusal(read_query(rt.alloc(), text.as_bytes())) == answer);
    }
    for (low, answer) in ALTITUDES {
        let text = query_text(&rt, POLYGON, low, START)?;
        assert!(rt; refusal(read_query(rt.alloc(), text.as_bytes())) == answer);
    }
    for (start, answer) in STARTS {
        let text = query_text(&rt, POLYGON, LOW, start)?;
        assert!(rt; refusal(read_query(rt.alloc(), text.as_bytes())) == answer);
    }
    for (text, answer) in QUERIES {
        assert!(rt; refusal(read_query(rt.alloc(), text.as_bytes())) == answer);
    }
    Ok(())
}

// The members of a message for a ticket, and how it is refused.
const SUBSCRIPTIONS: [(&str, Option<WireRefusal>); 6] = [
    (
        "{\"notify_for_constraints\":true}",
        Some(WireRefusal::NotThisProfile(Member::NotifyForConstraints)),
    ),
    (
        "{\"notify_for_constraints\":false}",
        Some(WireRefusal::Missing(Member::Extents)),
    ),
    (
        "{\"notify_for_constraints\":1,\"notify_for_operational_intents\":false}",
        Some(WireRefusal::Missing(Member::Extents)),
    ),
    (
        "{\"extents\":[]}",
        Some(WireRefusal::WrongKind(Member::Extents)),
    ),
    (
        "{\"extents\":{\"volume\":[]}}",
        Some(WireRefusal::WrongKind(Member::Volume)),
    ),
    ("1", Some(WireRefusal::WrongKind(Member::Whole))),
];

// A message of an operator that ends a request, and how it is refused.
const CANCELS: [(&str, Option<WireRefusal>); 8] = [
    ("{\"flight\":1,\"number\":2}", None),
    ("{\"flight\":3,\"flight\":1,\"number\":2}", None),
    ("{\"flight\":18446744073709551615,\"number\":0}", None),
    (
        "{\"flight\":18446744073709551616,\"number\":0}",
        Some(WireRefusal::WrongKind(Member::Flight)),
    ),
    (
        "{\"flight\":-1,\"number\":0}",
        Some(WireRefusal::WrongKind(Member::Flight)),
    ),
    (
        "{\"flight\":true,\"number\":0}",
        Some(WireRefusal::WrongKind(Member::Flight)),
    ),
    ("{\"flight\":1}", Some(WireRefusal::Missing(Member::Number))),
    ("{\"number\":1}", Some(WireRefusal::Missing(Member::Flight))),
];

#[test]
fn refuses_the_first_of_a_call(rt: HostRuntime) -> Result<(), Fail> {
    let flight = FlightId::from_number(1);
    let ticket = TicketId::from_number(2);
    for (text, answer) in PUTS {
        let read = read_put_reference(rt.alloc(), text.as_bytes(), flight, None);
        assert!(rt; refusal(read) == answer);
    }
    for (text, answer) in SUBSCRIPTIONS {
        let read = read_put_subscription(rt.alloc(), text.as_bytes(), ticket);
        assert!(rt; refusal(read) == answer);
    }
    for (text, answer) in CANCELS {
        assert!(rt; refusal(read_cancels(rt.alloc(), text.as_bytes())) == answer);
    }
    Ok(())
}

// The bytes of a query.
fn written(alloc: Global, ask: &DssAsk) -> Option<Vec<u8>> {
    match ask {
        DssAsk::Query { .. } => write_query(alloc, ask).ok(),
        _ => None,
    }
}

#[test]
fn reads_what_it_writes(rt: HostRuntime) -> Result<(), Fail> {
    let alloc = rt.alloc();
    let text = query_text(&rt, POLYGON, LOW, START)?;
    let Ok(ask) = read_query(alloc, text.as_bytes()) else {
        panic!(rt; "the query isn't read");
    };
    let Some(bytes) = written(alloc, &ask) else {
        panic!(rt; "the query isn't written");
    };
    assert!(rt; bytes.as_slice() == text.as_bytes());
    let bytes = write_cancels(alloc, 1, 2)?;
    assert!(rt; bytes.as_slice() == b"{\"flight\":1,\"number\":2}".as_slice());
    let bytes = write_sweeps(alloc, 64)?;
    assert!(rt; bytes.as_slice() == b"{\"skip\":64}".as_slice());
    assert!(rt; matches!(read_sweeps(alloc, bytes.as_slice()), Ok(64)));
    Ok(())
}
