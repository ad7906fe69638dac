//! The texts of instants, each with what it is read as or how it is refused, and instants as they are written.

use std::test::Fail;
use uss_wire::{InstantRefusal, read_instant, write_instant};

const EARLY: i64 = 1_700_003_600_000_000_000;

// The text of an instant, and what it is read as.
const INSTANTS: [(&str, Result<i64, InstantRefusal>); 36] = [
    ("2023-11-14T23:13:20.000000000Z", Ok(EARLY)),
    ("2023-11-14T23:13:20Z", Ok(EARLY)),
    ("2023-11-14t23:13:20z", Ok(EARLY)),
    ("2023-11-15T00:13:20+01:00", Ok(EARLY)),
    ("2023-11-14T22:13:20-01:00", Ok(EARLY)),
    ("2023-11-15T23:12:20+23:59", Ok(EARLY)),
    ("2023-11-14T23:13:20-00:00", Ok(EARLY)),
    ("2023-11-14T23:13:20.5Z", Ok(EARLY + 500_000_000)),
    ("2023-11-14T23:13:20.000000001Z", Ok(EARLY + 1)),
    ("2000-01-01T00:00:00Z", Ok(946_684_800_000_000_000)),
    ("2200-01-01T00:00:00Z", Ok(7_258_118_400_000_000_000)),
    ("2024-02-29T00:00:00Z", Ok(1_709_164_800_000_000_000)),
    (
        "1999-12-31T23:59:59.999999999Z",
        Err(InstantRefusal::TimeRange),
    ),
    (
        "2200-01-01T00:00:00.000000001Z",
        Err(InstantRefusal::TimeRange),
    ),
    ("0000-01-01T00:00:00Z", Err(InstantRefusal::TimeRange)),
    ("2023-02-29T00:00:00Z", Err(InstantRefusal::BadTime)),
    ("2023-04-31T00:00:00Z", Err(InstantRefusal::BadTime)),
    ("2023-00-10T00:00:00Z", Err(InstantRefusal::BadTime)),
    ("2023-13-10T00:00:00Z", Err(InstantRefusal::BadTime)),
    ("2023-11-00T00:00:00Z", Err(InstantRefusal::BadTime)),
    ("2023-11-14T24:00:00Z", Err(InstantRefusal::BadTime)),
    ("2023-11-14T23:60:00Z", Err(InstantRefusal::BadTime)),
    ("2023-11-14T23:13:60Z", Err(InstantRefusal::BadTime)),
    (
        "2023-11-14T23:13:20.0000000001Z",
        Err(InstantRefusal::BadTime),
    ),
    ("2023-11-14T23:13:20.Z", Err(InstantRefusal::BadTime)),
    ("2023-11-14T23:13:20,5Z", Err(InstantRefusal::BadTime)),
    ("2023-11-14 23:13:20Z", Err(InstantRefusal::BadTime)),
    ("2023-11-14T23:13:20", Err(InstantRefusal::BadTime)),
    ("2023-11-14T23:13:20+24:00", Err(InstantRefusal::BadTime)),
    ("2023-11-14T23:13:20+01:60", Err(InstantRefusal::BadTime)),
    ("2023-11-14T23:13:20+0100", Err(InstantRefusal::BadTime)),
    ("2023-11-14T23:13:20Z ", Err(InstantRefusal::BadTime)),
    ("23-11-14T23:13:20Z", Err(InstantRefusal::BadTime)),
    ("2023-11-14T23:13Z", Err(InstantRefusal::BadTime)),
    ("-023-11-14T23:13:20Z", Err(InstantRefusal::BadTime)),
    ("", Err(InstantRefusal::BadTime)),
];

#[test]
fn reads_instants(rt: HostRuntime) -> Result<(), Fail> {
    for (text, answer) in INSTANTS {
        assert!(rt; read_instant(text.as_bytes()) == answer);
    }
    Ok(())
}

#[test]
fn writes_instants(rt: HostRuntime) -> Result<(), Fail> {
    let written: [(i64, &str); 4] = [
        (EARLY, "2023-11-14T23:13:20.000000000Z"),
        (0, "1970-01-01T00:00:00.000000000Z"),
        (i64::MIN, "1677-09-21T00:12:43.145224192Z"),
        (i64::MAX, "2262-04-11T23:47:16.854775807Z"),
    ];
    for (moment, text) in written {
        let bytes = write_instant(rt.alloc(), moment)?;
        assert!(rt; bytes.as_slice() == text.as_bytes());
    }
    Ok(())
}
