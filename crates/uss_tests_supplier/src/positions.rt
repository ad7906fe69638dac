//! Positions with known findings.

use std::alloc::Global;
use std::process::Abort;
use std::test::Fail;
use uss_conform::{ConformRefusal, Monitor, PATIENCE};
use uss_event::Conform;
use uss_intent::Volumes;
use uss_shape::{Outline, Place, Rect};
use uss_vol4::Volume4;

/// 2023-11-14T23:13:20Z, when the flight begins.
const START: i64 = 1_700_003_600_000_000_000;

/// Half an hour later, when it ends.
const END: i64 = 1_700_005_400_000_000_000;

const SECOND: i64 = 1_000_000_000;

/// The square from (x, x) to (x + 100, x + 100), from 0 to 1,000 mm, from the flight's beginning to its end.
fn square(alloc: Global, x: i64) -> Result<Volume4, Fail> {
    let corners = Rect {
        x1: x,
        y1: x,
        x2: x.wrapping_add(100),
        y2: x.wrapping_add(100),
    };
    let outline = Outline::rect(alloc, corners)?;
    Ok(Volume4::of(outline, 0, 1000, START, END)?)
}

fn squares(alloc: Global, places: &[i64]) -> Result<Volumes, Fail> {
    let mut volumes = Volumes::new(alloc);
    for x in places {
        volumes.push(square(alloc, *x)?)?;
    }
    Ok(volumes)
}

/// Where on the diagonal the flight is, at which altitude and when, and what comes of it.
type Seen = (i64, i64, i64, Result<Conform, ConformRefusal>);

/// Gives a new monitor the positions in turn.
fn follow(rt: &impl Abort, volumes: &[Volume4], positions: &[Seen]) {
    let mut monitor = Monitor::new();
    for (at, altitude, moment, wanted) in positions {
        let place = Place { x: *at, y: *at };
        let found = monitor.position(volumes, place, *altitude, *moment);
        assert!(rt; found == *wanted);
    }
}

const INSIDE: Result<Conform, ConformRefusal> = Ok(Conform::Conforming);

const OUTSIDE: Result<Conform, ConformRefusal> = Ok(Conform::Nonconforming);

const LOST: Result<Conform, ConformRefusal> = Ok(Conform::Contingent);

#[test]
fn flights_are_inside_outside_or_lost(rt: HostRuntime) -> Result<(), Fail> {
    let one = squares(rt.alloc(), &[0])?;
    let one = one.as_slice();
    // outside for a minute
    follow(
        &rt,
        one,
        &[
            (500, 500, START, OUTSIDE),
            (500, 500, START + PATIENCE, LOST),
        ],
    );
    // a minute less one nanosecond; inside again, which begins the time anew; once lost, always lost
    follow(
        &rt,
        one,
        &[
            (50, 500, START, INSIDE),
            (50, 1001, START, OUTSIDE),
            (500, 500, START + PATIENCE - 1, OUTSIDE),
            (50, 500, START + PATIENCE, INSIDE),
            (50, -1, START + 61 * SECOND, OUTSIDE),
            (500, 500, START + 121 * SECOND - 1, OUTSIDE),
            (101, 500, START + 121 * SECOND, LOST),
            (50, 500, START + 122 * SECOND, LOST),
        ],
    );
    // borders belong to the volume
    follow(
        &rt,
        one,
        &[
            (0, 0, START - 1, OUTSIDE),
            (0, 0, START, INSIDE),
            (100, 1000, END, INSIDE),
            (100, 1000, END + 1, OUTSIDE),
        ],
    );
    // any of several volumes, and none
    let two = squares(rt.alloc(), &[0, 300])?;
    follow(
        &rt,
        two.as_slice(),
        &[
            (50, 0, START, INSIDE),
            (350, 0, START, INSIDE),
            (200, 0, START, OUTSIDE),
        ],
    );
    let none = squares(rt.alloc(), &[])?;
    follow(&rt, none.as_slice(), &[(50, 500, START, OUTSIDE)]);
    Ok(())
}

#[test]
fn earlier_positions_are_refused(rt: HostRuntime) -> Result<(), Fail> {
    let one = squares(rt.alloc(), &[0])?;
    let old = Err(ConformRefusal::OldPosition(START));
    follow(
        &rt,
        one.as_slice(),
        &[
            (50, 500, START, INSIDE),
            (500, 500, START - 1, old),
            (500, 500, START, OUTSIDE),
            (50, 500, START - PATIENCE, old),
            (500, 500, START + PATIENCE, LOST),
        ],
    );
    // moments as far apart as they can be
    follow(
        &rt,
        one.as_slice(),
        &[
            (50, 500, i64::MIN, OUTSIDE),
            (50, 500, i64::MAX, LOST),
            (
                50,
                500,
                i64::MAX - 1,
                Err(ConformRefusal::OldPosition(i64::MAX)),
            ),
        ],
    );
    assert!(rt; ConformRefusal::OldPosition(START).number() == 161);
    Ok(())
}

#[test]
fn copies_of_a_monitor_go_on_apart(rt: HostRuntime) -> Result<(), Fail> {
    let one = squares(rt.alloc(), &[0])?;
    let away = Place { x: 500, y: 500 };
    let mut monitor = Monitor::new();
    assert!(rt; monitor.position(one.as_slice(), away, 500, START) == OUTSIDE);
    let mut asked = monitor;
    assert!(rt; asked.position(one.as_slice(), away, 500, START + PATIENCE) == LOST);
    assert!(rt; monitor.position(one.as_slice(), Place { x: 50, y: 50 }, 500, START) == INSIDE);
    Ok(())
}
