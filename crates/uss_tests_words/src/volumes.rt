//! Volumes with known answers.

use crate::fixtures::{EARLY, LATE, flat_square, square_between};
use std::test::Fail;
use uss_shape::{Place, Rect};
use uss_vol4::{Box4, LATEST, MOST_GAP, VolRefusal, Volume4, shares_late};

#[test]
fn volumes_are_made_or_refused(rt: HostRuntime) -> Result<(), Fail> {
    let first = 946_684_800_000_000_000;
    let last = 7_258_118_400_000_000_000;
    let table = [
        (0, 100, EARLY, LATE, None),
        (-1_000_000, 100_000_000, first, last, None),
        (100_000_000, 100_000_000, last, last, None),
        (-1_000_000, -1_000_000, first, first, None),
        (1, 0, EARLY, LATE, Some(VolRefusal::LowAboveHigh)),
        (1, 0, LATE, EARLY, Some(VolRefusal::LowAboveHigh)),
        (0, 0, LATE, EARLY, Some(VolRefusal::StartAfterEnd)),
        (-1_000_001, 0, LATE, EARLY, Some(VolRefusal::StartAfterEnd)),
        (-1_000_001, 0, EARLY, LATE, Some(VolRefusal::AltitudeRange)),
        (0, 100_000_001, 0, LATE, Some(VolRefusal::AltitudeRange)),
        (0, 0, first - 1, LATE, Some(VolRefusal::TimeRange)),
        (0, 0, EARLY, last + 1, Some(VolRefusal::TimeRange)),
        (0, 0, i64::MIN, i64::MAX, Some(VolRefusal::TimeRange)),
    ];
    for (low, high, start, end, refusal) in table {
        let made = Volume4::of(flat_square(rt.alloc(), 0)?, low, high, start, end);
        match refusal {
            Some(wanted) => assert!(rt; made == Err(wanted)),
            None => {
                let made = made?;
                assert!(rt; made.low() == low && made.high() == high);
                assert!(rt; made.start() == start && made.end() == end);
                assert!(rt; made.outline() == &flat_square(rt.alloc(), 0)?);
            }
        }
    }
    assert!(rt; VolRefusal::LowAboveHigh.number() == Some(111));
    assert!(rt; VolRefusal::StartAfterEnd.number() == Some(112));
    assert!(rt; VolRefusal::AltitudeRange.number() == Some(113));
    assert!(rt; VolRefusal::TimeRange.number() == Some(114));
    assert!(rt; VolRefusal::Memory.number().is_none());
    Ok(())
}

#[test]
fn volumes_share(rt: HostRuntime) -> Result<(), Fail> {
    let a = Volume4::of(flat_square(rt.alloc(), 0)?, 0, 100, EARLY, LATE)?;
    // the ranges of the other, and whether it shares with the first
    let table = [
        (0, 100, EARLY, LATE, true),
        (100, 200, EARLY, LATE, true),
        (101, 200, EARLY, LATE, false),
        (-50, 0, EARLY, LATE, true),
        (-50, -1, EARLY, LATE, false),
        (50, 50, LATE, LATE + 1, true),
        (50, 50, LATE + 1, LATE + 2, false),
        (50, 50, EARLY - 2, EARLY, true),
        (50, 50, EARLY - 2, EARLY - 1, false),
        (-50, 500, EARLY - 2, LATE + 2, true),
        (101, 102, LATE + 1, LATE + 2, false),
    ];
    for (low, high, start, end, wanted) in table {
        let b = Volume4::of(flat_square(rt.alloc(), 0)?, low, high, start, end)?;
        assert!(rt; Volume4::shares(&a, &b) == wanted);
        assert!(rt; Volume4::shares(&b, &a) == wanted);
    }
    Ok(())
}

const MINUTE: u64 = 60_000_000_000;

#[test]
fn volumes_share_within_a_gap(rt: HostRuntime) -> Result<(), Fail> {
    let a = Volume4::of(flat_square(rt.alloc(), 0)?, 0, 100, EARLY, LATE)?;
    // the gap of the first, that of the second, the times of the second, and whether the two share then
    let table = [
        (0, 0, LATE, LATE + 1, true),
        (0, 0, LATE + 1, LATE + 2, false),
        (MINUTE, MINUTE, LATE + 60_000_000_000, LATEST, true),
        (MINUTE, MINUTE, LATE + 60_000_000_001, LATEST, false),
        (
            MINUTE,
            MINUTE,
            EARLY - 70_000_000_000,
            EARLY - 60_000_000_000,
            true,
        ),
        (
            MINUTE,
            MINUTE,
            EARLY - 70_000_000_000,
            EARLY - 60_000_000_001,
            false,
        ),
        (MINUTE, 0, LATE + 60_000_000_000, LATEST, true),
        (0, MINUTE, LATE + 60_000_000_000, LATEST, false),
        (MOST_GAP, 0, LATE + 3_600_000_000_000, LATEST, true),
        (MOST_GAP, 0, LATE + 3_600_000_000_001, LATEST, false),
    ];
    for (first, second, start, end, wanted) in table {
        let b = Volume4::of(flat_square(rt.alloc(), 0)?, 0, 100, start, end)?;
        assert!(rt; first <= MOST_GAP && second <= MOST_GAP);
        assert!(rt; shares_late(&a, first, &b, second) == wanted);
        assert!(rt; shares_late(&b, second, &a, first) == wanted);
        assert!(rt; Volume4::shares(&a.later(first)?, &b.later(second)?) == wanted);
    }
    assert!(rt; a.later(MINUTE)?.start() == EARLY);
    assert!(rt; a.later(MINUTE)?.end() == LATE + 60_000_000_000);
    let last = Volume4::of(flat_square(rt.alloc(), 0)?, 0, 100, LATEST - 1, LATEST)?;
    assert!(rt; last.later(1)? == last);
    Ok(())
}

#[test]
fn lists_share_at_the_least_pair(rt: HostRuntime) -> Result<(), Fail> {
    let far = square_between(rt.alloc(), 100, 0, 10)?;
    let low = square_between(rt.alloc(), 0, 0, 10)?;
    let high = square_between(rt.alloc(), 0, 20, 30)?;
    let corner = square_between(rt.alloc(), 10, 0, 10)?;
    let past = square_between(rt.alloc(), 11, 0, 10)?;
    assert!(rt; Volume4::any_shared(&[], &[]).is_none());
    let ours = [far, low, high];
    assert!(rt; Volume4::any_shared(&ours, &[]).is_none());
    let theirs = [past, corner];
    assert!(rt; Volume4::any_shared(&ours, &theirs) == Some((1, 1)));
    assert!(rt; Volume4::any_shared(&theirs, &ours) == Some((1, 1)));
    assert!(rt; Volume4::any_shared(&theirs, &theirs) == Some((0, 0)));
    let all = &ours[..];
    let tall = &all[2..];
    let ends = &all[1..];
    assert!(rt; Volume4::any_shared(tall, &theirs).is_none());
    assert!(rt; Volume4::any_shared(all, ends) == Some((1, 0)));
    Ok(())
}

#[test]
fn volumes_hold_and_are_bounded(rt: HostRuntime) -> Result<(), Fail> {
    let a = square_between(rt.alloc(), 0, 0, 10)?;
    let p = Place { x: 10, y: 0 };
    // altitude, instant and whether the corner is in the volume then
    let table = [
        (0, EARLY, true),
        (10, LATE, true),
        (-1, EARLY, false),
        (11, EARLY, false),
        (0, EARLY - 1, false),
        (0, LATE + 1, false),
        (i64::MIN, i64::MAX, false),
    ];
    for (altitude, moment, wanted) in table {
        assert!(rt; a.holds(p, altitude, moment) == wanted);
    }
    assert!(rt; !a.holds(Place { x: 11, y: 0 }, 0, EARLY));
    let b = square_between(rt.alloc(), -20, -5, 3)?;
    let list = [a, b];
    let bounds = Volume4::bounding(&list);
    let wanted = Box4 {
        rect: Rect {
            x1: -20,
            y1: -20,
            x2: 10,
            y2: 10,
        },
        low: -5,
        high: 10,
        start: EARLY,
        end: LATE,
    };
    assert!(rt; bounds == wanted);
    let area = bounds.volume(rt.alloc())?;
    assert!(rt; area.bounds() == wanted);
    assert!(rt; Volume4::shares(&area, &list[0]));
    let copy = area.clone()?;
    assert!(rt; copy == area && copy.is_same(&area));
    assert!(rt; copy != list[0]);
    Ok(())
}
