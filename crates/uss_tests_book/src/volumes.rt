// A plan's volume, for the tests of several crates.
use std::alloc::Global;
use std::test::Fail;
use uss_intent::Volumes;
use uss_shape::{Outline, Rect};
use uss_vol4::Volume4;

// From 2023-11-14T23:13:20Z to 23:43:20Z.
pub(crate) const EARLY: i64 = 1_700_003_600_000_000_000;

pub(crate) const LATE: i64 = 1_700_005_400_000_000_000;

// One volume: a square of 10 by 10 units of 1e-7 degrees, up to 100 mm.
pub(crate) fn square(alloc: Global) -> Result<Volumes, Fail> {
    let corners = Rect {
        x1: 0,
        y1: 0,
        x2: 10,
        y2: 10,
    };
    let mut volumes = Volumes::new(alloc);
    volumes.push(Volume4::of(Outline::rect(alloc, corners)?, 0, 100, EARLY, LATE)?)?;
    Ok(volumes)
}
