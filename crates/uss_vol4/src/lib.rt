//! Volumes in four dimensions: an outline in the plane, a closed range of altitude and a closed range of time.
//!
//! ```
//! // one flight is over the square up to 100 mm until LATER, and another from there on
//! let first = Volume4::of(square.clone()?, 0, 100, EARLY, LATER)?;
//! let second = Volume4::of(square, 100, 200, LATER, LAST)?;
//! assert!(rt; Volume4::shares(&first, &second)); // at 100 mm, at LATER
//! assert!(rt; Volume4::any_shared(&[first], &[second]) == Some((0, 0)));
//! ```
//!
//! A volume is the Volume4D of the OpenAPI annex of ASTM F3548-21 with a polygon. Altitudes are in mm above the datum, instants in ns
//! since 1970-01-01T00:00:00Z. Its borders belong to it: volumes that touch share a point.
#![tactic(auto)]

ghost use Rattle.std.specs.Prelude.{◌≡◌, ◌≢◌, ℕ, ◌<◌, ◌↔◌, ℤ, pos, ◌≤ℤ◌, IsTrue, List, length, is_some, IsSome, IsOk, IfOk, IfErr, MatchOption};
ghost use Rattle.uss_vol4.specs.Volume.{Volume4D, IsVolume, InRange, Overlap, Holds, Shares, ListsShare, IsLeastShared, NoneShared, NoneSharedWith, IsFirstShared};
ghost use Rattle.uss_vol4.specs.Sharing.{volume_holds, shares, any_shares};

mod bounding;
mod gaps;

pub use gaps::{MOST_GAP, later_volumes_share_within_the_gap, shares_late};
use std::alloc::AllocError;
use std::marker::Model;
use uss_shape::{Outline, Place, Rect};

/// The least altitude, 1 km below the datum, in mm.
pub const LOWEST: i64 = -1_000_000;

/// The greatest altitude, 100 km above the datum, in mm.
pub const HIGHEST: i64 = 100_000_000;

/// The first instant, 2000-01-01T00:00:00Z, in ns since 1970.
pub const EARLIEST: i64 = 946_684_800_000_000_000;

/// The last instant, 2200-01-01T00:00:00Z, in ns since 1970.
pub const LATEST: i64 = 7_258_118_400_000_000_000;

/// A box: a rectangle in the plane in units of 1e-7 degrees, altitudes in mm and instants in ns since 1970, each closed.
#[derive(Clone, Copy, PartialEq, Eq, Debug)]
pub struct Box4 {
    pub rect: Rect,
    pub low: i64,
    pub high: i64,
    pub start: i64,
    pub end: i64,
}

/// Why ranges make no volume.
#[derive(Clone, Copy, PartialEq, Eq, Debug)]
pub enum VolRefusal {
    /// 111: the lower altitude is above the upper.
    LowAboveHigh,
    /// 112: the start is after the end.
    StartAfterEnd,
    /// 113: an altitude is not from -1,000,000 to 100,000,000 mm.
    AltitudeRange,
    /// 114: an instant is not from 2000-01-01 to 2200-01-01.
    TimeRange,
    /// There was no memory for the volume. It has no number.
    Memory,
}

impl VolRefusal {
    ghost use Rattle.uss_vol4.specs.Refusal.{number_of};

    /// The number under which the refusal is printed: 111 to 114, none for out of memory.
    pub fn number(&self) -> Option<u16>
        ensures { result ≡ number_of self.now }
    {
        match self {
            VolRefusal::LowAboveHigh => Some(111),
            VolRefusal::StartAfterEnd => Some(112),
            VolRefusal::AltitudeRange => Some(113),
            VolRefusal::TimeRange => Some(114),
            VolRefusal::Memory => None,
        }
    }
}

/// A volume of airspace over a time. It has an outline, altitudes from -1,000,000 to 100,000,000 mm and instants from
/// 946,684,800,000,000,000 (2000-01-01) to 7,258,118,400,000,000,000 ns (2200-01-01), each range in order.
#[derive(Debug, Drop)]
pub struct Volume4 {
    outline: Outline,
    low: i64,
    high: i64,
    start: i64,
    end: i64,
}

impl Model for Volume4 {
    ghost Value = { Volume4D };

    ghost view = { λ v. record { outline = v.outline; low = v.low; high = v.high; start = v.start; end = v.end } };

    ghost invariant = { λ v. IsVolume (record { outline = v.outline; low = v.low; high = v.high; start = v.start; end = v.end }) };
}

impl Clone for Volume4 {
    ghost is_clone = { λ volume copy. copy ≡ volume };

    fn clone(&self) -> Result<Volume4, AllocError> {
        Ok(Volume4 {
            outline: self.outline.clone()?,
            low: self.low,
            high: self.high,
            start: self.start,
            end: self.end,
        })
    }
}

impl PartialEq for Volume4 {
    ghost use Rattle.std.specs.Cmp.{partial_equiv_from_equiv};
    ghost use Rattle.uss_vol4.specs.Same.{same_volume, same_volume_equiv};

    ghost eq = { same_volume };

    ghost laws = { partial_equiv_from_equiv same_volume_equiv };

    fn eq(&self, other: &Volume4) -> bool {
        self.outline == other.outline
            && self.low == other.low
            && self.high == other.high
            && self.start == other.start
            && self.end == other.end
    }
}

impl Eq for Volume4 {
    ghost use Rattle.uss_vol4.specs.Same.{same_volume_equiv};

    ghost laws = { same_volume_equiv };
}

impl Volume4 {
    ghost use Rattle.uss_vol4.specs.Refusal.{Refused};
    ghost use Rattle.uss_vol4.specs.Bounding.{box_of, BoundsSome};

    /// The volume over this outline from `low` to `high` mm and from `start` to `end` ns, as the readers of scripts and messages make
    /// it. The refusals come in the order of their
    /// numbers. Takes no memory; a refused outline is dropped.
    pub fn of(
        outline: Outline,
        low: i64,
        high: i64,
        start: i64,
        end: i64,
    ) -> Result<Volume4, VolRefusal>
        ensures volume { IfOk result (λ v. v ≡ record { outline = outline; low = low; high = high; start = start; end = end }) }
        ensures accepted { IfOk result IsVolume }
        ensures refused { IfErr result (Refused low high start end) }
        ensures never_memory { IfErr result (λ e. e ≢ VolRefusal.Memory) }
    {
        if low > high {
            return Err(VolRefusal::LowAboveHigh);
        }
        if start > end {
            return Err(VolRefusal::StartAfterEnd);
        }
        if low < LOWEST || HIGHEST < high {
            return Err(VolRefusal::AltitudeRange);
        }
        if start < EARLIEST || LATEST < end {
            return Err(VolRefusal::TimeRange);
        }
        let _ = outline.vertices();
        Ok(Volume4 {
            outline,
            low,
            high,
            start,
            end,
        })
    }

    /// The outline in the plane.
    pub fn outline(&self) -> &Outline
        ensures value { result.now ≡ self.now.outline }
        ensures volume { IsVolume self.now }
    {
        &self.outline
    }

    /// The lower altitude, in mm.
    pub fn low(&self) -> i64
        ensures { result ≡ self.now.low }
    {
        self.low
    }

    /// The upper altitude, in mm.
    pub fn high(&self) -> i64
        ensures { result ≡ self.now.high }
    {
        self.high
    }

    /// The first instant, in ns since 1970.
    pub fn start(&self) -> i64
        ensures { result ≡ self.now.start }
    {
        self.start
    }

    /// The last instant, in ns since 1970.
    pub fn end(&self) -> i64
        ensures { result ≡ self.now.end }
    {
        self.end
    }

    /// The bounds of the outline with the ranges. Takes no memory, and no time: they are kept.
    pub fn bounds(&self) -> Box4
        ensures value { result ≡ box_of self.now }
        ensures some { BoundsSome result }
        ensures volume { IsVolume self.now }
    {
        Box4 {
            rect: self.outline.bounds(),
            low: self.low,
            high: self.high,
            start: self.start,
            end: self.end,
        }
    }

    /// Whether the place, at this altitude in mm and this instant in ns, lies in the volume, its borders included: the conformance
    /// monitor asks it. Takes no memory.
    pub fn holds(&self, p: Place, altitude: i64, moment: i64) -> bool
        ensures point { IsTrue result ↔ Holds self.now p (pos 1) altitude moment }
        ensures test { result ≡ volume_holds self.now p altitude moment }
    {
        if !self.reaches_altitude(altitude) {
            return false;
        }
        if !self.lasts_at(moment) {
            return false;
        }
        self.outline.holds(p)
    }

    /// Whether some point lies in both volumes: a point of the plane, with fractional coordinates too, at an altitude and an instant.
    /// Planner and discovery service rest on it. Takes no memory; times, altitudes and bounds are compared before any edge.
    pub fn shares(a: &Volume4, b: &Volume4) -> bool
        ensures claim { IsTrue result ↔ Shares a.now b.now }
        ensures test { result ≡ shares a.now b.now }
    {
        if !a.overlaps_in_time(b) {
            return false;
        }
        if !a.overlaps_in_altitude(b) {
            return false;
        }
        a.outline.meets(&b.outline)
    }

    /// The least pair of places that shares, first by the place in `a`; None exactly where no pair does. Takes no memory, and looks at
    /// no pair beyond the least.
    pub fn any_shared(a: &[Volume4], b: &[Volume4]) -> Option<(usize, usize)>
        ensures least { MatchOption result (NoneShared a.now b.now) (λ p. IsLeastShared a.now b.now p.0 p.1) }
        ensures some { IsSome result ↔ ListsShare a.now b.now }
        ensures test { is_some result ≡ any_shares a.now b.now }
    {
        for (i, v) in a.iter().enumerate() {
            if let Some(j) = first_shared(v, b) {
                return Some((i, j));
            }
        }
        None
    }

    /// Whether the two have the same vertices in the same order and the same ranges.
    pub fn is_same(&self, other: &Volume4) -> bool
        ensures { IsTrue result ↔ (self.now ≡ other.now) }
    {
        self == other
    }

    fn reaches_altitude(&self, altitude: i64) -> bool
        ensures { IsTrue result ↔ InRange self.now.low self.now.high altitude }
    {
        self.low <= altitude && altitude <= self.high
    }

    fn lasts_at(&self, moment: i64) -> bool
        ensures { IsTrue result ↔ InRange self.now.start self.now.end moment }
    {
        self.start <= moment && moment <= self.end
    }

    fn overlaps_in_altitude(&self, other: &Volume4) -> bool
        ensures { IsTrue result ↔ Overlap self.now.low self.now.high other.now.low other.now.high }
    {
        if self.low > other.high {
            return false;
        }
        other.low <= self.high
    }

    fn overlaps_in_time(&self, other: &Volume4) -> bool
        ensures { IsTrue result ↔ Overlap self.now.start self.now.end other.now.start other.now.end }
    {
        if self.start > other.end {
            return false;
        }
        other.start <= self.end
    }
}

fn first_shared(v: &Volume4, list: &[Volume4]) -> Option<usize>
    ensures { MatchOption result (NoneSharedWith v.now list.now) (λ j. IsFirstShared v.now list.now j) }
{
    for (j, w) in list.iter().enumerate() {
        if Volume4::shares(v, w) {
            return Some(j);
        }
    }
    None
}
