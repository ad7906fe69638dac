ghost use Rattle.std.specs.Prelude.{◌≡◌, ◌++◌, true, false, OnOk, MatchOption};
ghost use Rattle.std.specs.Int.{w64};
ghost use Rattle.std.specs.Int.RustNames.{FitsSigned};
ghost use Rattle.uss_vol4.specs.Volume.{IsVolume};
ghost use Rattle.uss_codec.specs.Spelling.{place, volume, signed_in_8_bytes};
ghost use Rattle.uss_codec.specs.Reading.{Gives, signed_in_8_bytes_at};
ghost use Rattle.uss_codec.specs.Volumes.{place_at, volume_at, volume_with, is_volume};
ghost use Rattle.uss_codec.specs.VolumeLaws.{FitsPlace, coded_place, coded_volume};

use crate::lists::{put_list, take_list};
use crate::{Coded, Unread};
use std::alloc::{AllocError, Global};
use uss_shape::{MOST_OUTLINE_VERTICES, Outline, Place};
use uss_vol4::Volume4;

impl Coded for Place {
    ghost fits = { FitsPlace };

    ghost spelling = { place };

    ghost reading = { place_at };

    fn put(&self, out: &mut Vec<u8>) -> Result<(), AllocError> {
        self.x.put(out)?;
        self.y.put(out)
    }

    #[tactic(auto, unfolding(crate::specs::Volumes::place_at))]
    fn take(alloc: Global, bytes: &[u8]) -> Result<(Place, &[u8]), Unread> {
        let (x, rest) = i64::take(alloc, bytes)?;
        let (y, rest) = i64::take(alloc, rest)?;
        Ok((Place { x, y }, rest))
    }

    ghost exact = { coded_place };
}

/// The volume of these parts, where they make one.
fn made(vertices: Vec<Place>, low: i64, high: i64, start: i64, end: i64) -> Option<Volume4>
    ensures { let v = volume_with vertices.items low high start end in MatchOption result (is_volume v ≡ false) (λ w. (w ≡ v) × (is_volume v ≡ true)) }
{
    let outline = match Outline::of(vertices) {
        Ok(outline) => outline,
        Err(_) => return None,
    };
    match Volume4::of(outline, low, high, start, end) {
        Ok(volume) => Some(volume),
        Err(_) => None,
    }
}

impl Coded for Volume4 {
    ghost fits = { IsVolume };

    ghost spelling = { volume };

    ghost reading = { volume_at };

    fn put(&self, out: &mut Vec<u8>) -> Result<(), AllocError> {
        put_list(self.outline().vertices(), out)?;
        self.low().put(out)?;
        self.high().put(out)?;
        self.start().put(out)?;
        self.end().put(out)?;
        Ok(())
    }

    #[tactic(auto, unfolding(crate::specs::Volumes::volume_at))]
    fn take(alloc: Global, bytes: &[u8]) -> Result<(Volume4, &[u8]), Unread> {
        let (vertices, rest) = take_list::<Place>(alloc, MOST_OUTLINE_VERTICES as u32, bytes)?;
        let (low, rest) = i64::take(alloc, rest)?;
        let (high, rest) = i64::take(alloc, rest)?;
        let (start, rest) = i64::take(alloc, rest)?;
        let (end, rest) = i64::take(alloc, rest)?;
        match made(vertices, low, high, start, end) {
            Some(volume) => Ok((volume, rest)),
            None => Err(Unread::Malformed),
        }
    }

    ghost exact = { coded_volume };
}
