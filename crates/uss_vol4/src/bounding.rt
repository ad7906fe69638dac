//! Boxes in four dimensions.

ghost use Rattle.std.specs.Prelude.{◌≡◌, ◌<◌, length, IfOk, IfErr};
ghost use Rattle.uss_vol4.specs.Volume.{IsVolume};
ghost use Rattle.uss_vol4.specs.Bounding.{IsBoundingBox, bounding_box, BoundsSome, volume_of, joined, joined_rect};

use crate::{Box4, VolRefusal, Volume4};
use std::alloc::Global;
use uss_shape::{Outline, Rect};

impl Box4 {
    /// The rectangular volume of the box, as for the area of a query or a subscription.
    pub fn volume(&self, alloc: Global) -> Result<Volume4, VolRefusal>
        requires { BoundsSome self.now }
        ensures volume { IfOk result (λ v. v ≡ volume_of self.now) }
        ensures accepted { IfOk result IsVolume }
        ensures refused { IfErr result (λ e. e ≡ VolRefusal.Memory) }
    {
        match Outline::rect(alloc, self.rect) {
            Ok(outline) => Volume4::of(outline, self.low, self.high, self.start, self.end),
            Err(_) => Err(VolRefusal::Memory),
        }
    }
}

impl Volume4 {
    /// The least box round the volumes, as for the area that a flight's volumes take. Takes no memory.
    pub fn bounding(list: &[Volume4]) -> Box4
        requires { 0 < length list.now }
        ensures value { result ≡ bounding_box list.now }
        ensures least { IsBoundingBox list.now result }
        ensures some { BoundsSome result }
    {
        let first = &list[0];
        let mut b = first.bounds();
        for v in list {
            b = join(b, v.bounds());
        }
        b
    }
}

fn join_rect(r: Rect, s: Rect) -> Rect
    ensures { result ≡ joined_rect r s }
{
    Rect {
        x1: r.x1.min(s.x1),
        y1: r.y1.min(s.y1),
        x2: r.x2.max(s.x2),
        y2: r.y2.max(s.y2),
    }
}

fn join(a: Box4, b: Box4) -> Box4
    ensures { result ≡ joined a b }
{
    Box4 {
        rect: join_rect(a.rect, b.rect),
        low: a.low.min(b.low),
        high: a.high.max(b.high),
        start: a.start.min(b.start),
        end: a.end.max(b.end),
    }
}
