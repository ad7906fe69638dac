//! Rectangles round places, with the least coordinates first.

ghost use Rattle.std.specs.Prelude.{◌≡◌, ◌<◌, ◌↔◌, IsTrue, length};
ghost use Rattle.std.specs.List.{fold};
ghost use Rattle.uss_shape.specs.Shape.{grown, spot, bounds_of};
ghost use Rattle.uss_shape.specs.Words.{BoxesTouch, Covers};

use crate::{Place, Rect};

pub(crate) fn boxes_touch(a: Rect, b: Rect) -> bool
    ensures { IsTrue result ↔ BoxesTouch a b }
{
    if a.x1 > b.x2 {
        return false;
    }
    if b.x1 > a.x2 {
        return false;
    }
    if a.y1 > b.y2 {
        return false;
    }
    b.y1 <= a.y2
}

fn grow(r: Rect, p: Place) -> Rect
    ensures { result ≡ grown r p }
{
    Rect {
        x1: r.x1.min(p.x),
        y1: r.y1.min(p.y),
        x2: r.x2.max(p.x),
        y2: r.y2.max(p.y),
    }
}

// The bounds of one place and more places.
pub(crate) fn bounds_from(first: Place, places: &[Place]) -> Rect
    ensures value { result ≡ fold grown (spot first) places.now }
    ensures covers { Covers result first places.now }
{
    let mut r = Rect {
        x1: first.x,
        y1: first.y,
        x2: first.x,
        y2: first.y,
    };
    for v in places {
        r = grow(r, *v);
    }
    r
}

// The bounds of the vertices.
pub(crate) fn bounds_in(vertices: &[Place]) -> Rect
    requires { 0 < length vertices.now }
    ensures { result ≡ bounds_of vertices.now }
{
    bounds_from(vertices[0], vertices)
}
