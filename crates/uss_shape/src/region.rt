//! Regions by the even-odd rule, over slices of vertices.

ghost use Rattle.std.specs.Prelude.{◌≡◌, ◌<◌, ◌↔◌, IsTrue, All, length};
ghost use Rattle.uss_shape.specs.Plane.{edge, edges_from, Common, InPlane, InRegion, Meet};
ghost use Rattle.uss_shape.specs.Words.{xor, SomeEdge, SomeCommon, Covers, IsWithin};

use crate::bounds::{bounds_from, boxes_touch};
use crate::edges::{edges_touch, lies_on, passes_above};
use crate::{Place, Rect};

// Chains of so few edges are compared edge by edge.
const FEW: usize = 8;

fn flipped(odd: bool, by: bool) -> bool
    ensures { result ≡ xor odd by }
{
    if odd { !by } else { by }
}

// Whether the place is in the region of the outline with these vertices.
pub(crate) fn holds_in(vertices: &[Place], p: Place) -> bool
    requires some { 0 < length vertices.now }
    requires plane { All InPlane vertices.now }
    ensures { IsTrue result ↔ InRegion vertices.now p }
{
    let mut before = vertices[vertices.len() - 1];
    let mut odd = false;
    for v in vertices {
        if lies_on(before, *v, p) {
            return true;
        }
        odd = flipped(odd, passes_above(before, *v, p));
        before = *v;
    }
    odd
}

// Whether an edge of the chain, which goes from `before` through the places, has a point in common with the edge from a to b.
fn meets_edge(before: Place, places: &[Place], a: Place, b: Place) -> bool
    requires from { InPlane before }
    requires plane { All InPlane places.now }
    requires first { InPlane a }
    requires second { InPlane b }
    ensures { IsTrue result ↔ SomeEdge (Common (edge a b)) (edges_from before places.now) }
{
    let mut before = before;
    for v in places {
        if edges_touch(a, b, before, *v) {
            return true;
        }
        before = *v;
    }
    false
}

// Whether an edge of one chain has a point in common with an edge of the other, edge by edge.
fn few_edges_meet(p: Place, us: &[Place], q: Place, vs: &[Place]) -> bool
    requires from { InPlane p }
    requires plane { All InPlane us.now }
    requires from_vs { InPlane q }
    requires plane_vs { All InPlane vs.now }
    ensures { IsTrue result ↔ SomeCommon (edges_from p us.now) (edges_from q vs.now) }
{
    let mut before = p;
    for v in us {
        if meets_edge(q, vs, before, *v) {
            return true;
        }
        before = *v;
    }
    false
}

// The same by halves: parts whose boxes are apart are passed over. `in_us` and `in_vs` hold the chains.
fn chains_meet(p: Place, us: &[Place], in_us: Rect, q: Place, vs: &[Place], in_vs: Rect) -> bool
    requires from { InPlane p }
    requires plane { All InPlane us.now }
    requires covers { Covers in_us p us.now }
    requires from_vs { InPlane q }
    requires plane_vs { All InPlane vs.now }
    requires covers_vs { Covers in_vs q vs.now }
    ensures { IsTrue result ↔ SomeCommon (edges_from p us.now) (edges_from q vs.now) }
{
    if !boxes_touch(in_us, in_vs) {
        return false;
    }
    if us.len() <= FEW && vs.len() <= FEW {
        return few_edges_meet(p, us, q, vs);
    }
    if us.len() < vs.len() {
        let half = vs.len() / 2;
        let turn = vs[half - 1];
        let front = &vs[..half];
        let back = &vs[half..];
        if chains_meet(p, us, in_us, q, front, bounds_from(q, front)) {
            return true;
        }
        return chains_meet(p, us, in_us, turn, back, bounds_from(turn, back));
    }
    let half = us.len() / 2;
    let turn = us[half - 1];
    let front = &us[..half];
    let back = &us[half..];
    if chains_meet(p, front, bounds_from(p, front), q, vs, in_vs) {
        return true;
    }
    chains_meet(turn, back, bounds_from(turn, back), q, vs, in_vs)
}

// Whether some point is in both regions, which the rectangles hold. Where no edge touches one of the other's, all vertices of an
// outline are on one side of the other's border, so that the first decides for all.
pub(crate) fn regions_meet(us: &[Place], in_us: Rect, vs: &[Place], in_vs: Rect) -> bool
    requires some { 0 < length us.now }
    requires plane { All InPlane us.now }
    requires covers { All (IsWithin in_us) us.now }
    requires some_vs { 0 < length vs.now }
    requires plane_vs { All InPlane vs.now }
    requires covers_vs { All (IsWithin in_vs) vs.now }
    ensures { IsTrue result ↔ Meet us.now vs.now }
{
    if chains_meet(us[us.len() - 1], us, in_us, vs[vs.len() - 1], vs, in_vs) {
        return true;
    }
    if holds_in(vs, us[0]) {
        return true;
    }
    holds_in(us, vs[0])
}
