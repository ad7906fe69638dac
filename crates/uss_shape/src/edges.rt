//! Edges between vertices, and the exact tests on them. No product exceeds 128 bits: a way between two vertices has at most 32
//! bits, a way to any place 65.

ghost use Rattle.std.specs.Prelude.{◌≡◌, ◌≤◌, ◌↔◌, pos, ◌≤ℤ◌, ◌-ℤ◌, ◌*ℤ◌, unsigned_abs, IsTrue};
ghost use Rattle.std.specs.Int.{int_min, int_max};
ghost use Rattle.uss_shape.specs.Plane.{cross, edge, IsOn, Between, is_above, InPlane};
ghost use Rattle.uss_shape.specs.Words.{Straddle, Ranges, Touches};

use crate::Place;

// The way from one coordinate of a vertex to another.
fn gap(from: i64, to: i64) -> i128
    requires from_in { unsigned_abs from ≤ 1800000000 }
    requires to_in { unsigned_abs to ≤ 1800000000 }
    ensures value { result ≡ to -ℤ from }
    ensures small { unsigned_abs result ≤ 3600000000 }
{
    to as i128 - from as i128
}

// The way from a coordinate of a vertex to any number.
fn far(from: i64, to: i64) -> i128
    ensures value { result ≡ to -ℤ from }
    ensures small { unsigned_abs result ≤ 18446744073709551616 }
{
    to as i128 - from as i128
}

fn times(a: i128, b: i128) -> i128
    requires a_in { unsigned_abs a ≤ 3600000000 }
    requires b_in { unsigned_abs b ≤ 18446744073709551616 }
    ensures value { result ≡ a *ℤ b }
    ensures small { unsigned_abs result ≤ 66408278665354385817600000000 }
{
    a * b
}

// The product of the way from a to b and that from c to d.
fn span(a: i64, b: i64, c: i64, d: i64) -> i128
    requires a_in { unsigned_abs a ≤ 1800000000 }
    requires b_in { unsigned_abs b ≤ 1800000000 }
    ensures value { result ≡ (b -ℤ a) *ℤ (d -ℤ c) }
    ensures small { unsigned_abs result ≤ 66408278665354385817600000000 }
{
    times(gap(a, b), far(c, d))
}

fn less(a: i128, b: i128) -> i128
    requires a_in { unsigned_abs a ≤ 66408278665354385817600000000 }
    requires b_in { unsigned_abs b ≤ 66408278665354385817600000000 }
    ensures { result ≡ a -ℤ b }
{
    a - b
}

// Twice the area of the triangle a b c, above 0 where c is to the left.
fn turn(a: Place, b: Place, c: Place) -> i128
    requires first { InPlane a }
    requires second { InPlane b }
    ensures { result ≡ cross a b c }
{
    less(span(a.x, b.x, a.y, c.y), span(a.y, b.y, a.x, c.x))
}

// Whether p stands within the edge from a to b across, ..
fn is_within_across(a: Place, b: Place, p: Place) -> bool
    ensures { IsTrue result ↔ Between a.x b.x p.x }
{
    (a.x <= p.x && p.x <= b.x) || (b.x <= p.x && p.x <= a.x)
}

// .. and upward.
fn is_within_upward(a: Place, b: Place, p: Place) -> bool
    ensures { IsTrue result ↔ Between a.y b.y p.y }
{
    (a.y <= p.y && p.y <= b.y) || (b.y <= p.y && p.y <= a.y)
}

// Whether the three places are on one line.
fn is_flat(a: Place, b: Place, p: Place) -> bool
    requires first { InPlane a }
    requires second { InPlane b }
    ensures { IsTrue result ↔ cross a b p ≡ pos 0 }
{
    let t = turn(a, b, p);
    0 <= t && t <= 0
}

// Whether p lies on the edge from a to b.
pub(crate) fn lies_on(a: Place, b: Place, p: Place) -> bool
    requires first { InPlane a }
    requires second { InPlane b }
    ensures { IsTrue result ↔ IsOn p (edge a b) }
{
    if !is_within_across(a, b, p) {
        return false;
    }
    if !is_within_upward(a, b, p) {
        return false;
    }
    is_flat(a, b, p)
}

// Whether the edge from a to b counts at p's x and lies above p.
pub(crate) fn passes_above(a: Place, b: Place, p: Place) -> bool
    requires first { InPlane a }
    requires second { InPlane b }
    ensures { result ≡ is_above p (edge a b) }
{
    if a.x <= p.x {
        if p.x < b.x {
            return turn(a, b, p) < 0;
        }
        return false;
    }
    if b.x <= p.x {
        return turn(a, b, p) > 0;
    }
    false
}

// Whether a and b are not strictly on one side of the line through p and q.
fn straddles(p: Place, q: Place, a: Place, b: Place) -> bool
    requires first { InPlane p }
    requires second { InPlane q }
    ensures { IsTrue result ↔ Straddle (cross p q a) (cross p q b) }
{
    let s = turn(p, q, a);
    let t = turn(p, q, b);
    if s < 0 {
        return 0 <= t;
    }
    if s > 0 {
        return t <= 0;
    }
    true
}

fn reaches_across(a: Place, b: Place, p: Place, q: Place) -> bool
    ensures { IsTrue result ↔ int_min a.x b.x ≤ℤ int_max p.x q.x }
{
    let low = a.x.min(b.x);
    let high = p.x.max(q.x);
    low <= high
}

fn reaches_upward(a: Place, b: Place, p: Place, q: Place) -> bool
    ensures { IsTrue result ↔ int_min a.y b.y ≤ℤ int_max p.y q.y }
{
    let low = a.y.min(b.y);
    let high = p.y.max(q.y);
    low <= high
}

// Whether the boxes of the two edges have a place in common across, ..
fn ranges_across(a: Place, b: Place, p: Place, q: Place) -> bool
    ensures { IsTrue result ↔ Ranges a.x b.x p.x q.x }
{
    if !reaches_across(a, b, p, q) {
        return false;
    }
    reaches_across(p, q, a, b)
}

// .. and upward.
fn ranges_upward(a: Place, b: Place, p: Place, q: Place) -> bool
    ensures { IsTrue result ↔ Ranges a.y b.y p.y q.y }
{
    if !reaches_upward(a, b, p, q) {
        return false;
    }
    reaches_upward(p, q, a, b)
}

// Whether the edges from p to q and from a to b have a point in common.
pub(crate) fn edges_touch(p: Place, q: Place, a: Place, b: Place) -> bool
    requires first { InPlane p }
    requires second { InPlane q }
    requires third { InPlane a }
    requires fourth { InPlane b }
    ensures { IsTrue result ↔ Touches p q a b }
{
    if !ranges_across(a, b, p, q) {
        return false;
    }
    if !ranges_upward(a, b, p, q) {
        return false;
    }
    if !straddles(p, q, a, b) {
        return false;
    }
    straddles(a, b, p, q)
}
