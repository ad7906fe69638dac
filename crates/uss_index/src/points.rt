ghost use Rattle.std.specs.Prelude.{◌≡◌, ◌↔◌, IsTrue};
ghost use Rattle.uss_shape.specs.Overlap.{ranges_touch};
ghost use Rattle.uss_vol4.specs.Sharing.{ranges_share};
ghost use Rattle.uss_index.specs.Points.{HaveCommonPoint, have_common_point};

use uss_vol4::Box4;

/// Whether some point lies in both boxes, borders included. Times and altitudes are compared first. Takes no memory.
pub fn have_common_point(a: &Box4, b: &Box4) -> bool
    ensures claim { IsTrue result ↔ HaveCommonPoint a.now b.now }
    ensures test { result ≡ have_common_point a.now b.now }
{
    if !share(a.start, a.end, b.start, b.end) {
        return false;
    }
    if !share(a.low, a.high, b.low, b.high) {
        return false;
    }
    if !touch(a.rect.x1, a.rect.x2, b.rect.x1, b.rect.x2) {
        return false;
    }
    touch(a.rect.y1, a.rect.y2, b.rect.y1, b.rect.y2)
}

/// Whether the closed ranges from `a` to `b` and from `c` to `d` have a number in common.
fn share(a: i64, b: i64, c: i64, d: i64) -> bool
    ensures { result ≡ ranges_share a b c d }
{
    a.max(c) <= b.min(d)
}

/// Whether the closed ranges of `a` and `b` and of `c` and `d`, each in any order, have a number in common.
fn touch(a: i64, b: i64, c: i64, d: i64) -> bool
    ensures { result ≡ ranges_touch a b c d }
{
    a.min(b) <= c.max(d) && c.min(d) <= a.max(b)
}
