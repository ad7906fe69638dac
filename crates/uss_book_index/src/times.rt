// From when to when an intent lasts.
ghost use Rattle.std.specs.Prelude.{◌≡◌, ◌<◌, ◌+◌, ◌++◌, All, length};
ghost use Rattle.std.specs.Int.{int_min, int_max};
ghost use Rattle.uss_vol4.specs.Volume.{IsVolume};
ghost use Rattle.uss_vol4.specs.Bounding.{bounding_box};

use uss_vol4::{Box4, Volume4};

/// The least start and the greatest end of some volumes.
#[derive(Clone, Copy, Drop)]
pub(crate) struct Times {
    pub(crate) start: i64,
    pub(crate) end: i64,
}

fn lesser(a: i64, b: i64) -> i64
    ensures { result ≡ int_min a b }
{
    a.min(b)
}

fn greater(a: i64, b: i64) -> i64
    ensures { result ≡ int_max a b }
{
    a.max(b)
}

/// From the lesser start of two boxes to their greater end.
fn both(a: Box4, b: Box4) -> Times
    ensures start { result.start ≡ int_min a.start b.start }
    ensures end { result.end ≡ int_max a.end b.end }
{
    Times {
        start: lesser(a.start, b.start),
        end: greater(a.end, b.end),
    }
}

/// The times of one of two lists of volumes, which are some, where the other is empty.
fn alone(volumes: &[Volume4]) -> Times
    requires { 0 < length volumes.now }
    ensures start { result.start ≡ (bounding_box volumes.now).start }
    ensures end { result.end ≡ (bounding_box volumes.now).end }
{
    let bounds = Volume4::bounding(volumes);
    Times {
        start: bounds.start,
        end: bounds.end,
    }
}

/// The times of the volumes and the off-nominal volumes together. Takes no memory.
pub(crate) fn times_of(volumes: &[Volume4], off_nominal: &[Volume4]) -> Times
    requires some { 0 < length volumes.now + length off_nominal.now }
    requires volumes { All IsVolume volumes.now }
    requires off_nominal { All IsVolume off_nominal.now }
    ensures start { result.start ≡ (bounding_box (volumes.now ++ off_nominal.now)).start }
    ensures end { result.end ≡ (bounding_box (volumes.now ++ off_nominal.now)).end }
{
    if off_nominal.is_empty() {
        return alone(volumes);
    }
    if volumes.is_empty() {
        return alone(off_nominal);
    }
    both(Volume4::bounding(volumes), Volume4::bounding(off_nominal))
}
