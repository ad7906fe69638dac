//! Volumes whose ends are put later by a time gap.
ghost use Rattle.std.specs.Prelude.{◌≡◌, ℕ, ◌≤◌, ◌↔◌, ℤ, pos, ◌+ℤ◌, ◌≤ℤ◌, IsTrue, IfOk, IfErr};
ghost use Rattle.std.specs.Int.{int_min};
ghost use Rattle.uss_vol4.specs.Volume.{Volume4D, IsVolume, Shares, Overlap, earliest, latest};
ghost use Rattle.uss_vol4.specs.Sharing.{shares};
ghost use Rattle.uss_vol4.specs.Gaps.{most_gap, later, AreWithin};

use crate::{LATEST, VolRefusal, Volume4};
use uss_shape::Outline;

/// The greatest time gap, an hour, in ns.
pub const MOST_GAP: u64 = 3_600_000_000_000;

/// The instant put later by the gap, at most to the last instant.
fn put_later(end: i64, gap: u64) -> i64
    requires gap { gap ≤ most_gap }
    requires end { end ≤ℤ latest }
    ensures { result ≡ int_min (end +ℤ pos gap) latest }
{
    let later = end + gap as i64;
    if later > LATEST { LATEST } else { later }
}

impl Volume4 {
    /// The end put later by the gap, at most to the last instant.
    fn later_end(&self, gap: u64) -> i64
        requires { gap ≤ most_gap }
        ensures end { result ≡ (later gap self.now).end }
        ensures volume { IsVolume self.now }
    {
        put_later(self.end, gap)
    }

    /// The volume with its end put later by the gap in ns, at most to the last instant: the extent of an intent whose priority has
    /// this time gap. Its one refusal is that there is no memory.
    pub fn later(&self, gap: u64) -> Result<Volume4, VolRefusal>
        requires { gap ≤ most_gap }
        ensures volume { IfOk result (λ v. v ≡ later gap self.now) }
        ensures accepted { IfOk result IsVolume }
        ensures memory { IfErr result (λ e. e ≡ VolRefusal.Memory) }
    {
        let end = self.later_end(gap);
        match self.outline().clone() {
            Ok(outline) => Ok(made_of(outline, self.low(), self.high(), self.start(), end)),
            Err(_) => Err(VolRefusal::Memory),
        }
    }
}

/// The volume of these parts, which are those of a volume.
fn made_of(outline: Outline, low: i64, high: i64, start: i64, end: i64) -> Volume4
    requires { IsVolume (record { outline = outline; low = low; high = high; start = start; end = end }) }
    ensures { result ≡ record { outline = outline; low = low; high = high; start = start; end = end } }
{
    Volume4 {
        outline,
        low,
        high,
        start,
        end,
    }
}

/// Whether some point lies in both volumes with their ends put later by so many ns, at most to the last instant. With one gap for both
/// it tells whether some place and altitude lie in both, and some moments of the two differ by at most the gap. Takes no memory.
pub fn shares_late(a: &Volume4, later_a: u64, b: &Volume4, later_b: u64) -> bool
    requires first { later_a ≤ most_gap }
    requires second { later_b ≤ most_gap }
    ensures claim { IsTrue result ↔ Shares (later later_a a.now) (later later_b b.now) }
    ensures test { result ≡ shares (later later_a a.now) (later later_b b.now) }
    ensures gap { later_a ≡ later_b → IsTrue result ↔ AreWithin later_a a.now b.now }
{
    if !overlap_in_time(a, later_a, b, later_b) {
        return false;
    }
    if !a.overlaps_in_altitude(b) {
        return false;
    }
    a.outline.meets(&b.outline)
}

fn overlap_in_time(a: &Volume4, later_a: u64, b: &Volume4, later_b: u64) -> bool
    requires first { later_a ≤ most_gap }
    requires second { later_b ≤ most_gap }
    ensures overlap { IsTrue result ↔ Overlap a.now.start (later later_a a.now).end b.now.start (later later_b b.now).end }
    ensures first { IsVolume a.now }
    ensures second { IsVolume b.now }
{
    overlap(
        a.start(),
        a.later_end(later_a),
        b.start(),
        b.later_end(later_b),
    )
}

fn overlap(a_start: i64, a_end: i64, b_start: i64, b_end: i64) -> bool
    ensures { IsTrue result ↔ Overlap a_start a_end b_start b_end }
{
    if a_start > b_end {
        return false;
    }
    b_start <= a_end
}

/// Two volumes whose ends are put later by one gap share a point exactly where some place and altitude lie in both, and a moment of the
/// one and a moment of the other differ by at most the gap. The function does nothing: its contract carries the law.
pub fn later_volumes_share_within_the_gap()
    ensures { (gap : ℕ) (a b : Volume4D) → IsVolume a → IsVolume b → Shares (later gap a) (later gap b) ↔ AreWithin gap a b }
{}
