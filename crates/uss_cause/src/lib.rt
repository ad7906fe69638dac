//! The words of causes: an outside object (a source, a sink, a disk, a dial) counts its faults, and a
//! call over it answers a fault only where that count rose in the call, or stands at its greatest value.
//!
//! ```
//! assert_eq!(rt; raised(3), 4);
//! assert_eq!(rt; raised(u64::MAX), u64::MAX);
//! ```
#![tactic(auto)]

ghost use Rattle.std.specs.Prelude.{◌≡◌, ℕ, ◌+◌, ◌<◌, ◌≤◌};
ghost use Rattle.uss_cause.specs.Cause.{Rose};

/// The count of faults after one more fault. It stands at `u64::MAX`, once there.
pub fn raised(count: u64) -> u64
    ensures rose { Rose count result }
    ensures kept { count ≤ result }
    ensures by_one { result ≤ count + 1 }
{
    count.saturating_add(1)
}

/// A count that rose in the first part of a call, or in the last, rose in the whole of it, where it fell in
/// neither. The function does nothing: its contract carries the law.
pub fn whole_call_counts()
    ensures first { (a b c : ℕ) → Rose a b → b ≤ c → Rose a c }
    ensures last { (a b c : ℕ) → a ≤ b → Rose b c → Rose a c }
{}
