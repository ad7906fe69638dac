// A disk: one file, what a read of it gives, and what a crash may leave of it.
ghost use Rattle.std.specs.Prelude.{◌≡◌, ◌↔◌, ◌+◌, ◌≤◌, ℕ, Bool, List, length, take, slice_range, Option, IsSome, IfOk, OnOk, OnErr, is_ok};
ghost use Rattle.uss_cause.specs.Cause.{Counts};
ghost use Rattle.uss_disk.specs.Disk.{bytes_of, written, Torn, Shortened, Follows, Only, SameMeaning, TimePasses};
ghost use Rattle.uss_disk.specs.declared.act.Act.{Act};

use crate::{Act, DiskFault};

/// One file on a medium that may crash. Places and lengths are in bytes from the file's start.
///
/// A disk that is honest keeps what was synced, and reads as it was written. One that isn't, and one over a real file,
/// of which no clause can speak, promises only that it answers a fault where it has counted one.
pub trait Disk {
    /// What a read gives: the file's bytes, where the disk tells them.
    ghost reads: { Self → Option (List ℕ) };

    /// What a crash now may leave of the file.
    ghost may_leave: { Self → List ℕ → Type 0 };

    /// The time, as a number that doesn't fall.
    ghost moment: { Self → ℕ };

    /// What a crash at some moment since that time may have left, during a call or between two.
    ghost left_since: { Self → ℕ → List ℕ → Type 0 };

    /// Whether the disk is honest.
    ghost is_honest: { Self → Type 0 };

    /// How many faults the disk has counted, up to 2 ^ 64 - 1.
    ghost fault_count: { Self → ℕ };

    /// What this kind of disk says besides of a call, by the disk before it, the call, whether it was done, and the
    /// disk after it. Nothing, unless the kind says otherwise.
    ghost notes: { Self → Act → Bool → Self → Type 0 } = { λ _ _ _ _. Unit {0} };

    /// The length that a read sees.
    fn len(&mut self) -> Result<u64, DiskFault>
        ensures count { Counts (fault_count self.old) (fault_count self.new) result }
        ensures honest { is_honest self.new ↔ is_honest self.old }
        ensures same { is_honest self.old → SameMeaning reads may_leave moment left_since self.old self.new }
        ensures length { is_honest self.old → IfOk result (λ n. n ≡ length (bytes_of (reads self.old))) }
        ensures noted { notes self.old Act.Len (is_ok result) self.new };

    /// Fills `buf` with the bytes from `at` on.
    fn read(&mut self, at: u64, buf: &mut [u8]) -> Result<(), DiskFault>
        requires { is_honest self.old → at + length buf.old ≤ length (bytes_of (reads self.old)) }
        ensures count { Counts (fault_count self.old) (fault_count self.new) result }
        ensures honest { is_honest self.new ↔ is_honest self.old }
        ensures same { is_honest self.old → SameMeaning reads may_leave moment left_since self.old self.new }
        ensures bytes { is_honest self.old → OnOk result (buf.new ≡ slice_range (bytes_of (reads self.old)) at (at + length buf.old)) }
        ensures noted { notes self.old (Act.Read at (length buf.old)) (is_ok result) self.new };

    /// Writes the bytes at `at`, over what stands there and past the end. Until a sync a crash may tear them, and a
    /// refused write may have been done in part.
    fn write_at(&mut self, at: u64, bytes: &[u8]) -> Result<(), DiskFault>
        requires { is_honest self.old → at ≤ length (bytes_of (reads self.old)) }
        ensures count { Counts (fault_count self.old) (fault_count self.new) result }
        ensures honest { is_honest self.new ↔ is_honest self.old }
        ensures done { is_honest self.old → OnOk result (bytes_of (reads self.new) ≡ written at bytes.now (bytes_of (reads self.old))) }
        ensures in_part { is_honest self.old → OnErr result (Torn at (length bytes.now) (bytes_of (reads self.old)) (bytes_of (reads self.new))) }
        ensures crash { is_honest self.old → Follows (Torn at (length bytes.now)) (may_leave self.old) (may_leave self.new) }
        ensures time { is_honest self.old → TimePasses may_leave moment left_since self.old self.new }
        ensures noted { notes self.old (Act.Write at bytes.now) (is_ok result) self.new };

    /// Cuts the file to its first `len` bytes. Until a sync a crash may leave some length between, and a refused cut
    /// may have been done in part.
    fn cut(&mut self, len: u64) -> Result<(), DiskFault>
        requires { is_honest self.old → len ≤ length (bytes_of (reads self.old)) }
        ensures count { Counts (fault_count self.old) (fault_count self.new) result }
        ensures honest { is_honest self.new ↔ is_honest self.old }
        ensures done { is_honest self.old → OnOk result (bytes_of (reads self.new) ≡ take len (bytes_of (reads self.old))) }
        ensures in_part { is_honest self.old → OnErr result (Shortened len (bytes_of (reads self.old)) (bytes_of (reads self.new))) }
        ensures crash { is_honest self.old → Follows (Shortened len) (may_leave self.old) (may_leave self.new) }
        ensures time { is_honest self.old → TimePasses may_leave moment left_since self.old self.new }
        ensures noted { notes self.old (Act.Cut len) (is_ok result) self.new };

    /// After it a crash leaves what a read gives.
    fn sync(&mut self) -> Result<(), DiskFault>
        ensures count { Counts (fault_count self.old) (fault_count self.new) result }
        ensures honest { is_honest self.new ↔ is_honest self.old }
        ensures reading { is_honest self.old → reads self.new ≡ reads self.old }
        ensures durable { is_honest self.old → OnOk result (Only (bytes_of (reads self.old)) (may_leave self.new)) }
        ensures time { is_honest self.old → TimePasses may_leave moment left_since self.old self.new }
        ensures refused { is_honest self.old → OnErr result (SameMeaning reads may_leave moment left_since self.old self.new) }
        ensures noted { notes self.old Act.Sync (is_ok result) self.new };

    /// The count of faults: how many calls have answered a fault, up to `u64::MAX`.
    fn faults(&self) -> u64
        ensures { result ≡ fault_count self.now };

    /// An honest disk tells its bytes.
    ghost tells: { (disk : Self) → is_honest disk → IsSome (reads disk) };

    /// An honest disk as it reads is what a crash may leave.
    ghost as_it_reads: { (disk : Self) → is_honest disk → may_leave disk (bytes_of (reads disk)) };

    /// This moment is one of those since an earlier one.
    ghost counts_now: { (disk : Self) (t : ℕ) (image : List ℕ) → is_honest disk → t ≤ moment disk → may_leave disk image → left_since disk t image };

    /// Since this moment there is no other.
    ghost only_now: { (disk : Self) (image : List ℕ) → is_honest disk → left_since disk (moment disk) image → may_leave disk image };
}
