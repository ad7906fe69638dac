// Bytes written after a gate, which is opened once they are on the medium.
ghost use Rattle.std.specs.Prelude.{◌≡◌, ◌↔◌, ◌+◌, ◌<◌, ◌≤◌, ◌^◌, ◌∷◌, [], length, drop, vec_len, vec_capacity, OnOk, OnErr};
ghost use Rattle.uss_cause.specs.Cause.{Counts};
ghost use Rattle.uss_disk.specs.Disk.{bytes_of, written, Torn, Only, CrashLeaves};
ghost use Rattle.uss_journal.specs.Journal.{IsStaged};
ghost use Rattle.uss_journal.specs.Known.{IsAccepted};

use crate::known::Known;
use uss_disk::{Disk, DiskFault};

/// Writes the bytes at this place, and syncs.
pub(crate) fn write_through<D: Disk>(disk: &mut D, at: u64, bytes: &[u8]) -> Result<(), DiskFault>
    requires { D.is_honest disk.old → at ≤ length (bytes_of (D.reads disk.old)) }

    ensures count { Counts (D.fault_count disk.old) (D.fault_count disk.new) result }
    ensures honest { D.is_honest disk.new ↔ D.is_honest disk.old }

    // A crash, where all of the file was on the medium.
    ensures crash { D.is_honest disk.old → Only (bytes_of (D.reads disk.old)) (D.may_leave disk.old)
        → CrashLeaves D.moment D.left_since (Torn at (length bytes.now) (bytes_of (D.reads disk.old))) disk.old disk.new }
    ensures reading { D.is_honest disk.old
        → OnOk result (bytes_of (D.reads disk.new) ≡ written at bytes.now (bytes_of (D.reads disk.old))) }
    ensures durable { D.is_honest disk.old → OnOk result (Only (bytes_of (D.reads disk.new)) (D.may_leave disk.new)) }
{
    disk.write_at(at, bytes)?;
    disk.sync()
}

/// Writes the bytes after the gate at this place, syncs, opens the gate, and syncs.
pub(crate) fn write_behind<D: Disk>(disk: &mut D, gate: u64, staged: &[u8]) -> Result<(), DiskFault>
    requires fits { gate + 1 < 2 ^ 64 }
    requires place { D.is_honest disk.old → gate + 1 ≤ length (bytes_of (D.reads disk.old)) }

    ensures count { Counts (D.fault_count disk.old) (D.fault_count disk.new) result }
    ensures honest { D.is_honest disk.new ↔ D.is_honest disk.old }

    // A crash, where all of the file was on the medium.
    ensures crash { D.is_honest disk.old → Only (bytes_of (D.reads disk.old)) (D.may_leave disk.old)
        → CrashLeaves D.moment D.left_since (IsStaged gate staged.now (bytes_of (D.reads disk.old))) disk.old disk.new }
    ensures reading { D.is_honest disk.old
        → OnOk result (bytes_of (D.reads disk.new) ≡ written gate (1 ∷ []) (written (gate + 1) staged.now (bytes_of (D.reads disk.old)))) }
    ensures durable { D.is_honest disk.old → OnOk result (Only (bytes_of (D.reads disk.new)) (D.may_leave disk.new)) }
{
    write_through(disk, gate + 1, staged)?;
    write_through(disk, gate, &[1])
}

/// Writes what was staged to the disk, opens its gate there, and then knows it.
pub(crate) fn commit<D: Disk>(disk: &mut D, known: &mut Known) -> Result<(), DiskFault>
    requires behind { known.old.last + 1 < vec_len known.old.bytes }
    requires room { vec_len known.old.gates < vec_capacity known.old.gates }
    requires place { D.is_honest disk.old → known.old.last + 1 ≤ length (bytes_of (D.reads disk.old)) }

    ensures count { Counts (D.fault_count disk.old) (D.fault_count disk.new) result }
    ensures honest { D.is_honest disk.new ↔ D.is_honest disk.old }
    ensures ok { OnOk result (IsAccepted known.old known.new) }
    ensures err { OnErr result (known.new ≡ known.old) }

    ensures crash { D.is_honest disk.old → Only (bytes_of (D.reads disk.old)) (D.may_leave disk.old)
        → CrashLeaves D.moment D.left_since (IsStaged known.old.last (drop (known.old.last + 1) known.old.bytes.items) (bytes_of (D.reads disk.old))) disk.old disk.new }
    ensures reading { D.is_honest disk.old → OnOk result (bytes_of (D.reads disk.new)
        ≡ written known.old.last (1 ∷ []) (written (known.old.last + 1) (drop (known.old.last + 1) known.old.bytes.items) (bytes_of (D.reads disk.old)))) }
    ensures durable { D.is_honest disk.old → OnOk result (Only (bytes_of (D.reads disk.new)) (D.may_leave disk.new)) }
{
    let gate = known.last;
    write_behind(disk, gate as u64, &known.bytes[gate + 1..])?;
    known.accept();
    Ok(())
}
