// A journal's file is read, or made where it has at most nine bytes.
ghost use Rattle.std.specs.Prelude.{◌≡◌, ◌⊎◌, ◌↔◌, ◌+◌, ◌≤◌, ◌<◌, ◌^◌, List, [], ℕ, length, OnOk, IfOk, IfErr, MatchResult};
ghost use Rattle.uss_cause.specs.Cause.{Counts};
ghost use Rattle.uss_disk.specs.Disk.{bytes_of, Only, CrashLeaves, SameMeaning};
ghost use Rattle.uss_journal.specs.Format.{stands_for, new_journal};
ghost use Rattle.uss_journal.specs.Gates.{Gated, records_between};
ghost use Rattle.uss_journal.specs.Journal.{StandsFor, mounted};
ghost use Rattle.uss_journal.specs.Refusal.{MountRefused, RefusedBy, UnlessFault};
ghost use Rattle.uss_journal.specs.Sound.{IsSynced, AllShort, Untouched};

use crate::JournalRefusal;
use crate::known::{Known, NEW_JOURNAL};
use crate::scan::scan;
use std::alloc::Global;
use uss_disk::{Disk, DiskFault};

/// Syncs, and reads the journal that the file holds. A file of at most nine bytes is made a new, empty journal, unless records of it are
/// known: then it has lost them, which no honest disk does, and nothing is written.
pub(crate) fn load<D: Disk>(
    alloc: Global,
    disk: &mut D,
    known: usize,
) -> Result<Known, JournalRefusal>
    requires { D.is_honest disk.old → 0 < known → 9 < length (bytes_of (D.reads disk.old)) }
    ensures refused { IfErr result (MountRefused (D.fault_count disk.old) (D.fault_count disk.new)) }
    ensures calm { OnOk result (D.fault_count disk.new ≡ D.fault_count disk.old) }
    ensures count { D.fault_count disk.old ≤ D.fault_count disk.new }
    ensures honest { D.is_honest disk.new ↔ D.is_honest disk.old }
    ensures gated { IfOk result (λ k. Gated k.bytes.items k.gates.items k.last) }
    ensures whole { IfOk result (λ k. length k.bytes.items ≡ k.last + 1) }

    ensures found { D.is_honest disk.old → MatchResult result
        (λ k. StandsFor (records_between k.bytes.items 8 k.gates.items) (bytes_of (D.reads disk.old)))
        (RefusedBy (bytes_of (D.reads disk.old))) }
    ensures file { D.is_honest disk.old → OnOk result (bytes_of (D.reads disk.new) ≡ mounted (bytes_of (D.reads disk.old))) }
    ensures kept { D.is_honest disk.old → stands_for (bytes_of (D.reads disk.new)) ≡ stands_for (bytes_of (D.reads disk.old)) }
    ensures untouched { D.is_honest disk.old → IfErr result (λ r. UnlessFault r (Untouched D.reads D.may_leave disk.old disk.new)) }
    ensures synced { D.is_honest disk.old → IfOk result (λ k. IsSynced k.bytes.items (bytes_of (D.reads disk.new)) (D.may_leave disk.new)) }
    ensures crash { D.is_honest disk.old → CrashLeaves D.moment D.left_since
        (λ image. D.may_leave disk.old image ⊎ (stands_for image ≡ stands_for (bytes_of (D.reads disk.old)))) disk.old disk.new }
{
    disk.sync()?;
    let len = disk.len()?;
    if len > 9 {
        return scan(alloc, disk, len);
    }
    if known > 0 {
        return Ok(Known::new(alloc)?);
    }
    make(alloc, disk, len)
}

// Makes a new, empty journal of a file of at most nine bytes, all of them on the medium.
fn make<D: Disk>(alloc: Global, disk: &mut D, len: u64) -> Result<Known, JournalRefusal>
    requires { D.is_honest disk.old → len ≡ length (bytes_of (D.reads disk.old)) }
    ensures refused { IfErr result (MountRefused (D.fault_count disk.old) (D.fault_count disk.new)) }
    ensures calm { OnOk result (D.fault_count disk.new ≡ D.fault_count disk.old) }
    ensures count { D.fault_count disk.old ≤ D.fault_count disk.new }
    ensures honest { D.is_honest disk.new ↔ D.is_honest disk.old }
    ensures file { D.is_honest disk.old → OnOk result (bytes_of (D.reads disk.new) ≡ new_journal) }
    ensures made { IfOk result (λ k. (k.bytes.items ≡ new_journal) × (k.gates.items ≡ []) × (k.last ≡ 8)) }
    ensures synced { D.is_honest disk.old → IfOk result (λ k. IsSynced k.bytes.items (bytes_of (D.reads disk.new)) (D.may_leave disk.new)) }
    ensures crash { D.is_honest disk.old → AllShort (D.may_leave disk.old) → CrashLeaves D.moment D.left_since (λ image. length image ≤ 9) disk.old disk.new }
    ensures short { D.is_honest disk.old → AllShort (D.may_leave disk.old) → length (bytes_of (D.reads disk.new)) ≤ 9 }
    ensures refused_by { (file : List ℕ) → IfErr result (RefusedBy file) }
    ensures untouched { IfErr result (λ r. UnlessFault r (disk.new ≡ disk.old)) }
{
    let known = Known::new(alloc)?;
    empty(disk, len)?;
    fill(disk)?;
    Ok(known)
}

// Cuts the file to nothing, where it isn't empty.
fn empty<D: Disk>(disk: &mut D, len: u64) -> Result<(), DiskFault>
    requires { D.is_honest disk.old → len ≡ length (bytes_of (D.reads disk.old)) }
    ensures count { Counts (D.fault_count disk.old) (D.fault_count disk.new) result }
    ensures honest { D.is_honest disk.new ↔ D.is_honest disk.old }
    ensures reading { D.is_honest disk.old → OnOk result (bytes_of (D.reads disk.new) ≡ []) }
    ensures short { D.is_honest disk.old → AllShort (D.may_leave disk.old) → AllShort (D.may_leave disk.new) }
    ensures crash { D.is_honest disk.old → AllShort (D.may_leave disk.old) → CrashLeaves D.moment D.left_since (λ image. length image ≤ 9) disk.old disk.new }
{
    if len == 0 {
        return Ok(());
    }
    disk.cut(0)
}

// Writes a new journal to an empty file, and syncs.
fn fill<D: Disk>(disk: &mut D) -> Result<(), DiskFault>
    ensures count { Counts (D.fault_count disk.old) (D.fault_count disk.new) result }
    ensures honest { D.is_honest disk.new ↔ D.is_honest disk.old }
    ensures reading { D.is_honest disk.old → bytes_of (D.reads disk.old) ≡ [] → OnOk result (bytes_of (D.reads disk.new) ≡ new_journal) }
    ensures durable { D.is_honest disk.old → OnOk result (Only (bytes_of (D.reads disk.new)) (D.may_leave disk.new)) }
    ensures short { D.is_honest disk.old → AllShort (D.may_leave disk.old) → AllShort (D.may_leave disk.new) }
    ensures crash { D.is_honest disk.old → AllShort (D.may_leave disk.old) → CrashLeaves D.moment D.left_since (λ image. length image ≤ 9) disk.old disk.new }
{
    disk.write_at(0, &NEW_JOURNAL)?;
    disk.sync()
}
