// A journal's file is read in large pieces, in one pass.
ghost use Rattle.std.specs.Prelude.{◌≡◌, ◌≢◌, ◌↔◌, ◌+◌, ◌≤◌, ◌<◌, List, [], ℕ, length, take, drop, slice_range, vec_len, slice_index, OnOk, IfOk, IfErr, MatchResult, MatchOption, Some, None};
ghost use Rattle.uss_cause.specs.Cause.{Counts};
ghost use Rattle.uss_disk.specs.Disk.{bytes_of};
ghost use Rattle.uss_journal.specs.Format.{mark, first_difference, next_gate, length_at};
ghost use Rattle.uss_journal.specs.Gates.{Gated, Leads, records_between};
ghost use Rattle.uss_journal.specs.Journal.{StandsFor};
ghost use Rattle.uss_journal.specs.Refusal.{MountRefused, RefusedBy, NoPlace, PastTheEnd};
ghost use Rattle.uss_journal.specs.Sound.{OnlyLooked, IsFront};

use crate::JournalRefusal;
use crate::known::{FIRST_GATE, Known, NEW_JOURNAL};
use std::alloc::Global;
use uss_disk::{Disk, DiskFault};

// A file is read in pieces of this many bytes, or of a record where that is longer.
const PIECE: usize = 1 << 20;

/// Reads the journal of a file that is longer than nine bytes.
pub(crate) fn scan<D: Disk>(alloc: Global, disk: &mut D, len: u64) -> Result<Known, JournalRefusal>
    requires long { 9 < len }
    requires measured { D.is_honest disk.old → len ≡ length (bytes_of (D.reads disk.old)) }
    ensures looked { OnlyLooked D.reads D.may_leave D.moment D.left_since D.is_honest D.fault_count disk.old disk.new }
    ensures refused { IfErr result (MountRefused (D.fault_count disk.old) (D.fault_count disk.new)) }
    ensures calm { OnOk result (D.fault_count disk.new ≡ D.fault_count disk.old) }
    ensures gated { IfOk result (λ k. Gated k.bytes.items k.gates.items k.last) }
    ensures whole { IfOk result (λ k. length k.bytes.items ≡ k.last + 1) }
    ensures front { D.is_honest disk.old → IfOk result (λ k. IsFront k.bytes.items (bytes_of (D.reads disk.old))) }
    ensures refused_by { D.is_honest disk.old → IfErr result (RefusedBy (bytes_of (D.reads disk.old))) }
{
    let mut known = begin(alloc, disk, len)?;
    while known.bytes[known.last] != 0 {
        step(disk, &mut known, len)?;
    }
    known.bytes.truncate(known.last + 1);
    Ok(known)
}

// Reads the first piece, and looks at the mark.
fn begin<D: Disk>(alloc: Global, disk: &mut D, len: u64) -> Result<Known, JournalRefusal>
    requires long { 9 < len }
    requires measured { D.is_honest disk.old → len ≡ length (bytes_of (D.reads disk.old)) }
    ensures looked { OnlyLooked D.reads D.may_leave D.moment D.left_since D.is_honest D.fault_count disk.old disk.new }
    ensures refused { IfErr result (MountRefused (D.fault_count disk.old) (D.fault_count disk.new)) }
    ensures calm { OnOk result (D.fault_count disk.new ≡ D.fault_count disk.old) }
    ensures leads { IfOk result (λ k. Leads k.bytes.items k.gates.items k.last) }
    ensures within { IfOk result (λ k. vec_len k.bytes ≤ len) }
    ensures front { D.is_honest disk.old → IfOk result (λ k. IsFront k.bytes.items (bytes_of (D.reads disk.old))) }
    ensures refused_by { D.is_honest disk.old → IfErr result (RefusedBy (bytes_of (D.reads disk.old))) }
{
    let mut bytes = Vec::new(alloc);
    read_up_to(disk, &mut bytes, len, FIRST_GATE + 1)?;
    if let Some(place) = differs(&bytes) {
        return Err(JournalRefusal::NotAJournal(place as u64));
    }
    Ok(Known {
        bytes,
        gates: Vec::new(alloc),
        last: FIRST_GATE,
    })
}

// The first place at which the bytes differ from the mark.
fn differs(bytes: &[u8]) -> Option<usize>
    requires { 8 ≤ length bytes.now }
    ensures { result ≡ first_difference 0 mark bytes.now }
{
    for i in 0..FIRST_GATE {
        if bytes[i] != NEW_JOURNAL[i] {
            return Some(i);
        }
    }
    None
}

// Follows the last gate, which is open, to the next one.
fn step<D: Disk>(disk: &mut D, known: &mut Known, len: u64) -> Result<(), JournalRefusal>
    requires long { 9 < len }
    requires measured { D.is_honest disk.old → len ≡ length (bytes_of (D.reads disk.old)) }
    requires leads { Leads known.old.bytes.items known.old.gates.items known.old.last }
    requires is_open { slice_index known.old.bytes.items known.old.last ≢ 0 }
    requires within { vec_len known.old.bytes ≤ len }
    ensures looked { OnlyLooked D.reads D.may_leave D.moment D.left_since D.is_honest D.fault_count disk.old disk.new }
    ensures refused { IfErr result (MountRefused (D.fault_count disk.old) (D.fault_count disk.new)) }
    ensures calm { OnOk result (D.fault_count disk.new ≡ D.fault_count disk.old) }
    ensures leads { OnOk result (Leads known.new.bytes.items known.new.gates.items known.new.last) }
    ensures further { OnOk result (known.old.last < known.new.last) }
    ensures within { OnOk result (vec_len known.new.bytes ≤ len) }
    ensures front { D.is_honest disk.old → IsFront known.old.bytes.items (bytes_of (D.reads disk.old))
        → OnOk result (IsFront known.new.bytes.items (bytes_of (D.reads disk.old))) }
    ensures refused_by { D.is_honest disk.old → IsFront known.old.bytes.items (bytes_of (D.reads disk.old))
        → IfErr result (RefusedBy (bytes_of (D.reads disk.old))) }
{
    match next(disk, &mut known.bytes, len, known.last) {
        Ok(gate) => {
            known.gates.push(gate)?;
            known.last = gate;
            Ok(())
        }
        Err(refusal) => Err(refusal),
    }
}

// The gate after the record whose gate this is, which is read up to it.
fn next<D: Disk>(
    disk: &mut D,
    bytes: &mut Vec<u8>,
    len: u64,
    gate: usize,
) -> Result<usize, JournalRefusal>
    requires measured { D.is_honest disk.old → len ≡ length (bytes_of (D.reads disk.old)) }
    requires inside { gate < vec_len bytes.old }
    requires within { vec_len bytes.old ≤ len }
    ensures looked { OnlyLooked D.reads D.may_leave D.moment D.left_since D.is_honest D.fault_count disk.old disk.new }
    ensures refused { IfErr result (MountRefused (D.fault_count disk.old) (D.fault_count disk.new)) }
    ensures calm { OnOk result (D.fault_count disk.new ≡ D.fault_count disk.old) }
    ensures kept { IsFront bytes.old.items bytes.new.items }
    ensures within { OnOk result (vec_len bytes.new ≤ len) }
    ensures found { IfOk result (λ n. n ≡ next_gate bytes.new.items gate) }
    ensures reached { IfOk result (λ n. n < vec_len bytes.new) }
    ensures front { D.is_honest disk.old → IsFront bytes.old.items (bytes_of (D.reads disk.old))
        → OnOk result (IsFront bytes.new.items (bytes_of (D.reads disk.old))) }
    ensures past { D.is_honest disk.old → IsFront bytes.old.items (bytes_of (D.reads disk.old))
        → IfErr result (PastTheEnd (bytes_of (D.reads disk.old)) gate) }
{
    if len - gate as u64 <= 5 {
        return Err(JournalRefusal::NotAJournal(gate as u64));
    }
    read_up_to(disk, bytes, len, gate + 5)?;
    let next = gate + 5 + record_length(bytes, gate) as usize;
    if next as u64 >= len {
        return Err(JournalRefusal::NotAJournal(gate as u64));
    }
    read_up_to(disk, bytes, len, next + 1)?;
    Ok(next)
}

// The length of the record whose gate this is.
fn record_length(bytes: &[u8], gate: usize) -> u32
    requires { gate + 5 ≤ length bytes.now }
    ensures { result ≡ length_at bytes.now gate }
{
    u32::from_be_bytes([
        bytes[gate + 1],
        bytes[gate + 2],
        bytes[gate + 3],
        bytes[gate + 4],
    ])
}

// Reads on, by a large piece, until this many bytes were read.
fn read_up_to<D: Disk>(
    disk: &mut D,
    bytes: &mut Vec<u8>,
    len: u64,
    end: usize,
) -> Result<(), JournalRefusal>
    requires measured { D.is_honest disk.old → len ≡ length (bytes_of (D.reads disk.old)) }
    requires inside { end ≤ len }
    requires within { vec_len bytes.old ≤ len }
    ensures looked { OnlyLooked D.reads D.may_leave D.moment D.left_since D.is_honest D.fault_count disk.old disk.new }
    ensures refused { IfErr result (MountRefused (D.fault_count disk.old) (D.fault_count disk.new)) }
    ensures calm { OnOk result (D.fault_count disk.new ≡ D.fault_count disk.old) }
    ensures kept { IsFront bytes.old.items bytes.new.items }
    ensures within { OnOk result (vec_len bytes.new ≤ len) }
    ensures reached { OnOk result (end ≤ vec_len bytes.new) }
    ensures front { D.is_honest disk.old → IsFront bytes.old.items (bytes_of (D.reads disk.old))
        → OnOk result (IsFront bytes.new.items (bytes_of (D.reads disk.old))) }
    ensures no_place { IfErr result NoPlace }
{
    let have = bytes.len();
    if end <= have {
        return Ok(());
    }
    let ahead = have.saturating_add(PIECE).min(len as usize);
    bytes.resize(end.max(ahead), 0)?;
    read_behind(disk, bytes, have)?;
    Ok(())
}

// Reads what stands in the file from this place on, to the end of the bytes.
fn read_behind<D: Disk>(disk: &mut D, bytes: &mut [u8], at: usize) -> Result<(), DiskFault>
    requires at { at ≤ length bytes.old }
    requires inside { D.is_honest disk.old → length bytes.old ≤ length (bytes_of (D.reads disk.old)) }
    ensures looked { OnlyLooked D.reads D.may_leave D.moment D.left_since D.is_honest D.fault_count disk.old disk.new }
    ensures count { Counts (D.fault_count disk.old) (D.fault_count disk.new) result }
    ensures front { take at bytes.new ≡ take at bytes.old }
    ensures rest { D.is_honest disk.old → OnOk result (drop at bytes.new ≡ slice_range (bytes_of (D.reads disk.old)) at (length bytes.old)) }
{
    disk.read(at as u64, &mut bytes[at..])
}
