// The part of a journal's file that is kept in memory: its bytes up to the last gate.
ghost use Rattle.std.specs.Prelude.{◌≡◌, ◌+◌, ◌-◌, ◌<◌, ◌≤◌, ◌^◌, ◌++◌, ◌∷◌, [], ℕ, length, vec_len, vec_capacity, slice_set, slice_get, slice_index, take, IfOk, OnOk, OnErr};
ghost use Rattle.std.specs.Option.{option_copied};
ghost use Rattle.uss_journal.specs.Format.{new_journal, used_of};
ghost use Rattle.uss_journal.specs.Gates.{records_between, Gated};
ghost use Rattle.uss_journal.specs.Journal.{staged_of};
ghost use Rattle.uss_journal.specs.Known.{IsAccepted};

use std::alloc::{AllocError, Global};

/// The place of a journal's first gate.
pub(crate) const FIRST_GATE: usize = 8;

/// A journal of no records: the mark, and a closed gate.
pub(crate) const NEW_JOURNAL: [u8; 9] = *b"USSJ0001\0";

#[derive(Drop)]
pub(crate) struct Known {
    // From the file's first byte up to and with the last gate, which is closed. After it stands a record that was
    // tried and may or may not be in the file, if one was.
    pub(crate) bytes: Vec<u8>,
    // The places of the gates after the first one: one for each record.
    pub(crate) gates: Vec<usize>,
    // The place of the last gate.
    pub(crate) last: usize,
}

impl Known {
    /// A journal of no records.
    pub(crate) fn new(alloc: Global) -> Result<Known, AllocError>
        ensures bytes { IfOk result (λ k. k.bytes.items ≡ new_journal) }
        ensures gates { IfOk result (λ k. k.gates.items ≡ []) }
        ensures last { IfOk result (λ k. k.last ≡ 8) }
    {
        Ok(Known {
            bytes: Vec::from_slice(alloc, &NEW_JOURNAL)?,
            gates: Vec::new(alloc),
            last: FIRST_GATE,
        })
    }

    /// How many records there are.
    pub(crate) fn count(&self) -> usize
        ensures { result ≡ length (records_between self.now.bytes.items 8 self.now.gates.items) }
    {
        self.gates.len()
    }

    /// The bytes up to and with the last gate.
    pub(crate) fn used(&self) -> u64
        requires { Gated self.now.bytes.items self.now.gates.items self.now.last }
        ensures { result ≡ used_of (records_between self.now.bytes.items 8 self.now.gates.items) }
    {
        self.last as u64 + 1
    }

    /// The record with this number, from 0.
    pub(crate) fn item(&self, n: usize) -> Option<&[u8]>
        requires { Gated self.now.bytes.items self.now.gates.items self.now.last }
        ensures { option_copied result ≡ slice_get (records_between self.now.bytes.items 8 self.now.gates.items) n }
    {
        if n >= self.gates.len() {
            return None;
        }
        let start = self.gate(n) + 5;
        let end = self.gates[n];
        Some(&self.bytes[start..end])
    }

    // The gate of the record with this number.
    fn gate(&self, n: usize) -> usize
        requires { n ≤ length self.now.gates.items }
        ensures { result ≡ slice_index (8 ∷ self.now.gates.items) n }
    {
        if n == 0 {
            FIRST_GATE
        } else {
            self.gates[n - 1]
        }
    }

    /// Puts a record after the last gate, with a closed gate after it, and makes room for the gate's place.
    pub(crate) fn stage(&mut self, entry: &[u8]) -> Result<(), AllocError>
        requires { length entry.now < 2 ^ 32 }
        ensures gates { self.new.gates.items ≡ self.old.gates.items }
        ensures last { self.new.last ≡ self.old.last }
        ensures ok { OnOk result (self.new.bytes.items ≡ self.old.bytes.items ++ staged_of entry.now) }
        ensures room { OnOk result (vec_len self.new.gates < vec_capacity self.new.gates) }
        ensures err { OnErr result (self.new.bytes.items ≡ self.old.bytes.items) }
    {
        self.gates.reserve(1)?;
        let before = self.bytes.len();
        let staged = put_staged(&mut self.bytes, entry);
        if staged.is_err() {
            self.bytes.truncate(before);
        }
        staged
    }

    /// Opens the last gate, so that the record after it is known.
    pub(crate) fn accept(&mut self)
        requires behind { self.old.last + 1 < vec_len self.old.bytes }
        requires room { vec_len self.old.gates < vec_capacity self.old.gates }
        ensures { IsAccepted self.old self.new }
    {
        let gate = self.bytes.len() - 1;
        self.bytes[self.last] = 1;
        self.gates.push(gate).unwrap();
        self.last = gate;
    }
}

// The bytes with a record after them. Where there is no room, a part of it may stand there.
fn put_staged(bytes: &mut Vec<u8>, entry: &[u8]) -> Result<(), AllocError>
    requires { length entry.now < 2 ^ 32 }
    ensures ok { OnOk result (bytes.new.items ≡ bytes.old.items ++ staged_of entry.now) }
    ensures front { take (vec_len bytes.old) bytes.new.items ≡ bytes.old.items }
{
    bytes.extend_from_slice(&(entry.len() as u32).to_be_bytes())?;
    bytes.extend_from_slice(entry)?;
    bytes.push(0)?;
    Ok(())
}
