// A disk in memory, which keeps the record of its calls, and can be told which of them are to fail.
ghost use Rattle.std.specs.Prelude.{◌≡◌, List, [], ℕ, length, ◌+◌, ◌≤◌, ◌∷◌, ◌++◌, take, vec_len, vec_capacity, IfOk, is_ok, MatchResult, true, false, Some, Contains};
ghost use Rattle.uss_disk.specs.Disk.{written};
ghost use Rattle.uss_disk.specs.Memory.{MemoryView, reading, after_act, Recorded, HadNoRoom};

use crate::record::Record;
use crate::{Act, Call, Disk, DiskFault, Written};
use std::alloc::{AllocError, Global};
use std::marker::Model;

/// A disk in memory. It is honest: what it reads is what was written, and what a crash may leave follows from the record
/// of its calls. A call whose number stands in its list of failing calls answers a fault, and so does one that
/// wants memory.
#[derive(Drop)]
pub struct MemoryDisk {
    alloc: Global,
    first: Vec<u8>,
    bytes: Vec<u8>,
    log: Record,
}

impl Model for MemoryDisk {
    ghost use Rattle.std.specs.Prelude.{◌≡◌};
    ghost use Rattle.uss_disk.specs.Memory.{MemoryView, reading};

    ghost Value = { MemoryView };

    ghost view = { λ d. record { first = d.first.items; calls = d.log.calls.items; failing = d.log.failing.items; faults = d.log.faults } };

    ghost invariant = { λ d. d.bytes.items ≡ reading d.first.items d.log.calls.items };
}

impl MemoryDisk {
    /// An empty file, and no call that is to fail.
    pub fn new(alloc: Global) -> MemoryDisk
        ensures { result ≡ record { first = []; calls = []; failing = []; faults = 0 } }
    {
        MemoryDisk {
            alloc,
            first: Vec::new(alloc),
            bytes: Vec::new(alloc),
            log: Record::new(alloc, Vec::new(alloc)),
        }
    }

    /// A file of these bytes, all of them on the medium, and the numbers of the calls that are to fail: all its
    /// calls are counted together from 1.
    pub fn with_bytes(
        alloc: Global,
        bytes: &[u8],
        failing: Vec<u64>,
    ) -> Result<MemoryDisk, AllocError>
        ensures { IfOk result (λ d. d ≡ record { first = bytes.now; calls = []; failing = failing.items; faults = 0 }) }
    {
        Ok(MemoryDisk {
            alloc,
            first: bytes.to_vec(alloc)?,
            bytes: bytes.to_vec(alloc)?,
            log: Record::new(alloc, failing),
        })
    }

    /// The bytes that a read gives.
    pub fn bytes(&self) -> &[u8]
        ensures { result.now ≡ reading self.now.first self.now.calls }
    {
        &self.bytes
    }

    /// The calls so far, the oldest first.
    pub fn calls(&self) -> &[Call]
        ensures { result.now ≡ self.now.calls }
    {
        &self.log.calls
    }
}

// The file with these bytes at the place, over what stands there and past its end. There is room for them.
fn overwrite(file: &mut Vec<u8>, at: usize, bytes: &[u8])
    requires within { at ≤ vec_len file.old }
    requires room { at + length bytes.now ≤ vec_capacity file.old }
    ensures { file.new.items ≡ written at bytes.now file.old.items }
{
    let over = bytes.len().min(file.len() - at);
    file[at..at + over].copy_from_slice(&bytes[..over]);
    file.extend_from_slice(&bytes[over..]).unwrap();
}

impl MemoryDisk {
    // Notes a call that changes no byte.
    fn note(&mut self, act: Act) -> Result<(), DiskFault>
        requires { (file : List ℕ) → after_act act file ≡ file }
        ensures { Recorded self.old act (is_ok result) self.new }
    {
        self.log.note(act)
    }

    fn no_room(&mut self) -> DiskFault
        ensures { HadNoRoom self.old self.new }
    {
        self.log.no_room()
    }

    // Takes what memory the write wants, and notes it.
    fn put(&mut self, at: usize, bytes: &[u8]) -> Result<(), DiskFault>
        requires { at ≤ length (reading self.old.first self.old.calls) }
        ensures { Recorded self.old (Act.Write at bytes.now) (is_ok result) self.new }
    {
        let over = bytes.len().min(self.bytes.len() - at);
        let Ok(copy) = Vec::from_slice(self.alloc, bytes) else {
            return Err(self.no_room());
        };
        if self.bytes.reserve(bytes.len() - over).is_err() {
            return Err(self.no_room());
        }
        self.log.note(Act::Write {
            at: at as u64,
            bytes: Written::new(copy),
        })?;
        overwrite(&mut self.bytes, at, bytes);
        Ok(())
    }

    fn shorten(&mut self, len: usize) -> Result<(), DiskFault>
        ensures { Recorded self.old (Act.Cut len) (is_ok result) self.new }
    {
        self.log.note(Act::Cut { len: len as u64 })?;
        self.bytes.truncate(len);
        Ok(())
    }
}

impl Disk for MemoryDisk {
    ghost use Rattle.uss_disk.specs.Memory.{memory_reads, memory_may_leave, memory_moment, memory_left_since, Recorded};
    ghost use Rattle.uss_disk.specs.Left.{reading_is_left, left_now, since_now};
    ghost use Rattle.std.specs.Prelude.{refl};

    ghost reads = { memory_reads };

    ghost may_leave = { memory_may_leave };

    ghost moment = { memory_moment };

    ghost left_since = { memory_left_since };

    ghost is_honest = { λ _. Unit {0} };

    ghost fault_count = { λ d. d.faults };

    ghost notes = { Recorded };

    fn len(&mut self) -> Result<u64, DiskFault> {
        self.note(Act::Len)?;
        Ok(self.bytes.len() as u64)
    }

    fn read(&mut self, at: u64, buf: &mut [u8]) -> Result<(), DiskFault> {
        let at = at as usize;
        let len = buf.len();
        self.note(Act::Read {
            at: at as u64,
            len: len as u64,
        })?;
        buf.copy_from_slice(&self.bytes[at..at + len]);
        Ok(())
    }

    fn write_at(&mut self, at: u64, bytes: &[u8]) -> Result<(), DiskFault> {
        self.put(at as usize, bytes)
    }

    fn cut(&mut self, len: u64) -> Result<(), DiskFault> {
        self.shorten(len as usize)
    }

    fn sync(&mut self) -> Result<(), DiskFault> {
        self.note(Act::Sync)
    }

    fn faults(&self) -> u64 {
        self.log.faults
    }

    ghost tells = { λ d honest. refl };

    ghost as_it_reads = { λ d honest. reading_is_left d };

    ghost counts_now = { λ d t image honest le now. left_now d t image le now };

    ghost only_now = { λ d image honest since. since_now d image since };
}
