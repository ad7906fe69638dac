ghost use Rattle.std.specs.Prelude.{◌≡◌, [], Some, is_err, length, max, min, IfOk};
ghost use Rattle.uss_cause.specs.Cause.{Counts};
ghost use Rattle.uss_link.specs.Bytes.{Reads, Writes};
ghost use Rattle.uss_link.specs.Stores.{IsCall, is_listed};

use crate::sink::{Sink, WriteFault};
use crate::source::{ReadFault, Source};
use std::alloc::Global;
use std::marker::Model;
use uss_cause::raised;

/// A source over bytes in memory, which tells what it has left. Its calls are numbered from 1, and those
/// whose number is listed answer a fault and change nothing but the two counts. It gives at most `piece`
/// bytes at a call.
#[derive(Drop)]
pub struct MemorySource {
    bytes: Vec<u8>,
    place: usize,
    piece: usize,
    failing: Vec<u64>,
    calls: u64,
    faults: u64,
}

impl Model for MemorySource {
    ghost use Rattle.std.specs.Prelude.{ℕ, ◌≤◌, ◌<◌, length, drop};
    ghost use Rattle.uss_link.specs.Stores.{Feed};

    ghost Value = { Feed };

    ghost view = { λ s. record { left = drop s.place s.bytes.items; piece = s.piece; failing = s.failing.items; calls = s.calls; faults = s.faults } };

    ghost invariant = { λ s. (s.place ≤ length s.bytes.items) × (0 < s.piece) };
}

impl MemorySource {
    /// A source that gives these bytes, as many at a call as the buffer takes, and of whose calls none fails.
    pub fn new(alloc: Global, bytes: Vec<u8>) -> MemorySource
        ensures { result ≡ record { left = bytes.items; piece = 18446744073709551615; failing = []; calls = 0; faults = 0 } }
    {
        MemorySource {
            bytes,
            place: 0,
            piece: usize::MAX,
            failing: Vec::new(alloc),
            calls: 0,
            faults: 0,
        }
    }

    /// The same source, of whose calls those with these numbers fail.
    pub fn failing_at(self, failing: Vec<u64>) -> MemorySource
        ensures { result ≡ record self { failing = failing.items } }
    {
        MemorySource { failing, ..self }
    }

    /// The same source, which gives at most so many bytes at a call, and at least one.
    pub fn in_pieces_of(self, piece: usize) -> MemorySource
        ensures { result ≡ record self { piece = max 1 piece } }
    {
        MemorySource {
            piece: piece.max(1),
            ..self
        }
    }

    /// How many calls were made, up to `u64::MAX`.
    pub fn calls(&self) -> u64
        ensures { result ≡ self.now.calls }
    {
        self.calls
    }

    /// How many calls answered a fault, up to `u64::MAX`.
    pub fn faults(&self) -> u64
        ensures { result ≡ self.now.faults }
    {
        self.faults
    }
}

impl Source for MemorySource {
    ghost use Rattle.std.specs.Prelude.{Some};

    ghost faults = { λ s. s.faults };

    ghost left = { λ s. Some s.left };

    /// A call fails exactly where its number is listed.
    fn read(&mut self, buffer: &mut [u8]) -> Result<usize, ReadFault>
        ensures counts { Counts self.old.faults self.new.faults result }
        ensures bytes { Reads (Some self.old.left) (Some self.new.left) buffer.old buffer.new result }
        ensures call { IsCall self.old.failing self.old.calls self.old.faults self.new.failing self.new.calls self.new.faults result }
        ensures only { is_err result ≡ is_listed self.new.calls self.old.failing }
        ensures most { IfOk result (λ n. n ≡ min (min (length self.old.left) (length buffer.old)) self.old.piece) }
        ensures piece { self.new.piece ≡ self.old.piece }
    {
        self.calls = self.calls.saturating_add(1);
        if self.failing.contains(&self.calls) {
            self.faults = raised(self.faults);
            return Err(ReadFault);
        }
        let left = self.bytes.len() - self.place;
        let count = left.min(buffer.len()).min(self.piece);
        let end = self.place + count;
        buffer[..count].copy_from_slice(&self.bytes.as_slice()[self.place..end]);
        self.place = end;
        Ok(count)
    }
}

/// A sink over memory, which tells what it took. Its calls are numbered from 1, and those whose number is
/// listed answer a fault and change nothing but the two counts. It takes at most `piece` bytes at a call.
/// Where memory for the bytes is wanting, that is a counted fault too.
#[derive(Drop)]
pub struct MemorySink {
    bytes: Vec<u8>,
    piece: usize,
    failing: Vec<u64>,
    calls: u64,
    faults: u64,
}

impl Model for MemorySink {
    ghost use Rattle.std.specs.Prelude.{◌<◌};
    ghost use Rattle.uss_link.specs.Stores.{Store};

    ghost Value = { Store };

    ghost view = { λ s. record { taken = s.bytes.items; piece = s.piece; failing = s.failing.items; calls = s.calls; faults = s.faults } };

    ghost invariant = { λ s. 0 < s.piece };
}

impl MemorySink {
    /// A sink that took nothing yet, takes each piece whole, and of whose calls none fails.
    pub fn new(alloc: Global) -> MemorySink
        ensures { result ≡ record { taken = []; piece = 18446744073709551615; failing = []; calls = 0; faults = 0 } }
    {
        MemorySink {
            bytes: Vec::new(alloc),
            piece: usize::MAX,
            failing: Vec::new(alloc),
            calls: 0,
            faults: 0,
        }
    }

    /// The same sink, of whose calls those with these numbers fail.
    pub fn failing_at(self, failing: Vec<u64>) -> MemorySink
        ensures { result ≡ record self { failing = failing.items } }
    {
        MemorySink { failing, ..self }
    }

    /// The same sink, which takes at most so many bytes at a call, and at least one.
    pub fn in_pieces_of(self, piece: usize) -> MemorySink
        ensures { result ≡ record self { piece = max 1 piece } }
    {
        MemorySink {
            piece: piece.max(1),
            ..self
        }
    }

    /// The bytes that it took.
    pub fn taken(&self) -> &[u8]
        ensures { result.now ≡ self.now.taken }
    {
        self.bytes.as_slice()
    }

    /// How many calls were made, up to `u64::MAX`.
    pub fn calls(&self) -> u64
        ensures { result ≡ self.now.calls }
    {
        self.calls
    }

    /// How many calls answered a fault, up to `u64::MAX`.
    pub fn faults(&self) -> u64
        ensures { result ≡ self.now.faults }
    {
        self.faults
    }
}

impl Sink for MemorySink {
    ghost use Rattle.std.specs.Prelude.{Some};

    ghost faults = { λ s. s.faults };

    ghost taken = { λ s. Some s.taken };

    /// A call fails where its number is listed, and when memory runs out.
    fn write(&mut self, bytes: &[u8]) -> Result<usize, WriteFault>
        ensures counts { Counts self.old.faults self.new.faults result }
        ensures bytes { Writes (Some self.old.taken) (Some self.new.taken) bytes.now result }
        ensures call { IsCall self.old.failing self.old.calls self.old.faults self.new.failing self.new.calls self.new.faults result }
        ensures most { IfOk result (λ n. n ≡ min (length bytes.now) self.old.piece) }
        ensures piece { self.new.piece ≡ self.old.piece }
    {
        self.calls = self.calls.saturating_add(1);
        if self.failing.contains(&self.calls) {
            self.faults = raised(self.faults);
            return Err(WriteFault);
        }
        let count = bytes.len().min(self.piece);
        match self.bytes.extend_from_slice(&bytes[..count]) {
            Ok(()) => Ok(count),
            Err(_) => {
                self.faults = raised(self.faults);
                Err(WriteFault)
            }
        }
    }
}
