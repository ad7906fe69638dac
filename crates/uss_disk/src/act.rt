// The calls of a disk as data, and their fault.
ghost use Rattle.std.specs.Prelude.{◌≡◌};

use std::marker::Model;

/// A disk answered a call with a fault, and has counted it.
#[derive(Clone, Copy, Debug, PartialEq, Eq)]
pub struct DiskFault;

/// The bytes of one write, seen as their list.
#[derive(Debug, Drop)]
pub struct Written {
    bytes: Vec<u8>,
}

impl Model for Written {
    ghost use Rattle.std.specs.Prelude.{List, ℕ};

    ghost Value = { List ℕ };

    ghost view = { λ w. w.bytes.items };
}

impl Written {
    /// Keeps these bytes.
    pub fn new(bytes: Vec<u8>) -> Written
        ensures { result ≡ bytes.items }
    {
        Written { bytes }
    }

    /// The bytes.
    pub fn as_slice(&self) -> &[u8]
        ensures { result.now ≡ self.now }
    {
        &self.bytes
    }
}

/// One call of a disk, with its arguments. Places and lengths are in bytes from the file's start.
#[derive(Debug, Drop)]
pub enum Act {
    /// The length was asked.
    Len,
    /// `len` bytes from `at` on were read.
    Read { at: u64, len: u64 },
    /// These bytes were written at `at`.
    Write { at: u64, bytes: Written },
    /// The file was cut to `len` bytes.
    Cut { len: u64 },
    /// The file was synced.
    Sync,
}

/// One call of a disk in memory, as its record keeps it.
#[derive(Debug, Drop)]
pub struct Call {
    /// What was asked.
    pub act: Act,
    /// Whether it was done. A call that wasn't done answered a fault and changed nothing.
    pub done: bool,
}
