// A disk in memory that isn't honest.
ghost use Rattle.std.specs.Prelude.{ℕ, List};

use std::alloc::AllocError;
use uss_disk::{Disk, DiskFault};

// It loses all of its bytes but the first few at one of its syncs, which are numbered from 1. No call fails while there is memory.
#[derive(Drop)]
pub(crate) struct Losing {
    bytes: Vec<u8>,
    loses: u64,
    keeps: usize,
    syncs: u64,
    writes: u64,
}

impl Losing {
    pub(crate) fn new(bytes: Vec<u8>, loses: u64, keeps: usize) -> Losing {
        Losing {
            bytes,
            loses,
            keeps,
            syncs: 0,
            writes: 0,
        }
    }

    // How often it was written or cut.
    pub(crate) fn writes(&self) -> u64 {
        self.writes
    }
}

// Writes the bytes at a place, up to the end and past it; what lies between is zero.
fn put(file: &mut Vec<u8>, at: usize, bytes: &[u8]) -> Result<(), AllocError> {
    for _ in file.len()..at {
        file.push(0)?;
    }
    for (k, byte) in bytes.iter().enumerate() {
        let place = at.saturating_add(k);
        if place < file.len() {
            file[place] = *byte;
        } else {
            file.push(*byte)?;
        }
    }
    Ok(())
}

impl Disk for Losing {
    ghost use Rattle.std.specs.Prelude.{None};

    ghost reads = { λ _. None };

    ghost may_leave = { λ _ _. Unit {0} };

    ghost moment = { λ _. 0 };

    ghost left_since = { λ _ _ _. Unit {0} };

    ghost is_honest = { λ _. ⊥ };

    ghost fault_count = { λ _. 18446744073709551615 };

    fn len(&mut self) -> Result<u64, DiskFault> {
        Ok(self.bytes.len() as u64)
    }

    fn read(&mut self, at: u64, buf: &mut [u8]) -> Result<(), DiskFault> {
        for k in 0..buf.len() {
            buf[k] = match self.bytes.get((at as usize).saturating_add(k)) {
                Some(byte) => *byte,
                None => 0,
            };
        }
        Ok(())
    }

    fn write_at(&mut self, at: u64, bytes: &[u8]) -> Result<(), DiskFault> {
        self.writes = self.writes.saturating_add(1);
        match put(&mut self.bytes, at as usize, bytes) {
            Ok(()) => Ok(()),
            Err(_) => Err(DiskFault),
        }
    }

    fn cut(&mut self, len: u64) -> Result<(), DiskFault> {
        self.writes = self.writes.saturating_add(1);
        self.bytes.truncate(len as usize);
        Ok(())
    }

    fn sync(&mut self) -> Result<(), DiskFault> {
        self.syncs = self.syncs.saturating_add(1);
        if self.syncs == self.loses {
            self.bytes.truncate(self.keeps);
        }
        Ok(())
    }

    fn faults(&self) -> u64 {
        18446744073709551615
    }

    ghost tells = { λ _ honest. absurd honest };

    ghost as_it_reads = { λ _ honest. absurd honest };

    ghost counts_now = { λ _ _ _ honest _ _. absurd honest };

    ghost only_now = { λ _ _ honest _. absurd honest };
}
