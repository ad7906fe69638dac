// A disk in memory that isn't honest.
ghost use Rattle.std.specs.Prelude.{ℕ, List};

use uss_cause::raised;
use uss_disk::{Disk, DiskFault};

// It reads as its first file, but after one of its syncs, until the next one, as the other file. One sync may fail, and no other call
// does. What is written is lost.
#[derive(Drop)]
pub(crate) struct Turning {
    first: Vec<u8>,
    then: Vec<u8>,
    turns: u64,
    failing: u64,
    syncs: u64,
    writes: u64,
    faults: u64,
}

impl Turning {
    // It reads as the other file after the sync with the number `turns`, from 1; the one with the number `failing` fails, if any has it.
    pub(crate) fn new(first: Vec<u8>, then: Vec<u8>, turns: u64, failing: u64) -> Turning {
        Turning {
            first,
            then,
            turns,
            failing,
            syncs: 0,
            writes: 0,
            faults: 0,
        }
    }

    // How often it was written or cut.
    pub(crate) fn writes(&self) -> u64 {
        self.writes
    }

    fn file(&self) -> &[u8] {
        if self.syncs == self.turns {
            &self.then
        } else {
            &self.first
        }
    }
}

impl Disk for Turning {
    ghost use Rattle.std.specs.Prelude.{None};

    ghost reads = { λ _. None };

    ghost may_leave = { λ _ _. Unit {0} };

    ghost moment = { λ _. 0 };

    ghost left_since = { λ _ _ _. Unit {0} };

    ghost is_honest = { λ _. ⊥ };

    ghost fault_count = { λ d. d.faults };

    fn len(&mut self) -> Result<u64, DiskFault> {
        Ok(self.file().len() as u64)
    }

    fn read(&mut self, at: u64, buf: &mut [u8]) -> Result<(), DiskFault> {
        let file = self.file();
        for k in 0..buf.len() {
            buf[k] = match file.get((at as usize).saturating_add(k)) {
                Some(byte) => *byte,
                None => 0,
            };
        }
        Ok(())
    }

    fn write_at(&mut self, _at: u64, _bytes: &[u8]) -> Result<(), DiskFault> {
        self.writes = self.writes.saturating_add(1);
        Ok(())
    }

    fn cut(&mut self, _len: u64) -> Result<(), DiskFault> {
        self.writes = self.writes.saturating_add(1);
        Ok(())
    }

    fn sync(&mut self) -> Result<(), DiskFault> {
        self.syncs = self.syncs.saturating_add(1);
        if self.syncs == self.failing {
            self.faults = raised(self.faults);
            return Err(DiskFault);
        }
        Ok(())
    }

    fn faults(&self) -> u64 {
        self.faults
    }

    ghost tells = { λ _ honest. absurd honest };

    ghost as_it_reads = { λ _ honest. absurd honest };

    ghost counts_now = { λ _ _ _ honest _ _. absurd honest };

    ghost only_now = { λ _ _ honest _. absurd honest };
}
