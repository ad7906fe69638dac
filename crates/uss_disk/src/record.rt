// The record of a disk's calls, with the list of those that are to fail and the count of faults.
ghost use Rattle.std.specs.Prelude.{◌≡◌, List, ℕ, [], is_ok};
ghost use Rattle.uss_disk.specs.Memory.{Recorded, HadNoRoom};
ghost use Rattle.uss_disk.specs.Record.{with_record};

use crate::{Act, Call, DiskFault};
use std::alloc::Global;
use uss_cause::raised;

#[derive(Drop)]
pub(crate) struct Record {
    pub(crate) calls: Vec<Call>,
    pub(crate) failing: Vec<u64>,
    pub(crate) faults: u64,
}

impl Record {
    pub(crate) fn new(alloc: Global, failing: Vec<u64>) -> Record
        ensures calls { result.calls.items ≡ [] }
        ensures failing { result.failing.items ≡ failing.items }
        ensures faults { result.faults ≡ 0 }
    {
        Record {
            calls: Vec::new(alloc),
            failing,
            faults: 0,
        }
    }

    /// Counts a fault of a call for which there is no room.
    pub(crate) fn no_room(&mut self) -> DiskFault
        ensures { (first : List ℕ) → HadNoRoom (with_record first self.old) (with_record first self.new) }
    {
        self.faults = raised(self.faults);
        DiskFault
    }

    /// Notes a call, and says whether it is to be done.
    pub(crate) fn note(&mut self, act: Act) -> Result<(), DiskFault>
        ensures { (first : List ℕ) → Recorded (with_record first self.old) act (is_ok result) (with_record first self.new) }
    {
        let number = self.calls.len() as u64 + 1;
        let done = !self.failing.contains(&number);
        if self.calls.push(Call { act, done }).is_err() {
            return Err(self.no_room());
        }
        if done {
            Ok(())
        } else {
            self.faults = raised(self.faults);
            Err(DiskFault)
        }
    }
}
