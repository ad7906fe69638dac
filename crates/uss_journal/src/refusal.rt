// What a journal answers where it doesn't do what it was asked.
ghost use Rattle.std.specs.Prelude.{◌≡◌};
ghost use Rattle.uss_journal.specs.declared.refusal.JournalRefusal.TheVariants.{DiskFault, Memory};

use std::alloc::{AllocError, AllocFailed};

/// Why a journal didn't do what it was asked.
#[derive(Clone, Copy, Debug, PartialEq, Eq)]
pub enum JournalRefusal {
    /// 141: the disk answered a fault, which it has counted in this call.
    DiskFault,
    /// 142: with the record the journal would be longer than its limit.
    JournalFull,
    /// 143: the file is no journal. Its byte at this place is the first of the first eight that differs from the mark, or
    /// a record with an open gate at this place runs past the end of the file.
    NotAJournal(u64),
    /// 144: the journal answered 141 and wasn't mounted again since. The number is its disk's count of faults then.
    Spent(u64),
    /// Memory is wanting.
    Memory,
}

impl From<uss_disk::DiskFault> for JournalRefusal {
    ghost from_gives = { λ _ e. e ≡ DiskFault };

    fn from(_: uss_disk::DiskFault) -> JournalRefusal {
        JournalRefusal::DiskFault
    }
}

impl From<AllocError> for JournalRefusal {
    ghost from_gives = { λ _ e. e ≡ Memory };

    fn from(_: AllocError) -> JournalRefusal {
        JournalRefusal::Memory
    }
}

impl<T: Drop> From<AllocFailed<T>> for JournalRefusal {
    ghost from_gives = { λ _ e. e ≡ Memory };

    fn from(_: AllocFailed<T>) -> JournalRefusal {
        JournalRefusal::Memory
    }
}

/// A journal couldn't be mounted: why, and the disk that was given.
#[derive(Debug, Drop)]
pub struct MountRefusal<D> {
    /// Why: 141, 143 or out of memory.
    pub refusal: JournalRefusal,
    /// The disk.
    pub back: D,
}
