// What a book answers where it doesn't do what it was asked.
ghost use Rattle.std.specs.Prelude.{◌≡◌};
ghost use Rattle.uss_book.specs.declared.refusal.BookFault.TheVariants.{Memory};

use std::alloc::AllocError;
use uss_event::Owner;

/// Why a book didn't do what it was asked.
#[derive(Debug, Drop)]
pub enum BookFault {
    /// 141: the disk answered a fault, which it has counted in this call.
    DiskFault,
    /// 143: the file is no journal, by this place.
    NotAJournal(u64),
    /// 144: the book answered 141, and it wasn't mounted again since. The number is its disk's count of faults then.
    Spent(u64),
    /// 151: the record with this number, from 0, isn't the coding of an entry, or of one that may follow those before it.
    BadEntry(u64),
    /// 152: the book is this owner's.
    OtherOwner(Owner),
    /// 154: the records are a legal book, and not another owner's, and the one with this number is the first of the known entries' that was
    /// read differently or is missing.
    Changed(u64),
    /// Memory is wanting.
    Memory,
}

impl BookFault {
    ghost use Rattle.std.specs.Prelude.{◌≡◌};
    ghost use Rattle.uss_book.specs.Refusal.{number_of};

    /// The number under which the refusal is printed: 141, 143, 144, 151, 152 or 154, none for out of memory.
    pub fn number(&self) -> Option<u16>
        ensures { result ≡ number_of self.now }
    {
        match self {
            BookFault::DiskFault => Some(141),
            BookFault::NotAJournal(_) => Some(143),
            BookFault::Spent(_) => Some(144),
            BookFault::BadEntry(_) => Some(151),
            BookFault::OtherOwner(_) => Some(152),
            BookFault::Changed(_) => Some(154),
            BookFault::Memory => None,
        }
    }
}

impl From<AllocError> for BookFault {
    ghost from_gives = { λ _ e. e ≡ Memory };

    fn from(_: AllocError) -> BookFault {
        BookFault::Memory
    }
}

/// A book couldn't be mounted: why, and the disk that was given.
#[derive(Debug, Drop)]
pub struct BookRefusal<D> {
    /// Why: 141, 143, 151, 152 or out of memory.
    pub refusal: BookFault,
    /// The disk.
    pub back: D,
}
