ghost use Rattle.std.specs.Prelude.{◌≡◌, ◌++◌, List, ℕ, OnOk};
ghost use Rattle.uss_codec.specs.Reading.{Gives, Reading};
ghost use Rattle.uss_codec.specs.Coded.{IsCoded};
ghost use Rattle.uss_codec.specs.declared.coded.Unread.TheVariants.{Memory};

use std::alloc::{AllocError, AllocFailed, Global};

/// Why no value was read.
#[derive(Clone, Copy, Debug)]
pub enum Unread {
    /// There was no memory for it.
    Memory,
    /// No value that fits stands at the start of the bytes.
    Malformed,
}

impl From<AllocError> for Unread {
    ghost from_gives = { λ _ e. e ≡ Memory };

    fn from(_: AllocError) -> Unread {
        Unread::Memory
    }
}

impl<T: Drop> From<AllocFailed<T>> for Unread {
    ghost from_gives = { λ _ e. e ≡ Memory };

    fn from(_: AllocFailed<T>) -> Unread {
        Unread::Memory
    }
}

/// A value that is written as bytes and read again.
pub trait Coded: Sized {
    /// Which values have a spelling.
    ghost fits: { Self → Type 0 };

    /// The bytes of a value.
    ghost spelling: { Self → List ℕ };

    /// The value at the start of bytes, and the bytes after it.
    ghost reading: { Reading Self };

    /// Writes the value after the bytes. Where memory is wanting a part of it may stand there.
    fn put(&self, out: &mut Vec<u8>) -> Result<(), AllocError>
        requires { fits self.now }
        ensures { OnOk result (out.new.items ≡ out.old.items ++ spelling self.now) };

    /// The value at the start, and the bytes after it.
    fn take(alloc: Global, bytes: &[u8]) -> Result<(Self, &[u8]), Unread>
        ensures { Gives (λ x. (x.0, x.1.now)) result (reading bytes.now) };

    /// What is read fits and is spelled so, and what fits is read from its spelling.
    ghost exact: { IsCoded fits spelling reading };
}
