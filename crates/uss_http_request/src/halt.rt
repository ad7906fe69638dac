use std::alloc::AllocError;

/// Why a part of a message was not read.
#[derive(Clone, Copy)]
pub enum Halt {
    /// What came can't begin such a part.
    Bad,
    /// The part isn't whole within its limit.
    Long,
    /// The stream ended before the part did.
    Cut,
    /// A call of the source or the dial answered a fault.
    Fault,
    /// Memory is wanting.
    Memory,
}

impl From<AllocError> for Halt {
    ghost use Rattle.std.specs.Prelude.{◌≡◌};
    ghost use Rattle.uss_http_request.specs.declared.halt.Halt.TheVariants.{Memory};

    ghost from_gives = { λ _ e. e ≡ Memory };

    fn from(_: AllocError) -> Halt {
        Halt::Memory
    }
}
