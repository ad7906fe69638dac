ghost use Rattle.std.specs.Prelude.{◌≡◌};

use std::alloc::AllocError;

/// Why no value of this crate could be made of what was given.
#[derive(Clone, Copy, Debug, PartialEq, Eq)]
pub enum IntentRefusal {
    /// 128: the text is no name.
    BadName,
    /// 129: the text is no base URL.
    BadBase,
    /// 130: the text is no OVN.
    BadOvn,
    /// There was no memory. It has no number.
    Memory,
}

impl IntentRefusal {
    ghost use Rattle.std.specs.Prelude.{◌≡◌};
    ghost use Rattle.uss_intent.specs.Refusals.{number_of};

    /// The number under which the refusal is printed: 128 to 130, none for out of memory.
    pub fn number(&self) -> Option<u16>
        ensures { result ≡ number_of self.now }
    {
        match self {
            IntentRefusal::BadName => Some(128),
            IntentRefusal::BadBase => Some(129),
            IntentRefusal::BadOvn => Some(130),
            IntentRefusal::Memory => None,
        }
    }
}

impl From<AllocError> for IntentRefusal {
    ghost use Rattle.uss_intent.specs.declared.refusals.IntentRefusal.TheVariants as IntentRefusal;

    ghost from_gives = { λ _ e. e ≡ IntentRefusal.Memory };

    fn from(_: AllocError) -> IntentRefusal {
        IntentRefusal::Memory
    }
}
