ghost use Rattle.std.specs.Prelude.{◌≡◌};

use std::alloc::AllocError;

/// Why volumes and a priority are no details of an operational intent, and why priorities are no table of rules.
#[derive(Clone, Copy, Debug, PartialEq, Eq)]
pub enum DetailsRefusal {
    /// 121: there are more than 64 volumes, the off-nominal ones among them.
    TooManyVolumes,
    /// 122: the volumes have more than 10,000 vertices together.
    TooManyVerticesTogether,
    /// 123: in this state an intent has no off-nominal volumes.
    OffNominalNotAllowed,
    /// 124: there is no volume.
    NoVolume,
    /// 125: a priority is above 1000.
    PriorityRange,
    /// There was no memory. It has no number.
    Memory,
}

impl DetailsRefusal {
    ghost use Rattle.std.specs.Prelude.{◌≡◌};
    ghost use Rattle.uss_event.specs.Refusals.{number_of};

    /// The number under which the refusal is printed: 121 to 125, none for out of memory.
    pub fn number(&self) -> Option<u16>
        ensures { result ≡ number_of self.now }
    {
        match self {
            DetailsRefusal::TooManyVolumes => Some(121),
            DetailsRefusal::TooManyVerticesTogether => Some(122),
            DetailsRefusal::OffNominalNotAllowed => Some(123),
            DetailsRefusal::NoVolume => Some(124),
            DetailsRefusal::PriorityRange => Some(125),
            DetailsRefusal::Memory => None,
        }
    }
}

impl From<AllocError> for DetailsRefusal {
    ghost use Rattle.uss_event.specs.declared.refusals.DetailsRefusal.TheVariants as DetailsRefusal;

    ghost from_gives = { λ _ e. e ≡ DetailsRefusal.Memory };

    fn from(_: AllocError) -> DetailsRefusal {
        DetailsRefusal::Memory
    }
}
