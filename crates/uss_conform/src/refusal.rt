ghost use Rattle.std.specs.Prelude.{◌≡◌};

/// Why a position isn't counted.
#[derive(Clone, Copy, Debug, PartialEq, Eq)]
pub enum ConformRefusal {
    /// 161: a position of this later moment, in ns since 1970-01-01T00:00:00Z, was counted.
    OldPosition(i64),
}

impl ConformRefusal {
    /// The number under which the refusal is printed, 161.
    pub fn number(&self) -> u16
        ensures { result ≡ 161 }
    {
        match self {
            ConformRefusal::OldPosition(_) => 161,
        }
    }
}
