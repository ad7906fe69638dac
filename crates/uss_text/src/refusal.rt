ghost use Rattle.std.specs.Prelude.{◌≡◌};
ghost use Rattle.uss_text.specs.Refusals as spec;

use std::alloc::{AllocError, AllocFailed};
use std::fmt;
use uss_intent::IntentRefusal;

/// Why a word of a line is refused.
#[derive(Clone, Copy, Debug, PartialEq, Eq)]
pub enum WordRefusal {
    /// 441: an unknown or empty word, a word too many, or a line that ends too early.
    BadLine,
    /// 442: a word that is due to be a number and isn't one, or is outside the type of its place.
    BadNumber,
    /// 101: an outline of fewer than 3 vertices.
    TooFewVertices,
    /// 102: an outline of more than 1,000 vertices.
    TooManyVertices,
    /// 103: a vertex outside the coordinates' range.
    OutOfRange,
    /// 111: the least altitude is above the greatest.
    LowAboveHigh,
    /// 112: the start is after the end.
    StartAfterEnd,
    /// 113: an altitude outside its range.
    AltitudeRange,
    /// 114: an instant outside its range.
    TimeRange,
    /// 128: a word that is due to be a client's name and isn't one.
    BadName,
    /// 129: a word that is due to be a base URL and isn't one.
    BadBase,
    /// 130: a word that is due to be an OVN and isn't one.
    BadOvn,
    /// Memory is wanting.
    Memory,
}

/// Why a script is refused. The lines are counted from 1.
#[derive(Clone, Copy, Debug, PartialEq, Eq)]
pub enum ScriptRefusal {
    /// 443: the text has more than 64 MiB.
    TextTooLarge,
    /// 441: an unknown or empty word, a word too many, or a line that ends too early.
    BadLine(u64),
    /// 442: a word that is due to be a number and isn't one, or is outside the type of its place.
    BadNumber(u64),
    /// 101: an outline of fewer than 3 vertices.
    TooFewVertices(u64),
    /// 102: an outline of more than 1,000 vertices.
    TooManyVertices(u64),
    /// 103: a vertex outside the coordinates' range.
    OutOfRange(u64),
    /// 111: the least altitude is above the greatest.
    LowAboveHigh(u64),
    /// 112: the start is after the end.
    StartAfterEnd(u64),
    /// 113: an altitude outside its range.
    AltitudeRange(u64),
    /// 114: an instant outside its range.
    TimeRange(u64),
    /// 128: a word that is due to be a client's name and isn't one.
    BadName(u64),
    /// 129: a word that is due to be a base URL and isn't one.
    BadBase(u64),
    /// 130: a word that is due to be an OVN and isn't one.
    BadOvn(u64),
    /// Memory is wanting.
    Memory,
}

impl WordRefusal {
    /// The same refusal as that of a line.
    pub fn at_line(self, line: u64) -> ScriptRefusal
        ensures { result ≡ spec.refusal_at line self }
    {
        match self {
            WordRefusal::BadLine => ScriptRefusal::BadLine(line),
            WordRefusal::BadNumber => ScriptRefusal::BadNumber(line),
            WordRefusal::TooFewVertices => ScriptRefusal::TooFewVertices(line),
            WordRefusal::TooManyVertices => ScriptRefusal::TooManyVertices(line),
            WordRefusal::OutOfRange => ScriptRefusal::OutOfRange(line),
            WordRefusal::LowAboveHigh => ScriptRefusal::LowAboveHigh(line),
            WordRefusal::StartAfterEnd => ScriptRefusal::StartAfterEnd(line),
            WordRefusal::AltitudeRange => ScriptRefusal::AltitudeRange(line),
            WordRefusal::TimeRange => ScriptRefusal::TimeRange(line),
            WordRefusal::BadName => ScriptRefusal::BadName(line),
            WordRefusal::BadBase => ScriptRefusal::BadBase(line),
            WordRefusal::BadOvn => ScriptRefusal::BadOvn(line),
            WordRefusal::Memory => ScriptRefusal::Memory,
        }
    }
}

impl ScriptRefusal {
    /// The number of the refusal, and 0 for out of memory, which is none.
    pub fn number(&self) -> u16
        ensures { result ≡ spec.number_of self.now }
    {
        match self {
            ScriptRefusal::TextTooLarge => 443,
            ScriptRefusal::BadLine(_) => 441,
            ScriptRefusal::BadNumber(_) => 442,
            ScriptRefusal::TooFewVertices(_) => 101,
            ScriptRefusal::TooManyVertices(_) => 102,
            ScriptRefusal::OutOfRange(_) => 103,
            ScriptRefusal::LowAboveHigh(_) => 111,
            ScriptRefusal::StartAfterEnd(_) => 112,
            ScriptRefusal::AltitudeRange(_) => 113,
            ScriptRefusal::TimeRange(_) => 114,
            ScriptRefusal::BadName(_) => 128,
            ScriptRefusal::BadBase(_) => 129,
            ScriptRefusal::BadOvn(_) => 130,
            ScriptRefusal::Memory => 0,
        }
    }

    /// The line of the refusal, counted from 1, and 0 where the whole text is refused.
    pub fn line(&self) -> u64
        ensures { result ≡ spec.line_of self.now }
    {
        match self {
            ScriptRefusal::TextTooLarge | ScriptRefusal::Memory => 0,
            ScriptRefusal::BadLine(line)
            | ScriptRefusal::BadNumber(line)
            | ScriptRefusal::TooFewVertices(line)
            | ScriptRefusal::TooManyVertices(line)
            | ScriptRefusal::OutOfRange(line)
            | ScriptRefusal::LowAboveHigh(line)
            | ScriptRefusal::StartAfterEnd(line)
            | ScriptRefusal::AltitudeRange(line)
            | ScriptRefusal::TimeRange(line)
            | ScriptRefusal::BadName(line)
            | ScriptRefusal::BadBase(line)
            | ScriptRefusal::BadOvn(line) => *line,
        }
    }
}

impl From<AllocError> for WordRefusal {
    ghost use Rattle.std.specs.Prelude.{◌≡◌};
    ghost use Rattle.uss_text.specs.declared.refusal.WordRefusal.TheVariants.{Memory};

    ghost from_gives = { λ _ e. e ≡ Memory };

    fn from(_: AllocError) -> WordRefusal {
        WordRefusal::Memory
    }
}

impl<T: Drop> From<AllocFailed<T>> for WordRefusal {
    ghost use Rattle.std.specs.Prelude.{◌≡◌};
    ghost use Rattle.uss_text.specs.declared.refusal.WordRefusal.TheVariants.{Memory};

    ghost from_gives = { λ _ e. e ≡ Memory };

    fn from(_: AllocFailed<T>) -> WordRefusal {
        WordRefusal::Memory
    }
}

/// The refusal of a value of an intent, as that of its word.
impl From<IntentRefusal> for WordRefusal {
    ghost use Rattle.std.specs.Prelude.{◌≡◌};
    ghost use Rattle.uss_text.specs.Refusals.{intent_refusal};

    ghost from_gives = { λ refusal e. e ≡ intent_refusal refusal };

    fn from(refusal: IntentRefusal) -> WordRefusal {
        match refusal {
            IntentRefusal::BadName => WordRefusal::BadName,
            IntentRefusal::BadBase => WordRefusal::BadBase,
            IntentRefusal::BadOvn => WordRefusal::BadOvn,
            IntentRefusal::Memory => WordRefusal::Memory,
        }
    }
}

impl<T: Drop> From<AllocFailed<T>> for ScriptRefusal {
    ghost use Rattle.std.specs.Prelude.{◌≡◌};
    ghost use Rattle.uss_text.specs.declared.refusal.ScriptRefusal.TheVariants.{Memory};

    ghost from_gives = { λ _ e. e ≡ Memory };

    fn from(_: AllocFailed<T>) -> ScriptRefusal {
        ScriptRefusal::Memory
    }
}

/// `refused N line L`
impl fmt::Display for ScriptRefusal {
    ghost use Rattle.std.specs.Prelude.{Some};
    ghost use Rattle.uss_text.specs.Refusals.{refusal_text};

    ghost output = { λ refusal. Some (refusal_text refusal) };

    fn fmt<W: fmt::Write>(&self, f: &mut fmt::Formatter<W>) -> fmt::Result {
        let number = self.number();
        let line = self.line();
        write!(f, "refused {number} line {line}")
    }
}
