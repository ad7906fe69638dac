ghost use Rattle.std.specs.Prelude.{◌≡◌};
ghost use Rattle.uss_outcome.specs.Outcomes as spec;

use uss_event::{AskField, Conform, Verdict};

/// The word for a verdict.
pub fn verdict_word(verdict: Verdict) -> &'static str
    ensures { result.now ≡ spec.verdict_word verdict }
{
    match verdict {
        Verdict::Clear => "Clear",
        Verdict::EqualForbidden => "EqualForbidden",
        Verdict::HigherStands => "HigherStands",
    }
}

/// The word for what the conformance monitor finds.
pub fn conform_word(verdict: Conform) -> &'static str
    ensures { result.now ≡ spec.conform_word verdict }
{
    match verdict {
        Conform::Conforming => "Conforming",
        Conform::Nonconforming => "Nonconforming",
        Conform::Contingent => "Contingent",
    }
}

/// The word for a part of a request.
pub fn field_word(field: AskField) -> &'static str
    ensures { result.now ≡ spec.field_word field }
{
    match field {
        AskField::Kind => "Kind",
        AskField::To => "To",
        AskField::Priority => "Priority",
        AskField::Rounds => "Rounds",
        AskField::Proposals => "Proposals",
    }
}
