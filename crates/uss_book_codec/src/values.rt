// Values of one byte, and instants.
ghost use Rattle.std.specs.Prelude.{◌≡◌, ◌++◌, OnOk};
ghost use Rattle.uss_law_book.specs.Coding.{IsRule};
ghost use Rattle.uss_codec.specs.Reading.{Gives};
ghost use Rattle.uss_vol4.specs.Ranges.{is_instant};
ghost use Rattle.uss_book_codec.specs.Coding.{state, rule};
ghost use Rattle.uss_book_codec.specs.Reading.{state_of, state_at, rule_of, rule_at, instant_at};

use std::alloc::{AllocError, Global};
use uss_codec::{Coded, Unread};
use uss_event::Verdict;
use uss_intent::State;
use uss_vol4::{EARLIEST, LATEST};

/// Writes a state as its number.
pub(crate) fn put_state(value: State, out: &mut Vec<u8>) -> Result<(), AllocError>
    ensures { OnOk result (out.new.items ≡ out.old.items ++ state value) }
{
    value.number().put(out)
}

fn state_of(number: u8) -> Option<State>
    ensures { result ≡ state_of number }
{
    match number {
        1 => Some(State::Accepted),
        2 => Some(State::Activated),
        3 => Some(State::Nonconforming),
        4 => Some(State::Contingent),
        _ => None,
    }
}

/// The state with the number at the start, and the bytes after it.
#[tactic(auto, unfolding(crate::specs::Reading::state_at))]
pub(crate) fn take_state(alloc: Global, bytes: &[u8]) -> Result<(State, &[u8]), Unread>
    ensures { Gives (λ x. (x.0, x.1.now)) result (state_at bytes.now) }
{
    let (number, rest) = u8::take(alloc, bytes)?;
    match state_of(number) {
        Some(state) => Ok((state, rest)),
        None => Err(Unread::Malformed),
    }
}

fn rule_of(number: u8) -> Option<Verdict>
    ensures { result ≡ rule_of number }
{
    match number {
        1 => Some(Verdict::EqualForbidden),
        2 => Some(Verdict::HigherStands),
        _ => None,
    }
}

/// Writes a rule that refuses as its number.
pub(crate) fn put_rule(why: Verdict, out: &mut Vec<u8>) -> Result<(), AllocError>
    requires { IsRule why }
    ensures { OnOk result (out.new.items ≡ out.old.items ++ rule why) }
{
    let number: u8 = match why {
        Verdict::Clear => 0,
        Verdict::EqualForbidden => 1,
        Verdict::HigherStands => 2,
    };
    number.put(out)
}

/// The rule with the number at the start, and the bytes after it.
#[tactic(auto, unfolding(crate::specs::Reading::rule_at))]
pub(crate) fn take_rule(alloc: Global, bytes: &[u8]) -> Result<(Verdict, &[u8]), Unread>
    ensures { Gives (λ x. (x.0, x.1.now)) result (rule_at bytes.now) }
{
    let (number, rest) = u8::take(alloc, bytes)?;
    match rule_of(number) {
        Some(rule) => Ok((rule, rest)),
        None => Err(Unread::Malformed),
    }
}

fn is_instant(moment: i64) -> bool
    ensures { result ≡ is_instant moment }
{
    EARLIEST <= moment && moment <= LATEST
}

/// The instant at the start, from 2000-01-01 to 2200-01-01 in ns since 1970, and the bytes after it.
#[tactic(auto, unfolding(crate::specs::Reading::instant_at))]
pub(crate) fn take_instant(alloc: Global, bytes: &[u8]) -> Result<(i64, &[u8]), Unread>
    ensures { Gives (λ x. (x.0, x.1.now)) result (instant_at bytes.now) }
{
    let (moment, rest) = i64::take(alloc, bytes)?;
    if !is_instant(moment) {
        return Err(Unread::Malformed);
    }
    Ok((moment, rest))
}
