ghost use Rattle.std.specs.Prelude.{◌≡◌};
ghost use Rattle.uss_text.specs.Reading.{Gives, LineGives};
ghost use Rattle.uss_text.specs.Intents as spec;

use crate::refusal::WordRefusal;
use crate::words::Words;
use std::alloc::Global;
use uss_intent::{Base, FlightId, Name, Ovn, State, TicketId};

#[tactic(auto, unfolding(crate::specs::Intents::name_of))]
fn name_of(alloc: Global, word: &[u8]) -> Result<Name, WordRefusal>
    ensures { LineGives result (spec.name_of word.now) }
{
    match Name::of(alloc, word) {
        Ok(name) => Ok(name),
        Err(refusal) => Err(WordRefusal::from(refusal)),
    }
}

#[tactic(auto, unfolding(crate::specs::Intents::base_of))]
fn base_of(alloc: Global, word: &[u8]) -> Result<Base, WordRefusal>
    ensures { LineGives result (spec.base_of word.now) }
{
    match Base::of(alloc, word) {
        Ok(base) => Ok(base),
        Err(refusal) => Err(WordRefusal::from(refusal)),
    }
}

#[tactic(auto, unfolding(crate::specs::Intents::ovn_of))]
fn ovn_of(alloc: Global, word: &[u8]) -> Result<Ovn, WordRefusal>
    ensures { LineGives result (spec.ovn_of word.now) }
{
    match Ovn::of(alloc, word) {
        Ok(ovn) => Ok(ovn),
        Err(refusal) => Err(WordRefusal::from(refusal)),
    }
}

#[tactic(auto, unfolding(crate::specs::Intents::ovn_or_none_of, crate::specs::Intents::ovn_of))]
fn ovn_or_none_of(alloc: Global, word: &[u8]) -> Result<Option<Ovn>, WordRefusal>
    ensures { LineGives result (spec.ovn_or_none_of word.now) }
{
    if word == b"-".as_slice() {
        return Ok(None);
    }
    match ovn_of(alloc, word) {
        Ok(ovn) => Ok(Some(ovn)),
        Err(refusal) => Err(refusal),
    }
}

#[tactic(auto, unfolding(crate::specs::Intents::state_of))]
fn state_of(word: &[u8]) -> Result<State, WordRefusal>
    ensures { result ≡ spec.state_of word.now }
{
    if word == b"Accepted".as_slice() {
        return Ok(State::Accepted);
    }
    if word == b"Activated".as_slice() {
        return Ok(State::Activated);
    }
    if word == b"Nonconforming".as_slice() {
        return Ok(State::Nonconforming);
    }
    if word == b"Contingent".as_slice() {
        return Ok(State::Contingent);
    }
    Err(WordRefusal::BadLine)
}

/// The name of a client.
#[tactic(auto, unfolding(crate::specs::Intents::name_at))]
pub fn name(alloc: Global, words: &mut Words) -> Result<Name, WordRefusal>
    ensures { Gives result words.new (spec.name_at words.old) }
{
    let word = words.word()?;
    name_of(alloc, word)
}

/// A base URL.
#[tactic(auto, unfolding(crate::specs::Intents::base_at))]
pub fn base(alloc: Global, words: &mut Words) -> Result<Base, WordRefusal>
    ensures { Gives result words.new (spec.base_at words.old) }
{
    let word = words.word()?;
    base_of(alloc, word)
}

/// An OVN.
#[tactic(auto, unfolding(crate::specs::Intents::ovn_at))]
pub fn ovn(alloc: Global, words: &mut Words) -> Result<Ovn, WordRefusal>
    ensures { Gives result words.new (spec.ovn_at words.old) }
{
    let word = words.word()?;
    ovn_of(alloc, word)
}

/// An OVN, or none where the word is `-`.
#[tactic(auto, unfolding(crate::specs::Intents::ovn_or_none_at))]
pub fn ovn_or_none(alloc: Global, words: &mut Words) -> Result<Option<Ovn>, WordRefusal>
    ensures { Gives result words.new (spec.ovn_or_none_at words.old) }
{
    let word = words.word()?;
    ovn_or_none_of(alloc, word)
}

/// The identifier of a flight.
#[tactic(auto, unfolding(crate::specs::Intents::identifier_at, crate::specs::Intents::identifier_or_bad_line))]
pub fn flight(words: &mut Words) -> Result<FlightId, WordRefusal>
    ensures { Gives result words.new (spec.identifier_at words.old) }
{
    let word = words.word()?;
    FlightId::read(word).ok_or(WordRefusal::BadLine)
}

/// The identifier of a ticket.
#[tactic(auto, unfolding(crate::specs::Intents::identifier_at, crate::specs::Intents::identifier_or_bad_line))]
pub fn ticket(words: &mut Words) -> Result<TicketId, WordRefusal>
    ensures { Gives result words.new (spec.identifier_at words.old) }
{
    let word = words.word()?;
    TicketId::read(word).ok_or(WordRefusal::BadLine)
}

/// The state of an operational intent.
#[tactic(auto, unfolding(crate::specs::Intents::state_at))]
pub fn state(words: &mut Words) -> Result<State, WordRefusal>
    ensures { Gives result words.new (spec.state_at words.old) }
{
    let word = words.word()?;
    state_of(word)
}
