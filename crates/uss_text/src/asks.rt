ghost use Rattle.std.specs.Prelude.{◌≡◌, codes};
ghost use Rattle.uss_text.specs.Reading.{Gives, many_at};
ghost use Rattle.uss_text.specs.Intents.{ovn_at};
ghost use Rattle.uss_text.specs.Volumes.{volume_at};
ghost use Rattle.uss_text.specs.Discover as spec;

use crate::intents::{base, flight, ovn, ovn_or_none, state, ticket};
use crate::refusal::WordRefusal;
use crate::volumes::volume;
use crate::words::Words;
use std::alloc::Global;
use uss_intent::{DssAsk, Ovns, Volumes};

/// So many OVNs.
fn ovns(alloc: Global, count: u32, words: &mut Words) -> Result<Ovns, WordRefusal>
    ensures { Gives result words.new (many_at ovn_at count words.old) }
{
    let mut ovns = Ovns::new(alloc);
    let mut left = count;
    while left > 0 {
        match ovn(alloc, words) {
            Ok(found) => ovns.push(found)?,
            Err(refusal) => return Err(refusal),
        }
        left -= 1;
    }
    Ok(ovns)
}

/// So many volumes.
fn volumes(alloc: Global, count: u32, words: &mut Words) -> Result<Volumes, WordRefusal>
    ensures { Gives result words.new (many_at volume_at count words.old) }
{
    let mut volumes = Volumes::new(alloc);
    let mut left = count;
    while left > 0 {
        match volume(alloc, words) {
            Ok(found) => volumes.push(found)?,
            Err(refusal) => return Err(refusal),
        }
        left -= 1;
    }
    Ok(volumes)
}

/// The key of a change: `key`, its count, and its OVNs.
#[tactic(auto, unfolding(crate::specs::Discover::key_at, crate::specs::Discover::fixed_at))]
fn key(alloc: Global, words: &mut Words) -> Result<Ovns, WordRefusal>
    ensures { Gives result words.new (spec.key_at words.old) }
{
    let word = words.word()?;
    if word != b"key".as_slice() {
        return Err(WordRefusal::BadLine);
    }
    let count = words.count()?;
    ovns(alloc, count, words)
}

/// The extents of a change: `vols`, their count, and the volumes.
#[tactic(auto, unfolding(crate::specs::Discover::extents_at, crate::specs::Discover::fixed_at))]
fn extents(alloc: Global, words: &mut Words) -> Result<Volumes, WordRefusal>
    ensures { Gives result words.new (spec.extents_at words.old) }
{
    let word = words.word()?;
    if word != b"vols".as_slice() {
        return Err(WordRefusal::BadLine);
    }
    let count = words.count()?;
    volumes(alloc, count, words)
}

#[tactic(auto, unfolding(crate::specs::Discover::query_at))]
fn query(alloc: Global, words: &mut Words) -> Result<DssAsk, WordRefusal>
    ensures { Gives result words.new (spec.query_at words.old) }
{
    let area = volume(alloc, words)?;
    Ok(DssAsk::Query { area })
}

#[tactic(auto, unfolding(crate::specs::Discover::get_at))]
fn get(words: &mut Words) -> Result<DssAsk, WordRefusal>
    ensures { Gives result words.new (spec.get_at words.old) }
{
    let flight = flight(words)?;
    Ok(DssAsk::Get { flight })
}

#[tactic(auto, unfolding(crate::specs::Discover::put_at))]
fn put(alloc: Global, words: &mut Words) -> Result<DssAsk, WordRefusal>
    ensures { Gives result words.new (spec.put_at words.old) }
{
    let flight = flight(words)?;
    let ovn = ovn_or_none(alloc, words)?;
    let state = state(words)?;
    let base = base(alloc, words)?;
    let ticket = ticket(words)?;
    let key = key(alloc, words)?;
    let extents = extents(alloc, words)?;
    Ok(DssAsk::Put {
        flight,
        ovn,
        extents,
        key,
        state,
        base,
        ticket,
    })
}

#[tactic(auto, unfolding(crate::specs::Discover::remove_at))]
fn remove(alloc: Global, words: &mut Words) -> Result<DssAsk, WordRefusal>
    ensures { Gives result words.new (spec.remove_at words.old) }
{
    let flight = flight(words)?;
    let ovn = ovn(alloc, words)?;
    Ok(DssAsk::Remove { flight, ovn })
}

#[tactic(auto, unfolding(crate::specs::Discover::ticket_put_at))]
fn ticket_put(alloc: Global, words: &mut Words) -> Result<DssAsk, WordRefusal>
    ensures { Gives result words.new (spec.ticket_put_at words.old) }
{
    let ticket = ticket(words)?;
    let base = base(alloc, words)?;
    let area = volume(alloc, words)?;
    Ok(DssAsk::TicketPut { ticket, area, base })
}

#[tactic(auto, unfolding(crate::specs::Discover::ticket_get_at))]
fn ticket_get(words: &mut Words) -> Result<DssAsk, WordRefusal>
    ensures { Gives result words.new (spec.ticket_get_at words.old) }
{
    let ticket = ticket(words)?;
    Ok(DssAsk::TicketGet { ticket })
}

#[tactic(auto, unfolding(crate::specs::Discover::ticket_remove_at))]
fn ticket_remove(words: &mut Words) -> Result<DssAsk, WordRefusal>
    ensures { Gives result words.new (spec.ticket_remove_at words.old) }
{
    let ticket = ticket(words)?;
    let version = words.count()?;
    Ok(DssAsk::TicketRemove { ticket, version })
}

/// The call of the discovery service that the word names, with its words.
fn ask_of(alloc: Global, call: &[u8], words: &mut Words) -> Result<DssAsk, WordRefusal>
    ensures { Gives result words.new (spec.ask_of call.now words.old) }
{
    if call == b"query".as_slice() {
        return query(alloc, words);
    }
    if call == b"get".as_slice() {
        return get(words);
    }
    if call == b"put".as_slice() {
        return put(alloc, words);
    }
    if call == b"remove".as_slice() {
        return remove(alloc, words);
    }
    if call == b"tput".as_slice() {
        return ticket_put(alloc, words);
    }
    if call == b"tget".as_slice() {
        return ticket_get(words);
    }
    if call == b"tremove".as_slice() {
        return ticket_remove(words);
    }
    Err(WordRefusal::BadLine)
}

/// A call of the discovery service.
#[tactic(auto, unfolding(crate::specs::Discover::ask_at))]
pub fn ask(alloc: Global, words: &mut Words) -> Result<DssAsk, WordRefusal>
    ensures { Gives result words.new (spec.ask_at words.old) }
{
    let call = words.word()?;
    ask_of(alloc, call, words)
}
