// Requests as bytes.
ghost use Rattle.std.specs.Prelude.{◌≡◌, ◌++◌, ◌≤◌, length, All, OnOk};
ghost use Rattle.std.specs.List.{flat_map};
ghost use Rattle.uss_law_book.specs.Coding.{IsProposal, IsWish, IsAsk};
ghost use Rattle.uss_codec.specs.Spelling.{short_list};
ghost use Rattle.uss_codec.specs.Reading.{Gives, made_at, many_at, short_list_at};
ghost use Rattle.uss_book_codec.specs.Coding.{proposal, wish, ask};
ghost use Rattle.uss_book_codec.specs.Reading.{proposal_at, put_at, put_of, wish_at, ask_at};

use crate::values::{put_state, take_state};
use std::alloc::{AllocError, Global};
use uss_codec::{Coded, Unread, put_short_list, take_short_list};
use uss_event::{FlightAsk, Proposal, Proposals, Wish};
use uss_intent::Sequence;
use uss_vol4::Volume4;

fn put_proposal(value: &Proposal, out: &mut Vec<u8>) -> Result<(), AllocError>
    requires { IsProposal value.now }
    ensures { OnOk result (out.new.items ≡ out.old.items ++ proposal value.now) }
{
    put_short_list(value.volumes.as_slice(), out)?;
    put_short_list(value.off_nominal.as_slice(), out)
}

#[tactic(auto, unfolding(crate::specs::Reading::proposal_at))]
fn take_proposal(alloc: Global, bytes: &[u8]) -> Result<(Proposal, &[u8]), Unread>
    ensures { Gives (λ x. (x.0, x.1.now)) result (proposal_at bytes.now) }
{
    let (volumes, rest) = take_short_list::<Volume4>(alloc, bytes)?;
    let (off_nominal, rest) = take_short_list::<Volume4>(alloc, rest)?;
    Ok((
        Proposal {
            volumes: Sequence::from_vec(volumes),
            off_nominal: Sequence::from_vec(off_nominal),
        },
        rest,
    ))
}

fn put_each_proposal(values: &[Proposal], out: &mut Vec<u8>) -> Result<(), AllocError>
    requires { All IsProposal values.now }
    ensures { OnOk result (out.new.items ≡ out.old.items ++ flat_map proposal values.now) }
{
    for value in values {
        put_proposal(value, out)?;
    }
    Ok(())
}

fn take_each_proposal(
    alloc: Global,
    count: u8,
    bytes: &[u8],
) -> Result<(Vec<Proposal>, &[u8]), Unread>
    ensures { Gives (λ x. (x.0.items, x.1.now)) result (many_at proposal_at count bytes.now) }
{
    let mut items = Vec::new(alloc);
    let mut rest = bytes;
    for _ in 0..count {
        let (item, behind) = take_proposal(alloc, rest)?;
        items.push(item)?;
        rest = behind;
    }
    Ok((items, rest))
}

fn put_proposals(values: &Proposals, out: &mut Vec<u8>) -> Result<(), AllocError>
    requires few { length values.now ≤ 255 }
    requires each { All IsProposal values.now }
    ensures { OnOk result (out.new.items ≡ out.old.items ++ short_list proposal values.now) }
{
    (values.len() as u8).put(out)?;
    put_each_proposal(values.as_slice(), out)
}

#[tactic(auto, unfolding(uss_codec::specs::Reading::counted_at))]
fn take_proposals(alloc: Global, bytes: &[u8]) -> Result<(Proposals, &[u8]), Unread>
    ensures { Gives (λ x. (x.0, x.1.now)) result (short_list_at proposal_at bytes.now) }
{
    let (count, rest) = u8::take(alloc, bytes)?;
    let (items, rest) = take_each_proposal(alloc, count, rest)?;
    Ok((Sequence::from_vec(items), rest))
}

/// Writes what a request wants.
fn put_wish(value: &Wish, out: &mut Vec<u8>) -> Result<(), AllocError>
    requires { IsWish value.now }
    ensures { OnOk result (out.new.items ≡ out.old.items ++ wish value.now) }
{
    match value {
        Wish::Put {
            to,
            priority,
            rounds,
            proposals,
        } => {
            out.push(1)?;
            put_state(*to, out)?;
            priority.put(out)?;
            rounds.put(out)?;
            put_proposals(proposals, out)?;
            Ok(())
        }
        Wish::End => {
            out.push(2)?;
            Ok(())
        }
    }
}

#[tactic(auto, unfolding(crate::specs::Reading::put_at))]
fn take_put(alloc: Global, bytes: &[u8]) -> Result<(Wish, &[u8]), Unread>
    ensures { Gives (λ x. (x.0, x.1.now)) result (made_at put_of put_at bytes.now) }
{
    let (to, rest) = take_state(alloc, bytes)?;
    let (priority, rest) = u16::take(alloc, rest)?;
    let (rounds, rest) = u8::take(alloc, rest)?;
    let (proposals, rest) = take_proposals(alloc, rest)?;
    Ok((
        Wish::Put {
            to,
            priority,
            rounds,
            proposals,
        },
        rest,
    ))
}

#[tactic(auto, unfolding(crate::specs::Reading::wish_at))]
fn take_wish(alloc: Global, bytes: &[u8]) -> Result<(Wish, &[u8]), Unread>
    ensures { Gives (λ x. (x.0, x.1.now)) result (wish_at bytes.now) }
{
    match bytes {
        [1, rest @ ..] => take_put(alloc, rest),
        [2, rest @ ..] => Ok((Wish::End, rest)),
        _ => Err(Unread::Malformed),
    }
}

/// Writes a request.
pub(crate) fn put_ask(value: &FlightAsk, out: &mut Vec<u8>) -> Result<(), AllocError>
    requires { IsAsk value.now }
    ensures { OnOk result (out.new.items ≡ out.old.items ++ ask value.now) }
{
    value.flight.put(out)?;
    value.number.put(out)?;
    put_wish(&value.wish, out)
}

/// The request at the start, and the bytes after it.
#[tactic(auto, unfolding(crate::specs::Reading::ask_at))]
pub(crate) fn take_ask(alloc: Global, bytes: &[u8]) -> Result<(FlightAsk, &[u8]), Unread>
    ensures { Gives (λ x. (x.0, x.1.now)) result (ask_at bytes.now) }
{
    let (flight, rest) = u64::take(alloc, bytes)?;
    let (number, rest) = u64::take(alloc, rest)?;
    let (wish, rest) = take_wish(alloc, rest)?;
    Ok((
        FlightAsk {
            flight,
            number,
            wish,
        },
        rest,
    ))
}
