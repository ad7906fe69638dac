ghost use Rattle.std.specs.Prelude.{◌≡◌, ◌^◌};
ghost use Rattle.serde_json.specs.View.{view};
ghost use Rattle.uss_wire_base.specs.Reading.{Gives, GivesBy, field, natural_below, list_at, message_of};
ghost use Rattle.uss_wire_uss.specs.Asks as spec;

use crate::volumes::{volumes_of, volumes_or_none};
use serde_json::Value;
use std::alloc::Global;
use uss_event::{FlightAsk, PositionAsk, Proposal, Proposals, Wish};
use uss_shape::Place;
use uss_wire_base::{
    Member, ReadItem, WireRefusal, data, each, integer_of, items, member_of, natural_8, natural_16,
    natural_of, object, text,
};
use uss_wire_words::state_of;

fn priority_of(member: Member, value: &Value) -> Result<u16, WireRefusal>
    ensures { Gives result (field member (natural_below (2 ^ 16)) (view value.now)) }
{
    natural_16(member, member_of(member, value)?)
}

fn rounds_of(member: Member, value: &Value) -> Result<u8, WireRefusal>
    ensures { Gives result (field member (natural_below (2 ^ 8)) (view value.now)) }
{
    natural_8(member, member_of(member, value)?)
}

/// How the alternatives of a request are read.
#[derive(Clone, Copy)]
struct ProposalReader;

impl ReadItem<Proposal> for ProposalReader {
    ghost use Rattle.uss_wire_uss.specs.Asks.{proposal_at};

    ghost reads = { λ _. proposal_at };

    fn read_item(
        &self,
        alloc: Global,
        place: Member,
        value: &Value,
    ) -> Result<Proposal, WireRefusal> {
        proposal(alloc, place, value)
    }
}

#[tactic(auto, unfolding(crate::specs::Asks::proposal_at))]
fn proposal(alloc: Global, place: Member, value: &Value) -> Result<Proposal, WireRefusal>
    ensures { Gives result (spec.proposal_at place (view value.now)) }
{
    object(place, value)?;
    let volumes = volumes_of(alloc, Member::Volumes, value)?;
    let off_nominal = volumes_or_none(alloc, Member::OffNominalVolumes, value)?;
    Ok(Proposal {
        volumes,
        off_nominal,
    })
}

fn proposals_of(alloc: Global, member: Member, value: &Value) -> Result<Proposals, WireRefusal>
    ensures { Gives result (field member (list_at spec.proposal_at) (view value.now)) }
{
    let items = items(member, member_of(member, value)?)?;
    Ok(Proposals::from_vec(each(alloc, &ProposalReader, member, items)?))
}

#[tactic(auto, unfolding(crate::specs::Asks::put_at))]
fn put(alloc: Global, value: &Value) -> Result<Wish, WireRefusal>
    ensures { Gives result (spec.put_at (view value.now)) }
{
    let to = state_of(Member::To, value)?;
    let priority = priority_of(Member::Priority, value)?;
    let rounds = rounds_of(Member::Rounds, value)?;
    let proposals = proposals_of(alloc, Member::Alternatives, value)?;
    Ok(Wish::Put {
        to,
        priority,
        rounds,
        proposals,
    })
}

/// The wish of this word.
fn wish_by(alloc: Global, word: &str, value: &Value) -> Result<Wish, WireRefusal>
    ensures { Gives result (spec.wish_by word.now (view value.now)) }
{
    if word == "put" {
        return put(alloc, value);
    }
    if word == "end" {
        return Ok(Wish::End);
    }
    Err(WireRefusal::WrongKind(Member::Wish))
}

fn wish(alloc: Global, value: &Value) -> Result<Wish, WireRefusal>
    ensures { Gives result (spec.wish_at (view value.now)) }
{
    let word = text(Member::Wish, member_of(Member::Wish, value)?)?;
    wish_by(alloc, word, value)
}

#[tactic(auto, unfolding(crate::specs::Asks::asks_at))]
fn asks(alloc: Global, place: Member, value: &Value) -> Result<FlightAsk, WireRefusal>
    ensures { Gives result (spec.asks_at place (view value.now)) }
{
    object(place, value)?;
    let flight = natural_of(Member::Flight, value)?;
    let number = natural_of(Member::Number, value)?;
    let wish = wish(alloc, value)?;
    Ok(FlightAsk {
        flight,
        number,
        wish,
    })
}

/// A request of an operator. What a plan may be isn't looked at here.
pub fn read_asks(alloc: Global, bytes: &[u8]) -> Result<FlightAsk, WireRefusal>
    ensures { Gives result (message_of spec.asks_at bytes.now) }
{
    let value = data(alloc, bytes)?;
    asks(alloc, Member::Whole, &value)
}

#[tactic(auto, unfolding(crate::specs::Asks::positions_at))]
fn positions(alloc: Global, place: Member, value: &Value) -> Result<PositionAsk, WireRefusal>
    ensures { Gives result (spec.positions_at place (view value.now)) }
{
    object(place, value)?;
    let flight = natural_of(Member::Flight, value)?;
    let number = natural_of(Member::Number, value)?;
    let y = integer_of(Member::LatE7, value)?;
    let x = integer_of(Member::LngE7, value)?;
    let altitude = integer_of(Member::AltitudeMm, value)?;
    let off_nominal = volumes_of(alloc, Member::OffNominalVolumes, value)?;
    Ok(PositionAsk {
        flight,
        number,
        place: Place { x, y },
        altitude,
        off_nominal,
    })
}

/// Where a flight is now, told by an operator.
pub fn read_positions(alloc: Global, bytes: &[u8]) -> Result<PositionAsk, WireRefusal>
    ensures { Gives result (message_of spec.positions_at bytes.now) }
{
    let value = data(alloc, bytes)?;
    positions(alloc, Member::Whole, &value)
}
