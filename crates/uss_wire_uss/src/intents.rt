ghost use Rattle.std.specs.Prelude.{◌≡◌, ◌^◌, is_some, IfOk, IsTrue};
ghost use Rattle.serde_json.specs.View.{view};
ghost use Rattle.uss_event.specs.Plans.{is_plan};
ghost use Rattle.uss_wire_base.specs.Reading.{Gives, field, field_or, natural_below};
ghost use Rattle.uss_wire_words.specs.References.{intent_reference_at};
ghost use Rattle.uss_wire_uss.specs.Intents as spec;

use crate::times::starts_at;
use crate::volumes::{volumes_of, volumes_or_none};
use serde_json::Value;
use std::alloc::Global;
use uss_event::{Details, DetailsRefusal, Pair};
use uss_intent::{Reference, State};
use uss_wire_base::{Member, WireRefusal, find, member_of, natural_16, object};
use uss_wire_words::intent_reference;

/// The priority of a member, and 0 where it is absent.
fn priority_or_0(member: Member, value: &Value) -> Result<u16, WireRefusal>
    ensures { Gives result (field_or 0 member (natural_below (2 ^ 16)) (view value.now)) }
{
    match find(member, value) {
        None => Ok(0),
        Some(found) => natural_16(member, found),
    }
}

/// Details as they stand, whether or not they are some of an intent.
#[tactic(auto, unfolding(crate::specs::Intents::details_at))]
fn details(alloc: Global, place: Member, value: &Value) -> Result<Details, WireRefusal>
    ensures { Gives result (spec.details_at place (view value.now)) }
{
    object(place, value)?;
    let volumes = volumes_of(alloc, Member::Volumes, value)?;
    let off_nominal = volumes_or_none(alloc, Member::OffNominalVolumes, value)?;
    let priority = priority_or_0(Member::Priority, value)?;
    Ok(Details {
        volumes,
        off_nominal,
        priority,
    })
}

fn details_of(alloc: Global, member: Member, value: &Value) -> Result<Details, WireRefusal>
    ensures { Gives result (field member spec.details_at (view value.now)) }
{
    details(alloc, member, member_of(member, value)?)
}

/// The reference of an intent, which shows its OVN.
fn reference_of(alloc: Global, member: Member, value: &Value) -> Result<Reference, WireRefusal>
    ensures value { Gives result (field member intent_reference_at (view value.now)) }
    ensures shown { IfOk result (λ r. IsTrue (is_some r.ovn)) }
{
    intent_reference(alloc, member, member_of(member, value)?)
}

fn details_refusal(refusal: DetailsRefusal) -> WireRefusal
    ensures { result ≡ spec.details_refusal refusal }
{
    match refusal {
        DetailsRefusal::TooManyVolumes => WireRefusal::TooManyVolumes,
        DetailsRefusal::TooManyVerticesTogether => WireRefusal::TooManyVerticesTogether,
        DetailsRefusal::OffNominalNotAllowed => WireRefusal::OffNominalNotAllowed,
        DetailsRefusal::NoVolume => WireRefusal::NoVolume,
        DetailsRefusal::PriorityRange => WireRefusal::PriorityRange,
        DetailsRefusal::Memory => WireRefusal::Memory,
    }
}

/// The details of an intent in this state, or the first reason why they are none.
fn details_in(state: State, parts: Details) -> Result<Details, WireRefusal>
    ensures value { result ≡ spec.details_in state parts }
    ensures plan { IfOk result (λ d. IsTrue (is_plan state d.volumes d.off_nominal d.priority)) }
{
    match Details::of(state, parts.volumes, parts.off_nominal, parts.priority) {
        Ok(details) => Ok(details),
        Err(refusal) => Err(details_refusal(refusal)),
    }
}

/// The intent of both, where the times of the reference are those of the extents.
fn timed(reference: Reference, details: Details) -> Result<Pair, WireRefusal>
    requires shown { IsTrue (is_some reference.ovn) }
    requires plan { IsTrue (is_plan reference.state details.volumes details.off_nominal details.priority) }
    ensures { result ≡ spec.timed reference details }
{
    if !starts_at(reference.start, &details) {
        return Err(WireRefusal::WrongKind(Member::TimeStart));
    }
    match Pair::of(reference, details) {
        Some(pair) => Ok(pair),
        None => Err(WireRefusal::WrongKind(Member::TimeEnd)),
    }
}

#[tactic(auto, unfolding(crate::specs::Intents::intent_of))]
fn intent_of(reference: Reference, parts: Details) -> Result<Pair, WireRefusal>
    requires { IsTrue (is_some reference.ovn) }
    ensures { Gives result (spec.intent_of reference parts) }
{
    let details = details_in(reference.state, parts)?;
    timed(reference, details)
}

/// An operational intent: its reference and its details, which fit.
#[tactic(auto, unfolding(crate::specs::Intents::intent_at))]
pub fn intent(alloc: Global, place: Member, value: &Value) -> Result<Pair, WireRefusal>
    ensures { Gives result (spec.intent_at place (view value.now)) }
{
    object(place, value)?;
    let reference = reference_of(alloc, Member::Reference, value)?;
    let details = details_of(alloc, Member::Details, value)?;
    intent_of(reference, details)
}
