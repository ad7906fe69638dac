ghost use Rattle.std.specs.Prelude.{◌≡◌, ◌&&◌, ◌+◌, ◌≤◌, nat_lt, nat_le, int_le, length, is_none, IsTrue};
ghost use Rattle.std.specs.Bool.{OnTrue};
ghost use Rattle.std.specs.List.{list_all, list_any};
ghost use Rattle.std.specs.Ordering.{int_eq};
ghost use Rattle.uss_event.specs.Plans.{is_plan, vertex_count, extents_of, may_be_off_nominal, is_least_start, is_greatest_end};
ghost use Rattle.uss_event.specs.Pairs.{is_pair, pair_from};
ghost use Rattle.uss_event.specs.Refusals.{refusal_of};
ghost use Rattle.uss_intent.specs.Limits.{most_extents};

use crate::{Details, DetailsRefusal, GREATEST_PRIORITY};
use std::alloc::AllocError;
use std::marker::Model;
use uss_intent::{MOST_EXTENTS, MOST_VERTICES, Reference, Sequence, State};
use uss_vol4::Volume4;

/// An operational intent: a reference that shows its OVN, with the details that it is the reference of
/// (OperationalIntent of the OpenAPI annex of ASTM F3548-21).
#[derive(Debug, Drop)]
pub struct Pair {
    reference: Reference,
    details: Details,
}

impl Model for Pair {
    ghost use Rattle.std.specs.Prelude.{IsTrue};
    ghost use Rattle.uss_event.specs.Pairs.{OperationalIntent, is_pair};

    ghost Value = { OperationalIntent };

    ghost view = { λ p. record { reference = p.reference; details = p.details } };

    ghost invariant = { λ p. IsTrue (is_pair p.reference p.details) };
}

impl Clone for Pair {
    ghost is_clone = { λ pair copy. copy ≡ pair };

    fn clone(&self) -> Result<Pair, AllocError> {
        Ok(Pair {
            reference: self.reference.clone()?,
            details: self.details.clone()?,
        })
    }
}

/// Pairs, ascending by flight where they are held against a candidate.
pub type Pairs = Sequence<Pair>;

/// Whether an intent in this state may have off-nominal volumes.
fn may_be_off_nominal(state: State) -> bool
    ensures { result ≡ may_be_off_nominal state }
{
    match state {
        State::Accepted | State::Activated => false,
        State::Nonconforming | State::Contingent => true,
    }
}

fn are_few(volumes: &[Volume4], off_nominal: &[Volume4]) -> bool
    ensures test { result ≡ nat_le (length volumes.now + length off_nominal.now) most_extents }
    ensures bound { OnTrue result (length volumes.now + length off_nominal.now ≤ most_extents) }
{
    volumes.len() <= MOST_EXTENTS && off_nominal.len() <= MOST_EXTENTS - volumes.len()
}

fn are_some(volumes: &[Volume4], off_nominal: &[Volume4]) -> bool
    ensures { result ≡ nat_lt 0 (length volumes.now + length off_nominal.now) }
{
    !volumes.is_empty() || !off_nominal.is_empty()
}

fn vertices_of(volume: &Volume4) -> usize
    ensures value { result ≡ length volume.now.outline }
    ensures bound { result ≤ 1000 }
{
    volume.outline().vertices().len()
}

fn vertex_count(volumes: &[Volume4]) -> usize
    requires { length volumes.now ≤ most_extents }
    ensures value { result ≡ vertex_count volumes.now }
    ensures bound { result ≤ 64000 }
{
    let mut count: usize = 0;
    for v in volumes {
        count += vertices_of(v);
    }
    count
}

#[tactic(auto, unfolding(crate::specs::Plans::is_plan))]
fn is_plan(state: State, details: &Details) -> bool
    ensures { result ≡ is_plan state details.now.volumes details.now.off_nominal details.now.priority }
{
    let volumes = details.volumes.as_slice();
    let off_nominal = details.off_nominal.as_slice();
    are_few(volumes, off_nominal)
        && vertex_count(volumes) + vertex_count(off_nominal) <= MOST_VERTICES
        && (may_be_off_nominal(state) || off_nominal.is_empty())
        && are_some(volumes, off_nominal)
        && details.priority <= GREATEST_PRIORITY
}

/// The first reason why these are no details of an intent in this state: none exactly where they are. Takes no memory.
#[tactic(auto, unfolding(crate::specs::Refusals::refusal_of, crate::specs::Plans::is_plan))]
pub fn refusal_of(
    state: State,
    volumes: &[Volume4],
    off_nominal: &[Volume4],
    priority: u16,
) -> Option<DetailsRefusal>
    ensures value { result ≡ refusal_of state volumes.now off_nominal.now priority }
    ensures plan { is_none result ≡ is_plan state volumes.now off_nominal.now priority }
{
    if !are_few(volumes, off_nominal) {
        return Some(DetailsRefusal::TooManyVolumes);
    }
    if vertex_count(volumes) + vertex_count(off_nominal) > MOST_VERTICES {
        return Some(DetailsRefusal::TooManyVerticesTogether);
    }
    if !may_be_off_nominal(state) && !off_nominal.is_empty() {
        return Some(DetailsRefusal::OffNominalNotAllowed);
    }
    if !are_some(volumes, off_nominal) {
        return Some(DetailsRefusal::NoVolume);
    }
    if priority > GREATEST_PRIORITY {
        return Some(DetailsRefusal::PriorityRange);
    }
    None
}

fn none_starts_before(moment: i64, volumes: &[Volume4]) -> bool
    ensures { result ≡ list_all (λ v. int_le moment v.start) volumes.now }
{
    volumes.iter().all(|v| moment <= v.start())
}

fn some_starts_at(moment: i64, volumes: &[Volume4]) -> bool
    ensures { result ≡ list_any (λ v. int_eq v.start moment) volumes.now }
{
    volumes.iter().any(|v| v.start() == moment)
}

fn none_ends_after(moment: i64, volumes: &[Volume4]) -> bool
    ensures { result ≡ list_all (λ v. int_le v.end moment) volumes.now }
{
    volumes.iter().all(|v| v.end() <= moment)
}

fn some_ends_at(moment: i64, volumes: &[Volume4]) -> bool
    ensures { result ≡ list_any (λ v. int_eq v.end moment) volumes.now }
{
    volumes.iter().any(|v| v.end() == moment)
}

#[tactic(auto, using(crate::proofs::Extents::all_of_both))]
fn all_start_from(moment: i64, details: &Details) -> bool
    ensures { result ≡ list_all (λ v. int_le moment v.start) (extents_of details.now) }
{
    none_starts_before(moment, details.volumes.as_slice())
        && none_starts_before(moment, details.off_nominal.as_slice())
}

#[tactic(auto, using(crate::proofs::Extents::any_of_both))]
fn any_starts_at(moment: i64, details: &Details) -> bool
    ensures { result ≡ list_any (λ v. int_eq v.start moment) (extents_of details.now) }
{
    some_starts_at(moment, details.volumes.as_slice())
        || some_starts_at(moment, details.off_nominal.as_slice())
}

fn starts_at(moment: i64, details: &Details) -> bool
    ensures { result ≡ is_least_start moment (extents_of details.now) }
{
    all_start_from(moment, details) && any_starts_at(moment, details)
}

#[tactic(auto, using(crate::proofs::Extents::all_of_both))]
fn all_end_by(moment: i64, details: &Details) -> bool
    ensures { result ≡ list_all (λ v. int_le v.end moment) (extents_of details.now) }
{
    none_ends_after(moment, details.volumes.as_slice())
        && none_ends_after(moment, details.off_nominal.as_slice())
}

#[tactic(auto, using(crate::proofs::Extents::any_of_both))]
fn any_ends_at(moment: i64, details: &Details) -> bool
    ensures { result ≡ list_any (λ v. int_eq v.end moment) (extents_of details.now) }
{
    some_ends_at(moment, details.volumes.as_slice())
        || some_ends_at(moment, details.off_nominal.as_slice())
}

fn ends_at(moment: i64, details: &Details) -> bool
    ensures { result ≡ is_greatest_end moment (extents_of details.now) }
{
    all_end_by(moment, details) && any_ends_at(moment, details)
}

#[tactic(auto, unfolding(crate::specs::Pairs::is_pair))]
fn is_pair(reference: &Reference, details: &Details) -> bool
    ensures { result ≡ is_pair reference.now details.now }
{
    reference.ovn.is_some()
        && is_plan(reference.state, details)
        && starts_at(reference.start, details)
        && ends_at(reference.end, details)
}

impl Pair {
    /// The pair of a reference with its details, where they fit: the reference shows its OVN, its state allows the details, and its
    /// times are those of their extents. Takes no memory.
    pub fn of(reference: Reference, details: Details) -> Option<Pair>
        ensures { result ≡ pair_from reference details }
    {
        if is_pair(&reference, &details) {
            Some(Pair { reference, details })
        } else {
            None
        }
    }

    /// The reference, which shows its OVN. Takes no memory.
    pub fn reference(&self) -> &Reference
        ensures value { result.now ≡ self.now.reference }
        ensures valid { IsTrue (is_pair self.now.reference self.now.details) }
    {
        &self.reference
    }

    /// The details. Takes no memory.
    pub fn details(&self) -> &Details
        ensures value { result.now ≡ self.now.details }
        ensures valid { IsTrue (is_pair self.now.reference self.now.details) }
    {
        &self.details
    }
}
