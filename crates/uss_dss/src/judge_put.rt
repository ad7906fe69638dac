//! Why a Put is refused.

ghost use Rattle.std.specs.Prelude.{◌≡◌, ℕ, List, ◌==◌, ◌<◌, not, ◌&&◌, length, filter, map, true, IfOk};
ghost use Rattle.uss_law_dss.specs.Service.{in_key, lacking, relevant, shown_to};
ghost use Rattle.uss_vol4.specs.Sharing.{any_shares};
ghost use Rattle.uss_law_dss.specs.Refusals.{shown_all};
ghost use Rattle.uss_dss.specs.Keys.{Finds};
ghost use Rattle.uss_dss.specs.Parts.{flight_refusal, ticket_refusal, key_refusal, room_refusal, put_refusal, key_answer, is_missing};

use crate::Dss;
use crate::judge::is_bad_put;
use crate::key::{has_ovn_of, key_set};
use crate::shown::shown;
use std::alloc::{AllocError, Global};
use std::collections::BTreeMap;
use uss_intent::{
    DssRefusal, FlightId, LAST_VERSION, MOST_LANDINGS, MOST_REFERENCES, Name, Ovn, Ovns, Recorded,
    Reference, References, State, TicketId, Volumes,
};
use uss_vol4::Volume4;

impl Dss {
    #[tactic(auto, unfolding(crate::specs::Parts::flight_refusal))]
    fn judge_flight(&self, client: &Name, flight: FlightId, ovn: &Option<Ovn>) -> Option<DssRefusal>
        ensures { result ≡ flight_refusal self.now client.now flight ovn.now }
    {
        if self.is_others(client, flight) {
            return Some(DssRefusal::NotYours);
        }
        if ovn.is_none() && self.is_recorded(flight) {
            return Some(DssRefusal::Exists);
        }
        if self.flight_retired(flight) {
            return Some(DssRefusal::Retired);
        }
        if ovn.is_some() && !self.is_recorded(flight) {
            return Some(DssRefusal::Absent);
        }
        if self.is_stale_change(flight, ovn) {
            return Some(DssRefusal::StaleOvn);
        }
        None
    }

    #[tactic(auto, unfolding(crate::specs::Parts::ticket_refusal))]
    fn judge_ticket(&self, client: &Name, extents: &Volumes, ticket: TicketId) -> Option<DssRefusal>
        requires { 0 < length extents.now }
        ensures { result ≡ ticket_refusal self.now client.now extents.now ticket }
    {
        if self.is_no_ticket_of(client, ticket) {
            return Some(DssRefusal::NoTicket);
        }
        if self.is_uncovered(ticket, extents) {
            return Some(DssRefusal::NotCovered);
        }
        None
    }

    /// The relevant references that the key lacks, as they are shown to the client.
    fn missing(
        &self,
        client: &Name,
        flight: FlightId,
        extents: &Volumes,
        key: &Ovns,
    ) -> Result<Vec<Reference>, AllocError>
        ensures { IfOk result (λ v. v.items ≡ shown_all client.now (filter (is_missing flight extents.now key.now) self.now.references)) }
    {
        let met = self.references_met(extents.as_slice())?;
        missing(self.alloc, &met, client, flight, extents, key)
    }

    #[tactic(auto, unfolding(crate::specs::Parts::key_refusal))]
    fn judge_key(
        &self,
        client: &Name,
        flight: FlightId,
        extents: &Volumes,
        key: &Ovns,
        state: State,
    ) -> Result<Option<DssRefusal>, AllocError>
        ensures { IfOk result (λ r. r ≡ key_refusal self.now client.now flight extents.now key.now state) }
    {
        if !state.is_strategic() {
            return Ok(None);
        }
        let missing = self.missing(client, flight, extents, key)?;
        Ok(of_missing(missing))
    }

    #[tactic(auto, unfolding(crate::specs::Parts::room_refusal))]
    fn judge_room(&self, flight: FlightId, ovn: &Option<Ovn>) -> Option<DssRefusal>
        ensures { result ≡ room_refusal self.now flight ovn.now }
    {
        if ovn.is_none() && self.references.len() >= MOST_REFERENCES {
            return Some(DssRefusal::Full(MOST_REFERENCES as u64));
        }
        if self.is_at_last_version(flight) {
            return Some(DssRefusal::Full(LAST_VERSION as u64));
        }
        if self.landings.len() >= MOST_LANDINGS {
            return Some(DssRefusal::Full(MOST_LANDINGS as u64));
        }
        None
    }

    /// Why a Put is refused, if it is.
    pub(crate) fn judge_put(
        &self,
        client: &Name,
        flight: FlightId,
        ovn: &Option<Ovn>,
        extents: &Volumes,
        key: &Ovns,
        state: State,
        ticket: TicketId,
    ) -> Result<Option<DssRefusal>, AllocError>
        ensures { IfOk result (λ r. r ≡ put_refusal self.now client.now flight ovn.now extents.now key.now state ticket) }
    {
        if is_bad_put(extents, key) {
            return Ok(Some(DssRefusal::BadCall));
        }
        if let Some(refusal) = self.judge_flight(client, flight, ovn) {
            return Ok(Some(refusal));
        }
        if let Some(refusal) = self.judge_ticket(client, extents, ticket) {
            return Ok(Some(refusal));
        }
        if let Some(refusal) = self.judge_key(client, flight, extents, key, state)? {
            return Ok(Some(refusal));
        }
        Ok(self.judge_room(flight, ovn))
    }
}

fn of_missing(missing: Vec<Reference>) -> Option<DssRefusal>
    ensures { result ≡ key_answer true missing.items }
{
    if missing.is_empty() {
        return None;
    }
    Some(DssRefusal::MissingKey(References::from_vec(missing)))
}

/// Of these references those that the key lacks, as they are shown to the client.
fn missing(
    alloc: Global,
    references: &[&Recorded],
    client: &Name,
    flight: FlightId,
    extents: &Volumes,
    key: &Ovns,
) -> Result<Vec<Reference>, AllocError>
    ensures { IfOk result (λ v. v.items ≡ shown_all client.now (filter (is_missing flight extents.now key.now) (map (λ r. r.now) references.now))) }
{
    let set = key_set(alloc, key.as_slice())?;
    let mut missing = Vec::new(alloc);
    for r in references {
        if is_missing(r, flight, extents, &set) {
            missing.push(shown(client, &r.reference)?)?;
        }
    }
    Ok(missing)
}

fn any_shares(a: &[Volume4], b: &[Volume4]) -> bool
    ensures { result ≡ any_shares a.now b.now }
{
    Volume4::any_shared(a, b).is_some()
}

/// Whether the key lacks the OVN of this reference, which is another flight's and shares with the extents. Outlines are looked at
/// last.
fn is_missing(r: &Recorded, flight: FlightId, extents: &Volumes, set: &BTreeMap<&str, bool>) -> bool
    ensures { (key : List (List ℕ)) → Finds set.now key → result ≡ is_missing flight extents.now key r.now }
{
    r.reference.flight != flight
        && !has_ovn_of(set, &r.reference)
        && any_shares(r.extents.as_slice(), extents.as_slice())
}
