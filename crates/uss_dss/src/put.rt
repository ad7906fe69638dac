//! What a Put does, once it isn't refused.

ghost use Rattle.std.specs.Prelude.{◌≡◌, ◌<◌, ◌+◌, ◌==◌, ◌++◌, false, length, unwrap_or, IfOk, OnErr};
ghost use Rattle.uss_intent.specs.Tags.{tag_of};
ghost use Rattle.uss_law_dss.specs.Service.{recorded_of, ovn_of};
ghost use Rattle.uss_law_dss.specs.Refusals.{is_at_last_version};
ghost use Rattle.uss_law_dss.specs.Orderly.{IsOrderly};
ghost use Rattle.uss_law_dss.specs.Step.{after_put, landed, landing_of, next_version, next_landing, old_extents, subscribers};
ghost use Rattle.uss_intent.specs.Limits.{last_version};

use crate::Dss;
use crate::changes::{notified, ovn_of, record};
use std::alloc::AllocError;
use uss_intent::{
    Base, DssReply, FlightId, Landing, Name, Ovn, Owed, Recorded, Reference, State, Subscriber,
    TicketId, Volumes, tag_of,
};
use uss_vol4::Volume4;

fn tag_or_zero(base: &Base) -> u64
    ensures { result ≡ unwrap_or (tag_of base.now) 0 }
{
    tag_of(base).unwrap_or(0)
}

fn version_after(r: &Recorded) -> u32
    requires { (r.now.reference.version == last_version) ≡ false }
    ensures { result ≡ r.now.reference.version + 1 }
{
    let version = r.reference.version;
    version + 1
}

impl Dss {
    fn next_version(&self, flight: FlightId) -> u32
        requires { is_at_last_version (recorded_of flight self.now) ≡ false }
        ensures { result ≡ next_version (recorded_of flight self.now) }
    {
        match self.recorded(flight) {
            Some(r) => version_after(r),
            None => 1,
        }
    }

    fn next_ovn(&self) -> Result<Ovn, AllocError>
        ensures { IfOk result (λ ovn. ovn ≡ ovn_of (next_landing self.now)) }
    {
        ovn_of(self.alloc, self.landings.len() as u64 + 1)
    }

    fn landing(
        &self,
        client: &Name,
        flight: FlightId,
        ovn: &Option<Ovn>,
        base: &Base,
        ticket: TicketId,
    ) -> Result<Landing, AllocError>
        ensures { IfOk result (λ l. l ≡ landing_of self.now client.now flight ovn.now base.now ticket) }
    {
        Ok(Landing {
            ovn: self.next_ovn()?,
            manager: client.clone()?,
            tag: tag_or_zero(base),
            flight,
            previous: ovn.clone()?,
            ticket,
        })
    }

    fn landed(
        &self,
        client: &Name,
        flight: FlightId,
        extents: &Volumes,
        state: State,
        base: &Base,
        ticket: TicketId,
    ) -> Result<Recorded, AllocError>
        requires last { is_at_last_version (recorded_of flight self.now) ≡ false }
        requires some { 0 < length extents.now }
        ensures { IfOk result (λ r. r ≡ landed self.now client.now flight extents.now state base.now ticket) }
    {
        let bounds = Volume4::bounding(extents.as_slice());
        Ok(Recorded {
            reference: Reference {
                flight,
                manager: client.clone()?,
                version: self.next_version(flight),
                state,
                ovn: Some(self.next_ovn()?),
                start: bounds.start,
                end: bounds.end,
                base: base.clone()?,
                ticket,
            },
            extents: extents.clone()?,
        })
    }

    fn old_extents(&self, flight: FlightId) -> &[Volume4]
        ensures { result.now ≡ old_extents (recorded_of flight self.now) }
    {
        match self.recorded(flight) {
            Some(r) => r.extents.as_slice(),
            None => &[],
        }
    }

    fn notified_of_change(
        &self,
        client: &Name,
        flight: FlightId,
        extents: &Volumes,
    ) -> Result<Vec<Subscriber>, AllocError>
        ensures { IfOk result (λ notified. notified.items ≡ subscribers client.now (old_extents (recorded_of flight self.now) ++ extents.now) self.now.tickets) }
    {
        let old = self.old_extents(flight);
        let met = self.tickets_met(old, extents.as_slice())?;
        notified(self.alloc, client, old, extents.as_slice(), &met)
    }

    /// Who is notified of the end of a reference with these extents.
    pub(crate) fn notified_of_end(
        &self,
        client: &Name,
        extents: &Volumes,
    ) -> Result<Vec<Subscriber>, AllocError>
        ensures { IfOk result (λ notified. notified.items ≡ subscribers client.now extents.now self.now.tickets) }
    {
        let met = self.tickets_met(&[], extents.as_slice())?;
        notified(self.alloc, client, &[], extents.as_slice(), &met)
    }

    /// Records the landing. The caller has found that the Put isn't refused.
    pub(crate) fn put(
        &mut self,
        client: &Name,
        flight: FlightId,
        ovn: &Option<Ovn>,
        extents: &Volumes,
        state: State,
        base: &Base,
        ticket: TicketId,
    ) -> Result<DssReply, AllocError>
        requires last { is_at_last_version (recorded_of flight self.old) ≡ false }
        requires some { 0 < length extents.now }
        requires orderly { IsOrderly (after_put self.old client.now flight ovn.now extents.now state base.now ticket).1 }
        ensures done { IfOk result (λ reply. (reply, self.new) ≡ after_put self.old client.now flight ovn.now extents.now state base.now ticket) }
        ensures memory { OnErr result (self.new ≡ self.old) }
    {
        let recorded = self.landed(client, flight, extents, state, base, ticket)?;
        let landing = self.landing(client, flight, ovn, base, ticket)?;
        let notified = self.notified_of_change(client, flight, extents)?;
        let reply = recorded.reference.clone()?;
        record(
            &mut self.references,
            &mut self.reference_boxes,
            &mut self.landings,
            recorded,
            landing,
        )?;
        self.tickets.set_indices(&notified);
        Ok(DssReply::Landed {
            reference: reply,
            subscribers: Owed::from_vec(notified),
        })
    }
}
