//! What each call does, once it isn't refused.

ghost use Rattle.std.specs.Prelude.{◌≡◌, ◌+◌, length, IfOk, OnErr, None};
ghost use Rattle.uss_law_dss.specs.Refusals.{refusal_of};
ghost use Rattle.uss_law_dss.specs.Step.{accepted, new_ticket};

use crate::Dss;
use crate::changes::place;
use crate::shown::shown;
use std::alloc::AllocError;
use uss_intent::{
    Base, DssAsk, DssRefusal, DssReply, FlightId, Name, Ovn, Owed, References, Ticket, TicketId,
};
use uss_vol4::Volume4;

fn new_ticket(
    client: &Name,
    ticket: TicketId,
    area: &Volume4,
    base: &Base,
) -> Result<Ticket, AllocError>
    ensures { IfOk result (λ t. t ≡ new_ticket client.now ticket area.now base.now) }
{
    Ok(Ticket {
        id: ticket,
        manager: client.clone()?,
        area: area.clone()?,
        base: base.clone()?,
        index: 0,
    })
}

impl Dss {
    pub(crate) fn query(&self, client: &Name, area: &Volume4) -> Result<DssReply, AllocError>
        ensures { IfOk result (λ reply. (reply, self.now) ≡ accepted self.now client.now (DssAsk.Query area.now)) }
    {
        let found = self.found(client, area)?;
        Ok(DssReply::Found(References::from_vec(found)))
    }

    pub(crate) fn get(&self, client: &Name, flight: FlightId) -> Result<DssReply, AllocError>
        ensures { IfOk result (λ reply. (reply, self.now) ≡ accepted self.now client.now (DssAsk.Get flight)) }
    {
        match self.recorded(flight) {
            Some(r) => Ok(DssReply::Got(shown(client, &r.reference)?)),
            None => Ok(DssReply::Refused(DssRefusal::Absent)),
        }
    }

    pub(crate) fn ticket_get(&self, client: &Name, ticket: TicketId) -> Result<DssReply, AllocError>
        ensures { IfOk result (λ reply. (reply, self.now) ≡ accepted self.now client.now (DssAsk.TicketGet ticket)) }
    {
        match self.ticket(ticket) {
            Some(t) => Ok(DssReply::TicketGot(t.clone()?)),
            None => Ok(DssReply::Refused(DssRefusal::Absent)),
        }
    }

    /// How many tickets were made so far: a number that no ticket has had.
    fn next_ticket(&self) -> u64
        ensures { result ≡ length self.now.tickets + length self.now.retired_tickets }
    {
        self.tickets.len() as u64 + self.retired_tickets.len() as u64
    }

    pub(crate) fn ticket_put(
        &mut self,
        client: &Name,
        ticket: TicketId,
        area: &Volume4,
        base: &Base,
    ) -> Result<DssReply, AllocError>
        requires { refusal_of self.old client.now (DssAsk.TicketPut ticket area.now base.now) ≡ None }
        ensures done { IfOk result (λ reply. (reply, self.new) ≡ accepted self.old client.now (DssAsk.TicketPut ticket area.now base.now)) }
        ensures memory { OnErr result (self.new ≡ self.old) }
    {
        let new = new_ticket(client, ticket, area, base)?;
        let reply = new.clone()?;
        let number = self.next_ticket();
        place(&mut self.tickets, &mut self.ticket_boxes, number, new)?;
        Ok(DssReply::TicketMade(reply))
    }

    pub(crate) fn ticket_remove(
        &mut self,
        client: &Name,
        ticket: TicketId,
        version: u32,
    ) -> Result<DssReply, AllocError>
        requires { refusal_of self.old client.now (DssAsk.TicketRemove ticket version) ≡ None }
        ensures done { IfOk result (λ reply. (reply, self.new) ≡ accepted self.old client.now (DssAsk.TicketRemove ticket version)) }
        ensures memory { OnErr result (self.new ≡ self.old) }
    {
        let reply = match self.ticket(ticket) {
            Some(t) => t.clone()?,
            None => return Ok(DssReply::Refused(DssRefusal::Absent)),
        };
        self.retired_tickets.push(reply.id.number())?;
        self.tickets.remove(reply.id);
        self.ticket_boxes.leave(reply.id.number());
        Ok(DssReply::TicketRemoved(reply))
    }

    pub(crate) fn remove(
        &mut self,
        client: &Name,
        flight: FlightId,
        ovn: &Ovn,
    ) -> Result<DssReply, AllocError>
        requires { refusal_of self.old client.now (DssAsk.Remove flight ovn.now) ≡ None }
        ensures done { IfOk result (λ reply. (reply, self.new) ≡ accepted self.old client.now (DssAsk.Remove flight ovn.now)) }
        ensures memory { OnErr result (self.new ≡ self.old) }
    {
        let Some(r) = self.recorded(flight) else {
            return Ok(DssReply::Refused(DssRefusal::Absent));
        };
        let reply = r.reference.clone()?;
        let notified = self.notified_of_end(client, &r.extents)?;
        self.retired_flights.push(reply.flight.number())?;
        self.references.remove(reply.flight);
        self.reference_boxes.leave(reply.flight.number());
        self.tickets.set_indices(&notified);
        Ok(DssReply::Removed {
            reference: reply,
            subscribers: Owed::from_vec(notified),
        })
    }

    /// What the call does, once it isn't refused.
    pub(crate) fn perform(&mut self, client: &Name, ask: &DssAsk) -> Result<DssReply, AllocError>
        requires { refusal_of self.old client.now ask.now ≡ None }
        ensures done { IfOk result (λ reply. (reply, self.new) ≡ accepted self.old client.now ask.now) }
        ensures memory { OnErr result (self.new ≡ self.old) }
    {
        let _ = &self.alloc;
        match ask {
            DssAsk::Query { area } => self.query(client, area),
            DssAsk::Get { flight } => self.get(client, *flight),
            DssAsk::Put {
                flight,
                ovn,
                extents,
                key: _,
                state,
                base,
                ticket,
            } => self.put(client, *flight, ovn, extents, *state, base, *ticket),
            DssAsk::Remove { flight, ovn } => self.remove(client, *flight, ovn),
            DssAsk::TicketPut { ticket, area, base } => {
                self.ticket_put(client, *ticket, area, base)
            }
            DssAsk::TicketGet { ticket } => self.ticket_get(client, *ticket),
            DssAsk::TicketRemove { ticket, version } => {
                self.ticket_remove(client, *ticket, *version)
            }
        }
    }
}
