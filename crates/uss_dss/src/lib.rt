//! The discovery service (the DSS of ASTM F3548-21) in the small, over ordered maps: references of operational
//! intents with their extents, tickets, identifiers that are never used again, and the history of landings.
//!
//! ```
//! let mut service = Dss::new(alloc);
//! let reply = service.step(&client, &DssAsk::Get { flight: flight_id(1, 1) })?;
//! assert!(rt; reply == DssReply::Refused(DssRefusal::Absent)); // nothing is recorded yet
//! ```
//!
//! `Dss::step` answers a client's call. `uss_law_dss` defines each reply and the state after it.
#![tactic(auto)]

ghost use Rattle.std.specs.Prelude.{◌≡◌, option_copied, slice_get, IfOk, OnOk, OnErr, IfSome};
ghost use Rattle.std.specs.Option.{option_map};
ghost use Rattle.uss_intent.specs.Numbers.{is_one_of};
ghost use Rattle.uss_law_dss.specs.Service.{empty, recorded_of};
ghost use Rattle.uss_law_dss.specs.Refusals.{refusal_of};
ghost use Rattle.uss_law_dss.specs.Step.{service_step};
ghost use Rattle.uss_dss.specs.Grid.{HasReferences};

mod actions;
mod changes;
mod judge;
mod judge_put;
mod key;
mod located;
mod near;
mod put;
mod records;
mod retired;
mod shown;
mod tickets;

use crate::located::Located;
use crate::records::Records;
use crate::retired::Retired;
use crate::tickets::Tickets;
use std::alloc::{AllocError, Global};
use std::marker::Model;
use uss_index::Grid;
use uss_intent::{
    DssAsk, DssRefusal, DssReply, FlightId, Landings, Name, Recorded, Reference, TicketId, Volumes,
};

/// The discovery service. A contract sees its state: the references with their extents, ascending by flight, the
/// tickets, ascending by identifier, the removed identifiers, and the landings, oldest first.
#[derive(Drop)]
pub struct Dss {
    alloc: Global,
    references: Records,
    /// The boxes of the references' extents, by the number of the flight's last landing.
    reference_boxes: Located,
    tickets: Tickets,
    /// The boxes of the tickets' areas, by the number of tickets that were made before.
    ticket_boxes: Located,
    retired_flights: Retired,
    retired_tickets: Retired,
    landings: Landings,
}

impl Model for Dss {
    ghost use Rattle.uss_law_dss.specs.Service.{Service};
    ghost use Rattle.uss_dss.specs.Kept.{IsKept};

    ghost Value = { Service };

    ghost view = { λ d. record { references = d.references; tickets = d.tickets; retired_flights = d.retired_flights; retired_tickets = d.retired_tickets; landings = d.landings } };

    ghost invariant = { λ d. IsKept (record { references = d.references; tickets = d.tickets; retired_flights = d.retired_flights; retired_tickets = d.retired_tickets; landings = d.landings }) d.reference_boxes d.ticket_boxes };
}

impl Dss {
    /// A service that has recorded nothing. Takes no memory.
    pub fn new(alloc: Global) -> Dss
        ensures { result ≡ empty }
    {
        Dss {
            alloc,
            references: Records::new(alloc),
            reference_boxes: Located::new(alloc),
            tickets: Tickets::new(alloc),
            ticket_boxes: Located::new(alloc),
            retired_flights: Retired::new(alloc),
            retired_tickets: Retired::new(alloc),
            landings: Landings::new(alloc),
        }
    }

    /// The recorded reference with this number from 0, ascending by flight, with its OVN. Takes no memory.
    pub fn reference(&self, n: usize) -> Option<&Reference>
        ensures { option_copied result ≡ option_map (λ r. r.reference) (slice_get self.now.references n) }
    {
        match self.references.nth(n) {
            Some(r) => Some(&r.reference),
            None => None,
        }
    }

    /// The extents of the flight's recorded reference. Takes no memory.
    pub fn extents(&self, flight: FlightId) -> Option<&Volumes>
        ensures { option_copied result ≡ option_map (λ r. r.extents) (recorded_of flight self.now) }
    {
        match self.recorded(flight) {
            Some(r) => Some(&r.extents),
            None => None,
        }
    }

    /// Whether the flight's reference was removed, so that its identifier is never used again. Takes no memory.
    pub fn flight_retired(&self, flight: FlightId) -> bool
        ensures { result ≡ is_one_of flight self.now.retired_flights }
    {
        self.retired_flights.has(flight.number())
    }

    /// Whether the ticket was removed, so that its identifier is never used again. Takes no memory.
    pub fn ticket_retired(&self, ticket: TicketId) -> bool
        ensures { result ≡ is_one_of ticket self.now.retired_tickets }
    {
        self.retired_tickets.has(ticket.number())
    }

    /// The history: each creation and change of a reference, oldest first. Takes no memory.
    pub fn landings(&self) -> &Landings
        ensures { result.now ≡ self.now.landings }
    {
        &self.landings
    }

    /// The boxes of the recorded references: of each the bounding box of its extents, under the number of its flight's last landing, counted
    /// from 1. Takes no memory.
    pub fn grid(&self) -> &Grid
        ensures { HasReferences self.now result.now }
    {
        &self.reference_boxes.boxes
    }

    fn recorded(&self, flight: FlightId) -> Option<&Recorded>
        ensures { option_copied result ≡ recorded_of flight self.now }
    {
        self.references.get(flight)
    }

    /// Why the call is refused, if it is: the first of the call's refusals, in the order of their numbers, whose test holds. Want of
    /// memory alone keeps it from answering.
    pub fn refusal(&self, client: &Name, ask: &DssAsk) -> Result<Option<DssRefusal>, AllocError>
        ensures { IfOk result (λ r. r ≡ refusal_of self.now client.now ask.now) }
    {
        self.judge(client, ask)
    }

    /// Answers a client's call. Running out of memory leaves the service as it was, and so does a refusal.
    pub fn step(&mut self, client: &Name, ask: &DssAsk) -> Result<DssReply, AllocError>
        ensures reply { IfOk result (λ reply. reply ≡ (service_step self.old client.now ask.now).0) }
        ensures state { OnOk result (self.new ≡ (service_step self.old client.now ask.now).1) }
        ensures memory { OnErr result (self.new ≡ self.old) }
        ensures refused { IfSome (refusal_of self.old client.now ask.now) (λ refusal. IfOk result (λ reply. (reply ≡ DssReply.Refused refusal) × (self.new ≡ self.old))) }
    {
        if let Some(refusal) = self.judge(client, ask)? {
            return Ok(DssReply::Refused(refusal));
        }
        self.perform(client, ask)
    }
}
