//! Why a call is refused: questions of one kind each, asked in the order of the refusals' numbers.

ghost use Rattle.std.specs.Prelude.{◌≡◌, ℕ, List, ◌==◌, ◌≤◌, ◌<◌, not, ◌&&◌, int_le, length, option_copied, is_some, is_none, IfOk, Some, None, sum_by};
ghost use Rattle.std.specs.List.{list_any};
ghost use Rattle.std.specs.Bool.{OnFalse};
ghost use Rattle.uss_law_dss.specs.Service.{has_ovn, ticket_of, recorded_of, lies_in, lacking, relevant};
ghost use Rattle.uss_law_dss.specs.Refusals.{is_others, is_others_ticket, is_stale, is_stale_change, is_no_ticket_of, is_uncovered, is_cited, is_at_last_version, is_bad_put, vertex_count, refusal_of, put_tests, first_of, tests_of};
ghost use Rattle.uss_vol4.specs.Volume.{Volume4D};
ghost use Rattle.uss_intent.specs.Limits.{most_extents};

use crate::Dss;
use std::alloc::AllocError;
use uss_intent::{
    DssAsk, DssRefusal, FlightId, MOST_EXTENTS, MOST_OVNS, MOST_TICKETS, MOST_VERTICES, Name, Ovn,
    Ovns, Ticket, TicketId, Volumes,
};
use uss_vol4::{Box4, Volume4};

impl Dss {
    /// The ticket with this identifier.
    pub(crate) fn ticket(&self, id: TicketId) -> Option<&Ticket>
        ensures { option_copied result ≡ ticket_of id self.now }
    {
        self.tickets.get(id)
    }

    pub(crate) fn is_recorded(&self, flight: FlightId) -> bool
        ensures { result ≡ is_some (recorded_of flight self.now) }
    {
        self.recorded(flight).is_some()
    }

    pub(crate) fn is_made(&self, ticket: TicketId) -> bool
        ensures { result ≡ is_some (ticket_of ticket self.now) }
    {
        self.ticket(ticket).is_some()
    }

    /// Whether another client manages the flight's recorded reference.
    pub(crate) fn is_others(&self, client: &Name, flight: FlightId) -> bool
        ensures { result ≡ is_others client.now (recorded_of flight self.now) }
    {
        match self.recorded(flight) {
            Some(r) => r.reference.manager != *client,
            None => false,
        }
    }

    /// Whether another client manages the ticket.
    pub(crate) fn is_others_ticket(&self, client: &Name, ticket: TicketId) -> bool
        ensures { result ≡ is_others_ticket client.now (ticket_of ticket self.now) }
    {
        match self.ticket(ticket) {
            Some(t) => t.manager != *client,
            None => false,
        }
    }

    /// Whether the flight's recorded reference has another OVN.
    pub(crate) fn is_stale(&self, flight: FlightId, ovn: &Ovn) -> bool
        ensures { result ≡ is_stale (recorded_of flight self.now) ovn.now }
    {
        match self.recorded(flight) {
            Some(r) => !has_ovn(&r.reference.ovn, ovn),
            None => false,
        }
    }

    /// The same for a change; a creation has no OVN.
    pub(crate) fn is_stale_change(&self, flight: FlightId, ovn: &Option<Ovn>) -> bool
        ensures { result ≡ is_stale_change (recorded_of flight self.now) ovn.now }
    {
        match ovn {
            Some(ovn) => self.is_stale(flight, ovn),
            None => false,
        }
    }

    /// Whether the ticket may not be cited by the client.
    pub(crate) fn is_no_ticket_of(&self, client: &Name, ticket: TicketId) -> bool
        ensures { result ≡ is_no_ticket_of client.now (ticket_of ticket self.now) }
    {
        match self.ticket(ticket) {
            Some(t) => t.manager != *client,
            None => true,
        }
    }

    /// Whether the extents leave the area of the ticket, both taken as bounding boxes.
    pub(crate) fn is_uncovered(&self, ticket: TicketId, extents: &Volumes) -> bool
        requires { 0 < length extents.now }
        ensures { result ≡ is_uncovered (ticket_of ticket self.now) extents.now }
    {
        match self.ticket(ticket) {
            Some(t) => !lies_in(&Volume4::bounding(extents.as_slice()), &t.area.bounds()),
            None => false,
        }
    }

    /// Whether a recorded reference cites the ticket.
    pub(crate) fn is_cited(&self, ticket: TicketId) -> bool
        ensures { result ≡ is_cited ticket self.now.references }
    {
        self.references.cites(ticket)
    }

    /// Whether what is recorded of the flight has the greatest version.
    pub(crate) fn is_at_last_version(&self, flight: FlightId) -> bool
        ensures { result ≡ is_at_last_version (recorded_of flight self.now) }
    {
        match self.recorded(flight) {
            Some(r) => r.reference.version == u32::MAX,
            None => false,
        }
    }

    fn judge_get(&self, flight: FlightId) -> Option<DssRefusal>
        ensures { (client : List ℕ) → result ≡ refusal_of self.now client (DssAsk.Get flight) }
    {
        if self.flight_retired(flight) {
            return Some(DssRefusal::Retired);
        }
        if !self.is_recorded(flight) {
            return Some(DssRefusal::Absent);
        }
        None
    }

    fn judge_remove(&self, client: &Name, flight: FlightId, ovn: &Ovn) -> Option<DssRefusal>
        ensures { result ≡ refusal_of self.now client.now (DssAsk.Remove flight ovn.now) }
    {
        if self.is_others(client, flight) {
            return Some(DssRefusal::NotYours);
        }
        if self.flight_retired(flight) {
            return Some(DssRefusal::Retired);
        }
        if !self.is_recorded(flight) {
            return Some(DssRefusal::Absent);
        }
        if self.is_stale(flight, ovn) {
            return Some(DssRefusal::StaleOvn);
        }
        None
    }

    fn judge_ticket_put(&self, client: &Name, ticket: TicketId) -> Option<DssRefusal>
        ensures { (area : Volume4D) (base : List ℕ) → result ≡ refusal_of self.now client.now (DssAsk.TicketPut ticket area base) }
    {
        if self.is_others_ticket(client, ticket) {
            return Some(DssRefusal::NotYours);
        }
        if self.is_made(ticket) {
            return Some(DssRefusal::Exists);
        }
        if self.ticket_retired(ticket) {
            return Some(DssRefusal::Retired);
        }
        if self.tickets.len() >= MOST_TICKETS {
            return Some(DssRefusal::Full(MOST_TICKETS as u64));
        }
        None
    }

    fn judge_ticket_get(&self, client: &Name, ticket: TicketId) -> Option<DssRefusal>
        ensures { result ≡ refusal_of self.now client.now (DssAsk.TicketGet ticket) }
    {
        if self.is_others_ticket(client, ticket) {
            return Some(DssRefusal::NotYours);
        }
        if self.ticket_retired(ticket) {
            return Some(DssRefusal::Retired);
        }
        if !self.is_made(ticket) {
            return Some(DssRefusal::Absent);
        }
        None
    }

    fn judge_ticket_remove(
        &self,
        client: &Name,
        ticket: TicketId,
        version: u32,
    ) -> Option<DssRefusal>
        ensures { result ≡ refusal_of self.now client.now (DssAsk.TicketRemove ticket version) }
    {
        if self.is_others_ticket(client, ticket) {
            return Some(DssRefusal::NotYours);
        }
        if self.ticket_retired(ticket) {
            return Some(DssRefusal::Retired);
        }
        if !self.is_made(ticket) {
            return Some(DssRefusal::Absent);
        }
        if version != 1 {
            return Some(DssRefusal::StaleOvn);
        }
        if self.is_cited(ticket) {
            return Some(DssRefusal::TicketInUse);
        }
        None
    }
}

/// Whether this is the reference's OVN.
pub(crate) fn has_ovn(recorded: &Option<Ovn>, ovn: &Ovn) -> bool
    ensures { result ≡ has_ovn recorded.now ovn.now }
{
    match recorded {
        Some(o) => o == ovn,
        None => false,
    }
}

fn is_within_x(a: &Box4, b: &Box4) -> bool
    ensures { result ≡ (int_le b.now.rect.x1 a.now.rect.x1 && int_le a.now.rect.x2 b.now.rect.x2) }
{
    b.rect.x1 <= a.rect.x1 && a.rect.x2 <= b.rect.x2
}

fn is_within_y(a: &Box4, b: &Box4) -> bool
    ensures { result ≡ (int_le b.now.rect.y1 a.now.rect.y1 && int_le a.now.rect.y2 b.now.rect.y2) }
{
    b.rect.y1 <= a.rect.y1 && a.rect.y2 <= b.rect.y2
}

fn is_within_altitude(a: &Box4, b: &Box4) -> bool
    ensures { result ≡ (int_le b.now.low a.now.low && int_le a.now.high b.now.high) }
{
    b.low <= a.low && a.high <= b.high
}

fn is_within_time(a: &Box4, b: &Box4) -> bool
    ensures { result ≡ (int_le b.now.start a.now.start && int_le a.now.end b.now.end) }
{
    b.start <= a.start && a.end <= b.end
}

fn all_of(a: bool, b: bool, c: bool, d: bool) -> bool
    ensures { result ≡ (a && (b && (c && d))) }
{
    a && (b && (c && d))
}

/// Whether the first box lies in the second.
#[tactic(auto, unfolding(uss_law_dss::specs::Service::lies_in))]
fn lies_in(a: &Box4, b: &Box4) -> bool
    ensures { result ≡ lies_in a.now b.now }
{
    all_of(
        is_within_x(a, b),
        is_within_y(a, b),
        is_within_altitude(a, b),
        is_within_time(a, b),
    )
}

/// How many vertices the volume's outline has.
fn vertices_of(volume: &Volume4) -> usize
    ensures value { result ≡ length volume.now.outline }
    ensures bound { result ≤ 1000 }
{
    volume.outline().vertices().len()
}

/// How many vertices the volumes have together.
fn vertex_count(extents: &[Volume4]) -> usize
    requires { length extents.now ≤ most_extents }
    ensures { result ≡ vertex_count extents.now }
{
    let mut count: usize = 0;
    for v in extents {
        count += vertices_of(v);
    }
    count
}

/// Whether a Put has no extent, too many, too many vertices together, or too long a key.
pub(crate) fn is_bad_put(extents: &Volumes, key: &Ovns) -> bool
    ensures test { result ≡ is_bad_put extents.now key.now }
    ensures some { OnFalse result (0 < length extents.now) }
{
    extents.is_empty()
        || extents.len() > MOST_EXTENTS
        || vertex_count(extents.as_slice()) > MOST_VERTICES
        || key.len() > MOST_OVNS
}

impl Dss {
    /// Why the call is refused, if it is.
    pub(crate) fn judge(
        &self,
        client: &Name,
        ask: &DssAsk,
    ) -> Result<Option<DssRefusal>, AllocError>
        ensures { IfOk result (λ r. r ≡ refusal_of self.now client.now ask.now) }
    {
        match ask {
            DssAsk::Query { .. } => Ok(None),
            DssAsk::Get { flight } => Ok(self.judge_get(*flight)),
            DssAsk::Put {
                flight,
                ovn,
                extents,
                key,
                state,
                base: _,
                ticket,
            } => self.judge_put(client, *flight, ovn, extents, key, *state, *ticket),
            DssAsk::Remove { flight, ovn } => Ok(self.judge_remove(client, *flight, ovn)),
            DssAsk::TicketPut { ticket, .. } => Ok(self.judge_ticket_put(client, *ticket)),
            DssAsk::TicketGet { ticket } => Ok(self.judge_ticket_get(client, *ticket)),
            DssAsk::TicketRemove { ticket, version } => {
                Ok(self.judge_ticket_remove(client, *ticket, *version))
            }
        }
    }
}
