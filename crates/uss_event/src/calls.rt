use crate::Pair;
use uss_intent::{Base, DssAsk, FlightId, Name, Sequence, TicketId};

/// What one supplier tells another of a change (PutOperationalIntentDetailsParameters of the OpenAPI annex of ASTM F3548-21).
#[derive(Debug, Drop)]
pub struct Note {
    pub flight: FlightId,
    /// The intent as it is held now, and none where the flight has ended.
    pub pair: Option<Pair>,
    /// The subscription by which the other is notified.
    pub ticket: TicketId,
    /// How often that subscription was notified of a change.
    pub index: u64,
}

/// A call of the discovery service, for a job of the supplier.
#[derive(Debug, Drop)]
pub struct DssCall {
    pub job: u64,
    pub ask: DssAsk,
}

/// A call of another supplier.
#[derive(Debug, Drop)]
pub enum PeerCall {
    /// Asks the manager of a flight for its details.
    Details {
        job: u64,
        flight: FlightId,
        manager: Name,
        /// The base URL of the reference.
        base: Base,
    },
    /// Tells a subscriber of a change.
    Notify {
        job: u64,
        /// The subscriber's index among those that the job owes, from 0.
        index: u32,
        /// The subscriber's base URL.
        base: Base,
        note: Note,
    },
}

/// The reply of another supplier.
#[derive(Debug, Drop)]
pub enum PeerReply {
    /// To Details.
    Served(Pair),
    /// To Details: nothing is held of the flight.
    Gone,
    /// To Notify.
    Noted,
    /// Any other status of HTTP.
    Status(u16),
}

/// A call that a step hands out to be made.
#[derive(Debug, Drop)]
pub enum Outgoing {
    Dss(DssCall),
    Peer(PeerCall),
}

/// The calls of one step, in their order.
pub type Sends = Sequence<Outgoing>;
