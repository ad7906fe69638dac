use crate::{
    AskRefusal, Conform, DssCall, FlightAsk, FlightIds, Note, Pair, PeerCall, PeerReply,
    PositionAsk, Tags, Verdict,
};
use uss_intent::{DssReply, FlightId, Name, Ovn};

/// What comes of a request.
#[derive(Debug, Drop)]
pub enum Answer {
    /// The flight is recorded, for the first time.
    Planned {
        flight: FlightId,
        tag: u64,
        alternative: u8,
        ovn: Ovn,
        version: u32,
    },
    /// The flight's record is changed.
    Changed {
        flight: FlightId,
        tag: u64,
        alternative: u8,
        ovn: Ovn,
        version: u32,
    },
    Ended {
        flight: FlightId,
    },
    /// Nothing is recorded: a flight stands against every alternative.
    Conflict {
        flight: FlightId,
        manager: Name,
        rule: Verdict,
    },
    /// Nothing is recorded: the last attempt lacked the OVNs of these flights.
    Stale {
        missing: FlightIds,
    },
    /// Nothing is recorded.
    Cancelled,
    /// A position asks for no change.
    Steady {
        verdict: Conform,
    },
    /// The plan looks at too many other flights, so many; the job stays open.
    Crowded {
        count: usize,
    },
    /// The discovery service refused a call; the job stays open.
    DssRefused {
        number: u16,
    },
    /// Another supplier refused a call; the job stays open.
    PeerRefused {
        peer: Name,
        status: u16,
    },
    /// The flight is recorded by an attempt of another job; the job stays open.
    Unsettled {
        /// 0 for none.
        tag: u64,
    },
}

/// What a step of a supplier says to who brought the event.
#[derive(Debug, Drop)]
pub enum Said {
    Nothing,
    Answer(Answer),
    Refused(AskRefusal),
    /// To a question for details: the intent that is held, if any.
    Pair(Option<Pair>),
    /// To a note that was taken.
    Noted,
    /// To a note whose pair its client doesn't manage.
    NotManager,
    /// A call failed; these attempts of its job may still be recorded.
    Left { tags: Tags },
}

/// What comes to a supplier.
#[derive(Debug, Drop)]
pub enum Event {
    Ask(FlightAsk),
    Cancel { flight: u64, number: u64 },
    Position(PositionAsk),
    /// Time to send what is owed, but for the first so many.
    Sweep { skip: usize },
    /// The reply of the discovery service to a call.
    Dss { call: DssCall, reply: DssReply },
    /// The reply of another supplier to a call.
    Peer { call: PeerCall, reply: PeerReply },
    /// A call of the job failed.
    Failed { job: u64 },
    /// Another supplier asks for the details of a flight.
    Details { client: Name, flight: FlightId },
    /// Another supplier tells of a change.
    Notified { client: Name, note: Note },
}
