use crate::{DssCall, FlightAsk, PeerCall, PeerReply, PositionAsk};
use uss_intent::{DssReply, Sequence};

/// Who sends or gets a message.
#[derive(Clone, Copy, Debug, PartialEq, Eq)]
pub enum Party {
    /// The discovery service.
    Dss,
    /// The supplier with this number.
    Supplier(u32),
}

/// A message. Messages are numbered from 1 as they are sent.
#[derive(Debug, Drop)]
pub enum Message {
    DssCall(DssCall),
    PeerCall(PeerCall),
    /// The reply to the message with this number.
    DssReply { to: u64, reply: DssReply },
    /// The reply to the message with this number.
    PeerReply { to: u64, reply: PeerReply },
}

/// A step of one supplier, round which the supplier stops.
#[derive(Debug, Drop)]
pub enum Stopped {
    Ask {
        supplier: u32,
        ask: FlightAsk,
    },
    Cancel {
        supplier: u32,
        flight: u64,
        number: u64,
    },
    Position {
        supplier: u32,
        ask: PositionAsk,
    },
    Sweep {
        supplier: u32,
        skip: usize,
    },
    Deliver {
        message: u64,
    },
}

/// A step of the world.
#[derive(Debug, Drop)]
pub enum Step {
    /// It is this moment, in ns since 1970-01-01T00:00:00Z.
    Now {
        moment: i64,
    },
    Ask {
        supplier: u32,
        ask: FlightAsk,
    },
    Cancel {
        supplier: u32,
        flight: u64,
        number: u64,
    },
    Position {
        supplier: u32,
        ask: PositionAsk,
    },
    Sweep {
        supplier: u32,
        skip: usize,
    },
    /// The message comes, for the first time or again.
    Deliver {
        message: u64,
    },
    /// The message is passed over by Drain.
    Lose {
        message: u64,
    },
    /// So many times, the least message that was never delivered and not lost comes.
    Drain {
        count: u64,
    },
    /// The sender is told that its call failed.
    Fault {
        message: u64,
    },
    /// The supplier keeps its book alone.
    Restart {
        supplier: u32,
    },
    /// The supplier stops within the step, and restarts.
    Stop {
        /// Whether the step's entry is durable.
        kept: bool,
        /// How many of its messages leave.
        sent: u64,
        step: Stopped,
    },
}

/// The steps of a world's script.
pub type WorldSteps = Sequence<Step>;
