use crate::{FlightAsk, RuleTable, Verdict};
use uss_intent::{Base, FlightId, Name, Ovn, Ovns, Owed, Sequence};

/// Flights.
pub type FlightIds = Sequence<FlightId>;

/// The tags of attempts.
pub type Tags = Sequence<u64>;

/// How a job ends without a landing, or with its flight.
#[derive(Debug, Drop)]
pub enum Ending {
    /// A flight stands against every alternative: the first that stands against the first one.
    Conflict {
        flight: FlightId,
        manager: Name,
        rule: Verdict,
    },
    /// The last attempt lacked the OVNs of these flights.
    Stale {
        missing: FlightIds,
    },
    Cancelled,
    /// The flight has ended; who is to be notified.
    Ended {
        owed: Owed,
    },
}

/// Whose book it is.
#[derive(Debug, Drop)]
pub struct Owner {
    /// The supplier's number, which stands in the identifiers of its flights and tickets.
    pub number: u32,
    /// The name by which the discovery service knows it.
    pub name: Name,
    /// Its configured base URL, of at most 256 bytes.
    pub base: Base,
    pub table: RuleTable,
}

/// A job, from its request on.
#[derive(Debug, Drop)]
pub struct Opening {
    /// Jobs are numbered from 1 without a gap.
    pub job: u64,
    /// When it was asked, in ns since 1970-01-01T00:00:00Z.
    pub moment: i64,
    pub ask: FlightAsk,
}

/// An attempt to record a job's wish.
#[derive(Debug, Drop)]
pub struct Trial {
    pub job: u64,
    /// Tags are numbered from 1 without a gap over the whole book.
    pub tag: u64,
    /// Which alternative of the wish, from 0.
    pub alternative: u8,
    /// The OVN of the reference that it changes, and none for a creation.
    pub previous: Option<Ovn>,
    pub key: Ovns,
}

/// What a job recorded.
#[derive(Debug, Drop)]
pub struct Holding {
    pub job: u64,
    /// That of the attempt that was recorded.
    pub tag: u64,
    pub ovn: Ovn,
    pub version: u32,
    /// Who is to be notified.
    pub owed: Owed,
}

/// How a job ends, or is to end, that records nothing.
#[derive(Debug, Drop)]
pub struct Closing {
    pub job: u64,
    pub end: Ending,
}

/// An owed notification that was sent, and answered 204.
#[derive(Debug, Drop)]
pub struct Sending {
    pub job: u64,
    /// Its index among those that the job owes, from 0.
    pub index: u32,
}

/// An entry of a supplier's book. A job is what the supplier does for one request.
#[derive(Debug, Drop)]
pub enum Entry {
    /// The first entry and no other.
    Owner(Owner),
    /// The job is open.
    Opened(Opening),
    /// The job's ticket was heard to be there.
    TicketOpen { job: u64 },
    /// The job makes this attempt.
    Pending(Trial),
    /// An attempt is recorded with this OVN and version: this ends the job as planned or changed.
    Held(Holding),
    /// The job makes no further attempt, and is to end so.
    Deciding(Closing),
    /// The job ended so. After Deciding it says too that the ticket was heard as gone.
    Done(Closing),
    /// The ticket of a closed job was heard as gone.
    TicketGone { job: u64 },
    /// A notification was answered.
    Sent(Sending),
}

/// The entries of a book, oldest first.
pub type Entries = Sequence<Entry>;
