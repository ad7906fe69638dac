use crate::Proposals;
use uss_intent::{State, Volumes};
use uss_shape::Place;

/// What a request wants of a flight.
#[derive(Debug, Drop)]
pub enum Wish {
    /// That it is recorded in this state, by the first alternative that nothing stands against.
    Put {
        to: State,
        priority: u16,
        /// How many attempts may be made, 1 to 16.
        rounds: u8,
        proposals: Proposals,
    },
    /// That it ends.
    End,
}

/// A request of an operator.
#[derive(Debug, Drop)]
pub struct FlightAsk {
    /// The supplier's own number of the flight.
    pub flight: u64,
    /// The request's number, which rises with each new request for the flight.
    pub number: u64,
    pub wish: Wish,
}

/// Where a flight is now, told by an operator.
#[derive(Debug, Drop)]
pub struct PositionAsk {
    pub flight: u64,
    /// The number of the request that the position may become.
    pub number: u64,
    pub place: Place,
    /// In mm above the datum.
    pub altitude: i64,
    /// Where the flight may be beside its volumes, if it isn't in them.
    pub off_nominal: Volumes,
}

/// What the conformance monitor finds of a flight (after the conformance monitoring of ASTM F3548-21; its rule is this project's
/// own).
#[derive(Clone, Copy, Debug, PartialEq, Eq)]
pub enum Conform {
    Conforming,
    Nonconforming,
    Contingent,
}

/// A part of a request, in the order in which a repeat is compared.
#[derive(Clone, Copy, Debug, PartialEq, Eq)]
pub enum AskField {
    Kind,
    To,
    Priority,
    Rounds,
    Proposals,
}

/// Why a supplier refuses an ask, a cancel or a position. Each has its number.
#[derive(Clone, Copy, Debug)]
pub enum AskRefusal {
    /// 301: the plan is refused, by the number of its own refusal, 121 to 127.
    BadPlan(u16),
    /// 302: a flight doesn't go from the one state to the other.
    WrongTransition(State, State),
    /// 303: a volume ends after this moment, which is the present one and the planning horizon.
    TooFar(i64),
    /// 304: an alternative is over.
    Past,
    /// 305: the flight's request with this number is still open.
    Busy(u64),
    /// 306: the flight's last request has this greater number.
    OldNumber(u64),
    /// 307: the request of this number was another one, first in this part.
    DifferentRepeat(AskField),
    /// 308: nothing is held of the flight.
    NoSuchFlight,
    /// 309: the flight has ended.
    Closed,
    /// 310: the book would be too full, with these bytes used and these kept free for what is open.
    BookFull(u64, u64),
    /// 312: the flight's last request has this other number.
    NotAsked(u64),
    /// 313: a position of this later moment was counted.
    OldPosition(i64),
}
