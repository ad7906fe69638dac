ghost use Rattle.std.specs.Prelude.{◌≡◌, ◌↔◌, IsTrue, Some};

use crate::{Base, FlightId, Name, Ovn, TicketId, Volumes};
use std::alloc::AllocError;
use std::fmt;
use uss_vol4::Volume4;

/// The state of an operational intent (ASTM F3548-21, operational intent states, but for Ended, which is no state
/// of a recorded reference).
#[derive(Clone, Copy, Debug)]
pub enum State {
    /// Planned: the volumes are the flight's, and it isn't flown yet.
    Accepted = 1,
    /// The flight is flown within its volumes.
    Activated = 2,
    /// The flight left its volumes, and may come back.
    Nonconforming = 3,
    /// The flight isn't expected to come back into its volumes.
    Contingent = 4,
}

impl State {
    ghost use Rattle.std.specs.Prelude.{◌≡◌};
    ghost use Rattle.uss_intent.specs.States.{state_number, is_strategic};

    /// An intent in this state is kept apart from others: conflict is looked at, and a change into it has to carry a key.
    pub fn is_strategic(self) -> bool
        ensures { result ≡ is_strategic self }
    {
        match self {
            State::Accepted | State::Activated => true,
            State::Nonconforming | State::Contingent => false,
        }
    }

    /// The state's number, 1 to 4 in the order of their declaration.
    pub fn number(self) -> u8
        ensures { result ≡ state_number self }
    {
        self as u8
    }
}

impl PartialEq for State {
    ghost use Rattle.std.specs.Prelude.{◌≡◌, ◌↔◌, IsTrue};
    ghost use Rattle.std.specs.Cmp.{partial_equiv_from_equiv};
    ghost use Rattle.std.proofs.lemmas.Cmp.{on_equiv, nat_eq_equiv};
    ghost use Rattle.uss_intent.specs.States.{state_number, same_state};

    ghost eq = { same_state };

    ghost laws = { partial_equiv_from_equiv (on_equiv state_number nat_eq_equiv) };

    fn eq(&self, other: &State) -> bool
        ensures value { result ≡ same_state self.now other.now }
        ensures same { IsTrue result ↔ (self.now ≡ other.now) }
    {
        self.number() == other.number()
    }
}

impl Eq for State {
    ghost use Rattle.std.proofs.lemmas.Cmp.{on_equiv, nat_eq_equiv};
    ghost use Rattle.uss_intent.specs.States.{state_number};

    ghost laws = { on_equiv state_number nat_eq_equiv };
}

impl fmt::Display for State {
    ghost use Rattle.std.specs.Prelude.{Some};
    ghost use Rattle.uss_intent.specs.States.{state_text};

    ghost output = { λ state. Some (state_text state) };

    fn fmt<W: fmt::Write>(&self, f: &mut fmt::Formatter<W>) -> fmt::Result {
        f.write_str(match *self {
            State::Accepted => "Accepted",
            State::Activated => "Activated",
            State::Nonconforming => "Nonconforming",
            State::Contingent => "Contingent",
        })
    }
}

/// The reference of an operational intent, as the discovery service records it (OperationalIntentReference of the
/// OpenAPI annex of ASTM F3548-21).
#[derive(Debug, Drop, PartialEq)]
pub struct Reference {
    /// Whose intent it is: one flight's.
    pub flight: FlightId,
    /// The client that manages it, and that keeps its details.
    pub manager: Name,
    /// 1 at its creation, and one more at each change.
    pub version: u32,
    pub state: State,
    /// The opaque version number, where it is shown.
    pub ovn: Option<Ovn>,
    /// The least start of the extents, in ns since 1970-01-01T00:00:00Z.
    pub start: i64,
    /// The greatest end of the extents, in ns since 1970-01-01T00:00:00Z.
    pub end: i64,
    /// Where its details are fetched.
    pub base: Base,
    /// The ticket that it cites.
    pub ticket: TicketId,
}

impl Clone for Reference {
    ghost is_clone = { λ reference copy. copy ≡ reference };

    fn clone(&self) -> Result<Reference, AllocError> {
        Ok(Reference {
            flight: self.flight,
            manager: self.manager.clone()?,
            version: self.version,
            state: self.state,
            ovn: self.ovn.clone()?,
            start: self.start,
            end: self.end,
            base: self.base.clone()?,
            ticket: self.ticket,
        })
    }
}

/// A reference with the extents that the discovery service keeps beside it.
#[derive(Debug, Drop, PartialEq)]
pub struct Recorded {
    pub reference: Reference,
    /// The volumes followed by the off-nominal volumes.
    pub extents: Volumes,
}

impl Clone for Recorded {
    ghost is_clone = { λ recorded copy. copy ≡ recorded };

    fn clone(&self) -> Result<Recorded, AllocError> {
        Ok(Recorded {
            reference: self.reference.clone()?,
            extents: self.extents.clone()?,
        })
    }
}

/// A ticket at the discovery service: a subscription that belongs to one job of its manager (Subscription of the
/// OpenAPI annex of ASTM F3548-21).
#[derive(Debug, Drop, PartialEq)]
pub struct Ticket {
    pub id: TicketId,
    /// The client that made it.
    pub manager: Name,
    /// Where and when its manager wants to be notified of changes.
    pub area: Volume4,
    /// Where its manager is notified.
    pub base: Base,
    /// How often its manager was named a subscriber of it.
    pub index: u64,
}

impl Clone for Ticket {
    ghost is_clone = { λ ticket copy. copy ≡ ticket };

    fn clone(&self) -> Result<Ticket, AllocError> {
        Ok(Ticket {
            id: self.id,
            manager: self.manager.clone()?,
            area: self.area.clone()?,
            base: self.base.clone()?,
            index: self.index,
        })
    }
}

/// Who is to be notified of a change, and by which ticket (SubscriberToNotify of the OpenAPI annex of ASTM F3548-21).
#[derive(Debug, Drop, PartialEq)]
pub struct Subscriber {
    /// Where to tell it.
    pub base: Base,
    pub ticket: TicketId,
    /// The ticket's index after this change.
    pub index: u64,
}

impl Clone for Subscriber {
    ghost is_clone = { λ subscriber copy. copy ≡ subscriber };

    fn clone(&self) -> Result<Subscriber, AllocError> {
        Ok(Subscriber {
            base: self.base.clone()?,
            ticket: self.ticket,
            index: self.index,
        })
    }
}

/// One creation or change of a reference in the history of the discovery service. This project's own.
#[derive(Debug, Drop, PartialEq)]
pub struct Landing {
    /// The OVN that it was given.
    pub ovn: Ovn,
    pub manager: Name,
    /// The tag of the base that the reference got, and 0 where that has none.
    pub tag: u64,
    pub flight: FlightId,
    /// The OVN of the reference that it changed, and none for a creation.
    pub previous: Option<Ovn>,
    /// The ticket that it cited.
    pub ticket: TicketId,
}

impl Clone for Landing {
    ghost is_clone = { λ landing copy. copy ≡ landing };

    fn clone(&self) -> Result<Landing, AllocError> {
        Ok(Landing {
            ovn: self.ovn.clone()?,
            manager: self.manager.clone()?,
            tag: self.tag,
            flight: self.flight,
            previous: self.previous.clone()?,
            ticket: self.ticket,
        })
    }
}

impl Reference {
    ghost use Rattle.std.specs.Prelude.{◌≡◌, ◌↔◌, IsTrue};

    /// Whether the two references have the same values.
    pub fn is_same(&self, other: &Reference) -> bool
        ensures { IsTrue result ↔ (self.now ≡ other.now) }
    {
        self == other
    }
}

impl Recorded {
    ghost use Rattle.std.specs.Prelude.{◌≡◌, ◌↔◌, IsTrue};

    /// Whether the two recorded references have the same values.
    pub fn is_same(&self, other: &Recorded) -> bool
        ensures { IsTrue result ↔ (self.now ≡ other.now) }
    {
        self == other
    }
}

impl Ticket {
    ghost use Rattle.std.specs.Prelude.{◌≡◌, ◌↔◌, IsTrue};

    /// Whether the two tickets have the same values.
    pub fn is_same(&self, other: &Ticket) -> bool
        ensures { IsTrue result ↔ (self.now ≡ other.now) }
    {
        self == other
    }
}

impl Subscriber {
    ghost use Rattle.std.specs.Prelude.{◌≡◌, ◌↔◌, IsTrue};

    /// Whether the two subscribers have the same values.
    pub fn is_same(&self, other: &Subscriber) -> bool
        ensures { IsTrue result ↔ (self.now ≡ other.now) }
    {
        self == other
    }
}

impl Landing {
    ghost use Rattle.std.specs.Prelude.{◌≡◌, ◌↔◌, IsTrue};

    /// Whether the two landings have the same values.
    pub fn is_same(&self, other: &Landing) -> bool
        ensures { IsTrue result ↔ (self.now ≡ other.now) }
    {
        self == other
    }
}
