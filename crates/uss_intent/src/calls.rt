ghost use Rattle.std.specs.Prelude.{◌≡◌};

use crate::{
    Base, FlightId, Ovn, Ovns, Owed, Reference, References, State, Ticket, TicketId, Volumes,
};
use std::alloc::AllocError;
use uss_vol4::Volume4;

/// A call of the discovery service.
#[derive(Debug, Drop)]
pub enum DssAsk {
    /// The references whose extents share a point with the area.
    Query {
        area: Volume4,
    },
    /// One reference.
    Get {
        flight: FlightId,
    },
    /// Creates a reference, where there is no OVN, or changes the one that has this OVN.
    Put {
        flight: FlightId,
        ovn: Option<Ovn>,
        extents: Volumes,
        key: Ovns,
        state: State,
        base: Base,
        ticket: TicketId,
    },
    /// Ends a reference.
    Remove {
        flight: FlightId,
        ovn: Ovn,
    },
    /// Makes a ticket.
    TicketPut {
        ticket: TicketId,
        area: Volume4,
        base: Base,
    },
    /// One ticket.
    TicketGet {
        ticket: TicketId,
    },
    /// Takes a ticket out.
    TicketRemove {
        ticket: TicketId,
        version: u32,
    },
}

/// Why the discovery service refused a call. Each has its number.
#[derive(Debug, Drop, PartialEq)]
pub enum DssRefusal {
    /// 201: a Put with no extent, with more than 64, with more than 10,000 vertices together, or with more than
    /// 1,024 OVNs in its key.
    BadCall,
    /// 202: another client manages the named reference or ticket.
    NotYours,
    /// 203: the reference or ticket to be created is there.
    Exists,
    /// 204: the identifier was removed, and is never used again.
    Retired,
    /// 205: the identifier was never there.
    Absent,
    /// 206: the OVN isn't the reference's, or the version isn't the ticket's.
    StaleOvn,
    /// 207: the cited ticket isn't there, or another client manages it.
    NoTicket,
    /// 208: the extents don't lie in the area of the cited ticket, both taken as bounding boxes.
    NotCovered,
    /// 209: the key lacks the OVNs of these references, ascending by flight.
    MissingKey(References),
    /// 210: a recorded reference cites the ticket.
    TicketInUse,
    /// 211: the service can't record more; with its limit.
    Full(u64),
}

/// The reply of the discovery service to a call.
#[derive(Debug, Drop, PartialEq)]
pub enum DssReply {
    /// To a Query: the references found, ascending by flight.
    Found(References),
    /// To a Get.
    Got(Reference),
    /// To a Put: the reference as it was recorded, and who is to be notified.
    Landed {
        reference: Reference,
        subscribers: Owed,
    },
    /// To a Remove: the reference as it was, and who is to be notified.
    Removed {
        reference: Reference,
        subscribers: Owed,
    },
    /// To a TicketPut.
    TicketMade(Ticket),
    /// To a TicketGet.
    TicketGot(Ticket),
    /// To a TicketRemove: the ticket as it was.
    TicketRemoved(Ticket),
    /// To any call but a Query.
    Refused(DssRefusal),
}

impl DssRefusal {
    ghost use Rattle.std.specs.Prelude.{◌≡◌};
    ghost use Rattle.uss_intent.specs.Refusals.{refusal_number};

    /// The refusal's number, 201 to 211.
    pub fn number(&self) -> u16
        ensures { result ≡ refusal_number self.now }
    {
        match self {
            DssRefusal::BadCall => 201,
            DssRefusal::NotYours => 202,
            DssRefusal::Exists => 203,
            DssRefusal::Retired => 204,
            DssRefusal::Absent => 205,
            DssRefusal::StaleOvn => 206,
            DssRefusal::NoTicket => 207,
            DssRefusal::NotCovered => 208,
            DssRefusal::MissingKey(_) => 209,
            DssRefusal::TicketInUse => 210,
            DssRefusal::Full(_) => 211,
        }
    }
}

impl Clone for DssAsk {
    ghost is_clone = { λ ask copy. copy ≡ ask };

    fn clone(&self) -> Result<DssAsk, AllocError> {
        Ok(match self {
            DssAsk::Query { area } => DssAsk::Query {
                area: area.clone()?,
            },
            DssAsk::Get { flight } => DssAsk::Get { flight: *flight },
            DssAsk::Put {
                flight,
                ovn,
                extents,
                key,
                state,
                base,
                ticket,
            } => DssAsk::Put {
                flight: *flight,
                ovn: ovn.clone()?,
                extents: extents.clone()?,
                key: key.clone()?,
                state: *state,
                base: base.clone()?,
                ticket: *ticket,
            },
            DssAsk::Remove { flight, ovn } => DssAsk::Remove {
                flight: *flight,
                ovn: ovn.clone()?,
            },
            DssAsk::TicketPut { ticket, area, base } => DssAsk::TicketPut {
                ticket: *ticket,
                area: area.clone()?,
                base: base.clone()?,
            },
            DssAsk::TicketGet { ticket } => DssAsk::TicketGet { ticket: *ticket },
            DssAsk::TicketRemove { ticket, version } => DssAsk::TicketRemove {
                ticket: *ticket,
                version: *version,
            },
        })
    }
}

impl Clone for DssRefusal {
    ghost is_clone = { λ refusal copy. copy ≡ refusal };

    fn clone(&self) -> Result<DssRefusal, AllocError> {
        Ok(match self {
            DssRefusal::BadCall => DssRefusal::BadCall,
            DssRefusal::NotYours => DssRefusal::NotYours,
            DssRefusal::Exists => DssRefusal::Exists,
            DssRefusal::Retired => DssRefusal::Retired,
            DssRefusal::Absent => DssRefusal::Absent,
            DssRefusal::StaleOvn => DssRefusal::StaleOvn,
            DssRefusal::NoTicket => DssRefusal::NoTicket,
            DssRefusal::NotCovered => DssRefusal::NotCovered,
            DssRefusal::MissingKey(references) => DssRefusal::MissingKey(references.clone()?),
            DssRefusal::TicketInUse => DssRefusal::TicketInUse,
            DssRefusal::Full(limit) => DssRefusal::Full(*limit),
        })
    }
}

impl Clone for DssReply {
    ghost is_clone = { λ reply copy. copy ≡ reply };

    fn clone(&self) -> Result<DssReply, AllocError> {
        Ok(match self {
            DssReply::Found(references) => DssReply::Found(references.clone()?),
            DssReply::Got(reference) => DssReply::Got(reference.clone()?),
            DssReply::Landed {
                reference,
                subscribers,
            } => DssReply::Landed {
                reference: reference.clone()?,
                subscribers: subscribers.clone()?,
            },
            DssReply::Removed {
                reference,
                subscribers,
            } => DssReply::Removed {
                reference: reference.clone()?,
                subscribers: subscribers.clone()?,
            },
            DssReply::TicketMade(ticket) => DssReply::TicketMade(ticket.clone()?),
            DssReply::TicketGot(ticket) => DssReply::TicketGot(ticket.clone()?),
            DssReply::TicketRemoved(ticket) => DssReply::TicketRemoved(ticket.clone()?),
            DssReply::Refused(refusal) => DssReply::Refused(refusal.clone()?),
        })
    }
}

impl PartialEq for DssAsk {
    ghost use Rattle.std.specs.Cmp.{partial_equiv_from_equiv};
    ghost use Rattle.uss_intent.specs.Same.{same_ask};
    ghost use Rattle.uss_intent.specs.SameLaws.{same_ask_equiv};

    ghost eq = { same_ask };

    ghost laws = { partial_equiv_from_equiv same_ask_equiv };

    fn eq(&self, other: &DssAsk) -> bool {
        match self {
            DssAsk::Query { area } => matches!(other, DssAsk::Query { area: a } if area == a),
            DssAsk::Get { flight } => matches!(other, DssAsk::Get { flight: f } if flight == f),
            DssAsk::Put {
                flight,
                ovn,
                extents,
                key,
                state,
                base,
                ticket,
            } => match other {
                DssAsk::Put {
                    flight: f,
                    ovn: o,
                    extents: e,
                    key: k,
                    state: s,
                    base: b,
                    ticket: t,
                } => {
                    flight == f
                        && ovn == o
                        && extents == e
                        && key == k
                        && state == s
                        && base == b
                        && ticket == t
                }
                _ => false,
            },
            DssAsk::Remove { flight, ovn } => match other {
                DssAsk::Remove { flight: f, ovn: o } => flight == f && ovn == o,
                _ => false,
            },
            DssAsk::TicketPut { ticket, area, base } => match other {
                DssAsk::TicketPut {
                    ticket: t,
                    area: a,
                    base: b,
                } => ticket == t && area == a && base == b,
                _ => false,
            },
            DssAsk::TicketGet { ticket } => {
                matches!(other, DssAsk::TicketGet { ticket: t } if ticket == t)
            }
            DssAsk::TicketRemove { ticket, version } => match other {
                DssAsk::TicketRemove {
                    ticket: t,
                    version: v,
                } => ticket == t && version == v,
                _ => false,
            },
        }
    }
}

impl DssAsk {
    ghost use Rattle.std.specs.Prelude.{◌≡◌, ◌↔◌, IsTrue};

    /// Whether the two calls have the same values.
    pub fn is_same(&self, other: &DssAsk) -> bool
        ensures { IsTrue result ↔ (self.now ≡ other.now) }
    {
        self == other
    }
}
