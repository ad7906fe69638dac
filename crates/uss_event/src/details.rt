ghost use Rattle.std.specs.Prelude.{◌≡◌};

use crate::DetailsRefusal;
use crate::pairs::refusal_of;
use std::alloc::AllocError;
use uss_intent::{FlightId, Sequence, State, Volumes};

/// What a supplier keeps of an operational intent beside its reference (OperationalIntentDetails of the OpenAPI annex of ASTM
/// F3548-21). Its extents are the volumes followed by the off-nominal volumes.
#[derive(Debug, Drop)]
pub struct Details {
    pub volumes: Volumes,
    /// Where the flight may be beside its volumes, in Nonconforming and Contingent alone.
    pub off_nominal: Volumes,
    /// 0 to 1000; the greater goes first.
    pub priority: u16,
}

impl Clone for Details {
    ghost is_clone = { λ details copy. copy ≡ details };

    fn clone(&self) -> Result<Details, AllocError> {
        Ok(Details {
            volumes: self.volumes.clone()?,
            off_nominal: self.off_nominal.clone()?,
            priority: self.priority,
        })
    }
}

impl Details {
    ghost use Rattle.std.specs.Prelude.{◌≡◌, is_ok};
    ghost use Rattle.uss_event.specs.Plans.{is_plan};
    ghost use Rattle.uss_event.specs.Refusals.{details_from};

    /// The details of an intent in this state, as the readers of messages and journals make them. The refusals come in the order of
    /// their numbers, 121 to 125. Takes no memory; refused volumes are dropped.
    pub fn of(
        state: State,
        volumes: Volumes,
        off_nominal: Volumes,
        priority: u16,
    ) -> Result<Details, DetailsRefusal>
        ensures value { result ≡ details_from state volumes off_nominal priority }
        ensures plan { is_ok result ≡ is_plan state volumes off_nominal priority }
    {
        match refusal_of(state, volumes.as_slice(), off_nominal.as_slice(), priority) {
            Some(refusal) => Err(refusal),
            None => Ok(Details {
                volumes,
                off_nominal,
                priority,
            }),
        }
    }
}

/// One alternative of a request.
#[derive(Debug, Drop)]
pub struct Proposal {
    pub volumes: Volumes,
    pub off_nominal: Volumes,
}

impl Clone for Proposal {
    ghost is_clone = { λ proposal copy. copy ≡ proposal };

    fn clone(&self) -> Result<Proposal, AllocError> {
        Ok(Proposal {
            volumes: self.volumes.clone()?,
            off_nominal: self.off_nominal.clone()?,
        })
    }
}

/// The alternatives of a request, the best first.
pub type Proposals = Sequence<Proposal>;

/// What would be recorded, to be held against the pairs of other flights.
#[derive(Debug, Drop)]
pub struct Candidate {
    pub flight: FlightId,
    pub state: State,
    pub priority: u16,
    /// Its extents.
    pub volumes: Volumes,
}
