//! The words of the whole product: operational intents, their identifiers, and the calls and replies of the
//! discovery service (the DSS of ASTM F3548-21).
//!
//! ```
//! let base = Base::of(alloc, b"http://uss1.test")?.tagged(alloc, 12)?;
//! assert_eq!(rt; base.as_str(), "http://uss1.test/a/12");
//! assert_eq!(rt; tag_of(&base), Some(12));
//! let flight = flight_id(1, 1);
//! assert_eq!(rt; format!(in alloc; "{flight}")?.as_str(), "00000001-0000-4000-8000-000000000001");
//! ```
//!
//! A contract sees a name, an OVN or a base URL as its bytes, an identifier as its number, a list as the list of
//! its items, and every other type as it is declared.
#![tactic(auto)]

mod bases;
mod calls;
mod identifiers;
mod limits;
mod lists;
mod names;
mod records;
mod refusals;
mod tags;

pub use bases::Base;
pub use calls::{DssAsk, DssRefusal, DssReply};
pub use identifiers::{FlightId, TicketId, flight_id, ticket_id};
pub use limits::{
    LAST_VERSION, MOST_EXTENTS, MOST_LANDINGS, MOST_OVNS, MOST_REFERENCES, MOST_TICKETS,
    MOST_VERTICES,
};
pub use lists::{Landings, Ovns, Owed, References, Sequence, Volumes};
pub use names::{Name, Ovn};
pub use records::{Landing, Recorded, Reference, State, Subscriber, Ticket};
pub use refusals::IntentRefusal;
pub use tags::tag_of;
