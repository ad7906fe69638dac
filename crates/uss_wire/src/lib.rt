//! Every JSON message that a discovery service, a supplier or a client reads or writes, for callers, who name this crate alone. A server of the discovery service reads
//! the change of a reference, and writes what came of it:
//!
//! ```
//! use uss_wire::{read_put_reference, write_change_answer};
//!
//! let ask = read_put_reference(alloc, body, flight, Some(ovn))?;
//! // ... carried out, it gives the reference as it is recorded, and those that are to be notified
//! let bytes = write_change_answer(alloc, &reference, &subscribers)?;
//! ```
//!
//! A reader answers the value that a message stands for, or the first refusal in the order of the format: `WireRefusal`, with the
//! `Member` that it is about. A writer answers compact text with members ascending by name, and its one error is out of memory. The
//! messages with the discovery service stand in `uss_wire_dss`, those between suppliers and with operators in `uss_wire_uss`, what they
//! are made of in `uss_wire_words`, refusals and instants in `uss_wire_base`.
#![tactic(auto)]

// Refusals, and the text of instants.
pub use uss_wire_base::{InstantRefusal, Member, WireRefusal, read_instant, write_instant};

// The words for identifiers and states.
pub use uss_wire_words::{flight_text, state_word, ticket_text};

// Calls of the discovery service.
pub use uss_wire_dss::{
    read_put_reference, read_put_subscription, read_query, write_put_reference,
    write_put_subscription, write_query,
};

// Its answers.
pub use uss_wire_dss::{
    ErrorBody, read_change_answer, read_error, read_get_answer, read_query_answer,
    read_subscription_answer, write_change_answer, write_error, write_get_answer,
    write_query_answer, write_subscription_answer,
};

// What suppliers tell each other.
pub use uss_wire_uss::{
    read_details_answer, read_notification, write_details_answer, write_notification,
};

// What an operator asks, and what it is answered.
pub use uss_wire_uss::{
    read_asks, read_cancels, read_positions, read_sweeps, write_asks, write_cancels, write_outcome,
    write_positions, write_sweeps, write_swept,
};
