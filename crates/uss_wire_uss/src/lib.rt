//! JSON messages of operational intents: what suppliers tell each other, which is the details of an intent and the notification of a
//! change; what an operator asks, which is requests, positions, cancels and sweeps; and what it is answered, which is outcomes and what
//! was swept.
//!
//! ```
//! // An operator's request is read, and its outcome written.
//! let ask = read_asks(alloc, body)?;
//! let bytes = write_outcome(alloc, &outcome)?;
//! ```
//!
//! Each reader gives the value that a message stands for, or the first refusal in the order of the format, and nothing else unless it is
//! out of memory. Each writer gives the compact text with members ascending by name; a reader gives the value back, but for outcomes and
//! what was swept, which have none.
#![tactic(auto)]

mod asks;
mod intents;
mod notes;
mod operator;
mod outcomes;
mod times;
mod volumes;
mod writing;

pub use asks::{read_asks, read_positions};
pub use notes::{read_details_answer, read_notification};
pub use operator::{read_cancels, read_sweeps, write_cancels, write_sweeps};
pub use outcomes::{write_outcome, write_swept};
pub use writing::{
    messages_are_read_again, write_asks, write_details_answer, write_notification, write_positions,
};
