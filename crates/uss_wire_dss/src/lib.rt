//! The messages between a client and the discovery service, after the OpenAPI annex of ASTM F3548-21 in this project's profile: the calls,
//! and the answers with references or a ticket, to changes with those that are to be notified, and errors.
//!
//! ```
//! // What a query found is written by the service, and read by the client that asked.
//! let bytes = write_query_answer(alloc, &references)?;
//! let found = read_query_answer(alloc, bytes.as_slice(), &client)?;
//! ```
//!
//! Each reader gives the value that a message stands for, or the first refusal in the order of the format, and nothing else unless it is
//! out of memory. Each writer gives the compact text with members ascending by name; a reader gives the value back, where one could have
//! given it.
#![tactic(auto)]

mod call_writing;
mod calls;
mod changes;
mod errors;
mod replies;
mod reply_writing;

pub use call_writing::{
    messages_are_read_again, write_put_reference, write_put_subscription, write_query,
};
pub use calls::{read_put_reference, read_put_subscription, read_query};
pub use changes::read_change_answer;
pub use errors::{ErrorBody, errors_are_read_again, read_error, write_error};
pub use replies::{read_get_answer, read_query_answer, read_subscription_answer};
pub use reply_writing::{
    changes_are_read_again, references_are_read_again, write_change_answer, write_get_answer,
    write_query_answer, write_subscription_answer,
};
