//! The calls of the discovery service as requests, their replies and refusals as responses, and what a client makes of a response; and the
//! responses to the refusals of HTTP and of messages.
//!
//! ```
//! // A server of the discovery service, which refused a call:
//! let response = write_refusal(alloc, refusal)?;
//! write_response(output, &response)?;
//!
//! // And the client, to which the response came:
//! match read_refusal(alloc, response.status, response.body.as_slice(), &client)? {
//!     Some(refusal) => Ok(DssReply::Refused(refusal)),
//!     None => Err(DssFault::Unreadable),
//! }
//! ```
//!
//! `specs/DssRefusals.antt` has the pairs of status and body, `specs/Errors.antt` the other errors of both servers.
#![tactic(auto)]

mod addresses;
mod dss_refusals;
mod errors;
mod laws;
mod replies;
mod requests;
mod versions;

pub use addresses::Address;
pub use dss_refusals::{error_body, name_of, read_refusal, refusal_from, status_of, write_refusal};
pub use errors::{
    http_name, http_status, memory_body, message_name, message_status, write_http_refusal,
    write_message_refusal, write_not_manager,
};
pub use laws::{errors_without_references, refusals_are_read_again, replies_are_read_again};
pub use replies::{fits, ok_status, read_reply, write_reply};
pub use requests::{row_of, write_call};
pub use versions::version_of;
