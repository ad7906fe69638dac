//! Laws of HTTP: the same bytes have one answer, what is written of a request or a response is read again as it was, and each base
//! URL has a host that a request can name. No code that runs. A law is an empty function, whose contract a proof takes by citing
//! the function:
//!
//! ```
//! use uss_law_http::requests_are_read_again;
//!
//! // from here on the proof has the contract: what was written is read again
//! requests_are_read_again();
//! ```
#![tactic(auto)]

mod read_again;
mod same_bytes;

pub use read_again::{
    hosts_of_bases_are_named, requests_are_read_again, responses_are_read_again, worked_hosts,
};
pub use same_bytes::{one_answer, one_answer_of_a_read, one_body, one_head, one_response};
