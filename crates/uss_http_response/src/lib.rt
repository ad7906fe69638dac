//! Responses of HTTP/1.1 taken from the open stream of a dial.
//!
//! ```
//! dial.reach("b.example", 81)?;
//! send_all(&mut dial, request)?;
//! match response_from(alloc, &mut dial) {
//!     Ok(response) => use_answer(response.status, response.body),
//!     Err(refusal) => give_up(refusal),
//! }
//! ```
#![tactic(auto)]

mod dials;
mod heads;
mod response;
mod rest;

pub use dials::response_from;
pub use heads::{BodyEnd, ResponseHeads, StatusHead, take_status_head};
pub use response::{Response, take_response};
pub use rest::take_rest;
