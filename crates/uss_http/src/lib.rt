//! Messages of HTTP/1.1: requests read from a source and sent over a dial, responses written to a sink and read over a dial.
//!
//! A connection of a server, which carries one request and its response:
//!
//! ```
//! match read_request(alloc, &mut ReaderSource::new(&stream)) {
//!     Ok(request) => write_response(&mut WriterSink::new(&stream), &answer_to(request)),
//!     Err(HttpRefusal::Memory) => write_lent_response(&mut WriterSink::new(&stream), 507, NO_MEMORY),
//!     Err(HttpRefusal::Truncated | HttpRefusal::ReadFault) => {} // nothing is written
//!     Err(refusal) => refuse(&stream, refusal.number()),
//! }
//! ```
//!
//! And of a client:
//!
//! ```
//! dial.reach("b.example", 81)?;
//! write_request(alloc, &mut dial, b"b.example:81", &request)?;
//! let response = read_response(alloc, &mut dial)?;
//! dial.close();
//! ```
#![tactic(auto)]

mod reading;
mod refusal;
mod writing;

pub use reading::{read_request, read_response};
pub use refusal::HttpRefusal;
pub use uss_http_request::{Bytes, Request};
pub use uss_http_response::Response;
pub use writing::{write_lent_response, write_request, write_response};
