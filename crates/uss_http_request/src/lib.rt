//! Messages of HTTP/1.1 over bytes: heads, bodies by length and in chunks, and requests.
//!
//! ```
//! let mut source = MemorySource::new(alloc, bytes);
//! match request_from(alloc, &mut source) {
//!     Ok(request) => serve(request.method, request.path, request.body),
//!     Err(ReadRefusal::Truncated) => {} // the bytes ended inside a request
//!     Err(refusal) => refuse(refusal),
//! }
//! ```
#![tactic(auto)]

mod body;
mod chunk;
mod chunk_pieces;
mod data;
mod dials;
mod fields;
mod halt;
mod heads;
mod intake;
mod line_ends;
mod piece;
mod refusal;
mod request;
mod sources;
mod stream;
mod target;
mod trailers;

pub use body::take_body;
pub use chunk::{BODY_LIMIT, Turn, piece_refusal, take_chunk};
pub use chunk_pieces::{ChunkEnd, SizeLine};
pub use data::take_data;
pub use dials::FromDial;
pub use fields::{Framing, Values, body_framing, client_name};
pub use halt::Halt;
pub use heads::{Bytes, Head, RequestHeads, head_refusal, make_all, places, take_head};
pub use intake::{Intake, More};
pub use line_ends::fields_may_end;
pub use piece::{Look, PIECE_LIMIT, Piece, take_piece};
pub use refusal::ReadRefusal;
pub use request::{Request, take_request};
pub use sources::{FromSource, request_from};
pub use stream::{Stream, StreamFault};
pub use trailers::{Trailers, take_trailers};
