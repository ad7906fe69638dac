//! Scripts: the text of the commands' input, line by line and word by word. What a text says is a definition
//! over its bytes, apart from the readers here, which go through the bytes once and copy none of them.
//!
//! ```
//! let script = read_conflict(alloc, b"a rect 0 0 10 10 0 100 1700003600000000000 1700005400000000000\n")?;
//! assert!(rt; script.a.len() == 1 && script.b.is_empty());
//! match read_discover(alloc, b"alpha fly") {
//!     Ok(lines) => println!(rt; "{} calls", lines.len())?,
//!     Err(refusal) => println!(rt; "{refusal}")?, // refused 441 line 1
//! }
//! ```
#![tactic(auto)]

mod asks;
mod conflict;
mod discover;
mod intents;
mod lines;
mod numbers;
mod refusal;
mod replies;
mod volumes;
mod words;

pub use conflict::{ConflictScript, read_conflict};
pub use discover::{DiscoverLine, DiscoverLines, read_discover};
pub use lines::MOST_BYTES;
pub use numbers::{integer, natural};
pub use refusal::{ScriptRefusal, WordRefusal};
pub use replies::write_reply;
