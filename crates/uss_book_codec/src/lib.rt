//! The entries of a supplier's book as bytes, each within the limits of its values.
//!
//! ```
//! let bytes = write(alloc, &Entry::TicketOpen { job: 1 })?; // b"\x03\0\0\0\0\0\0\0\x01"
//! let entry = read(alloc, &bytes)?; // the entry again, and None of bytes that are no coding
//! ```
//!
//! `specs/Coding.antt` says which bytes the coding of an entry is, and `specs/Reading.antt` how they are read field by field. What
//! is read is spelled so, each byte of it, and what is spelled so is read; each entry has one coding. `specs/Worked.antt` has entries
//! with their bytes by hand.
#![tactic(auto)]

mod asks;
mod coding;
mod endings;
mod entries;
mod law;
mod lengths;
mod owner;
mod values;

pub use coding::{read, write};
pub use law::{codings_have_their_length, further_worked_codings, one_coding_each, worked_codings};
pub use lengths::{length_of, opening_length};
