//! The entries of a supplier's book with an index over them, so that the readers of the book answer in time logarithmic in the
//! entries; finding the next notification to send takes that for each index that it passes.
//!
//! ```
//! let mut entries = Entries::new(alloc);
//! if entries.may_follow(&entry) {
//!     entries.make_room(&entry)?; // all the memory that it takes
//!     entries.enter(entry);
//! }
//! let opening = entries.open_job(flight);
//! let index = entries.unsent(job, 0); // of the next notification to send
//! ```
#![tactic(auto)]

mod attempts;
mod entries;
mod firsts;
mod flight;
mod flights;
mod index;
mod indexed;
mod made;
mod marks;
mod ordinal;
mod ordinals;
mod owed;
mod records;
mod reserve;
mod room;
mod tallies;
mod tally;
mod tells;
mod times;
mod tried;

pub use entries::Entries;
