//! A supplier's book: typed entries over a journal, legal at every moment.
//!
//! ```
//! let Ok(mut book) = Book::mount(alloc, FileDisk::open(&rt, "book"), owner) else {
//!     return; // the refusal says why, and hands the disk back
//! };
//! if book.may_follow(&entry) {
//!     book.enter(entry)?; // durable at Ok; after a fault of the disk `remount` finds whether it is there
//! }
//! let job = book.live_job(flight);
//! let attempt = book.entries().last_trial(1); // all else that is told, by the entries' index
//! ```
#![tactic(auto)]

mod append;
mod book;
mod judge;
mod load;
mod owner;
mod readers;
mod refusal;
mod reread;
mod start;
mod viewed;

pub use book::Book;
pub use refusal::{BookFault, BookRefusal};
pub use viewed::view;
