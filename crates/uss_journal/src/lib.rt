//! A journal of records on a disk that may crash at any moment: each record that was acknowledged is kept.
//!
//! ```
//! let Ok(mut journal) = Journal::mount(alloc, FileDisk::open(&rt, "journal")) else {
//!     return; // the refusal says why, and hands the disk back
//! };
//! if journal.append(b"a record").is_err() {
//!     journal.remount()?; // the record is in the file in whole, or it isn't there
//! }
//! for n in 0..journal.count() {
//!     let record = journal.item(n);
//! }
//! ```
#![tactic(auto)]

mod journal;
mod known;
mod law;
mod load;
mod records;
mod refusal;
mod scan;
mod staged;

pub use journal::{Journal, LIMIT};
pub use law::written_records_are_found;
pub use records::Records;
pub use refusal::{JournalRefusal, MountRefusal};
