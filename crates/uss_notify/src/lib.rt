//! What the entries of a supplier's book say of the chores of closed jobs: definitions and laws, and no code that runs but the type of
//! what they say. A chore is to notify a subscriber of a change, or to take out the ticket of a closed job.
//!
//! ```
//! // job 1 of flight 7 has its ticket, and recorded something of which two subscribers are to be notified; one of them was
//! let changes = [
//!     NoticeChange::TicketOpened { job: 1 },
//!     NoticeChange::Closed { job: 1, flight: 7, landed: true, ended: false, gone: false, owed: 2 },
//!     NoticeChange::Sent { job: 1, index: 0 },
//! ];
//! ```
//!
//! `specs/Changes.antt` says what each entry says, and `specs/After.antt` which chores there are after a list of changes, by filters and
//! look-ups in this list alone: here `Notify { job: 1, index: 1 }`, and no ticket, since the job's is needed. The law says that these are the
//! book's chores, so that who hears the changes needs no book.
#![tactic(auto)]

mod changes;
mod laws;

pub use changes::NoticeChange;
pub use laws::{chores_follow_from_the_changes, worked_changes};
