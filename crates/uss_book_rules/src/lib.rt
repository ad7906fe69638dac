//! What a supplier's book tells, and whether a further entry may follow.
//!
//! ```
//! let entries = book.entries(); // any form of a book that `Tells`
//! if may_open(entries, job, &ask) {
//!     let entry = Entry::Opened(Opening { job, moment, ask });
//!     // is_due(entries, &entry) is true
//! }
//! ```
//!
//! `Tells` is what any form of a book answers: each answer is a filter or a look-up in the list of its entries.
#![tactic(auto)]

mod due;
mod ends;
mod law;
mod next;
mod opens;
mod tells;

pub use due::{
    holding, is_closed, is_open, is_ticket_gone, may_decide, may_hold, may_open_ticket, may_retire,
    may_send, may_try, owed_by,
};
pub use ends::may_end;
pub use law::tests_are_exact;
pub use next::is_due;
pub use opens::may_open;
pub use tells::Tells;
