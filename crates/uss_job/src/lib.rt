//! What a job of a supplier does next: by its book where it waits for nothing, and by the reply to the call that it waits for; and the calls
//! that it makes. A job is what a supplier does for one request.
//!
//! ```
//! // the job is resumed: by its book it makes a call, which it waits for from now on
//! let view = view_of(entries, opening, None);
//! let Duty::Call(kind) = resume(&view) else { return Ok(()) };
//! let Some(ask) = call_of(alloc, owner, entries, opening, kind)? else { return Ok(()) };
//! let call = Outgoing::Dss(DssCall { job: opening.job, ask });
//! // the discovery service replies; `left` says whether a reference is to be asked for
//! let view = view_of(entries, opening, Some(&call));
//! match on_reply(&view, heard_of_dss(owner, entries, opening, &reply, left)) {
//!     Duty::Hold => println!(rt; "what the reply shows is entered as held")?,
//!     duty => println!(rt; "{duty:?}")?,
//! }
//! ```
//!
//! Each function is equal to the definition of its name in the law of suppliers, `uss_law_supplier`: `specs/Table.antt` has the table,
//! `specs/Calls.antt` the calls, and `specs/Jobs.antt` how a job is seen and what a reply says to it. So a job that always resumes, always
//! chooses, or takes one row of the table for another is refused.
//!
//! Only `call_of` takes memory: a call owns its values. It asks the book a few questions, each in time logarithmic in the entries, and looks
//! at each volume of the job's alternatives once where a call has their area. The others take no memory. What was heard of the intents of
//! others isn't known here: whether a reference is left to be asked for, and of whom, is told by who keeps it.
#![tactic(auto)]

mod area;
mod calls;
mod heard;
mod table;
mod view;

pub use calls::call_of;
pub use heard::{heard_of_dss, heard_of_peer};
pub use table::{on_reply, resume};
pub use view::view_of;
