//! The words of a supplier (a USS of ASTM F3548-21): what it is asked, what it enters into its book, what it calls, hears and
//! says, and the steps of a world of several suppliers; and the rules of strategic coordination: from which state an operational
//! intent may go to which, and what comes of holding one against another (strategic conflict detection).
//!
//! ```
//! let table = RuleTable::of(alloc, &[0, 100])?;
//! assert!(rt; table.forbids(100) && !table.forbids(5));
//! assert!(rt; may_go(Some(State::Accepted), State::Activated));
//! let pair = Pair::of(reference, details).ok_or("no pair")?;
//! match verdict(&table, &candidate, &pair, None) {
//!     Verdict::Clear => println!(rt; "nothing stands against it")?,
//!     Verdict::EqualForbidden => println!(rt; "a flight of its priority stands")?,
//!     Verdict::HigherStands => println!(rt; "a flight of a higher priority stands")?,
//! }
//! ```
//!
//! A contract sees a pair as its reference with its details, a table of rules as the list of its priorities, a list as the list of
//! its items, and every other type as it is declared.
#![tactic(auto)]

mod asks;
mod calls;
mod details;
mod entries;
mod events;
mod pairs;
mod refusals;
mod rules;
mod steps;
mod transitions;
mod verdicts;

pub use asks::{AskField, AskRefusal, Conform, FlightAsk, PositionAsk, Wish};
pub use calls::{DssCall, Note, Outgoing, PeerCall, PeerReply, Sends};
pub use details::{Candidate, Details, Proposal, Proposals};
pub use entries::{
    Closing, Ending, Entries, Entry, FlightIds, Holding, Opening, Owner, Sending, Tags, Trial,
};
pub use events::{Answer, Event, Said};
pub use pairs::{Pair, Pairs, refusal_of};
pub use refusals::DetailsRefusal;
pub use rules::{GREATEST_PRIORITY, RuleTable, Verdict};
pub use steps::{Message, Party, Step, Stopped, WorldSteps};
pub use transitions::may_go;
pub use verdicts::{verdict, verdict_of};
