//! The choice of an alternative: which of a request's proposals is planned beside what is known of other flights (strategic conflict
//! detection of ASTM F3548-21).
//!
//! ```
//! match choose(&table, flight, State::Accepted, priority, &proposals, pairs.as_slice(), None) {
//!     Choice::Chosen { alternative } => println!(rt; "alternative {alternative} is planned")?,
//!     Choice::Blocked { place, rule: _ } => println!(rt; "pair {place} stands against the first")?,
//! }
//! ```
//!
//! Nothing here takes memory. Each proposal is held against each pair, at most 8 against at most 1,024, up to the first that stands. Its
//! times as a whole are compared with the pair's first, and then priorities, and times, altitudes and boxes of volumes before any
//! outline.
#![tactic(auto)]

mod choice;
mod crowds;
mod laws;
mod times;

pub use choice::{Choice, choose};
pub use crowds::{PlanRefusal, crowd};
pub use laws::best_is_chosen;
