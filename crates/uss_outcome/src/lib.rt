//! What comes of a request to a supplier, and how it is printed.
//!
//! ```
//! let outcome = Outcome::Answer(Answer::Crowded { count: 1025 });
//! assert_eq!(rt; format!(in alloc; "{outcome}")?.as_str(), "crowded 1025");
//! ```
#![tactic(auto)]

mod lists;
mod outcome;
mod words;

pub use outcome::Outcome;
