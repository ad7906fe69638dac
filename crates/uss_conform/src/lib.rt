//! The conformance monitor: where a flight is, by the positions that its operator tells, beside the volumes that are held of it (after the
//! conformance monitoring for situational awareness of ASTM F3548-21; the rule of 60 seconds is this project's own).
//!
//! ```
//! // a monitor for each flight; the flight is 500 m above its volumes, and a minute later it still is
//! let mut monitor = Monitor::new();
//! let first = monitor.position(held.volumes.as_slice(), place, 1_500_000, START);
//! assert!(rt; first == Ok(Conform::Nonconforming));
//! let later = monitor.position(held.volumes.as_slice(), place, 1_500_000, START + PATIENCE);
//! assert!(rt; later == Ok(Conform::Contingent));
//! let before = monitor.position(held.volumes.as_slice(), place, 0, START);
//! assert!(rt; before == Err(ConformRefusal::OldPosition(START + PATIENCE)));
//! ```
//!
//! A contract sees a monitor as what is known of its flight: when it was last seen, since when it is outside, and whether it was found
//! Contingent. That is the fold over the positions that were counted, as a supplier's step defines it.
//!
//! A monitor is three numbers, and is copied: a supplier that may still refuse a position asks a copy, and keeps the copy once the
//! position counts. Nothing here takes memory. A position costs one look at each held volume up to the first that holds it, with altitude
//! and time before the outline; of a flight that was found Contingent no volume is looked at.
#![tactic(auto)]

mod monitor;
mod refusal;

pub use monitor::{Monitor, PATIENCE};
pub use refusal::ConformRefusal;
