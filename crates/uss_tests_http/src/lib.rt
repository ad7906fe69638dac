//! Tests of HTTP by its public calls: which requests are read and which refused, byte by byte and whole, with limits and faults
//! (`requests`); the same of responses (`responses`); what is written and read again over sources, sinks and dials, and one
//! exchange over the loopback (`exchanges`); and which targets are routed, with OVNs in paths (`routes`).
//!
//! ```
//! rt test    # in this crate's folder
//! ```
#![tactic(auto)]

#[cfg(test)]
mod exchanges;
#[cfg(test)]
mod numbers;
#[cfg(test)]
mod requests;
#[cfg(test)]
mod responses;
#[cfg(test)]
mod routes;
