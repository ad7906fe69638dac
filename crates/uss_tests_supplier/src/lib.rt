//! Tests of what a supplier decides by, through the public calls alone.
//!
//! | Module | Tests |
//! |---|---|
//! | `positions` | `uss_conform`: what the monitor finds, and which positions it refuses |
//! | `rows` | `uss_job`: what a job does next, row by row of its table |
//! | `calls` | `uss_job`: the calls of the jobs of one book, and what replies say to them |
#![tactic(auto)]

#[cfg(test)]
mod calls;
#[cfg(test)]
mod positions;
#[cfg(test)]
mod rows;
