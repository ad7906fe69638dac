//! Tests of the index of boxes (`uss_index`).
//!
//! `grids` looks for boxes at the borders of cells, below 0 too, for wide ones and with wide queries, in a grid of 4,000 boxes, and after
//! boxes were taken out and put in again. All of it goes through the public calls.
#![tactic(auto)]

#[cfg(test)]
mod grids;
