//! Tests of what the program does at its edge: its streams (`uss_link`) and its commands (`uss_app`). All of it goes through the public
//! calls.
//!
//! `streams` reads sources whole, writes to sinks and speaks over dials, each in memory and over real streams, with calls that fail;
//! `commands` carries out the program's commands over streams in memory.
#![tactic(auto)]

#[cfg(test)]
mod commands;
#[cfg(test)]
mod streams;
