//! Tests of `uss_rest`: refusals and errors as responses byte for byte, replies that are written and read again, responses that are no
//! reply, and calls as requests.
#![tactic(auto)]

#[cfg(test)]
mod errors;
#[cfg(test)]
mod fixtures;
#[cfg(test)]
mod replies;
#[cfg(test)]
mod requests;
