//! Tests of the messages of `uss_wire`: that hostile and good ones are answered by the number and the member that were written down by
//! hand, lists at their limits, the fields of what was read, and that messages are read and written again byte for byte.
#![tactic(auto)]

#[cfg(test)]
mod bad_json;
#[cfg(test)]
mod calls;
#[cfg(test)]
mod changes;
#[cfg(test)]
mod fields;
#[cfg(test)]
mod hostile;
#[cfg(test)]
mod instants;
#[cfg(test)]
mod kinds;
#[cfg(test)]
mod limits;
#[cfg(test)]
mod messages;
#[cfg(test)]
mod replies;
#[cfg(test)]
mod written;
