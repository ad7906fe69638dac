//! The laws of messages: that what was read is written and read again as the same, what is refused first, what a client is shown, and
//! instants that were worked out by hand. No code that runs.
#![tactic(auto)]

mod instants;
mod laws;
mod order;

pub use instants::worked_instants;
pub use laws::{
    answers_are_read_again, answers_show_own_ovns_alone, answers_that_were_read_are_read_again,
    calls_that_were_read_are_read_again, events_that_were_read_are_read_again,
};
pub use order::{
    long_lists_are_refused_before_their_items, members_without_a_name_here_are_ignored,
    what_the_profile_refuses_comes_first,
};
