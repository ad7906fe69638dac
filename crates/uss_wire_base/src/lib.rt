//! The words in which JSON messages are read and written, and the text of instants.
//!
//! A message is read in one pass over the value that `serde_json` makes of its bytes: each reader gives the value that the format
//! says, or the first refusal in the format's order. What is written is compact, with members ascending by name.
#![tactic(auto)]

mod instants;
mod moments;
mod reading;
mod refusal;
mod writing;

pub use instants::{InstantRefusal, read_instant, write_instant};
pub use moments::{instant, instant_value};
pub use reading::{
    ReadItem, data, each, few_items, find, integer_of, items, member_of, natural_8, natural_16,
    natural_32, natural_of, object, only_item, text, without, without_true, word,
};
pub use refusal::{Member, WireRefusal};
pub use writing::{WriteItem, list, message};
