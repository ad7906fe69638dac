//! What JSON messages are made of. Volumes: the Volume4D of the OpenAPI annex of ASTM F3548-21 with a polygon, in whole numbers of 1e-7
//! degrees and mm. Operational intents: their names, base URLs, OVNs, states and identifiers, their references, tickets, and those that
//! are to be notified of a change.
#![tactic(auto)]

mod reference_writing;
mod references;
mod texts;
mod volume_writing;
mod volumes;

pub use reference_writing::{
    ReferenceWriter, SubscriberWriter, flight_text, reference_value, state_word, ticket_text,
    ticket_value,
};
pub use references::{AnsweredReader, answered_reference, intent_reference, references_of};
pub use texts::{
    OvnReader, base_of, flight_of, name_of, optional_ovn, ovn_of, state_of, ticket_of,
};
pub use volume_writing::{VolumeWriter, time_value, volume_value, volumes_are_read_again};
pub use volumes::{VolumeReader, time_of, volume};
