use crate::marks::Mark;
use crate::ordinal::Ordinal;
use uss_event::Pair;

/// What an entry needs room for, and what it records.
#[derive(Drop)]
pub(crate) struct Room {
    pub(crate) mark: Mark,
    pub(crate) job: u64,
    /// The flight of which it changes what is kept.
    pub(crate) flight: Option<u64>,
    /// Which attempt of its job it makes.
    pub(crate) ordinal: Option<Ordinal>,
    /// What it records of the flight, made beforehand.
    pub(crate) pair: Option<Pair>,
}
