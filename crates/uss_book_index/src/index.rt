use crate::firsts::Firsts;
use crate::flights::Flights;
use crate::ordinals::Ordinals;
use crate::records::Records;
use crate::tallies::Tallies;

/// The index over the entries of a book.
#[derive(Drop)]
pub(crate) struct Index {
    /// The last job: they are numbered from 1 without a gap.
    pub(crate) jobs: u64,
    /// The last tag, likewise.
    pub(crate) tags: u64,
    pub(crate) firsts: Firsts,
    pub(crate) tallies: Tallies,
    pub(crate) flights: Flights,
    pub(crate) ordinals: Ordinals,
    pub(crate) records: Records,
}
