/// What is counted of a job.
#[derive(Clone, Copy, Drop)]
pub(crate) struct Tally {
    /// Its attempts.
    pub(crate) attempts: usize,
    /// The bytes of the records of its entries after its opening. 128 bits hold those of any list that memory holds.
    pub(crate) bytes: u128,
}
