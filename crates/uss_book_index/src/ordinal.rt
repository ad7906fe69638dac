/// Which attempt of a job: its number among the job's, from 0, the oldest first.
#[derive(Clone, Copy, PartialEq, Eq, PartialOrd, Ord, Drop)]
pub(crate) struct Ordinal {
    pub(crate) job: u64,
    pub(crate) number: usize,
}
