/// Where a box stands: the column and the row of a cell that it touches, and its identifier.
#[derive(Clone, Copy, PartialEq, Eq, PartialOrd, Ord, Drop)]
pub(crate) struct Slot {
    pub(crate) x: i64,
    pub(crate) y: i64,
    pub(crate) id: u64,
}
