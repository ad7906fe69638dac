/// What is kept of a flight.
#[derive(Clone, Copy, Drop)]
pub(crate) struct Flight {
    /// The place of the opening of its last request.
    pub(crate) last: Option<usize>,
    /// The place of what was recorded last of it.
    pub(crate) recorded: Option<usize>,
    pub(crate) ended: bool,
}
