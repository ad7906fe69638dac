/// What is known of an attempt that is to be recorded, beside its OVN.
#[derive(Clone, Copy, Drop)]
pub(crate) struct Tried {
    pub(crate) job: u64,
    pub(crate) tag: u64,
    /// Which alternative of the wish, from 0.
    pub(crate) alternative: u8,
    pub(crate) version: u32,
}
