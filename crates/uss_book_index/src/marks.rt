ghost use Rattle.std.specs.Prelude.{◌≡◌};
ghost use Rattle.uss_book_index.specs.Marks.{mark_of};

use uss_event::{Closing, Entry, Holding, Opening, Sending, Trial};

/// What an entry is looked up by: its kind, and the job, the tag, or the job and the index of a notification.
#[derive(Clone, Copy, PartialEq, Eq, PartialOrd, Ord, Drop)]
pub(crate) enum Mark {
    Owner,
    Opened(u64),
    TicketOpen(u64),
    Pending(u64),
    Held(u64),
    Deciding(u64),
    Done(u64),
    TicketGone(u64),
    Sent(u64, u32),
}

/// The mark of an entry.
pub(crate) fn mark_of(entry: &Entry) -> Mark
    ensures { result ≡ mark_of entry.now }
{
    match entry {
        Entry::Owner(_) => Mark::Owner,
        Entry::Opened(Opening { job, .. }) => Mark::Opened(*job),
        Entry::TicketOpen { job } => Mark::TicketOpen(*job),
        Entry::Pending(Trial { tag, .. }) => Mark::Pending(*tag),
        Entry::Held(Holding { job, .. }) => Mark::Held(*job),
        Entry::Deciding(Closing { job, .. }) => Mark::Deciding(*job),
        Entry::Done(Closing { job, .. }) => Mark::Done(*job),
        Entry::TicketGone { job } => Mark::TicketGone(*job),
        Entry::Sent(Sending { job, index }) => Mark::Sent(*job, *index),
    }
}
