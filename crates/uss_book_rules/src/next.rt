// Whether an entry is due after those of a book, whatever its kind.
ghost use Rattle.std.specs.Prelude.{◌≡◌};
ghost use Rattle.uss_law_book.specs.Legal.{is_owner};
ghost use Rattle.uss_book_rules.specs.Next.{is_placed, is_allowed, is_due};

use crate::{
    Tells, may_decide, may_end, may_hold, may_open, may_open_ticket, may_retire, may_send, may_try,
};
use uss_event::{Closing, Entry, Holding, Opening, Sending, Trial};

fn is_owner(entry: &Entry) -> bool
    ensures { result ≡ is_owner entry.now }
{
    matches!(entry, Entry::Owner(_))
}

fn is_placed<T: Tells>(book: &T, entry: &Entry) -> bool
    ensures { result ≡ is_placed (T.entries book.now) entry.now }
{
    if is_owner(entry) {
        book.is_new()
    } else {
        !book.is_new()
    }
}

fn is_allowed<T: Tells>(book: &T, entry: &Entry) -> bool
    ensures { result ≡ is_allowed (T.entries book.now) entry.now }
{
    match entry {
        Entry::Owner(_) => true,
        Entry::Opened(Opening { job, ask, .. }) => may_open(book, *job, ask),
        Entry::TicketOpen { job } => may_open_ticket(book, *job),
        Entry::Pending(
            Trial {
                job,
                tag,
                alternative,
                previous,
                key,
            },
        ) => may_try(book, *job, *tag, *alternative, previous, key),
        Entry::Held(Holding { job, tag, .. }) => may_hold(book, *job, *tag),
        Entry::Deciding(Closing { job, end }) => may_decide(book, *job, end),
        Entry::Done(Closing { job, end }) => may_end(book, *job, end),
        Entry::TicketGone { job } => may_retire(book, *job),
        Entry::Sent(Sending { job, index }) => may_send(book, *job, *index),
    }
}

/// Whether the entry is due: it says whose book it is exactly where the book is new, and the entries before it allow it. Takes no
/// memory. Whether it has a coding, and whether there is room for it, is not asked here.
#[tactic(auto, unfolding(crate::specs::Next::is_due))]
pub fn is_due<T: Tells>(book: &T, entry: &Entry) -> bool
    ensures { result ≡ is_due (T.entries book.now) entry.now }
{
    is_placed(book, entry) && is_allowed(book, entry)
}
