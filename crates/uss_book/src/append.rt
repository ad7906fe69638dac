// The coding of an entry is appended to the journal.
ghost use Rattle.std.specs.Prelude.{◌≡◌, ◌↔◌, ◌≤◌, ◌+◌, List, ℕ, Some, None, length, IfOk, OnOk};
ghost use Rattle.uss_disk.specs.Disk.{CrashLeaves};
ghost use Rattle.uss_journal.specs.Format.{limit, used_of};
ghost use Rattle.uss_journal.specs.Journal.{StandsFor, WithOrWithout};
ghost use Rattle.uss_law_book.specs.Coding.{HasCoding};
ghost use Rattle.uss_book_codec.specs.Coding.{coding_of};
ghost use Rattle.uss_book_index.specs.Known.{IsReadyFor};
ghost use Rattle.uss_book.specs.Append.{Came, OnDone, IsRefusalThatFits, outcome_of};

use std::alloc::{AllocError, Global};
use uss_book_codec::write;
use uss_book_index::Entries;
use uss_disk::Disk;
use uss_event::Entry;
use uss_journal::{Journal, JournalRefusal};

/// What comes of an append of a record that fits.
pub(crate) enum AppendOutcome {
    Done,
    /// The disk answered a fault.
    Faulted,
    /// Memory is wanting.
    NoMemory,
}

/// Appends a record that fits to a journal that isn't spent.
pub(crate) fn append<D: Disk>(journal: &mut Journal<D>, bytes: &[u8]) -> AppendOutcome
    requires unspent { journal.old.spent ≡ None }
    requires fits { used_of journal.old.records + 5 + length bytes.now ≤ limit }
    ensures answer { Came D.fault_count journal.old bytes.now result journal.new }
    ensures count { D.fault_count journal.old.disk ≤ D.fault_count journal.new.disk }
    ensures calm { OnDone result (D.fault_count journal.new.disk ≡ D.fault_count journal.old.disk) }
    ensures honest { D.is_honest journal.new.disk ↔ D.is_honest journal.old.disk }
    ensures crash { D.is_honest journal.old.disk → CrashLeaves D.moment D.left_since
        (WithOrWithout journal.old.records (Some bytes.now)) journal.old.disk journal.new.disk }
    ensures durable { D.is_honest journal.old.disk → OnDone result ((image : List ℕ) → D.may_leave journal.new.disk image → StandsFor journal.new.records image) }
{
    match journal.append(bytes) {
        Ok(()) => AppendOutcome::Done,
        Err(refusal) => refused(refusal),
    }
}

/// What comes of it where the journal answers this.
fn refused(refusal: JournalRefusal) -> AppendOutcome
    requires { IsRefusalThatFits refusal }
    ensures { result ≡ outcome_of refusal }
{
    match refusal {
        JournalRefusal::DiskFault => AppendOutcome::Faulted,
        JournalRefusal::Memory => AppendOutcome::NoMemory,
        JournalRefusal::JournalFull | JournalRefusal::NotAJournal(_) | JournalRefusal::Spent(_) => {
            unreachable!()
        }
    }
}

/// Keeps the entry that was tried.
pub(crate) fn keep_tried(tried: &mut Option<Entry>, e: Entry)
    ensures { tried.new ≡ Some e }
{
    *tried = Some(e);
}

/// Drops an entry.
pub(crate) fn discard(_: Entry) {}

/// The coding of an entry that is to be entered, with room for the entry.
pub(crate) fn prepare(alloc: Global, kept: &mut Entries, e: &Entry) -> Result<Vec<u8>, AllocError>
    requires { HasCoding e.now }
    ensures entries { kept.new.entries ≡ kept.old.entries }
    ensures room { OnOk result (IsReadyFor kept.new e.now) }
    ensures coding { IfOk result (λ v. v.items ≡ coding_of e.now) }
{
    kept.make_room(e)?;
    write(alloc, e)
}
