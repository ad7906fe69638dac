// A new book is begun in an empty journal.
ghost use Rattle.std.specs.Prelude.{◌≡◌, ◌↔◌, ◌≤◌, ◌⊎◌, [], List, ℕ, None, Ok, length, IfErr, OnOk};
ghost use Rattle.uss_disk.specs.Disk.{CrashLeaves};
ghost use Rattle.uss_journal.specs.Format.{stands_for};
ghost use Rattle.uss_law_book.specs.Legal.{IsLegal};
ghost use Rattle.uss_book.specs.Book.{StandsForBook, new_book, records_of};
ghost use Rattle.uss_book.specs.Refusal.{ViewRefused, SaysNothing, UnlessFault};

use crate::BookFault;
use crate::load::passed_on;
use crate::owner::first_entry;
use std::alloc::Global;
use uss_book_codec::write;
use uss_book_index::Entries;
use uss_disk::Disk;
use uss_event::Owner;
use uss_journal::Journal;

/// Enters whose book it is. The owner's base URL has at most 256 bytes.
pub(crate) fn start<D: Disk>(
    alloc: Global,
    journal: &mut Journal<D>,
    kept: &mut Entries,
    owner: Owner,
) -> Result<(), BookFault>
    requires short { length owner.base ≤ 256 }
    requires empty { kept.old.entries ≡ [] }
    requires unwritten { journal.old.records ≡ [] }
    requires reopened { journal.old.spent ≡ None }
    ensures refused { IfErr result (ViewRefused (D.fault_count journal.old.disk) (D.fault_count journal.new.disk)) }
    ensures free { IfErr result SaysNothing }
    ensures untouched { IfErr result (λ r. UnlessFault r (journal.new.disk ≡ journal.old.disk)) }
    ensures entries { OnOk result (kept.new.entries ≡ new_book owner) }
    ensures legal { OnOk result (IsLegal kept.new.entries) }
    ensures records { OnOk result (records_of kept.new.entries ≡ journal.new.records) }
    ensures unspent { OnOk result ((journal.new.spent ≡ None) × (journal.new.tried ≡ None) × (journal.new.found ≡ None)) }
    ensures count { D.fault_count journal.old.disk ≤ D.fault_count journal.new.disk }
    ensures calm { OnOk result (D.fault_count journal.new.disk ≡ D.fault_count journal.old.disk) }
    ensures honest { D.is_honest journal.new.disk ↔ D.is_honest journal.old.disk }
    ensures durable { D.is_honest journal.old.disk → OnOk result ((image : List ℕ) → D.may_leave journal.new.disk image → StandsForBook kept.new.entries image) }
    ensures crash { D.is_honest journal.old.disk → CrashLeaves D.moment D.left_since
        (λ image. D.may_leave journal.old.disk image ⊎ (stands_for image ≡ Ok []) ⊎ StandsForBook (new_book owner) image) journal.old.disk journal.new.disk }
{
    let e = first_entry(owner);
    kept.make_room(&e)?;
    let bytes = write(alloc, &e)?;
    match journal.append(bytes.as_slice()) {
        Ok(()) => {
            kept.enter(e);
            Ok(())
        }
        Err(refusal) => Err(passed_on(refusal)),
    }
}
