// The entries of a file are read.
ghost use Rattle.std.specs.Prelude.{◌≡◌, ◌↔◌, ◌≤◌, ◌⊎◌, List, ℕ, None, IfOk, IfErr, MatchResult};
ghost use Rattle.uss_disk.specs.Disk.{bytes_of, CrashLeaves};
ghost use Rattle.uss_journal.specs.Format.{stands_for};
ghost use Rattle.uss_journal.specs.Journal.{StandsFor, mounted};
ghost use Rattle.uss_law_book.specs.Legal.{IsLegal};
ghost use Rattle.uss_book.specs.Book.{records_of, StandsForBook};
ghost use Rattle.uss_book.specs.Refusal.{IsPassedOn, passed_on, ViewRefused, ReadBy, IsLeft, disk_read};

use crate::judge::entries_of;
use crate::{BookFault, BookRefusal};
use std::alloc::Global;
use uss_book_index::Entries;
use uss_disk::Disk;
use uss_journal::{Journal, JournalRefusal};

/// What a book answers where its journal answers this.
pub(crate) fn passed_on(refusal: JournalRefusal) -> BookFault
    requires { IsPassedOn refusal }
    ensures { result ≡ passed_on refusal }
{
    match refusal {
        JournalRefusal::DiskFault => BookFault::DiskFault,
        JournalRefusal::NotAJournal(place) => BookFault::NotAJournal(place),
        JournalRefusal::Memory => BookFault::Memory,
        JournalRefusal::JournalFull | JournalRefusal::Spent(_) => unreachable!(),
    }
}

/// Mounts the journal that the disk's file holds, and reads the entries that its records are the codings of.
pub(crate) fn load<D: Disk>(alloc: Global, disk: D) -> Result<(Journal<D>, Entries), BookRefusal<D>>
    ensures refused { IfErr result (λ r. ViewRefused (D.fault_count disk) (D.fault_count r.back) r.refusal) }
    ensures unspent { IfOk result (λ x. (x.0.spent ≡ None) × (x.0.tried ≡ None) × (x.0.found ≡ None)) }
    ensures legal { IfOk result (λ x. IsLegal x.1.entries) }
    ensures records { IfOk result (λ x. records_of x.1.entries ≡ x.0.records) }
    ensures count { D.fault_count disk ≤ D.fault_count (disk_read result) }
    ensures calm { IfOk result (λ x. D.fault_count x.0.disk ≡ D.fault_count disk) }
    ensures honest { D.is_honest (disk_read result) ↔ D.is_honest disk }

    // On an honest disk, by the bytes.
    ensures found { D.is_honest disk → MatchResult result
        (λ x. StandsForBook x.1.entries (bytes_of (D.reads disk)))
        (λ r. ReadBy (bytes_of (D.reads disk)) r.refusal) }
    ensures durable { D.is_honest disk → IfOk result (λ x. (image : List ℕ) → D.may_leave x.0.disk image → StandsForBook x.1.entries image) }
    ensures file { D.is_honest disk → IfOk result (λ x. bytes_of (D.reads x.0.disk) ≡ mounted (bytes_of (D.reads disk))) }
    ensures untouched { D.is_honest disk → IfErr result (λ r. IsLeft (bytes_of (D.reads disk)) (bytes_of (D.reads r.back)) r.refusal) }
    ensures crash { D.is_honest disk → CrashLeaves D.moment D.left_since
        (λ image. D.may_leave disk image ⊎ (stands_for image ≡ stands_for (bytes_of (D.reads disk)))) disk (disk_read result) }
{
    let journal = match Journal::mount(alloc, disk) {
        Ok(journal) => journal,
        Err(refused) => {
            return Err(BookRefusal {
                refusal: passed_on(refused.refusal),
                back: refused.back,
            });
        }
    };
    match entries_of(alloc, &journal.records()) {
        Ok(kept) => Ok((journal, kept)),
        Err(refusal) => Err(BookRefusal {
            refusal,
            back: journal.release(),
        }),
    }
}
