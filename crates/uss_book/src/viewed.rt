ghost use Rattle.std.specs.Prelude.{◌≡◌, ◌↔◌, ◌≤◌, ◌⊎◌, IfOk, IfErr, MatchResult};
ghost use Rattle.uss_disk.specs.Disk.{bytes_of, CrashLeaves};
ghost use Rattle.uss_journal.specs.Format.{stands_for};
ghost use Rattle.uss_journal.specs.Journal.{mounted};
ghost use Rattle.uss_law_book.specs.Legal.{IsLegal};
ghost use Rattle.uss_book.specs.Book.{StandsForBook};
ghost use Rattle.uss_book.specs.Refusal.{ViewRefused, ReadBy, IsLeft, disk_viewed};

use crate::BookRefusal;
use crate::load::load;
use std::alloc::Global;
use uss_disk::Disk;
use uss_event::Entries;
use uss_intent::Sequence;

/// The entries of the book that the disk's file holds, whoever owns it, and the disk. An empty journal has none. The refusals are 141,
/// 143, 151 and out of memory, as those of a mount, and hand the disk back. The file stays, but that one of at most nine bytes is made a
/// new, empty journal.
pub fn view<D: Disk>(alloc: Global, disk: D) -> Result<(Entries, D), BookRefusal<D>>
    ensures refused { IfErr result (λ r. ViewRefused (D.fault_count disk) (D.fault_count r.back) r.refusal) }
    ensures legal { IfOk result (λ x. IsLegal x.0) }
    ensures count { D.fault_count disk ≤ D.fault_count (disk_viewed result) }
    ensures calm { IfOk result (λ x. D.fault_count x.1 ≡ D.fault_count disk) }
    ensures honest { D.is_honest (disk_viewed result) ↔ D.is_honest disk }

    // On an honest disk, by the bytes.
    ensures found { D.is_honest disk → MatchResult result
        (λ x. StandsForBook x.0 (bytes_of (D.reads disk)))
        (λ r. ReadBy (bytes_of (D.reads disk)) r.refusal) }
    ensures file { D.is_honest disk → IfOk result (λ x. bytes_of (D.reads x.1) ≡ mounted (bytes_of (D.reads disk))) }
    ensures untouched { D.is_honest disk → IfErr result (λ r. IsLeft (bytes_of (D.reads disk)) (bytes_of (D.reads r.back)) r.refusal) }
    ensures crash { D.is_honest disk → CrashLeaves D.moment D.left_since
        (λ image. D.may_leave disk image ⊎ (stands_for image ≡ stands_for (bytes_of (D.reads disk)))) disk (disk_viewed result) }
{
    match load(alloc, disk) {
        Ok((journal, kept)) => Ok((Sequence::from_vec(kept.into_vec()), journal.release())),
        Err(refused) => Err(refused),
    }
}
