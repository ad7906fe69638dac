// What was read again is compared with the entries that were known.
ghost use Rattle.std.specs.Prelude.{◌≡◌, ◌↔◌, ◌≢◌, ◌≤◌, [], List, ℕ, IsTrue, is_some, IfOk, IfErr, OnOk, IfSome, MatchOption, MatchResult, Some, None, length, All};
ghost use Rattle.std.specs.Option.{option_copied};
ghost use Rattle.uss_law_book.specs.Legal.{IsLegal};
ghost use Rattle.uss_disk.specs.Disk.{bytes_of, CrashLeaves};
ghost use Rattle.uss_journal.specs.Journal.{StandsFor, WithOrWithout, mounted};
ghost use Rattle.uss_book.specs.declared.refusal.BookFault.TheVariants.{Memory};
ghost use Rattle.uss_book.specs.Book.{StandsForBook, records_of};
ghost use Rattle.uss_book.specs.Refusal.{IsLeft, UnlessFault};
ghost use Rattle.uss_book.specs.Reread.{AreAnothers, BeginsWith, IsByRecords, IsByFound, IsOfReading, NoPlace, IsTaken, StaysKnown, IsFirstChange};

use crate::BookFault;
use crate::judge::entries_of;
use crate::load::passed_on;
use crate::owner::{into_owner, is_same};
use std::alloc::Global;
use uss_book_index::Entries;
use uss_book_rules::Tells;
use uss_disk::Disk;
use uss_event::Entry;
use uss_journal::{Journal, Records};

/// The number of the first known record that isn't the one that was found with this number.
fn first_change(found: &Records<'_>, known: &Records<'_>) -> Option<usize>
    ensures { MatchOption result (BeginsWith found.now known.now) (IsFirstChange known.now found.now) }
{
    for n in 0..known.count() {
        if !is_there(found.item(n), known.item(n).unwrap()) {
            return Some(n);
        }
    }
    None
}

/// Whether a record was found and is the known one.
fn is_there(found: Option<&[u8]>, known: &[u8]) -> bool
    ensures { IsTrue result ↔ (option_copied found.entry ≡ Some known.now) }
{
    match found {
        Some(found) => found == known,
        None => false,
    }
}

/// Whether the entries are of another owner's book than the known ones.
fn are_anothers(entries: &Entries, known: &Entries) -> bool
    ensures { IsTrue result ↔ AreAnothers entries.now.entries known.now.entries }
{
    match (entries.owner(), known.owner()) {
        (Some(kept), Some(owner)) => !is_same(kept, owner),
        _ => false,
    }
}

/// The entries whose codings the found records are, which begin with those that were known, of which these are the records.
fn entries_after(
    alloc: Global,
    found: &Records<'_>,
    known: &Records<'_>,
    entries: &Entries,
) -> Result<Entries, BookFault>
    requires legal { IsLegal entries.now.entries }
    requires same { known.now ≡ records_of entries.now.entries }
    ensures legal { IfOk result (λ k. IsLegal k.entries) }
    ensures found { IfOk result (λ k. records_of k.entries ≡ found.now) }
    ensures begins { IfOk result (λ k. BeginsWith k.entries entries.now.entries) }
    ensures refused { IfErr result (IsByRecords entries.now.entries found.now) }
    ensures alone { IfErr result IsOfReading }
{
    let kept = entries_of(alloc, found)?;
    if are_anothers(&kept, entries) {
        return Err(BookFault::OtherOwner(into_owner(kept)));
    }
    match first_change(found, known) {
        Some(n) => Err(BookFault::Changed(n as u64)),
        None => Ok(kept),
    }
}

/// Reads the journal's file again. The journal takes over what was found where that is a book which begins with the known entries.
pub(crate) fn reread<D: Disk>(
    alloc: Global,
    journal: &mut Journal<D>,
    known: &Entries,
) -> Result<Entries, BookFault>
    requires legal { IsLegal known.now.entries }
    requires records { journal.old.records ≡ records_of known.now.entries }
    ensures legal { IfOk result (λ k. IsLegal k.entries) }
    ensures begins { IfOk result (λ k. BeginsWith k.entries known.now.entries) }
    ensures taken { IfOk result (λ k. IsTaken k.entries journal.new) }
    ensures refused { IfErr result (λ f. StaysKnown D.fault_count journal.old f journal.new) }
    ensures causes { IfErr result (IsByFound known.now.entries journal.new.found) }
    ensures count { D.fault_count journal.old.disk ≤ D.fault_count journal.new.disk }
    ensures calm { OnOk result (D.fault_count journal.new.disk ≡ D.fault_count journal.old.disk) }
    ensures honest { D.is_honest journal.new.disk ↔ D.is_honest journal.old.disk }

    // On an honest disk, by the bytes.
    ensures stands { D.is_honest journal.old.disk → MatchResult result
        (λ k. StandsForBook k.entries (bytes_of (D.reads journal.old.disk)))
        (λ f. NoPlace f × IfSome journal.new.found (λ records. StandsFor records (bytes_of (D.reads journal.old.disk)))) }
    ensures kept { D.is_honest journal.old.disk → WithOrWithout journal.old.records journal.old.tried (bytes_of (D.reads journal.old.disk)) }
    ensures file { D.is_honest journal.old.disk → OnOk result (bytes_of (D.reads journal.new.disk) ≡ mounted (bytes_of (D.reads journal.old.disk))) }
    ensures left { D.is_honest journal.old.disk → IfErr result (λ f. UnlessFault f (IsLeft (bytes_of (D.reads journal.old.disk)) (bytes_of (D.reads journal.new.disk)) Memory)) }
    ensures durable { D.is_honest journal.old.disk → IfOk result (λ k. (image : List ℕ) → D.may_leave journal.new.disk image → StandsForBook k.entries image) }
    ensures crash { D.is_honest journal.old.disk → CrashLeaves D.moment D.left_since
        (WithOrWithout journal.old.records journal.old.tried) journal.old.disk journal.new.disk }
{
    if let Err(refusal) = journal.reread() {
        return Err(passed_on(refusal));
    }
    let kept = compared(alloc, journal, known)?;
    journal.adopt();
    Ok(kept)
}

/// The entries of what the journal found, which begin with those that were known.
fn compared<D: Disk>(
    alloc: Global,
    journal: &Journal<D>,
    known: &Entries,
) -> Result<Entries, BookFault>
    requires legal { IsLegal known.now.entries }
    requires records { journal.now.records ≡ records_of known.now.entries }
    requires found { IsTrue (is_some journal.now.found) }
    ensures legal { IfOk result (λ k. IsLegal k.entries) }
    ensures found { IfOk result (λ k. Some (records_of k.entries) ≡ journal.now.found) }
    ensures begins { IfOk result (λ k. BeginsWith k.entries known.now.entries) }
    ensures refused { IfErr result (IsByFound known.now.entries journal.now.found) }
    ensures alone { IfErr result IsOfReading }
{
    let found = journal.found().unwrap();
    entries_after(alloc, &found, &journal.records(), known)
}

/// Forgets the entry that was tried.
pub(crate) fn forget(tried: &mut Option<Entry>)
    ensures { tried.new ≡ None }
{
    *tried = None;
}
