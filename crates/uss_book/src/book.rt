ghost use Rattle.std.specs.Prelude.{◌≡◌, ◌↔◌, ◌≢◌, ◌≤◌, ◌⊎◌, ◌∷◌, ◌++◌, [], List, ℕ, length, Some, None, IsTrue, IfOk, IfErr, OnOk, MatchResult, slice_get};
ghost use Rattle.std.specs.Option.{option_copied, option_map};
ghost use Rattle.uss_event.specs.declared.entries.Entry.{Entry};
ghost use Rattle.uss_disk.specs.Disk.{bytes_of, CrashLeaves};
ghost use Rattle.uss_journal.specs.Format.{stands_for};
ghost use Rattle.uss_journal.specs.Journal.{mounted};
ghost use Rattle.uss_law_book.specs.Lists.{owner_of};
ghost use Rattle.uss_law_book.specs.Contents.{open_job_of, last_of, trials_of, owns};
ghost use Rattle.uss_law_book.specs.Attempts.{held};
ghost use Rattle.uss_law_book.specs.Coding.{HasCoding, journal_length};
ghost use Rattle.uss_law_book.specs.Legal.{MayFollow, IsLegal};
ghost use Rattle.uss_law_book.specs.Reserve.{need};
ghost use Rattle.uss_book.specs.Book.{StandsForBook, BookWithOrWithout, IsFound, MountLeaves, new_book, records_of};
ghost use Rattle.uss_book.specs.Refusal.{Entered, EnterRefused, MountRefused, ViewRefused, RefusedBy, SaysNothing, IsAnothers, IsLeft, UnlessFault, disk_after};
ghost use Rattle.uss_book.specs.Reread.{Remounted, RemountRefused, IsByFound};

use crate::append::{AppendOutcome, append, discard, keep_tried, prepare};
use crate::load::load;
use crate::owner::{into_owner, is_of};
use crate::readers::{job_of, request_of};
use crate::reread::{forget, reread};
use crate::start::start;
use crate::{BookFault, BookRefusal};
use std::alloc::Global;
use std::marker::Model;
use uss_book_index::Entries;
use uss_book_rules::Tells;
use uss_disk::Disk;
use uss_event::{Entry, Owner, Pair};
use uss_journal::Journal;

/// A supplier's book on a disk: a list of entries, legal at every moment, each durable once it was entered. It owns its disk.
#[derive(Drop)]
pub struct Book<D: Disk> {
    alloc: Global,
    journal: Journal<D>,
    kept: Entries,
    // The entry that was tried when the journal was spent, if one was.
    tried: Option<Entry>,
}

impl<D: Disk> Model for Book<D> {
    ghost use Rattle.uss_book.specs.Book.{BookView};
    ghost use Rattle.uss_book.specs.Whole.{IsWhole};

    ghost Value = { BookView D };

    ghost view = { λ b. record { disk = b.journal.disk; entries = b.kept.entries; spent = b.journal.spent; tried = b.tried; found = b.journal.found } };

    ghost invariant = { λ b. IsWhole D.may_leave D.is_honest b.journal b.kept.entries b.tried };
}

/// The book of entries that were read.
fn made<D: Disk>(alloc: Global, journal: Journal<D>, kept: Entries) -> Book<D>
    requires legal { IsLegal kept.entries }
    requires unspent { journal.spent ≡ None }
    requires untried { journal.tried ≡ None }
    requires unread { journal.found ≡ None }
    requires records { records_of kept.entries ≡ journal.records }
    requires left { D.is_honest journal.disk → (image : List ℕ) → D.may_leave journal.disk image → StandsForBook kept.entries image }
    ensures disk { result.disk ≡ journal.disk }
    ensures entries { result.entries ≡ kept.entries }
    ensures spent { result.spent ≡ None }
    ensures tried { result.tried ≡ None }
    ensures unread { result.found ≡ None }
{
    Book {
        alloc,
        journal,
        kept,
        tried: None,
    }
}

/// The book of entries that were read, where it is the owner's.
fn owned<D: Disk>(
    alloc: Global,
    journal: Journal<D>,
    kept: Entries,
    owner: &Owner,
) -> Result<Book<D>, BookRefusal<D>>
    requires legal { IsLegal kept.entries }
    requires some { kept.entries ≢ [] }
    requires unspent { journal.spent ≡ None }
    requires untried { journal.tried ≡ None }
    requires unread { journal.found ≡ None }
    requires records { records_of kept.entries ≡ journal.records }
    requires left { D.is_honest journal.disk → (image : List ℕ) → D.may_leave journal.disk image → StandsForBook kept.entries image }
    ensures entries { IfOk result (λ b. b.entries ≡ kept.entries) }
    ensures owner { IfOk result (λ b. owner_of b.entries ≡ Some owner.now) }
    ensures unspent { IfOk result (λ b. (b.spent ≡ None) × (b.tried ≡ None) × (b.found ≡ None)) }
    ensures another { IfErr result (λ r. IsAnothers kept.entries owner.now r.refusal) }
    ensures disk { disk_after result ≡ journal.disk }
{
    if is_of(&kept, owner) {
        Ok(made(alloc, journal, kept))
    } else {
        Err(BookRefusal {
            refusal: BookFault::OtherOwner(into_owner(kept)),
            back: journal.release(),
        })
    }
}

/// A new book in an empty journal. The owner's base URL has at most 256 bytes.
fn begun<D: Disk>(
    alloc: Global,
    journal: Journal<D>,
    kept: Entries,
    owner: Owner,
) -> Result<Book<D>, BookRefusal<D>>
    requires short { length owner.base ≤ 256 }
    requires empty { kept.entries ≡ [] }
    requires unwritten { journal.records ≡ [] }
    requires unspent { journal.spent ≡ None }
    ensures refused { IfErr result (λ r. ViewRefused (D.fault_count journal.disk) (D.fault_count r.back) r.refusal) }
    ensures free { IfErr result (λ r. SaysNothing r.refusal) }
    ensures untouched { IfErr result (λ r. UnlessFault r.refusal (r.back ≡ journal.disk)) }
    ensures entries { IfOk result (λ b. b.entries ≡ new_book owner) }
    ensures legal { IfOk result (λ b. IsLegal b.entries) }
    ensures unspent { IfOk result (λ b. (b.spent ≡ None) × (b.tried ≡ None) × (b.found ≡ None)) }
    ensures count { D.fault_count journal.disk ≤ D.fault_count (disk_after result) }
    ensures calm { IfOk result (λ b. D.fault_count b.disk ≡ D.fault_count journal.disk) }
    ensures honest { D.is_honest (disk_after result) ↔ D.is_honest journal.disk }
    ensures durable { D.is_honest journal.disk → IfOk result (λ b. (image : List ℕ) → D.may_leave b.disk image → StandsForBook b.entries image) }
    ensures crash { D.is_honest journal.disk → CrashLeaves D.moment D.left_since
        (λ image. D.may_leave journal.disk image ⊎ (stands_for image ≡ Ok []) ⊎ StandsForBook (new_book owner) image) journal.disk (disk_after result) }
{
    let mut journal = journal;
    let mut kept = kept;
    match start(alloc, &mut journal, &mut kept, owner) {
        Ok(()) => Ok(made(alloc, journal, kept)),
        Err(refusal) => Err(BookRefusal {
            refusal,
            back: journal.release(),
        }),
    }
}

impl<D: Disk> Book<D> {
    /// Mounts the book that the disk's file holds, and makes a new one of an empty journal. The owner's base URL has at most 256
    /// bytes. A refusal hands the disk back.
    pub fn mount(alloc: Global, disk: D, owner: Owner) -> Result<Book<D>, BookRefusal<D>>
        requires { length owner.base ≤ 256 }
        ensures refused { IfErr result (λ r. MountRefused owner (D.fault_count disk) (D.fault_count r.back) r.refusal) }
        ensures unspent { IfOk result (λ b. (b.spent ≡ None) × (b.tried ≡ None) × (b.found ≡ None)) }
        ensures legal { IfOk result (λ b. IsLegal b.entries) }
        ensures owner { IfOk result (λ b. owner_of b.entries ≡ Some owner) }
        ensures count { D.fault_count disk ≤ D.fault_count (disk_after result) }
        ensures calm { IfOk result (λ b. D.fault_count b.disk ≡ D.fault_count disk) }
        ensures honest { D.is_honest (disk_after result) ↔ D.is_honest disk }

        // On an honest disk, by the bytes.
        ensures found { D.is_honest disk → MatchResult result
            (λ b. IsFound owner (bytes_of (D.reads disk)) b.entries)
            (λ r. RefusedBy owner (bytes_of (D.reads disk)) r.refusal) }
        ensures durable { D.is_honest disk → IfOk result (λ b. (image : List ℕ) → D.may_leave b.disk image → StandsForBook b.entries image) }

        // The file of a book that was there stays as it was.
        ensures stays { D.is_honest disk → IfOk result (λ b. StandsForBook b.entries (bytes_of (D.reads disk)) → bytes_of (D.reads b.disk) ≡ bytes_of (D.reads disk)) }
        ensures untouched { D.is_honest disk → IfErr result (λ r. IsLeft (bytes_of (D.reads disk)) (bytes_of (D.reads r.back)) r.refusal) }

        // A crash at any moment of it leaves what it could have left before, or what stands for the same; or, where that is no record,
        // the new book.
        ensures crash { D.is_honest disk → CrashLeaves D.moment D.left_since
            (MountLeaves (D.may_leave disk) owner (bytes_of (D.reads disk))) disk (disk_after result) }
    {
        let (journal, kept) = match load(alloc, disk) {
            Ok(found) => found,
            Err(refused) => return Err(refused),
        };
        if kept.as_slice().is_empty() {
            begun(alloc, journal, kept, owner)
        } else {
            owned(alloc, journal, kept, &owner)
        }
    }

    /// Enters an entry that may follow: at Ok it is the last, and durable. A book that answers 141 is spent until it is mounted
    /// again; the entry is then in the file in whole, or it isn't there. The journal is never full.
    pub fn enter(&mut self, e: Entry) -> Result<(), BookFault>
        requires { MayFollow self.old.entries e }
        ensures answer { MatchResult result (λ _. Entered self.old e self.new) (λ r. EnterRefused D.fault_count self.old e r self.new) }
        ensures count { D.fault_count self.old.disk ≤ D.fault_count self.new.disk }
        ensures calm { OnOk result (D.fault_count self.new.disk ≡ D.fault_count self.old.disk) }
        ensures honest { D.is_honest self.new.disk ↔ D.is_honest self.old.disk }

        // A crash at any moment of it leaves the book before it, or that with the new entry in whole; after Ok only the latter.
        ensures crash { D.is_honest self.old.disk → self.old.spent ≡ None → CrashLeaves D.moment D.left_since
            (BookWithOrWithout self.old.entries (Some e)) self.old.disk self.new.disk }
        ensures durable { D.is_honest self.old.disk → OnOk result ((image : List ℕ) → D.may_leave self.new.disk image → StandsForBook self.new.entries image) }
    {
        if let Some(count) = self.journal.spent() {
            discard(e);
            return Err(BookFault::Spent(count));
        }
        let bytes = match prepare(self.alloc, &mut self.kept, &e) {
            Ok(bytes) => bytes,
            Err(_) => {
                discard(e);
                return Err(BookFault::Memory);
            }
        };
        match append(&mut self.journal, bytes.as_slice()) {
            AppendOutcome::Done => {
                self.kept.enter(e);
                Ok(())
            }
            AppendOutcome::Faulted => {
                keep_tried(&mut self.tried, e);
                Err(BookFault::DiskFault)
            }
            AppendOutcome::NoMemory => {
                discard(e);
                Err(BookFault::Memory)
            }
        }
    }

    /// Mounts again what its own disk holds: its entries, or these with the one that was tried. After a refusal the book is as it was,
    /// and may be mounted again; a fault of the disk leaves it spent.
    pub fn remount(&mut self) -> Result<(), BookFault>
        ensures answer { MatchResult result (λ _. Remounted self.old self.new) (λ r. RemountRefused D.fault_count self.old r self.new) }
        // The records that were found are the cause of 151, 152 and 154; on an honest disk none of these comes.
        ensures records { IfErr result (IsByFound self.old.entries self.new.found) }
        ensures count { D.fault_count self.old.disk ≤ D.fault_count self.new.disk }
        ensures calm { OnOk result (D.fault_count self.new.disk ≡ D.fault_count self.old.disk) }
        ensures honest { D.is_honest self.new.disk ↔ D.is_honest self.old.disk }

        // On an honest disk the entries are those before it, or these with the one that was tried, and it is refused by a fault or for
        // out of memory.
        ensures found { D.is_honest self.old.disk → MatchResult result (λ _. StandsForBook self.new.entries (bytes_of (D.reads self.old.disk))) SaysNothing }
        ensures kept { D.is_honest self.old.disk → BookWithOrWithout self.old.entries self.old.tried (bytes_of (D.reads self.old.disk)) }
        ensures file { D.is_honest self.old.disk → OnOk result (bytes_of (D.reads self.new.disk) ≡ mounted (bytes_of (D.reads self.old.disk))) }
        ensures untouched { D.is_honest self.old.disk → IfErr result (λ r. IsLeft (bytes_of (D.reads self.old.disk)) (bytes_of (D.reads self.new.disk)) r) }
        ensures durable { D.is_honest self.old.disk → OnOk result ((image : List ℕ) → D.may_leave self.new.disk image → StandsForBook self.new.entries image) }
        ensures crash { D.is_honest self.old.disk → CrashLeaves D.moment D.left_since
            (BookWithOrWithout self.old.entries self.old.tried) self.old.disk self.new.disk }
    {
        match reread(self.alloc, &mut self.journal, &self.kept) {
            Ok(kept) => {
                self.kept = kept;
                forget(&mut self.tried);
                Ok(())
            }
            Err(fault) => Err(fault),
        }
    }

    /// The entries with their index, which tells all else of the book: `Tells`, a job's attempts by number, and whom it owes a
    /// notification. Takes no memory.
    pub fn entries(&self) -> &Entries
        ensures { result.now.entries ≡ self.now.entries }
    {
        &self.kept
    }

    /// The entry with this number, from 0, the oldest first. Takes no memory.
    pub fn entry(&self, n: u64) -> Option<&Entry>
        ensures entry { option_copied result ≡ slice_get self.now.entries n }
        ensures legal { IsLegal self.now.entries }
    {
        self.kept.entry(n as usize)
    }

    /// How many entries there are. Takes no memory.
    pub fn len(&self) -> u64
        ensures { result ≡ length self.now.entries }
    {
        self.kept.len() as u64
    }

    /// The bytes of a journal of the entries: the file's, up to and with its last gate, unless the book is spent. Takes no memory.
    pub fn used(&self) -> u64
        ensures { result ≡ journal_length self.now.entries }
    {
        self.journal.used()
    }

    /// The bytes to be kept free in the journal: 8 MiB for each open job, 64 for each notification that is owed and wasn't answered, 64
    /// for each closed job's ticket that is there. Takes no memory.
    pub fn need(&self) -> u64
        ensures { result ≡ need self.now.entries }
    {
        self.kept.need()
    }

    /// Whether an entry that has a coding may follow. Takes no memory.
    pub fn may_follow(&self, e: &Entry) -> bool
        requires { HasCoding e.now }
        ensures { IsTrue result ↔ MayFollow self.now.entries e.now }
    {
        self.kept.may_follow(e)
    }

    /// The flight's open job. Takes no memory.
    pub fn live_job(&self, flight: u64) -> Option<u64>
        ensures { result ≡ option_map (λ o. o.job) (open_job_of flight self.now.entries) }
    {
        job_of(self.kept.open_job(flight))
    }

    /// The number of the flight's last request, which is its greatest, and its job. Takes no memory.
    pub fn last(&self, flight: u64) -> Option<(u64, u64)>
        ensures { result ≡ option_map (λ o. (o.ask.number, o.job)) (last_of flight self.now.entries) }
    {
        request_of(self.kept.last(flight))
    }

    /// What the book holds of the flight: the intent that was recorded of it last, and none where it has ended. Takes no memory.
    pub fn held(&self, flight: u64) -> Option<&Pair>
        ensures { option_copied result ≡ held flight self.now.entries }
    {
        self.kept.held(flight)
    }

    /// How many attempts the job made. Takes no memory.
    pub fn attempts(&self, job: u64) -> usize
        ensures { result ≡ length (trials_of job self.now.entries) }
    {
        self.kept.attempts(job)
    }

    /// Whether the tag is that of an attempt of the job. Takes no memory.
    pub fn owns(&self, job: u64, tag: u64) -> bool
        ensures { result ≡ owns job tag self.now.entries }
    {
        self.kept.owns(job, tag)
    }

    /// Gives the disk back.
    pub fn release(self) -> D
        ensures { result ≡ self.disk }
    {
        let Book {
            alloc: _,
            journal,
            kept: _,
            tried: _,
        } = self;
        journal.release()
    }
}
