// A journal of records, each durable once it was appended.
ghost use Rattle.std.specs.Prelude.{◌≡◌, ◌↔◌, ◌<◌, ◌≤◌, IsTrue, ◌∷◌, ◌++◌, List, ℕ, length, slice_get, Some, None, ◌⊎◌, MatchResult, MatchOption, IfOk, IfErr, IfSome, OnOk};
ghost use Rattle.std.specs.Option.{option_copied};
ghost use Rattle.uss_disk.specs.Disk.{bytes_of, CrashLeaves};
ghost use Rattle.uss_journal.specs.Format.{stands_for, used_of};
ghost use Rattle.uss_journal.specs.Journal.{StandsFor, WithOrWithout, with_appended, mounted};

use crate::known::Known;
use crate::load::load;
use crate::staged::commit;
use crate::{JournalRefusal, MountRefusal, Records};
use std::alloc::Global;
use std::marker::Model;
use std::mem;
use uss_disk::Disk;

/// The most bytes of a journal, up to and with its last gate.
pub const LIMIT: u64 = 536_870_912;

/// A journal on a disk: a list of records, each durable once it was appended. It owns its disk and keeps its records in
/// memory.
#[derive(Drop)]
pub struct Journal<D: Disk> {
    alloc: Global,
    disk: D,
    known: Known,
    spent: Option<u64>,
    // What was found when the file was read again, until the journal takes it over, appends or reads it once more.
    found: Option<Known>,
}

impl<D: Disk> Model for Journal<D> {
    ghost use Rattle.std.specs.Prelude.{IfSome};
    ghost use Rattle.uss_journal.specs.Journal.{JournalView};
    ghost use Rattle.uss_journal.specs.Gates.{records_between, tried_of};
    ghost use Rattle.uss_journal.specs.Known.{records_found};
    ghost use Rattle.uss_journal.specs.Sound.{IsSound, IsReady};

    ghost Value = { JournalView D };

    ghost view = { λ j. record { disk = j.disk; records = records_between j.known.bytes.items 8 j.known.gates.items; spent = j.spent; tried = tried_of j.known.bytes.items j.known.last; found = records_found j.found } };

    ghost invariant = { λ j. IsSound D.reads D.may_leave D.is_honest j.disk j.known.bytes.items j.known.gates.items j.known.last j.spent
        × IfSome j.found (IsReady D.reads D.may_leave D.is_honest j.disk) };
}

impl<D: Disk> Journal<D> {
    ghost use Rattle.uss_journal.specs.Refusal.{Appended, AppendRefused, Reread, Adopted, IsLost, RemountRefused, MountRefused, RefusedBy, UnlessFault, disk_after};

    /// Mounts the journal that the disk's file holds. Begins with a sync, and makes a new, empty journal of a file of at
    /// most nine bytes.
    pub fn mount(alloc: Global, disk: D) -> Result<Journal<D>, MountRefusal<D>>
        ensures refused { IfErr result (λ r. MountRefused (D.fault_count disk) (D.fault_count r.back) r.refusal) }
        ensures unspent { IfOk result (λ j. (j.spent ≡ None) × (j.tried ≡ None) × (j.found ≡ None)) }
        ensures count { D.fault_count disk ≤ D.fault_count (disk_after result) }
        ensures calm { IfOk result (λ j. D.fault_count j.disk ≡ D.fault_count disk) }
        ensures honest { D.is_honest (disk_after result) ↔ D.is_honest disk }

        // On an honest disk, by the bytes.
        ensures found { D.is_honest disk → MatchResult result
            (λ j. StandsFor j.records (bytes_of (D.reads disk)))
            (λ r. RefusedBy (bytes_of (D.reads disk)) r.refusal) }
        ensures file { D.is_honest disk → IfOk result (λ j. bytes_of (D.reads j.disk) ≡ mounted (bytes_of (D.reads disk))) }
        ensures kept { D.is_honest disk → stands_for (bytes_of (D.reads (disk_after result))) ≡ stands_for (bytes_of (D.reads disk)) }
        ensures untouched { D.is_honest disk → IfErr result (λ r. UnlessFault r.refusal (D.reads r.back ≡ D.reads disk)) }
        ensures durable { D.is_honest disk → IfOk result (λ j. (image : List ℕ) → D.may_leave j.disk image → StandsFor j.records image) }
        ensures crash { D.is_honest disk → CrashLeaves D.moment D.left_since
            (λ image. D.may_leave disk image ⊎ (stands_for image ≡ stands_for (bytes_of (D.reads disk)))) disk (disk_after result) }
    {
        let mut disk = disk;
        match load(alloc, &mut disk, 0) {
            Ok(known) => Ok(Journal {
                alloc,
                disk,
                known,
                spent: None,
                found: None,
            }),
            Err(refusal) => Err(MountRefusal {
                refusal,
                back: disk,
            }),
        }
    }

    /// Appends a record: at Ok it is the last, and durable. A journal that answers 141 is spent until it is mounted
    /// again; the record is then in the file in whole, or it isn't there.
    pub fn append(&mut self, bytes: &[u8]) -> Result<(), JournalRefusal>
        ensures answer { MatchResult result (λ _. Appended self.old bytes.now self.new)
            (λ r. AppendRefused D.fault_count self.old bytes.now r self.new) }
        ensures count { D.fault_count self.old.disk ≤ D.fault_count self.new.disk }
        ensures calm { OnOk result (D.fault_count self.new.disk ≡ D.fault_count self.old.disk) }
        ensures honest { D.is_honest self.new.disk ↔ D.is_honest self.old.disk }

        // A crash at any moment of it leaves the records before it, or these with the new one in whole; after Ok only the
        // latter.
        ensures crash { D.is_honest self.old.disk → self.old.spent ≡ None → CrashLeaves D.moment D.left_since
            (WithOrWithout self.old.records (Some bytes.now)) self.old.disk self.new.disk }
        ensures durable { D.is_honest self.old.disk → OnOk result ((image : List ℕ) → D.may_leave self.new.disk image → StandsFor self.new.records image) }
        ensures file { D.is_honest self.old.disk → OnOk result (bytes_of (D.reads self.new.disk)
            ≡ with_appended (used_of self.old.records) bytes.now (bytes_of (D.reads self.old.disk))) }
    {
        if let Some(count) = self.spent {
            return Err(JournalRefusal::Spent(count));
        }
        if bytes.len() as u64 + 5 > LIMIT.saturating_sub(self.known.used()) {
            return Err(JournalRefusal::JournalFull);
        }
        self.known.stage(bytes)?;
        self.found = None;
        match commit(&mut self.disk, &mut self.known) {
            Ok(()) => Ok(()),
            Err(_) => {
                self.spent = Some(self.disk.faults());
                Err(JournalRefusal::DiskFault)
            }
        }
    }

    /// Reads again what its own disk holds, as a mount does, but writes nothing where the file has lost the known records:
    /// it then finds none. What was found is kept beside the known records, which stay: it can be looked at, and taken over
    /// by `adopt`. After a refusal there is none; a journal that was spent stays so, and a fault of the disk leaves any spent.
    pub fn reread(&mut self) -> Result<(), JournalRefusal>
        ensures answer { MatchResult result (λ _. Reread self.old self.new) (λ r. RemountRefused D.fault_count self.old r self.new) }
        ensures count { D.fault_count self.old.disk ≤ D.fault_count self.new.disk }
        ensures calm { OnOk result (D.fault_count self.new.disk ≡ D.fault_count self.old.disk) }
        ensures honest { D.is_honest self.new.disk ↔ D.is_honest self.old.disk }

        // On an honest disk, by the bytes: these are the known records, or these with the one that was tried.
        ensures found { D.is_honest self.old.disk → MatchResult result
            (λ _. IfSome self.new.found (λ records. StandsFor records (bytes_of (D.reads self.old.disk))))
            (λ r. RefusedBy (bytes_of (D.reads self.old.disk)) r) }
        ensures kept { D.is_honest self.old.disk → WithOrWithout self.old.records self.old.tried (bytes_of (D.reads self.old.disk)) }
        ensures file { D.is_honest self.old.disk → OnOk result (bytes_of (D.reads self.new.disk) ≡ mounted (bytes_of (D.reads self.old.disk))) }
        ensures untouched { D.is_honest self.old.disk → IfErr result (λ r. UnlessFault r (D.reads self.new.disk ≡ D.reads self.old.disk)) }
        ensures crash { D.is_honest self.old.disk → CrashLeaves D.moment D.left_since
            (WithOrWithout self.old.records self.old.tried) self.old.disk self.new.disk }
    {
        let known = self.known.count();
        self.find(known)
    }

    // Reads its own disk again, of which so many records are known to be there.
    fn find(&mut self, known: usize) -> Result<(), JournalRefusal>
        requires { D.is_honest self.old.disk → 0 < known → 9 < length (bytes_of (D.reads self.old.disk)) }
        ensures answer { MatchResult result (λ _. Reread self.old self.new) (λ r. RemountRefused D.fault_count self.old r self.new) }
        ensures count { D.fault_count self.old.disk ≤ D.fault_count self.new.disk }
        ensures calm { OnOk result (D.fault_count self.new.disk ≡ D.fault_count self.old.disk) }
        ensures honest { D.is_honest self.new.disk ↔ D.is_honest self.old.disk }
        ensures found { D.is_honest self.old.disk → MatchResult result
            (λ _. IfSome self.new.found (λ records. StandsFor records (bytes_of (D.reads self.old.disk))))
            (λ r. RefusedBy (bytes_of (D.reads self.old.disk)) r) }
        ensures kept { D.is_honest self.old.disk → WithOrWithout self.old.records self.old.tried (bytes_of (D.reads self.old.disk)) }
        ensures file { D.is_honest self.old.disk → OnOk result (bytes_of (D.reads self.new.disk) ≡ mounted (bytes_of (D.reads self.old.disk))) }
        ensures untouched { D.is_honest self.old.disk → IfErr result (λ r. UnlessFault r (D.reads self.new.disk ≡ D.reads self.old.disk)) }
        ensures crash { D.is_honest self.old.disk → CrashLeaves D.moment D.left_since
            (WithOrWithout self.old.records self.old.tried) self.old.disk self.new.disk }
    {
        self.found = None;
        match load(self.alloc, &mut self.disk, known) {
            Ok(found) => {
                self.found = Some(found);
                Ok(())
            }
            Err(refusal) => {
                if refusal == JournalRefusal::DiskFault {
                    self.spent = Some(self.disk.faults());
                }
                Err(refusal)
            }
        }
    }

    /// Takes over what was found: its records are then the journal's, which isn't spent. Where nothing was found, and where
    /// no record was though some are known, the journal stays as it is: a file that lost its records is no journal to append
    /// to, until it was mounted again.
    pub fn adopt(&mut self)
        ensures disk { self.new.disk ≡ self.old.disk }
        ensures lost { IsLost self.old.records self.old.found → self.new ≡ self.old }
        ensures answer { (IsLost self.old.records self.old.found → ⊥) → MatchOption self.old.found (self.new ≡ self.old) (λ records. Adopted self.old records self.new) }
        // On an honest disk whatever a crash leaves stands for what was found.
        ensures durable { D.is_honest self.old.disk → IfSome self.old.found
            (λ records. (image : List ℕ) → D.may_leave self.new.disk image → StandsFor records image) }
    {
        // What is true of the journal is brought to the proof.
        let _ = &self.alloc;
        if !self.is_lost() {
            self.take_over();
        }
    }

    // Whether no record was found, though some are known.
    fn is_lost(&self) -> bool
        ensures { IsTrue result ↔ IsLost self.now.records self.now.found }
    {
        match &self.found {
            Some(found) => found.count() == 0 && self.known.count() > 0,
            None => false,
        }
    }

    // Takes over what was found, if anything was.
    fn take_over(&mut self)
        ensures answer { MatchOption self.old.found (self.new ≡ self.old) (λ records. Adopted self.old records self.new) }
        ensures durable { D.is_honest self.old.disk → IfSome self.old.found
            (λ records. (image : List ℕ) → D.may_leave self.new.disk image → StandsFor records image) }
    {
        if let Some(found) = mem::replace(&mut self.found, None) {
            self.known = found;
            self.spent = None;
        }
    }

    /// Mounts again what its own disk holds, as a mount does. After a refusal the records are those known before; a journal that was spent
    /// stays so, and a fault of the disk leaves any spent.
    pub fn remount(&mut self) -> Result<(), JournalRefusal>
        ensures answer { MatchResult result (λ _. (self.new.spent ≡ None) × (self.new.tried ≡ None))
            (λ r. RemountRefused D.fault_count self.old r self.new) }
        ensures forgotten { self.new.found ≡ None }
        ensures count { D.fault_count self.old.disk ≤ D.fault_count self.new.disk }
        ensures calm { OnOk result (D.fault_count self.new.disk ≡ D.fault_count self.old.disk) }
        ensures honest { D.is_honest self.new.disk ↔ D.is_honest self.old.disk }

        // On an honest disk, by the bytes: these are the known records, or these with the one that was tried.
        ensures found { D.is_honest self.old.disk → MatchResult result
            (λ _. StandsFor self.new.records (bytes_of (D.reads self.old.disk)))
            (λ r. RefusedBy (bytes_of (D.reads self.old.disk)) r) }
        ensures kept { D.is_honest self.old.disk → WithOrWithout self.old.records self.old.tried (bytes_of (D.reads self.old.disk)) }
        ensures file { D.is_honest self.old.disk → OnOk result (bytes_of (D.reads self.new.disk) ≡ mounted (bytes_of (D.reads self.old.disk))) }
        ensures untouched { D.is_honest self.old.disk → IfErr result (λ r. UnlessFault r (D.reads self.new.disk ≡ D.reads self.old.disk)) }
        ensures durable { D.is_honest self.old.disk → OnOk result ((image : List ℕ) → D.may_leave self.new.disk image → StandsFor self.new.records image) }
        ensures crash { D.is_honest self.old.disk → CrashLeaves D.moment D.left_since
            (WithOrWithout self.old.records self.old.tried) self.old.disk self.new.disk }
    {
        self.find(0)?;
        self.take_over();
        Ok(())
    }

    /// The records, the oldest first.
    pub fn records(&self) -> Records<'_>
        ensures { result ≡ self.now.records }
    {
        Records { known: &self.known }
    }

    /// The records that were found when the file was read again, until the journal takes them over, appends or reads it
    /// once more.
    pub fn found(&self) -> Option<Records<'_>>
        ensures { result ≡ self.now.found }
    {
        match &self.found {
            Some(known) => Some(Records { known }),
            None => None,
        }
    }

    /// How many records there are.
    pub fn count(&self) -> usize
        ensures { result ≡ length self.now.records }
    {
        self.known.count()
    }

    /// The record with this number, from 0, the oldest first.
    pub fn item(&self, n: usize) -> Option<&[u8]>
        ensures { option_copied result ≡ slice_get self.now.records n }
    {
        self.known.item(n)
    }

    /// The bytes of the journal, up to and with its last gate: nine, and for each record five and its length.
    pub fn used(&self) -> u64
        ensures { result ≡ used_of self.now.records }
    {
        self.known.used()
    }

    /// Where it is spent, its disk's count of faults when it last answered a fault.
    pub fn spent(&self) -> Option<u64>
        ensures { result ≡ self.now.spent }
    {
        self.spent
    }

    /// How many faults its disk has counted.
    pub fn faults(&self) -> u64
        ensures { result ≡ D.fault_count self.now.disk }
    {
        self.disk.faults()
    }

    /// Gives the disk back.
    pub fn release(self) -> D
        ensures { result ≡ self.disk }
    {
        let Journal {
            alloc: _,
            disk,
            known: _,
            spent: _,
            found: _,
        } = self;
        disk
    }
}
