// A book that is mounted again: on a disk in memory of which one call fails, and on one that isn't honest.
ghost use Rattle.uss_law_book.specs.Coding.{HasCoding};

use crate::records::{Coding, Got, entry_of, file_of, got_by, kept, mount, owner_of, refused};
use crate::turning::Turning;
use std::alloc::{AllocError, Global};
use std::process::Abort;
use std::test::Fail;
use uss_book::Book;
use uss_disk::{Disk, MemoryDisk};
use uss_event::Entry;

// A book of an owner, a plan and a ticket.
const KNOWN: [Coding; 3] = [Coding::Owner, Coding::Plan, Coding::Ticket];

// What a remount answers.
fn remounted<D: Disk>(book: &mut Book<D>) -> Got {
    match book.remount() {
        Ok(()) => kept(book.len()),
        Err(fault) => got_by(&fault),
    }
}

// A book of these three, on a disk of which the call with this number fails.
fn known(
    rt: &impl Abort,
    alloc: Global,
    number: u64,
) -> Result<Option<Book<MemoryDisk>>, AllocError> {
    let file = file_of(alloc, &KNOWN)?;
    match mount(rt, alloc, &file, vec![in alloc; number]?)? {
        Ok(book) => Ok(Some(book)),
        Err(_) => Ok(None),
    }
}

// Whether a remount meets the fault, and the next one doesn't.
fn is_mounted_again<D: Disk>(book: &mut Book<D>) -> bool {
    remounted(book) == refused(141, 0) && book.len() == 3 && remounted(book) == kept(3)
}

#[test]
fn a_book_is_mounted_again(rt: HostRuntime) -> Result<(), Fail> {
    // A mount makes three calls; the fifth is the second of a remount.
    let Some(mut book) = known(&rt, rt.alloc(), 5)? else {
        rt.abort();
    };
    assert!(rt; is_mounted_again(&mut book));
    Ok(())
}

// What is answered where an entry that has a coding is entered, if it may follow.
fn answered<D: Disk>(book: &mut Book<D>, entry: Entry) -> Got
    requires { HasCoding entry }
{
    if !book.may_follow(&entry) {
        return refused(0, 0);
    }
    match book.enter(entry) {
        Ok(()) => kept(book.len()),
        Err(fault) => got_by(&fault),
    }
}

// What is answered where an attempt is entered.
fn tried<D: Disk>(
    rt: &impl Abort,
    alloc: Global,
    book: &mut Book<D>,
    coding: Coding,
) -> Result<Got, AllocError> {
    let entry = entry_of(rt, alloc, coding)?;
    Ok(answered(book, entry))
}

// The attempt that may follow so many entries: the job's first, or its second.
fn next(entries: u64) -> Coding {
    if entries == 3 {
        Coding::Trial
    } else {
        Coding::Further
    }
}

// Whether a book that is spent by this count refuses an attempt, and mounted again has so many entries, of which the next may follow.
fn is_open_again<D: Disk>(
    rt: &impl Abort,
    alloc: Global,
    book: &mut Book<D>,
    count: u64,
    entries: u64,
) -> Result<bool, AllocError> {
    let spent = tried(rt, alloc, book, Coding::Trial)? == refused(144, count);
    let again = remounted(book) == kept(entries);
    let entered = tried(rt, alloc, book, next(entries))? == kept(entries.saturating_add(1));
    Ok(spent && again && entered)
}

// Whether a book of three entries is spent by an attempt that meets a fault, and mounted again has so many.
fn is_mended<D: Disk>(
    rt: &impl Abort,
    alloc: Global,
    book: &mut Book<D>,
    entries: u64,
) -> Result<bool, AllocError> {
    if tried(rt, alloc, book, Coding::Trial)? != refused(141, 0) || book.len() != 3 {
        return Ok(false);
    }
    is_open_again(rt, alloc, book, 1, entries)
}

// Whether that is so of a book on a disk of which the call with this number fails.
fn is_mended_after(
    rt: &impl Abort,
    alloc: Global,
    number: u64,
    entries: u64,
) -> Result<bool, AllocError> {
    match known(rt, alloc, number)? {
        Some(mut book) => is_mended(rt, alloc, &mut book, entries),
        None => Ok(false),
    }
}

// The call that fails, and how many entries there are then. After the three calls of a mount the record is written and synced, and its
// gate is opened and synced.
const FAULTS: [(u64, u64); 4] = [(4, 3), (5, 3), (6, 3), (7, 4)];

#[test]
fn an_entry_that_met_a_fault_is_there_or_not(rt: HostRuntime) -> Result<(), Fail> {
    for (number, entries) in &FAULTS {
        assert!(rt; is_mended_after(&rt, rt.alloc(), *number, *entries)?);
    }
    Ok(())
}

// A book of these three over a disk that reads as another file when it is read again: after the sync with this number, of which the
// first is the mount's.
fn turning(
    rt: &impl Abort,
    alloc: Global,
    then: Vec<u8>,
    turns: u64,
    failing: u64,
) -> Result<Option<Book<Turning>>, AllocError> {
    let owner = owner_of(rt, alloc)?;
    let disk = Turning::new(file_of(alloc, &KNOWN)?, then, turns, failing);
    match Book::mount(alloc, disk, owner) {
        Ok(book) => Ok(Some(book)),
        Err(_) => Ok(None),
    }
}

// What a remount answers that reads these records in place of the known ones.
const REREAD: [(&[Coding], u64, u16, u64); 8] = [
    (&[Coding::Owner, Coding::Plan, Coding::Ticket], 3, 0, 0),
    // Records after the known ones are entries.
    (
        &[Coding::Owner, Coding::Plan, Coding::Ticket, Coding::Trial],
        4,
        0,
        0,
    ),
    // The last is lost, all but the first are, all are.
    (&[Coding::Owner, Coding::Plan], 0, 154, 2),
    (&[Coding::Owner], 0, 154, 1),
    (&[], 0, 154, 0),
    // The second is another plan of the flight, which is legal too.
    (
        &[Coding::Owner, Coding::OtherPlan, Coding::Ticket],
        0,
        154,
        1,
    ),
    // The second is no entry that may follow.
    (&[Coding::Owner, Coding::Ticket], 0, 151, 1),
    // Another owner's book.
    (&[Coding::OtherNumber, Coding::Plan], 0, 152, 8),
];

// Whether a remount answers so, and a refusal leaves the book as it was: the next attempt is entered.
fn is_reread<D: Disk>(
    rt: &impl Abort,
    alloc: Global,
    book: &mut Book<D>,
    wanted: Got,
) -> Result<bool, AllocError> {
    if remounted(book) != wanted {
        return Ok(false);
    }
    let entries = if wanted.number == 0 {
        wanted.entries
    } else {
        3
    };
    Ok(tried(rt, alloc, book, next(entries))? == kept(entries.saturating_add(1)))
}

// Whether that is so of a book whose disk then reads as this file.
fn is_reread_as(
    rt: &impl Abort,
    alloc: Global,
    file: Vec<u8>,
    wanted: Got,
) -> Result<bool, AllocError> {
    match turning(rt, alloc, file, 2, 0)? {
        Some(mut book) => is_reread(rt, alloc, &mut book, wanted),
        None => Ok(false),
    }
}

#[test]
fn a_book_is_read_differently(rt: HostRuntime) -> Result<(), Fail> {
    for (records, entries, number, carries) in &REREAD {
        let file = file_of(rt.alloc(), records)?;
        let wanted = Got {
            entries: *entries,
            number: *number,
            carries: *carries,
        };
        assert!(rt; is_reread_as(&rt, rt.alloc(), file, wanted)?);
    }
    Ok(())
}

// Whether that is so of files that aren't journals: an empty one, and one that has other bytes.
fn are_reread(rt: &impl Abort, alloc: Global) -> Result<bool, AllocError> {
    if !is_reread_as(rt, alloc, Vec::new(alloc), refused(154, 0))? {
        return Ok(false);
    }
    let other = Vec::from_slice(alloc, b"notajournal!")?;
    is_reread_as(rt, alloc, other, refused(143, 0))
}

// Whether a remount that finds so many bytes in the file writes nothing to it.
fn is_left_so(rt: &impl Abort, alloc: Global, bytes: usize) -> Result<bool, AllocError> {
    match turning(rt, alloc, vec![in alloc; 0u8; bytes]?, 2, 0)? {
        Some(mut book) => Ok(
            remounted(&mut book) == refused(154, 0) && book.release().writes() == 0,
        ),
        None => Ok(false),
    }
}

#[test]
fn a_lost_file_is_not_written(rt: HostRuntime) -> Result<(), Fail> {
    for bytes in [0usize, 1, 9] {
        assert!(rt; is_left_so(&rt, rt.alloc(), bytes)?);
    }
    Ok(())
}

#[test]
fn a_book_is_read_as_no_journal(rt: HostRuntime) -> Result<(), Fail> {
    assert!(rt; are_reread(&rt, rt.alloc())?);
    Ok(())
}

// Whether a book that is spent stays so when its file is read differently, and is open again when it isn't.
fn stays_spent<D: Disk>(
    rt: &impl Abort,
    alloc: Global,
    book: &mut Book<D>,
    wanted: Got,
) -> Result<bool, AllocError> {
    let is_spent = remounted(book) == refused(141, 0);
    let differs = remounted(book) == wanted;
    Ok(is_spent && differs && is_open_again(rt, alloc, book, 1, 3)?)
}

// Whether that is so where it then reads as this file: the second sync fails, and the third finds it.
fn stays_spent_by(
    rt: &impl Abort,
    alloc: Global,
    file: Vec<u8>,
    wanted: Got,
) -> Result<bool, AllocError> {
    match turning(rt, alloc, file, 3, 2)? {
        Some(mut book) => stays_spent(rt, alloc, &mut book, wanted),
        None => Ok(false),
    }
}

#[test]
fn a_spent_book_is_read_differently(rt: HostRuntime) -> Result<(), Fail> {
    let shorter = file_of(rt.alloc(), &[Coding::Owner])?;
    assert!(rt; stays_spent_by(&rt, rt.alloc(), shorter, refused(154, 1))?);
    let other = Vec::from_slice(rt.alloc(), b"notajournal!")?;
    assert!(rt; stays_spent_by(&rt, rt.alloc(), other, refused(143, 0))?);
    Ok(())
}

// Whether an entry that the disk lost is missed.
fn is_missed<D: Disk>(
    rt: &impl Abort,
    alloc: Global,
    book: &mut Book<D>,
) -> Result<bool, AllocError> {
    let entered = tried(rt, alloc, book, Coding::Trial)? == kept(4);
    Ok(entered && remounted(book) == refused(154, 3) && book.len() == 4)
}

// Whether that is so of a book on a disk that loses what is written.
fn is_lost(rt: &impl Abort, alloc: Global) -> Result<bool, AllocError> {
    match turning(rt, alloc, Vec::new(alloc), 0, 0)? {
        Some(mut book) => is_missed(rt, alloc, &mut book),
        None => Ok(false),
    }
}

#[test]
fn an_entry_that_the_disk_lost_is_missed(rt: HostRuntime) -> Result<(), Fail> {
    assert!(rt; is_lost(&rt, rt.alloc())?);
    Ok(())
}
