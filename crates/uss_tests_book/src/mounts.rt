// The book on a disk in memory: mounted by records, and after a stop at each call. A row names its records, and each helper answers
// whether what it saw is as it should be.
use crate::records::{
    Coding, Got, add, bytes_of, entry_of, file_of, got_by, kept, mount, outcome_of, refused,
};
use std::alloc::{AllocError, Global};
use std::process::Abort;
use std::test::Fail;
use uss_book::{Book, view};
use uss_book_codec::read;
use uss_disk::{Act, Call, Disk, MemoryDisk};
use uss_event::Entry;

// What a mount of these records answers: how many entries there are, or the number of a refusal and what it carries.
const JUDGED: [(&[Coding], u64, u16, u64); 28] = [
    (&[], 1, 0, 0),
    (&[Coding::Owner], 1, 0, 0),
    (
        &[Coding::Owner, Coding::Plan, Coding::Ticket, Coding::Trial],
        4,
        0,
        0,
    ),
    (
        &[
            Coding::Owner,
            Coding::Plan,
            Coding::Ticket,
            Coding::Trial,
            Coding::Held,
        ],
        5,
        0,
        0,
    ),
    // A book of another owner, by the number, by the name.
    (&[Coding::OtherNumber], 0, 152, 8),
    (&[Coding::OtherName, Coding::Plan], 0, 152, 7),
    // A ticket of a job that wasn't opened.
    (&[Coding::Owner, Coding::Ticket], 0, 151, 1),
    // The owner isn't first, or is twice.
    (&[Coding::Ticket], 0, 151, 0),
    (&[Coding::Plan, Coding::Owner], 0, 151, 0),
    (&[Coding::Owner, Coding::Owner], 0, 151, 1),
    // A flight that isn't held is ended.
    (&[Coding::Owner, Coding::End], 0, 151, 1),
    // A second job of a flight with an open one.
    (&[Coding::Owner, Coding::Plan, Coding::Again], 0, 151, 2),
    // Tags that begin again.
    (
        &[
            Coding::Owner,
            Coding::Plan,
            Coding::Ticket,
            Coding::Trial,
            Coding::Trial,
        ],
        0,
        151,
        4,
    ),
    // An attempt before the ticket is there, what wasn't tried, and what nobody is owed.
    (&[Coding::Owner, Coding::Plan, Coding::Trial], 0, 151, 2),
    (
        &[Coding::Owner, Coding::Plan, Coding::Ticket, Coding::Held],
        0,
        151,
        3,
    ),
    (&[Coding::Owner, Coding::Plan, Coding::Sent], 0, 151, 2),
    // The record of an attempt that wasn't made.
    (
        &[
            Coding::Owner,
            Coding::Plan,
            Coding::Ticket,
            Coding::Trial,
            Coding::OtherHeld,
        ],
        0,
        151,
        4,
    ),
    // A decision before the first attempt; that the key is stale while a round is left, and when none is.
    (
        &[
            Coding::Owner,
            Coding::Plan,
            Coding::Ticket,
            Coding::Cancelling,
        ],
        0,
        151,
        3,
    ),
    (
        &[
            Coding::Owner,
            Coding::Plan,
            Coding::Ticket,
            Coding::Trial,
            Coding::Stale,
        ],
        0,
        151,
        4,
    ),
    (
        &[
            Coding::Owner,
            Coding::Plan,
            Coding::Ticket,
            Coding::Trial,
            Coding::Further,
            Coding::Stale,
        ],
        6,
        0,
        0,
    ),
    // An end as it was decided, with which the ticket is gone, and another one.
    (
        &[
            Coding::Owner,
            Coding::Plan,
            Coding::Ticket,
            Coding::Trial,
            Coding::Cancelling,
            Coding::Cancelled,
        ],
        6,
        0,
        0,
    ),
    (
        &[
            Coding::Owner,
            Coding::Plan,
            Coding::Ticket,
            Coding::Trial,
            Coding::Cancelling,
            Coding::Cancelled,
            Coding::Gone,
        ],
        0,
        151,
        6,
    ),
    (
        &[
            Coding::Owner,
            Coding::Plan,
            Coding::Ticket,
            Coding::Trial,
            Coding::Cancelling,
            Coding::Conflicted,
        ],
        0,
        151,
        5,
    ),
    // A ticket that is needed is gone.
    (
        &[
            Coding::Owner,
            Coding::Plan,
            Coding::Ticket,
            Coding::Trial,
            Coding::Held,
            Coding::Gone,
        ],
        0,
        151,
        5,
    ),
    // A notification is answered, and answered twice.
    (
        &[
            Coding::Owner,
            Coding::Plan,
            Coding::Ticket,
            Coding::Trial,
            Coding::Held,
            Coding::Sent,
        ],
        6,
        0,
        0,
    ),
    (
        &[
            Coding::Owner,
            Coding::Plan,
            Coding::Ticket,
            Coding::Trial,
            Coding::Held,
            Coding::Sent,
            Coding::Sent,
        ],
        0,
        151,
        6,
    ),
    // No entry's coding.
    (&[Coding::Owner, Coding::Plan, Coding::Long], 0, 151, 2),
    (&[Coding::Owner, Coding::Empty], 0, 151, 1),
];

// What a file that is no journal has, and the place by which it isn't.
const NO_JOURNAL: [(&[u8], u64); 3] = [
    (b"notajournal!", 0),
    (b"USSJ0002\x01\0\0\0\x01a\0", 7),
    // A record that runs past the end of the file.
    (b"USSJ0001\x01\0\0\0\x03old", 8),
];

// Whether a mount of the file by the owner answers this, and a refusal leaves the file as it was.
fn is_answered(
    rt: &impl Abort,
    alloc: Global,
    file: &[u8],
    wanted: Got,
) -> Result<bool, AllocError> {
    let (found, disk) = outcome_of(mount(rt, alloc, file, Vec::new(alloc))?);
    Ok(found == wanted && (wanted.number == 0 || disk.bytes() == file))
}

// How many entries a view has of a file, or the refusal.
fn viewed(alloc: Global, file: &[u8]) -> Result<Got, AllocError> {
    let disk = MemoryDisk::with_bytes(alloc, file, Vec::new(alloc))?;
    match view(alloc, disk) {
        Ok((entries, _)) => Ok(kept(entries.len() as u64)),
        Err(why) => Ok(got_by(&why.refusal)),
    }
}

// What a view of these records answers where a mount answers this: another owner's book is viewed too, and of no record there is no
// entry.
fn wanted_of_view(records: &[Coding], mounted: Got) -> Got {
    if mounted.number == 0 || mounted.number == 152 {
        kept(records.len() as u64)
    } else {
        mounted
    }
}

#[test]
fn records_are_judged_one_after_another(rt: HostRuntime) -> Result<(), Fail> {
    for (records, entries, number, carries) in &JUDGED {
        let file = file_of(rt.alloc(), records)?;
        let wanted = Got {
            entries: *entries,
            number: *number,
            carries: *carries,
        };
        assert!(rt; is_answered(&rt, rt.alloc(), &file, wanted)?);
        assert!(rt; viewed(rt.alloc(), &file)? == wanted_of_view(records, wanted));
    }
    Ok(())
}

#[test]
fn other_files_are_no_journals(rt: HostRuntime) -> Result<(), Fail> {
    for (file, place) in &NO_JOURNAL {
        assert!(rt; is_answered(&rt, rt.alloc(), file, refused(143, *place))?);
        assert!(rt; viewed(rt.alloc(), file)? == refused(143, *place));
    }
    Ok(())
}

// Writes the bytes at a place of a file, up to its end and past it.
fn put(file: &mut Vec<u8>, at: u64, bytes: &[u8]) -> Result<(), AllocError> {
    for (k, byte) in bytes.iter().enumerate() {
        let place = (at as usize).saturating_add(k);
        if place < file.len() {
            file[place] = *byte;
        } else {
            file.push(*byte)?;
        }
    }
    Ok(())
}

// The file after these calls. A failed call wrote nothing.
fn left(alloc: Global, first: &[u8], calls: &[Call]) -> Result<Vec<u8>, AllocError> {
    let mut file = Vec::from_slice(alloc, first)?;
    for call in calls {
        if let Act::Write { at, bytes } = &call.act {
            if call.done {
                put(&mut file, *at, bytes.as_slice())?;
            }
        }
    }
    Ok(file)
}

// How many entries a mount finds in a file after these calls, or the refusal.
fn found_after(
    rt: &impl Abort,
    alloc: Global,
    first: &[u8],
    calls: &[Call],
) -> Result<Got, AllocError> {
    let file = left(alloc, first, calls)?;
    Ok(outcome_of(mount(rt, alloc, &file, Vec::new(alloc))?).0)
}

// Whether a mount of the file finds so many entries, or its call with this number fails, and a mount after each stop finds as many.
fn is_mounted(
    rt: &impl Abort,
    alloc: Global,
    file: &[u8],
    number: u64,
    entries: u64,
) -> Result<bool, AllocError> {
    let (found, disk) = outcome_of(mount(rt, alloc, file, vec![in alloc; number]?)?);
    let wanted = if number == 0 {
        kept(entries)
    } else {
        refused(141, 0)
    };
    if found != wanted {
        return Ok(false);
    }
    let calls = disk.calls();
    for stop in 0..calls.len() {
        if found_after(rt, alloc, file, &calls[..stop])? != kept(entries) {
            return Ok(false);
        }
    }
    Ok(found_after(rt, alloc, file, calls)? == kept(entries))
}

#[test]
fn a_book_is_mounted_whatever_call_fails_or_stops(rt: HostRuntime) -> Result<(), Fail> {
    // The journal of a new book is made by four calls, and its first entry is appended by four.
    for number in 0..9 {
        assert!(rt; is_mounted(&rt, rt.alloc(), b"", number, 1)?);
    }
    // A book that is there is read by three.
    let records = [Coding::Owner, Coding::Plan, Coding::Ticket, Coding::Trial];
    let file = file_of(rt.alloc(), &records)?;
    for number in 0..4 {
        assert!(rt; is_mounted(&rt, rt.alloc(), &file, number, 4)?);
    }
    Ok(())
}

// Enters this, if it may follow, and tells whether it may.
fn enter<D: Disk>(
    rt: &impl Abort,
    alloc: Global,
    book: &mut Book<D>,
    coding: Coding,
) -> Result<bool, AllocError> {
    let entry = entry_of(rt, alloc, coding)?;
    if !book.may_follow(&entry) {
        return Ok(false);
    }
    Ok(book.enter(entry).is_ok())
}

// Whether a plan, a ticket and an attempt are entered, no second plan of the flight may follow, and the room is kept.
fn enter_three<D: Disk>(
    rt: &impl Abort,
    alloc: Global,
    book: &mut Book<D>,
) -> Result<bool, AllocError> {
    let new = book.used() == 49;
    let plan = enter(rt, alloc, book, Coding::Plan)?;
    let ticket = enter(rt, alloc, book, Coding::Ticket)?;
    let trial = enter(rt, alloc, book, Coding::Trial)?;
    let again = enter(rt, alloc, book, Coding::Again)?;
    let room = book.used() == 221 && book.need() == 8_388_608;
    Ok(new && plan && ticket && trial && !again && room)
}

// Whether a mount after each stop finds the entries before the last that was begun, or with it. A new book is made by eight calls, and
// each entry is entered by four.
fn are_found(rt: &impl Abort, alloc: Global, calls: &[Call]) -> Result<bool, AllocError> {
    for stop in 8..calls.len() {
        let known = (stop as u64 / 4).saturating_sub(1);
        let found = found_after(rt, alloc, b"", &calls[..stop])?;
        let next = stop % 4 != 0 && found == kept(known.saturating_add(1));
        if found != kept(known) && !next {
            return Ok(false);
        }
    }
    Ok(calls.len() == 20 && found_after(rt, alloc, b"", calls)? == kept(4))
}

// The disk of a book, once three were entered in it.
fn written_by(
    rt: &impl Abort,
    alloc: Global,
    book: Book<MemoryDisk>,
) -> Result<Option<MemoryDisk>, AllocError> {
    let mut book = book;
    match enter_three(rt, alloc, &mut book) {
        Ok(true) => Ok(Some(book.release())),
        Ok(false) => Ok(None),
        Err(error) => Err(error),
    }
}

// Whether a stop is so while three are entered in a new book.
fn is_stopped(rt: &impl Abort, alloc: Global) -> Result<bool, AllocError> {
    let Ok(book) = mount(rt, alloc, b"", Vec::new(alloc))? else {
        return Ok(false);
    };
    match written_by(rt, alloc, book)? {
        Some(disk) => are_found(rt, alloc, disk.calls()),
        None => Ok(false),
    }
}

#[test]
fn a_stop_at_any_call_leaves_the_book_before_it_or_with_the_one_entry(
    rt: HostRuntime,
) -> Result<(), Fail> {
    assert!(rt; is_stopped(&rt, rt.alloc())?);
    Ok(())
}

// The opening of the job with this number, a plan of the flight with this number.
fn opening_of(alloc: Global, number: u8) -> Result<Vec<u8>, AllocError> {
    let mut record = Vec::from_slice(alloc, bytes_of(Coding::Plan))?;
    put(&mut record, 8, &[number])?;
    put(&mut record, 24, &[number])?;
    Ok(record)
}

// A journal of so many openings after whose book it is.
fn opened(alloc: Global, count: u8) -> Result<Vec<u8>, AllocError> {
    let mut file = Vec::from_slice(alloc, b"USSJ0001")?;
    add(&mut file, bytes_of(Coding::Owner))?;
    for number in 0..count {
        add(&mut file, &opening_of(alloc, number.saturating_add(1))?)?;
    }
    file.push(0)?;
    Ok(file)
}

// Whether a book of 63 open jobs keeps 63 times 8 MiB free, and has no room for the next: another job's opening.
fn is_full<D: Disk>(rt: &impl Abort, alloc: Global, book: &Book<D>) -> Result<bool, AllocError> {
    let room = book.len() == 64 && book.used() == 8_239 && book.need() == 528_482_304;
    let next = opening_of(alloc, 64)?;
    match read(alloc, &next)? {
        Some(next) => Ok(room && book.live_job(63) == Some(63) && !book.may_follow(&next)),
        None => rt.abort(),
    }
}

// Whether that is so of a mounted one.
fn is_at_the_limit(rt: &impl Abort, alloc: Global) -> Result<bool, AllocError> {
    let file = opened(alloc, 63)?;
    match mount(rt, alloc, &file, Vec::new(alloc))? {
        Ok(book) => is_full(rt, alloc, &book),
        Err(_) => Ok(false),
    }
}

#[test]
fn at_most_63_jobs_are_open(rt: HostRuntime) -> Result<(), Fail> {
    assert!(rt; is_at_the_limit(&rt, rt.alloc())?);
    let file = opened(rt.alloc(), 64)?;
    assert!(rt; is_answered(&rt, rt.alloc(), &file, refused(151, 64))?);
    Ok(())
}
