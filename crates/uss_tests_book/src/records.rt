// What the tests of the book use: records, the files that they make, and what a mount of these answers.
ghost use Rattle.std.specs.Prelude.{◌≤◌, length, IfOk};
ghost use Rattle.uss_law_book.specs.Coding.{HasCoding};

use crate::bytes;
use std::alloc::{AllocError, Global};
use std::process::Abort;
use uss_book::{Book, BookFault, BookRefusal};
use uss_book_codec::read;
use uss_disk::{Disk, MemoryDisk};
use uss_event::{Entry, Owner};

// A record of a journal.
#[derive(Clone, Copy)]
pub(crate) enum Coding {
    Owner,
    OtherNumber,
    OtherName,
    // An end of flight 7.
    End,
    // A plan of flight 7, of two rounds, and another one.
    Plan,
    Again,
    // In place of the first plan: one of another request.
    OtherPlan,
    Ticket,
    // The first attempt, the second, and the record of the first, of which two are to be notified.
    Trial,
    Further,
    Held,
    // The second of the two was notified.
    Sent,
    // An end of flight 7 after that, and that it ended, with nobody to notify.
    Next,
    Ended,
    // A record of an attempt that wasn't made, that the job is to end as cancelled or with a stale key, that it ended so or with a
    // conflict, and that its ticket is gone.
    OtherHeld,
    Cancelling,
    Stale,
    Cancelled,
    Conflicted,
    Gone,
    // No coding: a byte too many, and none.
    Long,
    Empty,
}

// The bytes weren't made by this program.
pub(crate) fn bytes_of(coding: Coding) -> &'static [u8] {
    match coding {
        Coding::Owner => b"\x01\0\0\0\x07\0\0\0\x03uss\0\0\0\x0dhttp://u.test\0\0\0\x01\0\x05",
        Coding::OtherNumber => {
            b"\x01\0\0\0\x08\0\0\0\x03uss\0\0\0\x0dhttp://u.test\0\0\0\x01\0\x05"
        }
        Coding::OtherName => b"\x01\0\0\0\x07\0\0\0\x03usr\0\0\0\x0dhttp://u.test\0\0\0\x01\0\x05",
        Coding::End => bytes::END,
        Coding::Plan => {
            b"\x02\0\0\0\0\0\0\0\x01\x0d#L\xcfRC\0\0\0\0\0\0\0\0\0\x07\0\0\0\0\0\0\0\x02\x01\x01\0\x05\x02\x01\x01\0\0\0\x03\0\0\0\0\0\0\0\0\0\0\0\0\0\0\0\0\0\0\0\0\0\0\0\x0a\0\0\0\0\0\0\0\0\xff\xff\xff\xff\x94\xb6.\0\xff\xff\xff\xff\xff\xff\xff\xfb\xff\xff\xff\xff\xff\xff\xff\xff\0\0\0\0\0\x01\xd4\xc0\x0d#L\xcfRC\0\0\x0d#L\xcfRC\0\x01\0"
        }
        Coding::Again => {
            b"\x02\0\0\0\0\0\0\0\x02\x0d#L\xcfRC\0\0\0\0\0\0\0\0\0\x07\0\0\0\0\0\0\0\x03\x01\x01\0\x05\x02\x01\x01\0\0\0\x03\0\0\0\0\0\0\0\0\0\0\0\0\0\0\0\0\0\0\0\0\0\0\0\x0a\0\0\0\0\0\0\0\0\xff\xff\xff\xff\x94\xb6.\0\xff\xff\xff\xff\xff\xff\xff\xfb\xff\xff\xff\xff\xff\xff\xff\xff\0\0\0\0\0\x01\xd4\xc0\x0d#L\xcfRC\0\0\x0d#L\xcfRC\0\x01\0"
        }
        Coding::OtherPlan => {
            b"\x02\0\0\0\0\0\0\0\x01\x0d#L\xcfRC\0\0\0\0\0\0\0\0\0\x07\0\0\0\0\0\0\0\x03\x01\x01\0\x05\x02\x01\x01\0\0\0\x03\0\0\0\0\0\0\0\0\0\0\0\0\0\0\0\0\0\0\0\0\0\0\0\x0a\0\0\0\0\0\0\0\0\xff\xff\xff\xff\x94\xb6.\0\xff\xff\xff\xff\xff\xff\xff\xfb\xff\xff\xff\xff\xff\xff\xff\xff\0\0\0\0\0\x01\xd4\xc0\x0d#L\xcfRC\0\0\x0d#L\xcfRC\0\x01\0"
        }
        Coding::Ticket => bytes::TICKET,
        Coding::Trial => bytes::TRIAL,
        Coding::Further => bytes::FURTHER,
        Coding::Held => {
            b"\x05\0\0\0\0\0\0\0\x01\0\0\0\0\0\0\0\x01\0\0\0\x14ovn-0000000000000001\0\0\0\x01\0\0\0\x02\0\0\0\x0dhttp://b.test\0\0\0\x01\0\0\0\0\0\0\0\0\0\0\0\x07\0\0\0\0\0\0\0\x03\0\0\0\x0dhttp://c.test\0\0\0\x01\0\0\0\0\0\0\0\0\0\0\0\x08\0\0\0\0\0\0\0\x03"
        }
        Coding::Sent => b"\x09\0\0\0\0\0\0\0\x01\0\0\0\x01",
        Coding::Next => {
            b"\x02\0\0\0\0\0\0\0\x02\x0d#L\xcfRC\0\0\0\0\0\0\0\0\0\x07\0\0\0\0\0\0\0\x03\x02"
        }
        Coding::Ended => b"\x07\0\0\0\0\0\0\0\x02\x04\0\0\0\0",
        Coding::OtherHeld => {
            b"\x05\0\0\0\0\0\0\0\x01\0\0\0\0\0\0\0\x02\0\0\0\x14ovn-0000000000000001\0\0\0\x01\0\0\0\0"
        }
        Coding::Cancelling => bytes::CANCELLING,
        Coding::Stale => b"\x06\0\0\0\0\0\0\0\x01\x02\0\0\0\0",
        Coding::Cancelled => b"\x07\0\0\0\0\0\0\0\x01\x03",
        Coding::Conflicted => {
            b"\x07\0\0\0\0\0\0\0\x01\x01\0\0\0\x02\0\0\x40\0\x80\0\0\0\0\0\0\x01\0\0\0\x03usr\x01"
        }
        Coding::Gone => bytes::GONE,
        Coding::Long => bytes::LONG,
        Coding::Empty => b"",
    }
}

// Writes a record, and the gate before it.
pub(crate) fn add(file: &mut Vec<u8>, record: &[u8]) -> Result<(), AllocError> {
    file.push(1)?;
    file.extend_from_slice(&((record.len() % 65536) as u32).to_be_bytes())?;
    file.extend_from_slice(record)
}

// A journal of these records.
pub(crate) fn file_of(alloc: Global, records: &[Coding]) -> Result<Vec<u8>, AllocError> {
    let mut file = Vec::from_slice(alloc, b"USSJ0001")?;
    for coding in records {
        add(&mut file, bytes_of(*coding))?;
    }
    file.push(0)?;
    Ok(file)
}

pub(crate) fn entry_of(rt: &impl Abort, alloc: Global, coding: Coding) -> Result<Entry, AllocError>
    ensures { IfOk result HasCoding }
{
    match read(alloc, bytes_of(coding))? {
        Some(entry) => Ok(entry),
        None => rt.abort(),
    }
}

pub(crate) fn owner_of(rt: &impl Abort, alloc: Global) -> Result<Owner, AllocError>
    ensures { IfOk result (λ o. length o.base ≤ 256) }
{
    let Entry::Owner(owner) = entry_of(rt, alloc, Coding::Owner)? else {
        rt.abort();
    };
    if owner.base.as_bytes().len() > 256 {
        rt.abort();
    }
    Ok(owner)
}

// Mounts by the owner this file, on a disk of which the calls with these numbers fail.
pub(crate) fn mount(
    rt: &impl Abort,
    alloc: Global,
    file: &[u8],
    failing: Vec<u64>,
) -> Result<Result<Book<MemoryDisk>, BookRefusal<MemoryDisk>>, AllocError> {
    let owner = owner_of(rt, alloc)?;
    let disk = MemoryDisk::with_bytes(alloc, file, failing)?;
    Ok(Book::mount(alloc, disk, owner))
}

// How many entries a book has, or the number of a refusal and what it carries.
#[derive(Clone, Copy, PartialEq, Eq)]
pub(crate) struct Got {
    pub(crate) entries: u64,
    pub(crate) number: u16,
    pub(crate) carries: u64,
}

pub(crate) fn kept(entries: u64) -> Got {
    Got {
        entries,
        number: 0,
        carries: 0,
    }
}

pub(crate) fn refused(number: u16, carries: u64) -> Got {
    Got {
        entries: 0,
        number,
        carries,
    }
}

// What a refusal carries.
fn carried(fault: &BookFault) -> u64 {
    match fault {
        BookFault::NotAJournal(number)
        | BookFault::Spent(number)
        | BookFault::BadEntry(number)
        | BookFault::Changed(number) => *number,
        BookFault::OtherOwner(kept) => u64::from(kept.number),
        BookFault::DiskFault | BookFault::Memory => 0,
    }
}

pub(crate) fn got_by(fault: &BookFault) -> Got {
    refused(fault.number().unwrap_or(0), carried(fault))
}

// What a mount answered, and the disk after it.
pub(crate) fn outcome_of<D: Disk>(answer: Result<Book<D>, BookRefusal<D>>) -> (Got, D) {
    match answer {
        Ok(book) => (kept(book.len()), book.release()),
        Err(why) => (got_by(&why.refusal), why.back),
    }
}
