// What a book tells of its flights, its jobs and their attempts. A row names its records.
use crate::records::{Coding, file_of, mount};
use std::alloc::{AllocError, Global};
use std::process::Abort;
use std::test::Fail;
use uss_book::Book;
use uss_book_rules::Tells;
use uss_disk::Disk;
use uss_event::{Pair, Trial};

// What a book of these records tells of flight 7, of job 1 and of its attempts, each by its tag, or 0.
struct Telling {
    records: &'static [Coding],
    live: Option<u64>,
    last: Option<(u64, u64)>,
    // The OVN of what is held of it, or no byte.
    held: &'static [u8],
    attempts: usize,
    owns: bool,
    second: u64,
    latest: u64,
    owed: usize,
    unsent: Option<u32>,
    unsent_second: Option<u32>,
}

const TELLINGS: [Telling; 8] = [
    Telling {
        records: &[Coding::Owner],
        live: None,
        last: None,
        held: b"",
        attempts: 0,
        owns: false,
        second: 0,
        latest: 0,
        owed: 0,
        unsent: None,
        unsent_second: None,
    },
    Telling {
        records: &[Coding::Owner, Coding::Plan],
        live: Some(1),
        last: Some((2, 1)),
        held: b"",
        attempts: 0,
        owns: false,
        second: 0,
        latest: 0,
        owed: 0,
        unsent: None,
        unsent_second: None,
    },
    Telling {
        records: &[Coding::Owner, Coding::Plan, Coding::Ticket, Coding::Trial],
        live: Some(1),
        last: Some((2, 1)),
        held: b"",
        attempts: 1,
        owns: true,
        second: 0,
        latest: 1,
        owed: 0,
        unsent: None,
        unsent_second: None,
    },
    Telling {
        records: &[
            Coding::Owner,
            Coding::Plan,
            Coding::Ticket,
            Coding::Trial,
            Coding::Further,
        ],
        live: Some(1),
        last: Some((2, 1)),
        held: b"",
        attempts: 2,
        owns: true,
        second: 2,
        latest: 2,
        owed: 0,
        unsent: None,
        unsent_second: None,
    },
    Telling {
        records: &[
            Coding::Owner,
            Coding::Plan,
            Coding::Ticket,
            Coding::Trial,
            Coding::Held,
        ],
        live: None,
        last: Some((2, 1)),
        held: b"ovn-0000000000000001",
        attempts: 1,
        owns: true,
        second: 0,
        latest: 1,
        owed: 2,
        unsent: Some(0),
        unsent_second: Some(1),
    },
    Telling {
        records: &[
            Coding::Owner,
            Coding::Plan,
            Coding::Ticket,
            Coding::Trial,
            Coding::Held,
            Coding::Sent,
        ],
        live: None,
        last: Some((2, 1)),
        held: b"ovn-0000000000000001",
        attempts: 1,
        owns: true,
        second: 0,
        latest: 1,
        owed: 2,
        unsent: Some(0),
        unsent_second: None,
    },
    Telling {
        records: &[
            Coding::Owner,
            Coding::Plan,
            Coding::Ticket,
            Coding::Trial,
            Coding::Held,
            Coding::Next,
        ],
        live: Some(2),
        last: Some((3, 2)),
        held: b"ovn-0000000000000001",
        attempts: 1,
        owns: true,
        second: 0,
        latest: 1,
        owed: 2,
        unsent: Some(0),
        unsent_second: Some(1),
    },
    Telling {
        records: &[
            Coding::Owner,
            Coding::Plan,
            Coding::Ticket,
            Coding::Trial,
            Coding::Held,
            Coding::Next,
            Coding::Ended,
        ],
        live: None,
        last: Some((3, 2)),
        held: b"",
        attempts: 1,
        owns: true,
        second: 0,
        latest: 1,
        owed: 2,
        unsent: Some(0),
        unsent_second: Some(1),
    },
];

// The tag of an attempt, or 0.
pub(crate) fn tag_of(attempt: Option<&Trial>) -> u64 {
    match attempt {
        Some(trial) => trial.tag,
        None => 0,
    }
}

// Whether what is held has this OVN, or nothing is where there is none.
fn is_of(held: Option<&Pair>, ovn: &[u8]) -> bool {
    match held {
        Some(pair) => match &pair.reference().ovn {
            Some(found) => found.as_bytes() == ovn,
            None => false,
        },
        None => ovn.is_empty(),
    }
}

fn tells_of_the_flight<D: Disk>(book: &Book<D>, row: &Telling) -> bool {
    book.live_job(7) == row.live
        && book.last(7) == row.last
        && is_of(book.held(7), row.held)
        && book.held(8).is_none()
        && book.entries().open_job(8).is_none()
}

fn tells_of_the_attempts<D: Disk>(book: &Book<D>, row: &Telling) -> bool {
    book.attempts(1) == row.attempts
        && book.owns(1, 1) == row.owns
        && tag_of(book.entries().trial_at(1, 1)) == row.second
        && tag_of(book.entries().last_trial(1)) == row.latest
        && tag_of(book.entries().trial_at(2, 0)) == 0
}

fn tells_of_the_owed<D: Disk>(book: &Book<D>, row: &Telling) -> bool {
    book.entries().owed(1).len() == row.owed
        && book.entries().unsent(1, 0) == row.unsent
        && book.entries().unsent(1, 1) == row.unsent_second
        && book.entries().unsent(1, 2).is_none()
}

// Whether a book tells what the row says, and has as many entries as the row has records.
fn tells<D: Disk>(book: &Book<D>, row: &Telling) -> bool {
    tells_of_the_flight(book, row)
        && tells_of_the_attempts(book, row)
        && tells_of_the_owed(book, row)
        && book.entry(0).is_some()
        && book.entry(book.len()).is_none()
        && book.len() == row.records.len() as u64
}

// Whether a book of the row's records tells what the row says.
fn is_sent(rt: &impl Abort, alloc: Global, row: &Telling) -> Result<bool, AllocError> {
    let file = file_of(alloc, row.records)?;
    let Ok(book) = mount(rt, alloc, &file, Vec::new(alloc))? else {
        return Ok(false);
    };
    Ok(tells(&book, row))
}

#[test]
fn a_book_tells_of_its_flights(rt: HostRuntime) -> Result<(), Fail> {
    for row in &TELLINGS {
        assert!(rt; is_sent(&rt, rt.alloc(), row)?);
    }
    Ok(())
}
