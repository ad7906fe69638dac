// The entries with their index: a book of some dozen entries, and what is refused between them.
use crate::bytes::{FURTHER, GONE, NEXT, OWNER, SENT, TICKET, TRIAL};
use crate::telling::tag_of;
use std::alloc::{AllocError, Global};
use std::test::Fail;
use uss_book_codec::read;
use uss_book_index::Entries;
use uss_book_rules::Tells;

struct Row {
    entry: &'static [u8],
    follows: bool,
    need: u64,
    settled: u64,
}

// The codings weren't made by this program, nor the lengths counted by it.
const ROWS: [Row; 23] = [
    // the owner
    Row {
        entry: OWNER,
        follows: true,
        need: 0,
        settled: 51,
    },
    // a job out of turn
    Row {
        entry: b"\x02\x00\x00\x00\x00\x00\x00\x00\x02\x0d#L\xcfRC\x00\x00\x00\x00\x00\x00\x00\x00\x00\x07\x00\x00\x00\x00\x00\x00\x00\x01\x01\x01\x00\x00\x02\x01\x01\x00\x00\x00\x03\x00\x00\x00\x00\x00\x00\x00\x00\x00\x00\x00\x00\x00\x00\x00\x00\x00\x00\x00\x00\x00\x00\x00\x0a\x00\x00\x00\x00\x00\x00\x00\x00\xff\xff\xff\xff\x94\xb6.\x00\xff\xff\xff\xff\xff\xff\xff\xfb\xff\xff\xff\xff\xff\xff\xff\xff\x00\x00\x00\x00\x00\x01\xd4\xc0\x0d#L\xcfRC\x00\x00\x0d#L\xcfRC\x00\x01\x00",
        follows: false,
        need: 0,
        settled: 51,
    },
    // a job that is to plan flight 7
    Row {
        entry: b"\x02\x00\x00\x00\x00\x00\x00\x00\x01\x0d#L\xcfRC\x00\x00\x00\x00\x00\x00\x00\x00\x00\x07\x00\x00\x00\x00\x00\x00\x00\x01\x01\x01\x00\x00\x02\x01\x01\x00\x00\x00\x03\x00\x00\x00\x00\x00\x00\x00\x00\x00\x00\x00\x00\x00\x00\x00\x00\x00\x00\x00\x00\x00\x00\x00\x0a\x00\x00\x00\x00\x00\x00\x00\x00\xff\xff\xff\xff\x94\xb6.\x00\xff\xff\xff\xff\xff\xff\xff\xfb\xff\xff\xff\xff\xff\xff\xff\xff\x00\x00\x00\x00\x00\x01\xd4\xc0\x0d#L\xcfRC\x00\x00\x0d#L\xcfRC\x00\x01\x00",
        follows: true,
        need: 8388608,
        settled: 181,
    },
    // another for the same flight
    Row {
        entry: NEXT,
        follows: false,
        need: 8388608,
        settled: 181,
    },
    // its ticket
    Row {
        entry: TICKET,
        follows: true,
        need: 8388608,
        settled: 181,
    },
    // an attempt with a tag too high
    Row {
        entry: FURTHER,
        follows: false,
        need: 8388608,
        settled: 181,
    },
    // an attempt
    Row {
        entry: TRIAL,
        follows: true,
        need: 8388608,
        settled: 181,
    },
    // a record of another tag
    Row {
        entry: b"\x05\x00\x00\x00\x00\x00\x00\x00\x01\x00\x00\x00\x00\x00\x00\x00\x02\x00\x00\x00\x14ovn-0000000000000001\x00\x00\x00\x01\x00\x00\x00\x01\x00\x00\x00\x0dhttp://b.test\x00\x00\x00\x01\x00\x00\x00\x00\x00\x00\x00\x00\x00\x00\x00\x07\x00\x00\x00\x00\x00\x00\x00\x03",
        follows: false,
        need: 8388608,
        settled: 181,
    },
    // its record, of which one supplier is to be notified
    Row {
        entry: b"\x05\x00\x00\x00\x00\x00\x00\x00\x01\x00\x00\x00\x00\x00\x00\x00\x01\x00\x00\x00\x14ovn-0000000000000001\x00\x00\x00\x01\x00\x00\x00\x01\x00\x00\x00\x0dhttp://b.test\x00\x00\x00\x01\x00\x00\x00\x00\x00\x00\x00\x00\x00\x00\x00\x07\x00\x00\x00\x00\x00\x00\x00\x03",
        follows: true,
        need: 128,
        settled: 318,
    },
    // its ticket gone while it is needed
    Row {
        entry: GONE,
        follows: false,
        need: 128,
        settled: 318,
    },
    // one notified
    Row {
        entry: SENT,
        follows: true,
        need: 64,
        settled: 336,
    },
    // the same again
    Row {
        entry: SENT,
        follows: false,
        need: 64,
        settled: 336,
    },
    // a job that is to end flight 7
    Row {
        entry: NEXT,
        follows: true,
        need: 8388672,
        settled: 375,
    },
    // flight 7 ended, of which two are to be notified
    Row {
        entry: b"\x07\x00\x00\x00\x00\x00\x00\x00\x02\x04\x00\x00\x00\x02\x00\x00\x00\x0dhttp://b.test\x00\x00\x00\x01\x00\x00\x00\x00\x00\x00\x00\x00\x00\x00\x00\x07\x00\x00\x00\x00\x00\x00\x00\x03\x00\x00\x00\x0dhttp://b.test\x00\x00\x00\x01\x00\x00\x00\x00\x00\x00\x00\x00\x00\x00\x00\x07\x00\x00\x00\x00\x00\x00\x00\x03",
        follows: true,
        need: 192,
        settled: 476,
    },
    // a third job of flight 7
    Row {
        entry: b"\x02\x00\x00\x00\x00\x00\x00\x00\x03\x0d#L\xcfRC\x00\x00\x00\x00\x00\x00\x00\x00\x00\x07\x00\x00\x00\x00\x00\x00\x00\x03\x01\x01\x00\x00\x02\x01\x01\x00\x00\x00\x03\x00\x00\x00\x00\x00\x00\x00\x00\x00\x00\x00\x00\x00\x00\x00\x00\x00\x00\x00\x00\x00\x00\x00\x0a\x00\x00\x00\x00\x00\x00\x00\x00\xff\xff\xff\xff\x94\xb6.\x00\xff\xff\xff\xff\xff\xff\xff\xfb\xff\xff\xff\xff\xff\xff\xff\xff\x00\x00\x00\x00\x00\x01\xd4\xc0\x0d#L\xcfRC\x00\x00\x0d#L\xcfRC\x00\x01\x00",
        follows: false,
        need: 192,
        settled: 476,
    },
    // the second notified
    Row {
        entry: b"\x09\x00\x00\x00\x00\x00\x00\x00\x02\x00\x00\x00\x01",
        follows: true,
        need: 128,
        settled: 494,
    },
    // the ticket gone
    Row {
        entry: GONE,
        follows: true,
        need: 64,
        settled: 508,
    },
    // a job that is to plan flight 8
    Row {
        entry: b"\x02\x00\x00\x00\x00\x00\x00\x00\x03\x0d#L\xcfRC\x00\x00\x00\x00\x00\x00\x00\x00\x00\x08\x00\x00\x00\x00\x00\x00\x00\x01\x01\x01\x00\x00\x02\x01\x01\x00\x00\x00\x03\x00\x00\x00\x00\x00\x00\x00\x00\x00\x00\x00\x00\x00\x00\x00\x00\x00\x00\x00\x00\x00\x00\x00\x0a\x00\x00\x00\x00\x00\x00\x00\x00\xff\xff\xff\xff\x94\xb6.\x00\xff\xff\xff\xff\xff\xff\xff\xfb\xff\xff\xff\xff\xff\xff\xff\xff\x00\x00\x00\x00\x00\x01\xd4\xc0\x0d#L\xcfRC\x00\x00\x0d#L\xcfRC\x00\x01\x00",
        follows: true,
        need: 8388672,
        settled: 638,
    },
    // its ticket
    Row {
        entry: b"\x03\x00\x00\x00\x00\x00\x00\x00\x03",
        follows: true,
        need: 8388672,
        settled: 638,
    },
    // an attempt
    Row {
        entry: b"\x04\x00\x00\x00\x00\x00\x00\x00\x03\x00\x00\x00\x00\x00\x00\x00\x02\x00\x00\x00\x00\x00\x00",
        follows: true,
        need: 8388672,
        settled: 638,
    },
    // it is cancelled
    Row {
        entry: b"\x06\x00\x00\x00\x00\x00\x00\x00\x03\x03",
        follows: true,
        need: 8388672,
        settled: 638,
    },
    // a further attempt
    Row {
        entry: b"\x04\x00\x00\x00\x00\x00\x00\x00\x03\x00\x00\x00\x00\x00\x00\x00\x03\x00\x00\x00\x00\x00\x00",
        follows: false,
        need: 8388672,
        settled: 638,
    },
    // it ended
    Row {
        entry: b"\x07\x00\x00\x00\x00\x00\x00\x00\x03\x03",
        follows: true,
        need: 64,
        settled: 710,
    },
];

// Enters the entry with this coding, where it may follow.
pub(crate) fn enter(alloc: Global, book: &mut Entries, coding: &[u8]) -> Result<bool, AllocError> {
    let Some(entry) = read(alloc, coding)? else {
        return Ok(false);
    };
    if !book.may_follow(&entry) {
        return Ok(false);
    }
    book.make_room(&entry)?;
    book.enter(entry);
    Ok(true)
}

// At the end: jobs 1 and 3 made an attempt each, job 2 none.
fn tells_of_attempts(book: &Entries) -> bool {
    tag_of(book.trial_at(1, 0)) == 1
        && tag_of(book.trial_at(1, 1)) == 0
        && tag_of(book.last_trial(1)) == 1
        && tag_of(book.last_trial(2)) == 0
        && tag_of(book.trial_at(3, 0)) == 2
        && tag_of(book.last_trial(3)) == 2
}

// At the end: job 1 recorded something, job 2 ended its flight, job 3 was cancelled, and there is no job 4.
fn tells_of_jobs(book: &Entries) -> bool {
    book.opening(3).is_some()
        && book.opening(4).is_none()
        && book.holding(1).is_some()
        && book.holding(2).is_none()
        && book.decision(3).is_some()
        && book.decision(1).is_none()
        && book.ending(2).is_some()
        && book.ending(1).is_none()
        && book.owns(1, 1)
        && !book.owns(1, 2)
        && book.has_ticket(1)
        && !book.has_ticket(2)
}

// At the end: flight 7 has ended, flight 8 was cancelled before anything was recorded of it, and there is no flight 9.
fn tells_of_flights(book: &Entries) -> bool {
    book.has_ended(7)
        && !book.has_ended(8)
        && book.open_job(7).is_none()
        && book.open_job(8).is_none()
        && book.last(7).is_some()
        && book.last(8).is_some()
        && book.last(9).is_none()
        && book.last_holding(7).is_some()
        && book.last_holding(8).is_none()
}

// At the end: job 1 owes one notification, which was answered; job 2 owes two, of which the second was; job 3 owes none.
fn tells_of_owed(book: &Entries) -> bool {
    book.owed(1).len() == 1
        && book.unsent(1, 0).is_none()
        && book.owed(2).len() == 2
        && book.unsent(2, 0) == Some(0)
        && book.unsent(2, 1).is_none()
        && book.owed(3).is_empty()
        && book.unsent(3, 0).is_none()
}

#[test]
fn a_book_tells_what_was_entered(rt: HostRuntime) -> Result<(), Fail> {
    let mut book = Entries::new(rt.alloc());
    for row in &ROWS {
        let follows = enter(rt.alloc(), &mut book, row.entry)?;
        assert_eq!(rt; follows, row.follows);
        assert_eq!(rt; book.need(), row.need);
        assert_eq!(rt; book.settled_length(), row.settled);
    }
    assert_eq!(rt; book.len(), 15);
    assert_eq!(rt; book.jobs(), 3);
    assert_eq!(rt; book.tags(), 2);
    assert!(rt; tells_of_jobs(&book));
    assert!(rt; tells_of_flights(&book));
    assert!(rt; book.entry(14).is_some());
    assert!(rt; book.entry(15).is_none());
    assert!(rt; tells_of_attempts(&book));
    assert!(rt; tells_of_owed(&book));
    Ok(())
}
