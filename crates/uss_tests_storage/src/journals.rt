// The journal on a disk in memory of which one call fails, or whose calls stop at one of them, and on a real file.
use crate::losing::Losing;
use std::alloc::{AllocError, Global};
use std::fs;
use std::process::Abort;
use std::test::Fail;
use uss_disk::{Act, Call, Disk, FileDisk, MemoryDisk};
use uss_journal::{Journal, JournalRefusal};

const FILE: &str = "uss_journal_tests.file";

// A ticket of job 1, as the book above writes it.
const TICKET: &[u8] = b"\x03\0\0\0\0\0\0\0\x01";

// A journal of one record, `old`.
const ONE: &[u8] = b"USSJ0001\x01\0\0\0\x03old\0";

fn is_last<D: Disk>(journal: &Journal<D>, record: &[u8]) -> bool {
    let count = journal.count();
    if count == 0 {
        return false;
    }
    match journal.item(count - 1) {
        Some(bytes) => bytes == record,
        None => false,
    }
}

// Mounts a file of which the call with this number fails, or none at 0, appends, and mounts again what a fault left.
fn run(rt: &impl Abort, alloc: Global, file: &[u8], number: u64) -> Result<(), Fail> {
    let disk = MemoryDisk::with_bytes(alloc, file, vec![in alloc; number]?)?;
    let mut faults = 0;
    let mut journal = match Journal::mount(alloc, disk) {
        Ok(journal) => journal,
        Err(refused) => {
            faults += 1;
            assert_eq!(rt; refused.refusal, JournalRefusal::DiskFault, "at {number}");
            match Journal::mount(alloc, refused.back) {
                Ok(journal) => journal,
                Err(_) => rt.abort(),
            }
        }
    };
    let before = journal.count();
    let mut acknowledged = before;
    match journal.append(b"new") {
        Ok(()) => acknowledged = acknowledged.saturating_add(1),
        Err(refusal) => {
            faults += 1;
            assert_eq!(rt; refusal, JournalRefusal::DiskFault, "at {number}");
            assert_eq!(rt;
                journal.append(b"other"),
                Err(JournalRefusal::Spent(1)),
                "at {number}"
            );
            assert_eq!(rt; journal.count(), before, "at {number}");
            journal.remount()?;
        }
    }
    let after = journal.count();
    assert!(rt;
        acknowledged <= after && after <= before.saturating_add(1),
        "at {number}"
    );
    assert_eq!(rt; faults, usize::from(number > 0), "at {number}");
    let used = journal.used();
    journal.append(b"last")?;
    assert_eq!(rt; journal.used(), used.saturating_add(9), "at {number}");
    assert!(rt; is_last(&journal, b"last"), "at {number}");
    Ok(())
}

#[test]
fn each_call_fails_in_turn(rt: HostRuntime) -> Result<(), Fail> {
    let cases: [(&[u8], u64); 3] = [(b"", 8), (b"half made", 9), (ONE, 7)];
    for (file, calls) in cases {
        for number in 0..=calls {
            run(&rt, rt.alloc(), file, number)?;
        }
    }
    Ok(())
}

// How many records a journal knows, and how many it found.
fn counts<D: Disk>(journal: &Journal<D>) -> (usize, Option<usize>) {
    let found = match journal.found() {
        Some(records) => Some(records.count()),
        None => None,
    };
    (journal.records().count(), found)
}

#[test]
fn what_was_found_is_taken_over(rt: HostRuntime) -> Result<(), Fail> {
    let alloc = rt.alloc();
    // The last call of the append fails: the record is in the file, and isn't known.
    let disk = MemoryDisk::with_bytes(alloc, ONE, vec![in alloc; 7]?)?;
    let mut journal = match Journal::mount(alloc, disk) {
        Ok(journal) => journal,
        Err(_) => rt.abort(),
    };
    assert_eq!(rt; journal.append(b"new"), Err(JournalRefusal::DiskFault));
    journal.reread()?;
    assert_eq!(rt; counts(&journal), (1, Some(2)));
    assert_eq!(rt; journal.append(b"other"), Err(JournalRefusal::Spent(1)));
    journal.adopt();
    assert_eq!(rt; counts(&journal), (2, None));
    // An append forgets what was found.
    journal.reread()?;
    assert_eq!(rt; counts(&journal), (2, Some(2)));
    journal.append(b"last")?;
    journal.adopt();
    assert_eq!(rt; counts(&journal), (3, None));
    Ok(())
}

// A journal of one record whose disk loses all but so many bytes at the sync after its mount.
fn losing(rt: &impl Abort, alloc: Global, keeps: usize) -> Result<Journal<Losing>, AllocError> {
    let disk = Losing::new(Vec::from_slice(alloc, ONE)?, 2, keeps);
    match Journal::mount(alloc, disk) {
        Ok(journal) => Ok(journal),
        Err(_) => rt.abort(),
    }
}

#[test]
fn a_lost_file_is_found_without_a_write(rt: HostRuntime) -> Result<(), Fail> {
    for keeps in [0usize, 1, 9] {
        let mut journal = losing(&rt, rt.alloc(), keeps)?;
        journal.reread()?;
        assert_eq!(rt; counts(&journal), (1, Some(0)));
        journal.adopt();
        assert_eq!(rt; counts(&journal), (1, Some(0)));
        assert_eq!(rt; journal.release().writes(), 0);
    }
    Ok(())
}

#[test]
fn a_lost_file_is_mounted_again_as_a_new_journal(rt: HostRuntime) -> Result<(), Fail> {
    for keeps in [0usize, 1, 9] {
        let mut journal = losing(&rt, rt.alloc(), keeps)?;
        journal.remount()?;
        assert_eq!(rt; counts(&journal), (0, None));
        journal.append(b"new")?;
        match Journal::mount(rt.alloc(), journal.release()) {
            Ok(journal) => assert!(rt; is_last(&journal, b"new") && journal.count() == 1),
            Err(_) => rt.abort(),
        }
    }
    Ok(())
}

// The file after these calls, of which a last write that is torn has left its first byte alone.
fn left(alloc: Global, file: &[u8], calls: &[Call], torn: bool) -> Result<Vec<u8>, AllocError> {
    let mut bytes = Vec::from_slice(alloc, file)?;
    for (i, call) in calls.iter().enumerate() {
        if let Act::Write { at, bytes: written } = &call.act {
            for (k, byte) in written.as_slice().iter().enumerate() {
                let place = (*at as usize).saturating_add(k);
                if torn && k > 0 && i + 1 == calls.len() {
                    break;
                }
                if place < bytes.len() {
                    bytes[place] = *byte;
                } else {
                    bytes.push(*byte)?;
                }
            }
        }
    }
    Ok(bytes)
}

#[test]
fn a_stop_within_an_append_leaves_the_record_whole_or_not(rt: HostRuntime) -> Result<(), Fail> {
    let alloc = rt.alloc();
    let disk = MemoryDisk::with_bytes(alloc, ONE, Vec::new(alloc))?;
    let mut journal = match Journal::mount(alloc, disk) {
        Ok(journal) => journal,
        Err(_) => rt.abort(),
    };
    journal.append(TICKET)?;
    let disk = journal.release();
    let calls = disk.calls();
    // Mounting made three calls: a sync, the length, one read.
    assert_eq!(rt; calls.len(), 7);
    assert!(rt; is_write(&calls[3], 17, b"\0\0\0\x09\x03\0\0\0\0\0\0\0\x01\0"));
    assert!(rt; matches!(calls[4].act, Act::Sync));
    assert!(rt; is_write(&calls[5], 16, b"\x01"));
    assert!(rt; matches!(calls[6].act, Act::Sync));
    for (stop, torn, wanted) in [
        (3, false, 1),
        (4, true, 1),
        (4, false, 1),
        (5, false, 1),
        (6, false, 2),
        (7, false, 2),
    ] {
        let file = left(alloc, ONE, &calls[..stop], torn)?;
        let again = MemoryDisk::with_bytes(alloc, &file, Vec::new(alloc))?;
        match Journal::mount(alloc, again) {
            Ok(journal) => assert_eq!(rt; journal.count(), wanted, "at {stop}"),
            Err(_) => rt.abort(),
        }
    }
    Ok(())
}

fn is_write(call: &Call, place: u64, wanted: &[u8]) -> bool {
    match &call.act {
        Act::Write { at, bytes } => *at == place && bytes.as_slice() == wanted,
        _ => false,
    }
}

#[test]
fn files_are_mounted_by_their_bytes(rt: HostRuntime) -> Result<(), Fail> {
    let alloc = rt.alloc();
    let cases: [(&[u8], Result<usize, JournalRefusal>); 10] = [
        (b"", Ok(0)),
        (b"nine byte", Ok(0)),
        (b"notajournal!", Err(JournalRefusal::NotAJournal(0))),
        (
            b"USSJ0002\x01\0\0\0\x01a\0",
            Err(JournalRefusal::NotAJournal(7)),
        ),
        (ONE, Ok(1)),
        (b"USSJ0001\x5a\0\0\0\x03old\0\x01\x02\x03", Ok(1)),
        (
            b"USSJ0001\x01\0\0\0\x03old",
            Err(JournalRefusal::NotAJournal(8)),
        ),
        (b"USSJ0001\x01\0\0", Err(JournalRefusal::NotAJournal(8))),
        (
            b"USSJ0001\x01\0\0\0\x03old\x01\0\0\0\x02ab",
            Err(JournalRefusal::NotAJournal(16)),
        ),
        (b"USSJ0001\x01\0\0\0\0\x01\0\0\0\x02ab\0", Ok(2)),
    ];
    for (file, wanted) in cases {
        let disk = MemoryDisk::with_bytes(alloc, file, Vec::new(alloc))?;
        let got = match Journal::mount(alloc, disk) {
            Ok(journal) => Ok(journal.count()),
            Err(refused) => {
                assert_eq!(rt; refused.back.bytes(), file);
                Err(refused.refusal)
            }
        };
        assert_eq!(rt; got, wanted, "{file:?}");
    }
    Ok(())
}

#[test]
fn a_real_file_is_mounted_again(rt: HostRuntime) -> Result<(), Fail> {
    let alloc = rt.alloc();
    let _ = fs::remove_file(&rt, FILE);
    for count in 0..3 {
        let mut journal = match Journal::mount(alloc, FileDisk::open(&rt, FILE)) {
            Ok(journal) => journal,
            Err(_) => rt.abort(),
        };
        assert_eq!(rt; journal.count(), count);
        assert!(rt; count == 0 || is_last(&journal, TICKET));
        journal.append(TICKET)?;
    }
    assert_eq!(rt; fs::metadata(&rt, FILE)?.len(), 51);
    fs::remove_file(&rt, FILE)?;
    for folder in ["no/such/folder/journal", "/proc/journal"] {
        match Journal::mount(alloc, FileDisk::open(&rt, folder)) {
            Ok(_) => rt.abort(),
            Err(refused) => assert_eq!(rt; refused.refusal, JournalRefusal::DiskFault),
        }
    }
    Ok(())
}
