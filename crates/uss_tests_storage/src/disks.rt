// Each kind of disk at its calls, one of them failing, and a real file.
use std::fs;
use std::process::Abort;
use std::test::Fail;
use uss_disk::{Act, Disk, DiskFault, FileDisk, MemoryDisk};

const FILE: &str = "uss_disk_tests.file";

// The five calls in order: how many were refused, and what the read gave.
fn run(rt: &impl Abort, disk: &mut MemoryDisk) -> (usize, [u8; 3]) {
    let mut refused = 0;
    let mut got = [0; 3];
    if disk.len().is_err() {
        refused += 1;
    }
    assert!(rt; disk.bytes().len() >= 3);
    if disk.write_at(1, b"XYZ").is_err() {
        refused += 1;
    }
    assert!(rt; disk.bytes().len() >= 3);
    if disk.read(0, &mut got).is_err() {
        refused += 1;
    }
    assert!(rt; disk.bytes().len() >= 2);
    if disk.cut(2).is_err() {
        refused += 1;
    }
    if disk.sync().is_err() {
        refused += 1;
    }
    (refused, got)
}

#[test]
fn each_call_of_a_disk_in_memory_fails_in_turn(rt: HostRuntime) -> Result<(), Fail> {
    let alloc = rt.alloc();
    let cases: [(u64, &[u8], &[u8]); 7] = [
        (0, b"aX", b"aXY"),
        (1, b"aX", b"aXY"),
        (2, b"ab", b"abc"),
        (3, b"aX", b"\0\0\0"),
        (4, b"aXYZ", b"aXY"),
        (5, b"aX", b"aXY"),
        (6, b"aX", b"aXY"),
    ];
    for (number, left, read) in cases {
        let mut disk = MemoryDisk::with_bytes(alloc, b"abc", vec![in alloc; number, number]?)?;
        let (refused, got) = run(&rt, &mut disk);
        let wanted = usize::from(number >= 1 && number <= 5);
        assert_eq!(rt; refused, wanted, "at {number}");
        assert_eq!(rt; disk.faults(), wanted as u64, "at {number}");
        assert_eq!(rt; disk.bytes(), left, "at {number}");
        assert_eq!(rt; got.as_slice(), read, "at {number}");
        assert_eq!(rt; disk.calls().len(), 5, "at {number}");
        for (i, call) in disk.calls().iter().enumerate() {
            assert_eq!(rt; call.done, i as u64 + 1 != number, "at {number}");
        }
    }
    Ok(())
}

#[test]
fn a_disk_in_memory_records_its_calls(rt: HostRuntime) -> Result<(), Fail> {
    let mut disk = MemoryDisk::new(rt.alloc());
    disk.write_at(0, b"ab")?;
    disk.sync()?;
    disk.cut(0)?;
    let mut texts = Vec::new(rt.alloc());
    for call in disk.calls() {
        let text = match &call.act {
            Act::Write { at, bytes } => format!(in rt.alloc();
                "write {at} {:?}",
                bytes.as_slice()
            )?,
            Act::Cut { len } => format!(in rt.alloc(); "cut {len}")?,
            Act::Sync => format!(in rt.alloc(); "sync")?,
            _ => format!(in rt.alloc(); "other")?,
        };
        texts.push(text)?;
    }
    assert_eq!(rt; texts.len(), 3);
    assert_eq!(rt; texts[0].as_str(), "write 0 [97, 98]");
    assert_eq!(rt; texts[1].as_str(), "sync");
    assert_eq!(rt; texts[2].as_str(), "cut 0");
    assert_eq!(rt; disk.bytes(), b"".as_slice());
    Ok(())
}

#[test]
fn a_real_file_keeps_what_was_written(rt: HostRuntime) -> Result<(), Fail> {
    let _ = fs::remove_file(&rt, FILE);
    let mut disk = FileDisk::open(&rt, FILE);
    assert_eq!(rt; disk.len()?, 0);
    disk.write_at(0, b"one two")?;
    disk.sync()?;
    disk.write_at(4, b"2")?;
    disk.cut(5)?;
    let mut again = FileDisk::open(&rt, FILE);
    let mut got = [0; 5];
    assert_eq!(rt; again.len()?, 5);
    again.read(0, &mut got)?;
    assert_eq!(rt; got, *b"one 2");
    assert_eq!(rt; again.read(1, &mut got), Err(DiskFault));
    assert_eq!(rt; again.faults(), 1);
    fs::remove_file(&rt, FILE)?;
    Ok(())
}

#[test]
fn a_file_that_cannot_be_opened_refuses_each_call(rt: HostRuntime) {
    let mut disk = FileDisk::open(&rt, "no/such/folder/journal");
    let mut got = [0; 1];
    assert_eq!(rt; disk.len(), Err(DiskFault));
    assert_eq!(rt; disk.read(0, &mut got), Err(DiskFault));
    assert_eq!(rt; disk.write_at(0, b"a"), Err(DiskFault));
    assert_eq!(rt; disk.cut(0), Err(DiskFault));
    assert_eq!(rt; disk.sync(), Err(DiskFault));
    assert_eq!(rt; disk.faults(), 5);
}
