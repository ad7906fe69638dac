//! The program's commands over streams in memory.

use std::alloc::Global;
use std::test::Fail;
use uss_app::command;
use uss_link::{MemorySink, MemorySource};

/// The status of a command over this input, and what was written.
fn run_of(alloc: Global, command_word: &str, input: Vec<u8>) -> Result<(u8, Vec<u8>), Fail> {
    let words = vec![in alloc; String::from_str(alloc, command_word)?]?;
    let mut source = MemorySource::new(alloc, input);
    let mut sink = MemorySink::new(alloc);
    let status = command(alloc, words.as_slice(), &mut source, &mut sink);
    Ok((status, Vec::from_slice(alloc, sink.taken())?))
}

fn run(alloc: Global, input: Vec<u8>) -> Result<(u8, Vec<u8>), Fail> {
    run_of(alloc, "conflict", input)
}

const SQUARE: &str = "a rect 0 0 10 10 0 100 1700003600000000000 1700005400000000000\n";

const NEXT: &str = "b rect 10 10 20 20 0 100 1700003600000000000 1700005400000000000\n";

#[test]
fn scripts_are_answered(rt: HostRuntime) -> Result<(), Fail> {
    let alloc = rt.alloc();
    let bars =
        "a poly 4 0 0 10 3 10 4 0 1 0 100 1700003600000000000 1700005400000000000\nb poly 4 3 -5 4 -5 4 9 3 9 0 100 1700003600000000000 1700005400000000000\n";
    let notch =
        "a poly 8 0 0 30 0 30 30 20 30 20 10 10 10 10 30 0 30 0 100 1700003600000000000 1700005400000000000\nb rect 12 15 18 25 0 100 1700003600000000000 1700005400000000000\n";
    let waist =
        "a poly 4 0 0 10 10 10 0 0 10 0 100 1700003600000000000 1700005400000000000\nb rect 4 7 6 9 0 100 1700003600000000000 1700005400000000000\n";
    let point =
        "a poly 4 0 0 10 10 10 0 0 10 0 100 1700003600000000000 1700005400000000000\nb rect 4 4 4 4 0 100 1700003600000000000 1700005400000000000\n";
    let two = "a poly 2 0 0 1 0 0 100 1700003600000000000 1700005400000000000\n";
    let rows = [
        ("", 0, "clear\n"),
        (SQUARE, 0, "clear\n"),
        (bars, 0, "shares 0 0\n"),
        (notch, 0, "clear\n"),
        (waist, 0, "clear\n"),
        (point, 0, "shares 0 0\n"),
        (two, 1, "refused 101 line 1\n"),
        ("a rect 0 0 1 1 5 4 0 0\n", 1, "refused 111 line 1\n"),
        ("c", 1, "refused 441 line 1\n"),
        ("\n", 1, "refused 441 line 1\n"),
        ("a rect 01", 1, "refused 442 line 1\n"),
    ];
    for (input, status, text) in rows {
        let found = run(alloc, Vec::from_slice(alloc, input.as_bytes())?)?;
        assert_eq!(rt; found.0, status, "{input}");
        assert_eq!(rt; found.1.as_slice(), text.as_bytes(), "{input}");
    }
    let corner = format!(in alloc; "{SQUARE}{NEXT}")?;
    let found = run(alloc, Vec::from_slice(alloc, corner.as_bytes())?)?;
    assert_eq!(rt; found.1.as_slice(), b"shares 0 0\n".as_slice());
    Ok(())
}

#[test]
fn the_limit_is_64_mebibytes(rt: HostRuntime) -> Result<(), Fail> {
    let alloc = rt.alloc();
    let whole = run(alloc, vec![in alloc; b'a'; 67_108_864]?)?;
    assert_eq!(rt; whole.0, 1);
    assert_eq!(rt; whole.1.as_slice(), b"refused 441 line 1\n".as_slice());
    let more = run(alloc, vec![in alloc; b'a'; 67_108_865]?)?;
    assert_eq!(rt; more.0, 1);
    assert_eq!(rt; more.1.as_slice(), b"refused 443 line 0\n".as_slice());
    Ok(())
}

/// The status over a source and a sink whose calls with these numbers fail, and what was written. The sink
/// takes at most `piece` bytes at a call.
fn broken(
    alloc: Global,
    reads: &[u64],
    writes: &[u64],
    piece: usize,
) -> Result<(u8, Vec<u8>), Fail> {
    let words = vec![in alloc; String::from_str(alloc, "conflict")?]?;
    let input = Vec::from_slice(alloc, SQUARE.as_bytes())?;
    let mut source = MemorySource::new(alloc, input).failing_at(Vec::from_slice(alloc, reads)?);
    let mut sink = MemorySink::new(alloc)
        .failing_at(Vec::from_slice(alloc, writes)?)
        .in_pieces_of(piece);
    let status = command(alloc, words.as_slice(), &mut source, &mut sink);
    Ok((status, Vec::from_slice(alloc, sink.taken())?))
}

#[test]
fn faults_have_status_3(rt: HostRuntime) -> Result<(), Fail> {
    let alloc = rt.alloc();
    assert_eq!(rt; broken(alloc, &[1], &[], 99)?.0, 3);
    assert_eq!(rt; broken(alloc, &[2], &[], 99)?.0, 3);
    assert_eq!(rt; broken(alloc, &[], &[1], 99)?.0, 3);
    let second = broken(alloc, &[], &[2], 1)?;
    assert_eq!(rt; second.0, 3);
    assert_eq!(rt; second.1.as_slice(), b"c".as_slice());
    let whole = broken(alloc, &[9], &[9], 1)?;
    assert_eq!(rt; whole.0, 0);
    assert_eq!(rt; whole.1.as_slice(), b"clear\n".as_slice());
    Ok(())
}

#[test]
fn other_words_are_refused(rt: HostRuntime) -> Result<(), Fail> {
    let alloc = rt.alloc();
    let lists: [&[&str]; 4] = [&[], &["conflicts"], &["conflict", "conflict"], &["--help"]];
    for list in lists {
        let mut words = Vec::new(alloc);
        for word in list {
            words.push(String::from_str(alloc, word)?)?;
        }
        let mut source = MemorySource::new(alloc, Vec::new(alloc));
        let mut sink = MemorySink::new(alloc);
        let status = command(alloc, words.as_slice(), &mut source, &mut sink);
        assert_eq!(rt; status, 2);
        assert_eq!(rt; source.calls(), 0);
        assert_eq!(rt; sink.calls(), 0);
    }
    Ok(())
}

const CALLS: &str =
    "alpha tput 00000001-0001-4000-8000-000000000001 http://a.test rect 0 0 100 100 0 1000 1700003600000000000 1700005400000000000
alpha put 00000001-0000-4000-8000-000000000001 - Accepted http://a.test/a/1 00000001-0001-4000-8000-000000000001 key 0 vols 1 rect 0 0 100 100 0 1000 1700003600000000000 1700005400000000000
beta get 00000001-0000-4000-8000-000000000001
beta remove 00000001-0000-4000-8000-000000000001 ovn-0000000000000001
alpha tremove 00000001-0001-4000-8000-000000000001 1
alpha remove 00000001-0000-4000-8000-000000000001 ovn-0000000000000009
alpha remove 00000001-0000-4000-8000-000000000001 ovn-0000000000000001
alpha tremove 00000001-0001-4000-8000-000000000001 1
alpha tget 00000001-0001-4000-8000-000000000001
beta get 00000002-0000-4000-8000-000000000001
";

const REPLIES: &str = "ticket 00000001-0001-4000-8000-000000000001 alpha 1 0
landed
ref 00000001-0000-4000-8000-000000000001 alpha 1 Accepted ovn-0000000000000001 1700003600000000000 1700005400000000000 http://a.test/a/1 00000001-0001-4000-8000-000000000001
subscribers 0
ref 00000001-0000-4000-8000-000000000001 alpha 1 Accepted - 1700003600000000000 1700005400000000000 http://a.test/a/1 00000001-0001-4000-8000-000000000001
refused 202
refused 210
refused 206
removed
ref 00000001-0000-4000-8000-000000000001 alpha 1 Accepted ovn-0000000000000001 1700003600000000000 1700005400000000000 http://a.test/a/1 00000001-0001-4000-8000-000000000001
subscribers 0
tremoved 00000001-0001-4000-8000-000000000001
refused 204
refused 205
";

const CONTESTED: &str =
    "alpha tput 00000001-0001-4000-8000-000000000001 http://a.test rect 0 0 100 100 0 1000 1700003600000000000 1700005400000000000
alpha put 00000001-0000-4000-8000-000000000001 - Accepted http://a.test/a/1 00000001-0001-4000-8000-000000000001 key 0 vols 1 rect 0 0 100 100 0 1000 1700003600000000000 1700005400000000000
beta tput 00000002-0001-4000-8000-000000000001 http://b.test rect 100 100 200 200 0 1000 1700005400000000000 1700007200000000000
beta put 00000002-0000-4000-8000-000000000001 - Accepted http://b.test/a/1 00000002-0001-4000-8000-000000000001 key 0 vols 1 rect 100 100 200 200 0 1000 1700005400000000000 1700007200000000000
";

const MISSING: &str = "ticket 00000001-0001-4000-8000-000000000001 alpha 1 0
landed
ref 00000001-0000-4000-8000-000000000001 alpha 1 Accepted ovn-0000000000000001 1700003600000000000 1700005400000000000 http://a.test/a/1 00000001-0001-4000-8000-000000000001
subscribers 0
ticket 00000002-0001-4000-8000-000000000001 beta 1 0
refused 209
missing 1
ref 00000001-0000-4000-8000-000000000001 alpha 1 Accepted - 1700003600000000000 1700005400000000000 http://a.test/a/1 00000001-0001-4000-8000-000000000001
";

#[test]
fn calls_are_carried_out(rt: HostRuntime) -> Result<(), Fail> {
    let alloc = rt.alloc();
    let rows = [
        ("", 0, ""),
        (CALLS, 0, REPLIES),
        (CONTESTED, 0, MISSING),
        ("alpha get 0", 1, "refused 441 line 1\n"),
        ("alpha fly", 1, "refused 441 line 1\n"),
    ];
    for (input, status, text) in rows {
        let found = run_of(alloc, "discover", Vec::from_slice(alloc, input.as_bytes())?)?;
        assert_eq!(rt; found.0, status, "{input}");
        assert_eq!(rt; found.1.as_slice(), text.as_bytes(), "{input}");
    }
    Ok(())
}

/// A call on the service after alpha's ticket and flight, whose reply ends so.
const REFUSALS: [(&str, &str); 14] = [
    (
        "alpha put 00000003-0000-4000-8000-000000000001 - Accepted http://a.test/a/2 00000001-0001-4000-8000-000000000001 key 0 vols 0",
        "refused 201\n",
    ),
    (
        "beta remove 00000001-0000-4000-8000-000000000001 ovn-0000000000000001",
        "refused 202\n",
    ),
    (
        "beta tget 00000001-0001-4000-8000-000000000001",
        "refused 202\n",
    ),
    (
        "alpha put 00000001-0000-4000-8000-000000000001 - Accepted http://a.test/a/2 00000001-0001-4000-8000-000000000001 key 0 vols 1 rect 0 0 100 100 0 1000 1700003600000000000 1700005400000000000",
        "refused 203\n",
    ),
    (
        "alpha tput 00000001-0001-4000-8000-000000000001 http://a.test rect 0 0 100 100 0 1000 1700003600000000000 1700005400000000000",
        "refused 203\n",
    ),
    (
        "alpha put 00000003-0000-4000-8000-000000000001 ovn-0000000000000001 Accepted http://a.test/a/2 00000001-0001-4000-8000-000000000001 key 0 vols 1 rect 0 0 100 100 0 1000 1700003600000000000 1700005400000000000",
        "refused 205\n",
    ),
    (
        "beta get 00000003-0000-4000-8000-000000000001",
        "refused 205\n",
    ),
    (
        "alpha remove 00000001-0000-4000-8000-000000000001 ovn-0000000000000009",
        "refused 206\n",
    ),
    (
        "alpha tremove 00000001-0001-4000-8000-000000000001 2",
        "refused 206\n",
    ),
    (
        "alpha put 00000003-0000-4000-8000-000000000001 - Accepted http://a.test/a/2 00000009-0001-4000-8000-000000000001 key 0 vols 1 rect 0 0 100 100 0 1000 1700003600000000000 1700005400000000000",
        "refused 207\n",
    ),
    (
        "alpha put 00000003-0000-4000-8000-000000000001 - Accepted http://a.test/a/2 00000001-0001-4000-8000-000000000001 key 0 vols 1 rect 0 0 101 100 0 1000 1700003600000000000 1700005400000000000",
        "refused 208\n",
    ),
    (
        "alpha put 00000003-0000-4000-8000-000000000001 - Accepted http://a.test/a/2 00000001-0001-4000-8000-000000000001 key 0 vols 1 rect 0 0 100 100 0 1000 1700003600000000000 1700005400000000000",
        "refused 209\nmissing 1\nref 00000001-0000-4000-8000-000000000001 alpha 1 Accepted ovn-0000000000000001 1700003600000000000 1700005400000000000 http://a.test/a/1 00000001-0001-4000-8000-000000000001\n",
    ),
    (
        "alpha tremove 00000001-0001-4000-8000-000000000001 1",
        "refused 210\n",
    ),
    (
        "beta query rect 100 100 200 200 0 1000 1700005400000000000 1700007200000000000",
        "found 1\nref 00000001-0000-4000-8000-000000000001 alpha 1 Accepted - 1700003600000000000 1700005400000000000 http://a.test/a/1 00000001-0001-4000-8000-000000000001\n",
    ),
];

const BEGUN: &str =
    "alpha tput 00000001-0001-4000-8000-000000000001 http://a.test rect 0 0 100 100 0 1000 1700003600000000000 1700005400000000000
alpha put 00000001-0000-4000-8000-000000000001 - Accepted http://a.test/a/1 00000001-0001-4000-8000-000000000001 key 0 vols 1 rect 0 0 100 100 0 1000 1700003600000000000 1700005400000000000
";

#[test]
fn each_refusal_has_its_number(rt: HostRuntime) -> Result<(), Fail> {
    let alloc = rt.alloc();
    for (call, end) in REFUSALS {
        let script = format!(in alloc; "{BEGUN}{call}")?;
        let found = run_of(
            alloc,
            "discover",
            Vec::from_slice(alloc, script.as_bytes())?,
        )?;
        assert_eq!(rt; found.0, 0, "{call}");
        assert!(rt; found.1.as_slice().ends_with(end.as_bytes()), "{call}");
    }
    Ok(())
}

/// A call that records a flight of alpha's with these volumes and this key.
fn put(alloc: Global, flight: u64, ovns: usize, volumes: usize) -> Result<String, Fail> {
    let mut call = format!(in alloc;
        "alpha put 00000001-0000-4000-8000-{flight} - Accepted http://a.test/a/1 00000001-0001-4000-8000-000000000001 key {ovns}"
    )?;
    for _ in 0..ovns {
        call.push_str(" ovn-0000000000000009")?;
    }
    call.push_str(format!(in alloc; " vols {volumes}")?.as_str())?;
    let x = flight % 100_000 * 20;
    for _ in 0..volumes {
        call.push_str(format!(in alloc;
            " rect {x} 0 {} 10 0 100 1700003600000000000 1700005400000000000",
            x + 10
        )?
        .as_str())?;
    }
    call.push_str("\n")?;
    Ok(call)
}

const WIDE_TICKET: &str =
    "alpha tput 00000001-0001-4000-8000-000000000001 http://a.test rect 0 0 2000000 100 0 1000 1700003600000000000 1700005400000000000\n";

#[test]
fn a_put_has_at_most_64_volumes_and_1024_ovns(rt: HostRuntime) -> Result<(), Fail> {
    let alloc = rt.alloc();
    let rows: [(usize, usize, &str); 4] = [
        (0, 64, "subscribers 0\n"),
        (0, 65, "refused 201\n"),
        (1024, 1, "subscribers 0\n"),
        (1025, 1, "refused 201\n"),
    ];
    for (ovns, volumes, end) in rows {
        let call = put(alloc, 100_000_000_000, ovns, volumes)?;
        let script = format!(in alloc; "{WIDE_TICKET}{call}")?;
        let found = run_of(
            alloc,
            "discover",
            Vec::from_slice(alloc, script.as_bytes())?,
        )?;
        assert_eq!(rt; found.0, 0);
        assert!(rt;
            found.1.as_slice().ends_with(end.as_bytes()),
            "{ovns} {volumes}"
        );
    }
    Ok(())
}

#[test]
fn a_full_service_refuses_what_is_new(rt: HostRuntime) -> Result<(), Fail> {
    let alloc = rt.alloc();
    let mut flights = String::from_str(alloc, WIDE_TICKET)?;
    for i in 0..4097 {
        flights.push_str(put(alloc, 100_000_000_000 + i, 0, 1)?.as_str())?;
    }
    let found = run_of(
        alloc,
        "discover",
        Vec::from_slice(alloc, flights.as_bytes())?,
    )?;
    assert!(rt;
        found
            .1
            .as_slice()
            .ends_with(b"subscribers 0\nrefused 211\n")
    );

    let mut tickets = String::new(alloc);
    for i in 0..8193 {
        let number = 100_000_000_000u64 + i;
        tickets.push_str(format!(in alloc;
            "alpha tput 00000001-0001-4000-8000-{number} http://a.test rect 0 0 1 1 0 1 1700003600000000000 1700005400000000000\n"
        )?.as_str())?;
    }
    let found = run_of(
        alloc,
        "discover",
        Vec::from_slice(alloc, tickets.as_bytes())?,
    )?;
    assert!(rt; found.1.as_slice().ends_with(b" alpha 1 0\nrefused 211\n"));
    Ok(())
}
