//! Sources, sinks and dials, in memory and over real streams.

use std::alloc::Global;
use std::io::{Read, Write};
use std::net::TcpListener;
use std::test::Fail;
use uss_link::{
    Conversation, Dial, DialFault, MemoryDial, MemorySink, MemorySource, ReadWholeRefusal,
    ReaderSource, Reply, Sink, TcpDial, WriterSink, read_whole, send_all, write_all,
};

fn list(alloc: Global, bytes: &[u8]) -> Vec<u8> {
    match Vec::from_slice(alloc, bytes) {
        Ok(list) => list,
        Err(_) => Vec::new(alloc),
    }
}

fn calls(alloc: Global, numbers: &[u64]) -> Vec<u64> {
    match Vec::from_slice(alloc, numbers) {
        Ok(list) => list,
        Err(_) => Vec::new(alloc),
    }
}

/// Reads the text whole under this limit, in pieces of this size, where the calls with these numbers fail.
fn read(
    alloc: Global,
    text: &[u8],
    piece: usize,
    failing: &[u64],
    limit: usize,
) -> Result<Vec<u8>, ReadWholeRefusal> {
    let mut source = MemorySource::new(alloc, list(alloc, text))
        .failing_at(calls(alloc, failing))
        .in_pieces_of(piece);
    read_whole(alloc, &mut source, limit)
}

fn is_read_whole(alloc: Global, text: &[u8], piece: usize, limit: usize) -> bool {
    match read(alloc, text, piece, &[], limit) {
        Ok(found) => found.as_slice() == text,
        Err(_) => false,
    }
}

fn is_refused(found: Result<Vec<u8>, ReadWholeRefusal>, by: ReadWholeRefusal) -> bool {
    match found {
        Ok(_) => false,
        Err(refusal) => refusal == by,
    }
}

#[test]
fn sources_are_read_whole(rt: HostRuntime) -> Result<(), Fail> {
    let alloc = rt.alloc();
    assert!(rt; is_read_whole(alloc, b"", 9, 0));
    assert!(rt; is_read_whole(alloc, b"hello", 9, 5));
    assert!(rt; is_read_whole(alloc, b"hello", 1, 5));
    assert!(rt; is_read_whole(alloc, b"hello", 0, 9));
    assert!(rt; is_read_whole(alloc, b"a\nb", 2, 3));
    let long = read(alloc, b"hello", 1, &[], 4);
    assert!(rt; is_refused(long, ReadWholeRefusal::TooLarge));
    // the third read fails in mid-stream, then the one that would find the end
    for failing in [1u64, 3, 6] {
        let broken = read(alloc, b"hello", 1, &[failing], 9);
        assert!(rt; is_refused(broken, ReadWholeRefusal::Fault));
    }
    // a call that is never made fails nothing
    assert!(rt; read(alloc, b"hello", 1, &[7], 9).is_ok());
    Ok(())
}

fn takes_all(alloc: Global) -> bool {
    let mut whole = MemorySink::new(alloc);
    write_all(&mut whole, b"hello").is_ok()
        && write_all(&mut whole, b"").is_ok()
        && whole.taken() == b"hello".as_slice()
        && whole.calls() == 1
}

/// One byte at a time, and the third write fails.
fn takes_a_front(alloc: Global) -> bool {
    let mut broken = MemorySink::new(alloc)
        .failing_at(calls(alloc, &[3]))
        .in_pieces_of(1);
    write_all(&mut broken, b"hello").is_err()
        && broken.taken() == b"he".as_slice()
        && broken.faults() == 1
}

fn is_passed_on(alloc: Global) -> bool {
    let mut source = ReaderSource::new(b"hello".as_slice());
    let mut sink = WriterSink::new(Vec::new(alloc));
    match read_whole(alloc, &mut source, 9) {
        Ok(found) => found.as_slice() == b"hello".as_slice()
            && write_all(&mut sink, found.as_slice()).is_ok(),
        Err(_) => false,
    }
}

#[test]
fn sinks_take_all_or_a_prefix(rt: HostRuntime) -> Result<(), Fail> {
    assert!(rt; takes_all(rt.alloc()));
    assert!(rt; takes_a_front(rt.alloc()));
    assert!(rt; is_passed_on(rt.alloc()));
    Ok(())
}

/// Receives over the dial until the stream ends, and says whether that went well and what came.
fn receive_all<G: Dial>(dial: &mut G, found: &mut Vec<u8>) -> bool {
    let mut piece = [0u8; 4];
    for _ in 0..64u8 {
        match dial.receive(&mut piece) {
            Ok(0) => return true,
            Ok(count) => {
                if found.extend_from_slice(&piece[..count]).is_err() {
                    return false;
                }
            }
            Err(DialFault) => return false,
        }
    }
    false
}

fn told(talk: &Conversation, host: &[u8], port: u16, sent: &[u8], reply: &[u8]) -> bool {
    talk.host() == host
        && talk.port() == port
        && talk.sent() == sent
        && talk.received() == reply
        && talk.ended()
}

/// One exchange; after closing, nothing more is sent.
fn exchanges(
    alloc: Global,
    dial: &mut MemoryDial,
    host: &str,
    port: u16,
    sent: &[u8],
    reply: &[u8],
) -> bool {
    let mut found = Vec::new(alloc);
    let went = dial.reach(host, port).is_ok()
        && send_all(dial, sent).is_ok()
        && receive_all(dial, &mut found);
    dial.close();
    went && found.as_slice() == reply
        && dial.send(b"late").is_err()
        && {
            match dial.last() {
                Some(last) => told(last, host.as_bytes(), port, sent, reply),
                None => false,
            }
        }
}

fn replies(alloc: Global, texts: &[&[u8]]) -> Vec<Reply> {
    let mut list_of = Vec::new(alloc);
    for text in texts {
        if list_of.push(Reply::new(list(alloc, text))).is_err() {
            return list_of;
        }
    }
    list_of
}

#[test]
fn dials_tell_what_went_over_them(rt: HostRuntime) -> Result<(), Fail> {
    let alloc = rt.alloc();
    let mut dial = MemoryDial::new(alloc, replies(alloc, &[b"first", b"second"])).in_pieces_of(3);
    assert!(rt; dial.send(b"early").is_err());
    assert!(rt; exchanges(alloc, &mut dial, "a.example", 80, b"hello", b"first"));
    assert!(rt; exchanges(alloc, &mut dial, "b.example", 81, b"", b"second"));
    assert!(rt; exchanges(alloc, &mut dial, "c.example", 82, b"more", b""));
    assert!(rt; dial.past().len() == 2 && dial.faults() == 4);
    Ok(())
}

/// Whether an exchange in pieces of two bytes stops at this call, and what had then been sent and received.
fn stops_at(alloc: Global, failing: u64, sent: &[u8], received: &[u8]) -> bool {
    let mut dial = MemoryDial::new(alloc, replies(alloc, &[b"world"]))
        .failing_at(calls(alloc, &[failing]))
        .in_pieces_of(2);
    let mut found = Vec::new(alloc);
    let done = dial.reach("a.example", 80).is_ok()
        && send_all(&mut dial, b"hello").is_ok()
        && receive_all(&mut dial, &mut found);
    let as_told = match dial.last() {
        Some(last) => last.sent() == sent && last.received() == received,
        None => failing == 1,
    };
    !done && as_told && dial.calls() == failing && dial.faults() == 1
}

#[test]
fn dials_fail_where_they_are_to(rt: HostRuntime) -> Result<(), Fail> {
    // reaching, the second piece sent, the second piece received
    assert!(rt; stops_at(rt.alloc(), 1, b"", b""));
    assert!(rt; stops_at(rt.alloc(), 3, b"he", b""));
    assert!(rt; stops_at(rt.alloc(), 6, b"hello", b"wo"));
    Ok(())
}

#[test]
fn a_dial_speaks_over_loopback(rt: HostRuntime) -> Result<(), Fail> {
    let listener = TcpListener::bind(&rt, "127.0.0.1:0")?;
    let port = listener.local_addr()?.port();
    let mut dial = TcpDial::new(&rt);
    assert!(rt; dial.receive(&mut [0u8; 4]).is_err());
    assert!(rt; dial.reach("127.0.0.1", port).is_ok());
    assert!(rt; send_all(&mut dial, b"hello").is_ok());
    let (mut peer, _) = listener.accept()?;
    let mut heard = [0u8; 5];
    peer.read_exact(&mut heard)?;
    assert!(rt; heard.as_slice() == b"hello".as_slice());
    peer.write_all(b"world")?;
    drop(peer);
    // a stream that can't be opened leaves the one that is open
    drop(listener);
    assert!(rt; dial.reach("127.0.0.1", port).is_err());
    let mut found = Vec::new(rt.alloc());
    assert!(rt; receive_all(&mut dial, &mut found));
    assert!(rt; found.as_slice() == b"world".as_slice());
    dial.close();
    assert!(rt; dial.send(b"late").is_err());
    Ok(())
}
