use std::alloc::Global;
use std::net::{Net, TcpListener};
use std::test::Fail;
use std::thread;
use uss_http::{
    Bytes, HttpRefusal, Request, Response, read_request, read_response, write_lent_response,
    write_request, write_response,
};
use uss_intent::Name;
use uss_link::{
    Dial, MemoryDial, MemorySink, MemorySource, ReaderSource, Reply, TcpDial, WriterSink,
};

fn bytes(alloc: Global, text: &str) -> Result<Bytes, Fail> {
    Ok(Bytes::from_vec(Vec::from_slice(alloc, text.as_bytes())?))
}

const SENT: &str =
    "PUT /dss/v1/subscriptions/query?x HTTP/1.1\r\nHost: b.example:81\r\nUSS-Client: uss1\r\n\
Content-Type: application/json\r\nContent-Length: 2\r\nConnection: close\r\n\r\n{}";

/// A request.
fn request(alloc: Global) -> Result<Request, Fail> {
    Ok(Request {
        method: bytes(alloc, "PUT")?,
        path: bytes(alloc, "/dss/v1/subscriptions/query?x")?,
        client: Name::of(alloc, b"uss1")?,
        body: bytes(alloc, "{}")?,
    })
}

/// What is sent of the request over a dial of which the call with this number fails, and whether all of it was.
fn sent(alloc: Global, failing: u64) -> Result<(bool, Vec<u8>), Fail> {
    let mut dial = MemoryDial::new(alloc, Vec::new(alloc))
        .failing_at(vec![in alloc; failing]?)
        .in_pieces_of(9);
    let reached = dial.reach("b.example", 81).is_ok();
    let written = write_request(alloc, &mut dial, b"b.example:81", &request(alloc)?).is_ok();
    let talk = dial.last().ok_or("nothing was opened")?;
    Ok((reached && written, Vec::from_slice(alloc, talk.sent())?))
}

/// Whether this is the request.
fn is_sent(found: &Request) -> bool {
    found.method.as_slice() == b"PUT".as_slice()
        && found.path.as_slice() == b"/dss/v1/subscriptions/query?x".as_slice()
        && found.client.as_bytes() == b"uss1".as_slice()
        && found.body.as_slice() == b"{}".as_slice()
}

/// Whether these bytes are read as the request.
fn is_request(alloc: Global, text: &str) -> Result<bool, Fail> {
    let mut source = MemorySource::new(
        alloc,
        Vec::from_slice(alloc, text.as_bytes())?,
    ).in_pieces_of(4);
    match read_request(alloc, &mut source) {
        Ok(found) => Ok(is_sent(&found)),
        Err(_) => Ok(false),
    }
}

#[test]
fn requests_that_are_sent_are_read_again(rt: HostRuntime) -> Result<(), Fail> {
    let alloc = rt.alloc();
    let (whole, all) = sent(alloc, 0)?;
    assert!(rt; whole && all.as_slice() == SENT.as_bytes());
    assert!(rt; is_request(alloc, SENT)?);
    // the third piece fails
    let (rest, front) = sent(alloc, 4)?;
    assert!(rt; !rest && front.as_slice() == &SENT.as_bytes()[..18]);
    Ok(())
}

/// What a hostile client sends, how often, and the number of the refusal.
const HOSTILE: [(&str, usize, u16); 8] = [
    ("A", 16384, 431),
    (
        "PUT / HTTP/1.1\r\nUSS-Client: uss1\r\nContent-Length: 5\r\nTransfer-Encoding: chunked\r\n\r\n5\r\nhello\r\n0\r\n\r\n",
        1,
        432,
    ),
    (
        "PUT / HTTP/1.1\r\nUSS-Client: uss1\r\nContent-Length: 5\r\nContent-Length: 5\r\n\r\nhello",
        1,
        432,
    ),
    ("GET / HTTP/1.1\r\nHost: b.example\r\n\r\n", 1, 438),
    (
        "GET / HTTP/1.1\r\nUSS-Client: uss1\r\nUSS-Client: uss1\r\n\r\n",
        1,
        438,
    ),
    (
        "PUT / HTTP/1.1\r\nUSS-Client: uss1\r\nContent-Length: 8388609\r\n\r\n",
        1,
        433,
    ),
    (
        "PUT / HTTP/1.1\r\nUSS-Client: uss1\r\nTransfer-Encoding: chunked\r\n\r\nzz\r\n",
        1,
        434,
    ),
    (CUT, 1, 435),
];

/// A request whose body is cut short.
const CUT: &str = "PUT / HTTP/1.1\r\nUSS-Client: uss1\r\nContent-Length: 5\r\n\r\nhel";

/// A request whose body comes in chunks.
const CHUNKED: &str =
    "PUT / HTTP/1.1\r\nUSS-Client: uss1\r\nTransfer-Encoding: chunked\r\n\r\n5\r\nhello\r\n0\r\n\r\n";

/// Reads one request of this text, repeated so often, in pieces of this size, where the call with this number fails.
fn received(
    alloc: Global,
    (text, times): (&str, usize),
    piece: usize,
    failing: u64,
) -> Result<Result<Request, HttpRefusal>, Fail> {
    let mut bytes = Vec::new(alloc);
    for _ in 0..times {
        bytes.extend_from_slice(text.as_bytes())?;
    }
    let mut source = MemorySource::new(alloc, bytes)
        .failing_at(vec![in alloc; failing]?)
        .in_pieces_of(piece);
    Ok(read_request(alloc, &mut source))
}

/// Whether the answer is a refusal with this number.
fn is_refusal(answer: &Result<Request, HttpRefusal>, number: u16) -> bool {
    match answer {
        Ok(_) => false,
        Err(refusal) => refusal.number() == Some(number),
    }
}

/// Whether the answer is a request with the body `hello`.
fn says_hello(answer: &Result<Request, HttpRefusal>) -> bool {
    match answer {
        Ok(request) => request.body.as_slice() == b"hello".as_slice(),
        Err(_) => false,
    }
}

#[test]
fn hostile_requests_are_refused(rt: HostRuntime) -> Result<(), Fail> {
    let alloc = rt.alloc();
    // one byte at a time, and whole; and the number of the call after the bytes that are cut short
    for (piece, behind) in [(1usize, CUT.len() as u64 + 1), (100000, 2)] {
        for (text, times, number) in HOSTILE {
            let answer = received(alloc, (text, times), piece, 0)?;
            assert!(rt; is_refusal(&answer, number), "{number}");
        }
        let failed = received(alloc, (CUT, 1), piece, behind)?;
        assert!(rt; matches!(&failed, Err(HttpRefusal::ReadFault)));
        assert!(rt; says_hello(&received(alloc, (CHUNKED, 1), piece, 0)?));
    }
    Ok(())
}

/// Statuses, bodies, and the responses that are written of them.
const RESPONSES: [(u16, &str, &str); 4] = [
    (
        404,
        "{\"a\":1}",
        "HTTP/1.1 404 Not Found\r\nContent-Type: application/json\r\nContent-Length: 7\r\n\
Connection: close\r\n\r\n{\"a\":1}",
    ),
    (
        204,
        "",
        "HTTP/1.1 204 No Content\r\nConnection: close\r\n\r\n",
    ),
    (
        431,
        "{}",
        "HTTP/1.1 431 Request Header Fields Too Large\r\nContent-Type: application/json\r\nContent-Length: 2\r\n\
Connection: close\r\n\r\n{}",
    ),
    (
        209,
        "",
        "HTTP/1.1 209 \r\nContent-Type: application/json\r\nContent-Length: 0\r\nConnection: close\r\n\r\n",
    ),
];

/// Whether the response is written by two calls, or by one where it has no body.
fn is_written_at_once(alloc: Global, response: &Response) -> bool {
    let mut sink = MemorySink::new(alloc);
    let calls = if response.body.is_empty() { 1 } else { 2 };
    write_response(&mut sink, response).is_ok() && sink.calls() == calls
}

/// Whether a response whose body is lent is written so, and a prefix of it where the third call fails.
fn is_written_lent(alloc: Global, status: u16, body: &str, text: &str) -> Result<bool, Fail> {
    let mut sink = MemorySink::new(alloc);
    let whole = write_lent_response(&mut sink, status, body.as_bytes()).is_ok();
    let mut broken = MemorySink::new(alloc)
        .failing_at(vec![in alloc; 3]?)
        .in_pieces_of(5);
    let failed = write_lent_response(&mut broken, status, body.as_bytes()).is_err();
    Ok(
        whole
            && failed
            && sink.taken() == text.as_bytes()
            && text.as_bytes().starts_with(broken.taken()),
    )
}

/// Whether the response is written so, and a prefix of it where the third call fails.
fn is_written(alloc: Global, status: u16, body: &str, text: &str) -> Result<bool, Fail> {
    let response = Response {
        status,
        body: bytes(alloc, body)?,
    };
    let mut sink = MemorySink::new(alloc).in_pieces_of(5);
    let whole = write_response(&mut sink, &response).is_ok();
    let mut broken = MemorySink::new(alloc)
        .failing_at(vec![in alloc; 3]?)
        .in_pieces_of(5);
    let failed = write_response(&mut broken, &response).is_err();
    Ok(
        whole
            && failed
            && is_written_at_once(alloc, &response)
            && sink.taken() == text.as_bytes()
            && text.as_bytes().starts_with(broken.taken()),
    )
}

/// Whether these bytes, which come one at a time, are read as this response.
fn is_response(alloc: Global, text: &str, status: u16, body: &str) -> Result<bool, Fail> {
    let mut replies = Vec::new(alloc);
    replies.push(Reply::new(Vec::from_slice(alloc, text.as_bytes())?))?;
    let mut dial = MemoryDial::new(alloc, replies).in_pieces_of(1);
    let reached = dial.reach("b.example", 81).is_ok();
    match read_response(alloc, &mut dial) {
        Ok(found) => Ok(
            reached && found.status == status && found.body.as_slice() == body.as_bytes(),
        ),
        Err(_) => Ok(false),
    }
}

#[test]
fn responses_that_are_written_are_read_again(rt: HostRuntime) -> Result<(), Fail> {
    let alloc = rt.alloc();
    for (status, body, text) in RESPONSES {
        assert!(rt; is_written(alloc, status, body, text)?, "{text}");
        assert!(rt; is_written_lent(alloc, status, body, text)?, "{text}");
        assert!(rt; is_response(alloc, text, status, body)?, "{text}");
    }
    Ok(())
}

#[test]
fn a_stream_that_fails_is_a_fault_of_the_dial(rt: HostRuntime) -> Result<(), Fail> {
    let alloc = rt.alloc();
    let mut dial = MemoryDial::new(alloc, Vec::new(alloc));
    // no stream is open
    assert!(rt; matches!(read_response(alloc, &mut dial), Err(HttpRefusal::DialFault)));
    // faults and out of memory have no number
    assert!(rt; HttpRefusal::ReadFault.number().is_none());
    assert!(rt; HttpRefusal::DialFault.number().is_none());
    assert!(rt; HttpRefusal::Memory.number().is_none());
    Ok(())
}

/// Takes one connection, and answers the request that comes over it with its own body. Whether it is the request that was
/// sent, and was answered.
fn serves(alloc: Global, listener: &TcpListener) -> bool {
    let Ok((stream, _)) = listener.accept() else {
        return false;
    };
    let Ok(request) = read_request(alloc, &mut ReaderSource::new(&stream)) else {
        return false;
    };
    let is_right = is_sent(&request);
    let response = Response {
        status: 404,
        body: request.body,
    };
    is_right && write_response(&mut WriterSink::new(&stream), &response).is_ok()
}

/// Whether the response that comes over the dial is the one that the server gives.
fn is_answered(alloc: Global, dial: &mut impl Dial) -> bool {
    match read_response(alloc, dial) {
        Ok(found) => found.status == 404 && found.body.as_slice() == b"{}".as_slice(),
        Err(_) => false,
    }
}

/// Makes one exchange with the server at this port. Whether the response is the one that the server gives, and nothing
/// is sent once the stream was closed.
fn asks(net: &impl Net, alloc: Global, port: u16, request: &Request) -> bool {
    let mut dial = TcpDial::new(net);
    let went = dial.reach("127.0.0.1", port).is_ok()
        && write_request(alloc, &mut dial, b"127.0.0.1", request).is_ok();
    let is_whole = went && is_answered(alloc, &mut dial);
    dial.close();
    is_whole && dial.send(b"late").is_err()
}

#[test]
fn an_exchange_goes_over_loopback(rt: HostRuntime) -> Result<(), Fail> {
    let alloc = rt.alloc();
    let listener = TcpListener::bind(&rt, "127.0.0.1:0")?;
    let port = listener.local_addr()?.port();
    let sent = request(alloc)?;
    let (rt, listener, sent) = (&rt, &listener, &sent);
    let (served, heard) = thread::join(
        rt,
        move || serves(alloc, listener),
        move || asks(rt, alloc, port, sent),
    );
    assert!(rt; served && heard);
    Ok(())
}
