use crate::numbers::number_of_refusal;
use std::alloc::Global;
use std::test::Fail;
use uss_http_request::ReadRefusal;
use uss_http_response::{Response, response_from};
use uss_link::{Dial, MemoryDial, Reply};

/// Replies and the answer of reading each: a status and a body, or the number of the refusal. `|` stands for CR LF.
const ROWS: [(&str, u16, &str); 37] = [
    ("HTTP/1.1 200 OK|Content-Length: 5||hello", 200, "hello"),
    (
        "HTTP/1.1 200 OK|Content-Length: 5||hello and more",
        200,
        "hello",
    ),
    (
        "HTTP/1.1 404 Not Found|Content-Type: x|content-LENGTH: 0||",
        404,
        "",
    ),
    (
        "HTTP/1.1 200 OK|Transfer-Encoding: chunked||5|hello|0||",
        200,
        "hello",
    ),
    (
        "HTTP/1.1 200 OK|Transfer-Encoding: CHUNKED||2;x=1|he|3|llo|0|Trailer: x||",
        200,
        "hello",
    ),
    ("HTTP/1.0 200 OK||hello", 200, "hello"),
    ("HTTP/1.1 209||", 209, ""),
    ("HTTP/1.1 209 ||hello", 209, "hello"),
    ("HTTP/1.1 204 No Content||", 204, ""),
    ("HTTP/1.1 204 No Content|Connection: close||hello", 204, ""),
    ("HTTP/1.1 000 ||x", 0, "x"),
    ("HTTP/1.1 999 ||", 999, ""),
    ("GET / HTTP/1.1|Host: x||", 432, ""),
    ("HTTP/1.2 200 OK||", 432, ""),
    ("HTTP/2 200 OK||", 432, ""),
    ("HTTP/1.1 20 OK||", 432, ""),
    ("HTTP/1.1 2000 OK||", 432, ""),
    ("HTTP/1.1 2x0 OK||", 432, ""),
    ("HTTP/1.1  200 OK||", 432, ""),
    (
        "HTTP/1.1 200 OK|Content-Length: 5|Content-Length: 5||hello",
        432,
        "",
    ),
    (
        "HTTP/1.1 200 OK|Content-Length: 5|Transfer-Encoding: chunked||0||",
        432,
        "",
    ),
    ("HTTP/1.1 200 OK|Content-Length: five||hello", 432, ""),
    ("HTTP/1.1 200 OK|Transfer-Encoding: gzip||hello", 432, ""),
    ("HTTP/1.1 200 OK|no field||", 432, ""),
    ("HTTP/1.1 200 OK|Content-Length: 8388609||", 433, ""),
    (
        "HTTP/1.1 200 OK|Transfer-Encoding: chunked||800001|",
        433,
        "",
    ),
    ("HTTP/1.1 200 OK|Transfer-Encoding: chunked||zz|", 434, ""),
    (
        "HTTP/1.1 200 OK|Transfer-Encoding: chunked||5|hello0||",
        434,
        "",
    ),
    (
        "HTTP/1.1 200 OK|Transfer-Encoding: chunked||5|helloX",
        434,
        "",
    ),
    ("", 435, ""),
    ("HTTP/1.1 20", 435, ""),
    ("HTTP/1.1 200 OK|Content-Length: 5|", 435, ""),
    ("HTTP/1.1 200 OK|Content-Length: 5||hell", 435, ""),
    ("HTTP/1.1 204 No Content|Content-Length: 5||hell", 435, ""),
    (
        "HTTP/1.1 200 OK|Transfer-Encoding: chunked||5|hello",
        435,
        "",
    ),
    (
        "HTTP/1.1 200 OK|Transfer-Encoding: chunked||5|hello|0|",
        435,
        "",
    ),
    ("HTTP/1.1 200 OK|Transfer-Encoding: chunked||", 435, ""),
];

/// Replies that end by their length or their chunks, or have no body, with their status and body.
const FRAMED: [(&str, u16, &str); 5] = [
    ("HTTP/1.1 200 OK|Content-Length: 5||hello", 200, "hello"),
    (
        "HTTP/1.1 404 Not Found|Content-Type: x|content-LENGTH: 0||",
        404,
        "",
    ),
    (
        "HTTP/1.1 200 OK|Transfer-Encoding: chunked||5|hello|0||",
        200,
        "hello",
    ),
    (
        "HTTP/1.1 200 OK|Transfer-Encoding: CHUNKED||2;x=1|he|3|llo|0|Trailer: x||",
        200,
        "hello",
    ),
    ("HTTP/1.1 204 No Content|Connection: close||", 204, ""),
];

/// The bytes that a row stands for.
fn bytes_of(alloc: Global, row: &str) -> Result<Vec<u8>, Fail> {
    let mut bytes = Vec::new(alloc);
    for byte in row.as_bytes() {
        match *byte {
            b'|' => bytes.extend_from_slice(b"\r\n")?,
            other => bytes.push(other)?,
        }
    }
    Ok(bytes)
}

/// Reads one response of these bytes, which come in pieces of this size, where the call with this number fails.
fn read(
    alloc: Global,
    bytes: Vec<u8>,
    piece: usize,
    failing: u64,
) -> Result<Result<Response, ReadRefusal>, Fail> {
    let mut replies = Vec::new(alloc);
    replies.push(Reply::new(bytes))?;
    let mut dial = MemoryDial::new(alloc, replies)
        .failing_at(vec![in alloc; failing]?)
        .in_pieces_of(piece);
    match dial.reach("b.example", 80) {
        Ok(()) => Ok(response_from(alloc, &mut dial)),
        Err(_) => Ok(Err(ReadRefusal::Fault)),
    }
}

/// Whether the answer is this status and this body, or a refusal with this number.
fn is_answer(answer: &Result<Response, ReadRefusal>, wanted: u16, body: &[u8]) -> bool {
    match answer {
        Ok(response) => response.status == wanted && response.body.as_slice() == body,
        Err(refusal) => number_of_refusal(*refusal) == wanted,
    }
}

#[test]
fn responses_are_read_or_refused(rt: HostRuntime) -> Result<(), Fail> {
    let alloc = rt.alloc();
    for (row, wanted, body) in ROWS {
        for piece in [1usize, 7, 100000] {
            let answer = read(alloc, bytes_of(alloc, row)?, piece, 0)?;
            assert!(rt; is_answer(&answer, wanted, body.as_bytes()), "{row}");
        }
    }
    Ok(())
}

/// Whether the row is read where it comes byte by byte, and the call after the last of its bytes fails. One call reaches.
fn is_read_without_more(alloc: Global, row: &str, wanted: u16, body: &str) -> Result<bool, Fail> {
    let bytes = bytes_of(alloc, row)?;
    let behind = bytes.len() as u64 + 2;
    let answer = read(alloc, bytes, 1, behind)?;
    Ok(is_answer(&answer, wanted, body.as_bytes()))
}

#[test]
fn framed_responses_ask_for_no_byte_after_them(rt: HostRuntime) -> Result<(), Fail> {
    let alloc = rt.alloc();
    for (row, wanted, body) in FRAMED {
        assert!(rt; is_read_without_more(alloc, row, wanted, body)?, "{row}");
    }
    Ok(())
}

#[test]
fn refused_lengths_and_chunks_ask_for_no_byte_after_them(rt: HostRuntime) -> Result<(), Fail> {
    let alloc = rt.alloc();
    for (row, wanted, body) in ROWS {
        if wanted == 433 || wanted == 434 {
            assert!(rt; is_read_without_more(alloc, row, wanted, body)?, "{row}");
        }
    }
    Ok(())
}

/// The number of the answer to these bytes: the status, or that of the refusal.
fn answered(alloc: Global, bytes: Vec<u8>) -> Result<u16, Fail> {
    match read(alloc, bytes, 1000, 0)? {
        Ok(response) => Ok(response.status),
        Err(refusal) => Ok(number_of_refusal(refusal)),
    }
}

/// The number of the answer to a head with a field of so many bytes; 42 bytes are around them.
fn long_head(alloc: Global, filling: usize) -> Result<u16, Fail> {
    let mut bytes = bytes_of(alloc, "HTTP/1.1 200 OK|Content-Length: 0|A:")?;
    let letters = vec![in alloc; b'x'; filling]?;
    bytes.extend_from_slice(letters.as_slice())?;
    bytes.extend_from_slice(b"\r\n\r\n")?;
    answered(alloc, bytes)
}

/// The number of the answer to a head with so many fields of three bytes, and one more; 37 bytes are around them.
fn many_fields(alloc: Global, count: usize) -> Result<u16, Fail> {
    let mut bytes = bytes_of(alloc, "HTTP/1.1 200 OK|Content-Length: 0|")?;
    for _ in 0..count {
        bytes.extend_from_slice(b"A:\n")?;
    }
    bytes.extend_from_slice(b"\n")?;
    answered(alloc, bytes)
}

#[test]
fn heads_of_responses_have_at_most_16_kib(rt: HostRuntime) -> Result<(), Fail> {
    let alloc = rt.alloc();
    assert_eq!(rt; long_head(alloc, 16342)?, 200);
    assert_eq!(rt; long_head(alloc, 16343)?, 431);
    // as many fields as there is room for at first, one more, and as many as a head can have
    assert_eq!(rt; many_fields(alloc, 63)?, 200);
    assert_eq!(rt; many_fields(alloc, 64)?, 200);
    assert_eq!(rt; many_fields(alloc, 5449)?, 200);
    assert_eq!(rt; many_fields(alloc, 5450)?, 431);
    Ok(())
}

#[test]
fn limits_and_faults_of_responses(rt: HostRuntime) -> Result<(), Fail> {
    let alloc = rt.alloc();
    let ended = read(alloc, bytes_of(alloc, "HTTP/1.1 200 OK||hello")?, 100, 0)?;
    assert!(rt; is_answer(&ended, 200, b"hello"));
    // the same bytes, and then a fault where the end would have come
    let failed = read(alloc, bytes_of(alloc, "HTTP/1.1 200 OK||hello")?, 100, 3)?;
    assert!(rt; is_answer(&failed, 1, b""));
    let letters = read(alloc, vec![in alloc; b' '; 16384]?, 1000, 0)?;
    assert!(rt; is_answer(&letters, 432, b""));
    // as large as a body that ends with the stream may be, and one byte more
    for (size, wanted) in [(8388608usize, 200u16), (8388609, 433)] {
        let body = vec![in alloc; b'x'; size]?;
        let mut bytes = bytes_of(alloc, "HTTP/1.1 200 OK||")?;
        bytes.extend_from_slice(body.as_slice())?;
        let answer = read(alloc, bytes, 100000, 0)?;
        assert!(rt; is_answer(&answer, wanted, body.as_slice()), "{size}");
    }
    Ok(())
}
