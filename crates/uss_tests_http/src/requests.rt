use crate::numbers::number_of_refusal;
use std::alloc::{AllocError, Global};
use std::slice;
use std::test::Fail;
use uss_http_request::{ReadRefusal, Request, request_from};
use uss_link::MemorySource;

// Requests by the number of the answer. `|` stands for CR LF and `~` for LF.

/// Requests that are read.
const READ: [&[u8]; 16] = [
    b"GET / HTTP/1.1|USS-Client: uss1||",
    b"GET / HTTP/1.0|USS-Client: uss1||",
    b"||GET / HTTP/1.1|USS-Client: uss1||",
    b"GET / HTTP/1.1~USS-Client: uss1~~",
    b"~GET / HTTP/1.1~USS-Client:uss1|~",
    b"GET / HTTP/1.1|uss-client: uss1||",
    b"GET / HTTP/1.1|USS-CLIENT:   uss1   ||",
    b"M*X /x?y#z HTTP/1.1|USS-Client: a.b-c_d|Other: @,;||",
    b"GET / HTTP/1.1|USS-Client: uss1|Content-Length: 0||",
    b"GET / HTTP/1.1|USS-Client: uss1|Content-Length: 000||",
    b"POST / HTTP/1.1|USS-Client: uss1|Content-Length: 5||hello",
    b"POST / HTTP/1.1|USS-Client: uss1|content-LENGTH:  5 ||hello and more",
    b"POST / HTTP/1.1|USS-Client: uss1|Transfer-Encoding: chunked||5|hello|0||",
    b"POST / HTTP/1.1|USS-Client: uss1|transfer-encoding: CHUNKED||5;x=1|hello|0|Trailer: x||",
    b"POST / HTTP/1.1|USS-Client: uss1|Transfer-Encoding: chunked||2|he|3  |llo|00||",
    b"POST / HTTP/1.1|USS-Client: uss1|Transfer-Encoding: chunked||000005|hello|0|USS-Client: other||",
];

/// Requests that are refused with 432.
const BAD_HEADS: [&[u8]; 36] = [
    b"GET  / HTTP/1.1|USS-Client: uss1||",
    b"GET / HTTP/1.2|USS-Client: uss1||",
    b"GET / HTTP/2.0|USS-Client: uss1||",
    b"GET / http/1.1|USS-Client: uss1||",
    b"GET / HTTP/1.1 |USS-Client: uss1||",
    b"GET /|USS-Client: uss1||",
    b" GET / HTTP/1.1|USS-Client: uss1||",
    b"G(T / HTTP/1.1|USS-Client: uss1||",
    b"/ HTTP/1.1|USS-Client: uss1||",
    b"GET HTTP/1.1|USS-Client: uss1||",
    b"GET / HTTP/1.1|USS-Client uss1||",
    b"GET / HTTP/1.1|: uss1||",
    b"GET / HTTP/1.1|USS Client: uss1||",
    b"GET / HTTP/1.1|USS-Client : uss1||",
    b"GET / HTTP/1.1| USS-Client: uss1||",
    b"GET / HTTP/1.1|USS-Client: uss1| folded||",
    b"GET / HTTP/1.1|USS-Client: uss1|Content-Length: 5|Content-Length: 5||hello",
    b"GET / HTTP/1.1|USS-Client: uss1|Content-Length: 5|content-length: 6||hello",
    b"GET / HTTP/1.1|USS-Client: uss1|Content-Length: 5|Transfer-Encoding: chunked||5|hello|0||",
    b"GET / HTTP/1.1|USS-Client: uss1|Transfer-Encoding: chunked|Content-Length: 0||0||",
    b"GET / HTTP/1.1|USS-Client: uss1|Transfer-Encoding: chunked|Transfer-Encoding: chunked||0||",
    b"GET / HTTP/1.1|USS-Client: uss1|Transfer-Encoding: gzip||",
    b"GET / HTTP/1.1|USS-Client: uss1|Transfer-Encoding: gzip, chunked||0||",
    b"GET / HTTP/1.1|USS-Client: uss1|Transfer-Encoding: chunked, chunked||0||",
    b"GET / HTTP/1.1|USS-Client: uss1|Transfer-Encoding: identity||",
    b"GET / HTTP/1.1|USS-Client: uss1|Transfer-Encoding:||",
    b"GET / HTTP/1.1|USS-Client: uss1|Transfer-Encoding: chunked;q=1||0||",
    b"GET / HTTP/1.1|USS-Client: uss1|Content-Length:||",
    b"GET / HTTP/1.1|USS-Client: uss1|Content-Length: -1||",
    b"GET / HTTP/1.1|USS-Client: uss1|Content-Length: +5||hello",
    b"GET / HTTP/1.1|USS-Client: uss1|Content-Length: 5 5||hello",
    b"GET / HTTP/1.1|USS-Client: uss1|Content-Length: 0x5||hello",
    b"GET / HTTP/1.1|USS-Client: uss1|Content-Length: 5.0||hello",
    b"GET / HTTP/1.1|USS-Client: uss1|Content-Length: 5,5||hello",
    b"GET / HTTP/1.1|USS-Client: uss1|Content-Length: five||hello",
    b"GET / HTTP/1.1|Content-Length: 5|Content-Length: 5||hello",
];

/// Those refused with 438.
const NO_CLIENTS: [&[u8]; 11] = [
    b"GET / HTTP/1.1||",
    b"GET / HTTP/1.1|Host: uss1||",
    b"GET / HTTP/1.1|USS-Client:||",
    b"GET / HTTP/1.1|USS-Client: uss1|USS-Client: uss1||",
    b"GET / HTTP/1.1|USS-Client: uss1|uss-client: uss2||",
    b"GET / HTTP/1.1|USS-Client: uss 1||",
    b"GET / HTTP/1.1|USS-Client: uss/1||",
    b"GET / HTTP/1.1|USS-Client: uss1, uss2||",
    b"GET / HTTP/1.1|USS-Client: aaaaaaaaaaaaaaaaaaaaaaaaaaaaaaaaaaaaaaaaaaaaaaaaaaaaaaaaaaaaaaaaa||",
    b"GET / HTTP/1.1|Content-Length: 8388609||",
    b"GET / HTTP/1.1|Transfer-Encoding: chunked||zz|",
];

/// Those refused with 433.
const LARGE_BODIES: [&[u8]; 7] = [
    b"GET / HTTP/1.1|USS-Client: uss1|Content-Length: 8388609||",
    b"GET / HTTP/1.1|USS-Client: uss1|Content-Length: 4294967296||",
    b"GET / HTTP/1.1|USS-Client: uss1|Content-Length: 18446744073709551616||",
    b"GET / HTTP/1.1|USS-Client: uss1|Content-Length: 99999999999999999999999999||",
    b"GET / HTTP/1.1|USS-Client: uss1|Transfer-Encoding: chunked||800001|",
    b"GET / HTTP/1.1|USS-Client: uss1|Transfer-Encoding: chunked||ffffffffffffffff|",
    b"GET / HTTP/1.1|USS-Client: uss1|Transfer-Encoding: chunked||5|hello|7ffffc|",
];

/// Those refused with 434.
const BAD_CHUNKS: [&[u8]; 12] = [
    b"GET / HTTP/1.1|USS-Client: uss1|Transfer-Encoding: chunked||zz|",
    b"GET / HTTP/1.1|USS-Client: uss1|Transfer-Encoding: chunked|||",
    b"GET / HTTP/1.1|USS-Client: uss1|Transfer-Encoding: chunked||5|hello0||",
    b"GET / HTTP/1.1|USS-Client: uss1|Transfer-Encoding: chunked||5|hello~0||",
    b"GET / HTTP/1.1|USS-Client: uss1|Transfer-Encoding: chunked||5|helloX",
    b"GET / HTTP/1.1|USS-Client: uss1|Transfer-Encoding: chunked||5~hello|0||",
    b"GET / HTTP/1.1|USS-Client: uss1|Transfer-Encoding: chunked||11111111111111111|",
    b"GET / HTTP/1.1|USS-Client: uss1|Transfer-Encoding: chunked|| 5|hello|0||",
    b"GET / HTTP/1.1|USS-Client: uss1|Transfer-Encoding: chunked||-5|hello|0||",
    b"GET / HTTP/1.1|USS-Client: uss1|Transfer-Encoding: chunked||5 x|hello|0||",
    b"GET / HTTP/1.1|USS-Client: uss1|Transfer-Encoding: chunked||5|hello|0|no trailer||",
    b"GET / HTTP/1.1|USS-Client: uss1|Transfer-Encoding: chunked||0|: x||",
];

/// Those refused with 435.
const TRUNCATED: [&[u8]; 12] = [
    b"G",
    b"GET /",
    b"GET / HTTP/1.1|USS-Client: uss1|",
    b"GET / HTTP/1.1|USS-Client: uss1|Content-Length: 5||hel",
    b"GET / HTTP/1.1|USS-Client: uss1|Content-Length: 8388608||",
    b"GET / HTTP/1.1|USS-Client: uss1|Transfer-Encoding: chunked||",
    b"GET / HTTP/1.1|USS-Client: uss1|Transfer-Encoding: chunked||5",
    b"GET / HTTP/1.1|USS-Client: uss1|Transfer-Encoding: chunked||5|hel",
    b"GET / HTTP/1.1|USS-Client: uss1|Transfer-Encoding: chunked||5|hello",
    b"GET / HTTP/1.1|USS-Client: uss1|Transfer-Encoding: chunked||5|hello|",
    b"GET / HTTP/1.1|USS-Client: uss1|Transfer-Encoding: chunked||5|hello|0|",
    b"GET / HTTP/1.1|USS-Client: uss1|Transfer-Encoding: chunked||800000|hello",
];

/// The bytes that a byte of a row stands for.
fn meant(byte: &u8) -> &[u8] {
    match *byte {
        b'|' => b"\r\n",
        b'~' => b"\n",
        _ => slice::from_ref(byte),
    }
}

/// The bytes that a row stands for.
fn bytes_of(alloc: Global, row: &[u8]) -> Result<Vec<u8>, AllocError> {
    let mut bytes = Vec::new(alloc);
    for byte in row {
        bytes.extend_from_slice(meant(byte))?;
    }
    Ok(bytes)
}

/// The bytes that a row stands for, and then so many bytes `x`, and the bytes of another row.
fn filled(alloc: Global, row: &[u8], count: usize, rest: &[u8]) -> Result<Vec<u8>, AllocError> {
    let mut bytes = bytes_of(alloc, row)?;
    let filling = vec![in alloc; b'x'; count]?;
    bytes.extend_from_slice(filling.as_slice())?;
    let rest = bytes_of(alloc, rest)?;
    bytes.extend_from_slice(rest.as_slice())?;
    Ok(bytes)
}

/// A source of these bytes, which come in pieces of this size, where the call with this number fails.
fn source_of(
    alloc: Global,
    bytes: &[u8],
    piece: usize,
    failing: u64,
) -> Result<MemorySource, AllocError> {
    Ok(
        MemorySource::new(alloc, Vec::from_slice(alloc, bytes)?)
            .failing_at(vec![in alloc; failing]?)
            .in_pieces_of(piece),
    )
}

/// Reads one request from such a source.
fn read(alloc: Global, bytes: &[u8], piece: usize, failing: u64) -> Result<Request, ReadRefusal> {
    match source_of(alloc, bytes, piece, failing) {
        Ok(mut source) => request_from(alloc, &mut source),
        Err(AllocError) => Err(ReadRefusal::Memory),
    }
}

/// The number of the answer: 200, or that of the refusal.
fn number(alloc: Global, bytes: &[u8], piece: usize, failing: u64) -> u16 {
    match read(alloc, bytes, piece, failing) {
        Ok(_) => 200,
        Err(refusal) => number_of_refusal(refusal),
    }
}

/// Whether the row has this answer, whatever pieces it comes in.
fn is_answered(alloc: Global, row: &[u8], wanted: u16) -> bool {
    match bytes_of(alloc, row) {
        Ok(bytes) => {
            number(alloc, bytes.as_slice(), 1, 0) == wanted
                && number(alloc, bytes.as_slice(), 7, 0) == wanted
                && number(alloc, bytes.as_slice(), 100000, 0) == wanted
        }
        Err(AllocError) => false,
    }
}

/// Whether all these rows have this answer.
fn are_answered(alloc: Global, rows: &[&[u8]], wanted: u16) -> bool {
    for row in rows {
        if !is_answered(alloc, row, wanted) {
            return false;
        }
    }
    true
}

/// Whether these rows have this answer where they come byte by byte, and the call after the last of their bytes fails.
fn are_answered_without_more(alloc: Global, rows: &[&[u8]], wanted: u16) -> bool {
    for row in rows {
        let Ok(bytes) = bytes_of(alloc, row) else {
            return false;
        };
        if number(alloc, bytes.as_slice(), 1, bytes.len() as u64 + 1) != wanted {
            return false;
        }
    }
    true
}

#[test]
fn requests_are_read_or_refused(rt: HostRuntime) -> Result<(), Fail> {
    let alloc = rt.alloc();
    assert!(rt; are_answered(alloc, &READ, 200));
    assert!(rt; are_answered_without_more(alloc, &READ, 200));
    assert!(rt; are_answered(alloc, &BAD_HEADS, 432));
    assert!(rt; are_answered(alloc, &NO_CLIENTS, 438));
    assert!(rt; are_answered(alloc, &LARGE_BODIES, 433));
    assert!(rt; are_answered(alloc, &BAD_CHUNKS, 434));
    assert!(rt; are_answered(alloc, &TRUNCATED, 435));
    Ok(())
}

#[test]
fn refusals_ask_for_no_byte_after_them(rt: HostRuntime) -> Result<(), Fail> {
    let alloc = rt.alloc();
    assert!(rt; are_answered_without_more(alloc, &NO_CLIENTS, 438));
    assert!(rt; are_answered_without_more(alloc, &LARGE_BODIES, 433));
    assert!(rt; are_answered_without_more(alloc, &BAD_CHUNKS, 434));
    Ok(())
}

/// The number of the answer to a row, so many letters and another row.
fn stretched(alloc: Global, row: &[u8], count: usize, rest: &[u8]) -> u16 {
    match filled(alloc, row, count, rest) {
        Ok(bytes) => number(alloc, bytes.as_slice(), 1000, 0),
        Err(AllocError) => 2,
    }
}

/// The number of the answer to a head with a field of so many bytes; 40 bytes are around them.
fn long_head(alloc: Global, filling: usize) -> u16 {
    stretched(alloc, b"GET / HTTP/1.1|USS-Client: uss1|A:", filling, b"||")
}

/// The number of the answer to a size line with so many bytes after its size; 4 bytes are around them.
fn long_size_line(alloc: Global, filling: usize) -> u16 {
    stretched(
        alloc,
        b"GET / HTTP/1.1|USS-Client: uss1|Transfer-Encoding: chunked||5;",
        filling,
        b"|hello|0||",
    )
}

/// The number of the answer to trailers with a field of so many bytes; 6 bytes are around them.
fn long_trailers(alloc: Global, filling: usize) -> u16 {
    stretched(
        alloc,
        b"GET / HTTP/1.1|USS-Client: uss1|Transfer-Encoding: chunked||0|A:",
        filling,
        b"||",
    )
}

/// The bytes of a row, so many fields of three bytes, and an empty line of one.
fn with_fields(alloc: Global, row: &[u8], count: usize) -> Result<Vec<u8>, AllocError> {
    let mut bytes = bytes_of(alloc, row)?;
    for _ in 0..count {
        bytes.extend_from_slice(b"A:\n")?;
    }
    bytes.extend_from_slice(b"\n")?;
    Ok(bytes)
}

/// The number of the answer to a row, so many fields and an empty line.
fn many_fields(alloc: Global, row: &[u8], count: usize) -> u16 {
    match with_fields(alloc, row, count) {
        Ok(bytes) => number(alloc, bytes.as_slice(), 1000, 0),
        Err(AllocError) => 2,
    }
}

/// A head up to its fields; 35 bytes are around these.
const FIELDS: &[u8] = b"GET / HTTP/1.1|USS-Client: uss1|";

/// A request up to its trailers; 1 byte comes after these.
const TRAILERS: &[u8] = b"GET / HTTP/1.1|USS-Client: uss1|Transfer-Encoding: chunked||5|hello|0|";

/// The number of the answer to a body that is cut short, where the call with this number fails.
fn cut_body(alloc: Global, failing: u64) -> u16 {
    match bytes_of(
        alloc,
        b"POST /a?b HTTP/1.1|USS-Client: uss1|Content-Length: 5||hel",
    ) {
        Ok(bytes) => number(alloc, bytes.as_slice(), 100, failing),
        Err(AllocError) => 2,
    }
}

#[test]
fn limits_and_faults(rt: HostRuntime) -> Result<(), Fail> {
    let alloc = rt.alloc();
    assert_eq!(rt; long_head(alloc, 16344), 200);
    assert_eq!(rt; long_head(alloc, 16345), 431);
    assert_eq!(rt; long_head(alloc, 20000), 431);
    assert_eq!(rt; stretched(alloc, b"", 16384, b""), 431);
    // fewer fields than there is room for at first, as many, more, and as many as a head can have
    assert_eq!(rt; many_fields(alloc, FIELDS, 62), 200);
    assert_eq!(rt; many_fields(alloc, FIELDS, 63), 200);
    assert_eq!(rt; many_fields(alloc, FIELDS, 64), 200);
    assert_eq!(rt; many_fields(alloc, FIELDS, 5449), 200);
    assert_eq!(rt; many_fields(alloc, FIELDS, 5450), 431);
    assert_eq!(rt; many_fields(alloc, TRAILERS, 64), 200);
    assert_eq!(rt; many_fields(alloc, TRAILERS, 65), 200);
    assert_eq!(rt; many_fields(alloc, TRAILERS, 5461), 200);
    assert_eq!(rt; many_fields(alloc, TRAILERS, 5462), 434);
    // 16 KiB, and one more
    assert_eq!(rt; long_size_line(alloc, 16380), 200);
    assert_eq!(rt; long_size_line(alloc, 16381), 434);
    assert_eq!(rt; long_trailers(alloc, 16378), 200);
    assert_eq!(rt; long_trailers(alloc, 16379), 434);
    // the same bytes, and then the end or a fault
    assert_eq!(rt; cut_body(alloc, 0), 435);
    assert_eq!(rt; cut_body(alloc, 2), 1);
    Ok(())
}

/// Whether the answer is a request with this body.
fn is_request(answer: Result<Request, ReadRefusal>, body: &[u8]) -> bool {
    match answer {
        Ok(request) => {
            request.method.as_slice() == b"POST".as_slice()
                && request.path.as_slice() == b"/a?b".as_slice()
                && request.client.as_bytes() == b"uss1".as_slice()
                && request.body.as_slice() == body
        }
        Err(_) => false,
    }
}

/// Whether the row is read as a request with this body, in pieces of this size.
fn has_body(alloc: Global, row: &[u8], piece: usize, body: &[u8]) -> bool {
    match bytes_of(alloc, row) {
        Ok(bytes) => is_request(read(alloc, bytes.as_slice(), piece, 0), body),
        Err(AllocError) => false,
    }
}

/// Whether a body of 8 MiB is read whole where so many of its bytes are between these rows.
fn has_large_body(alloc: Global, row: &[u8], count: usize, rest: &[u8]) -> bool {
    let (Ok(bytes), Ok(body)) = (
        filled(alloc, row, count, rest),
        filled(alloc, b"", 8388608, b""),
    ) else {
        return false;
    };
    is_request(read(alloc, bytes.as_slice(), 100000, 0), body.as_slice())
}

const CHUNKED: &[u8] =
    b"POST /a?b HTTP/1.1|USS-Client: uss1|Transfer-Encoding: chunked||5|hello|0||";

const SIZED: &[u8] = b"POST /a?b HTTP/1.1|USS-Client: uss1|Content-Length: 5||hello more";

/// Whether the row is read as a request with the body `hello`, whatever pieces it comes in.
fn says_hello(alloc: Global, row: &[u8]) -> bool {
    has_body(alloc, row, 1, b"hello")
        && has_body(alloc, row, 2, b"hello")
        && has_body(alloc, row, 100, b"hello")
}

#[test]
fn bodies_are_those_that_were_sent(rt: HostRuntime) -> Result<(), Fail> {
    let alloc = rt.alloc();
    assert!(rt; says_hello(alloc, CHUNKED));
    assert!(rt; says_hello(alloc, SIZED));
    assert!(rt;
        has_body(
            alloc,
            b"POST /a?b HTTP/1.1|USS-Client: uss1||ignored",
            100,
            b""
        )
    );
    // as large as a body may be
    assert!(rt;
        has_large_body(
            alloc,
            b"POST /a?b HTTP/1.1|USS-Client: uss1|Content-Length: 8388608||",
            8388608,
            b""
        )
    );
    assert!(rt;
        has_large_body(
            alloc,
            b"POST /a?b HTTP/1.1|USS-Client: uss1|Transfer-Encoding: chunked||5|xxxxx|7ffffb|",
            8388603,
            b"|0||"
        )
    );
    Ok(())
}
