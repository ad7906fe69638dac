ghost use Rattle.std.specs.Prelude.{◌≡◌, ◌≢◌, ℕ, ◌+◌, ◌<◌, ◌≤◌, ◌⊎◌, ◌++◌, Bool, IsTrue, List, length, Some, Err, codes, decimal, IfOk, IfErr, OnOk, OnErr};
ghost use Rattle.arrayvec.specs.ArrayVec.{array_vec_len};
ghost use Rattle.uss_cause.specs.Cause.{Counts, Rose};
ghost use Rattle.uss_link.specs.Bytes.{TookFront};
ghost use Rattle.uss_link.specs.Talks.{Talk, SentFront, Stays};
ghost use Rattle.uss_http.specs.Writing.{request_text, response_with, phrase_of, status_text, body_text, response_text};

use crate::refusal::HttpRefusal;
use arrayvec::ArrayVec;
use http::StatusCode;
use itoa::Buffer;
use std::alloc::{AllocError, Global};
use uss_http_request::Request;
use uss_http_response::Response;
use uss_link::{Dial, DialFault, Sink, WriteFault, send_all, write_all};

/// What stands between a value before it and the length of the body.
const TYPE_AND_LENGTH: &[u8] = b"\r\nContent-Type: application/json\r\nContent-Length: ";

/// What stands between the length of the body and the body.
const END_OF_FIELDS: &[u8] = b"\r\nConnection: close\r\n\r\n";

/// Adds two pieces at the end of a text.
fn add_both(text: &mut Vec<u8>, first: &[u8], second: &[u8]) -> Result<(), AllocError>
    ensures { OnOk result (text.new.items ≡ text.old.items ++ first.now ++ second.now) }
{
    text.extend_from_slice(first)?;
    text.extend_from_slice(second)
}

/// The bytes of a request to this host, up to its body.
fn head_bytes(alloc: Global, host: &[u8], request: &Request) -> Result<Vec<u8>, AllocError>
    ensures text { IfOk result (λ head. head.items ++ request.now.body ≡ request_text host.now request.now) }
    ensures some { IfOk result (λ head. 0 < length head.items) }
{
    let mut number = Buffer::new();
    let digits = number.format(request.body.len()).as_bytes();
    let mut text = Vec::from_slice(alloc, request.method.as_slice())?;
    add_both(&mut text, b" ", request.path.as_slice())?;
    add_both(&mut text, b" HTTP/1.1\r\nHost: ", host)?;
    add_both(&mut text, b"\r\nUSS-Client: ", request.client.as_bytes())?;
    add_both(&mut text, TYPE_AND_LENGTH, digits)?;
    text.extend_from_slice(END_OF_FIELDS)?;
    Ok(text)
}

/// Sends two pieces one after the other over the open stream, which stays open. On a fault a prefix of them was sent. Bytes
/// are sent only where a stream was open.
fn send_both<G: Dial>(dial: &mut G, first: &[u8], second: &[u8]) -> Result<(), DialFault>
    ensures counts { Counts (G.faults dial.old) (G.faults dial.new) result }
    ensures sent { (talks : List Talk) → G.talks dial.old ≡ Some talks → OnOk result (SentFront talks (G.talks dial.new) (first.now ++ second.now) (length (first.now ++ second.now))) }
    ensures front { (talks : List Talk) → G.talks dial.old ≡ Some talks → OnErr result ((n : ℕ) × SentFront talks (G.talks dial.new) (first.now ++ second.now) n) }
    ensures stream { Stays (G.is_open dial.old) (G.is_open dial.new) }
    ensures over { (was : Bool) → G.is_open dial.old ≡ Some was → 0 < length first.now → OnOk result (IsTrue was) }
{
    match send_all(dial, first) {
        Ok(()) => {}
        Err(DialFault) => return Err(DialFault),
    }
    send_all(dial, second)
}

/// Sends a request over the open stream of a dial, which stays open; its body without a copy of it. On a fault a prefix of its
/// bytes was sent; out of memory, nothing was. A request is sent only where a stream was open.
pub fn write_request<G: Dial>(
    alloc: Global,
    dial: &mut G,
    host: &[u8],
    request: &Request,
) -> Result<(), HttpRefusal>
    ensures sent { (talks : List Talk) → G.talks dial.old ≡ Some talks → OnOk result (SentFront talks (G.talks dial.new) (request_text host.now request.now) (length (request_text host.now request.now))) }
    ensures front { (talks : List Talk) → G.talks dial.old ≡ Some talks → OnErr result ((n : ℕ) × SentFront talks (G.talks dial.new) (request_text host.now request.now) n) }
    ensures stream { Stays (G.is_open dial.old) (G.is_open dial.new) }
    ensures over { (was : Bool) → G.is_open dial.old ≡ Some was → OnOk result (IsTrue was) }
    ensures unsent { result ≡ Err HttpRefusal.Memory → G.talks dial.new ≡ G.talks dial.old }
    ensures kept { G.faults dial.old ≤ G.faults dial.new }
    ensures causes { IfErr result (λ e. (e ≡ HttpRefusal.DialFault) ⊎ (e ≡ HttpRefusal.Memory)) }
    ensures fault { result ≡ Err HttpRefusal.DialFault → Rose (G.faults dial.old) (G.faults dial.new) }
    ensures calm { result ≢ Err HttpRefusal.DialFault → G.faults dial.new ≡ G.faults dial.old }
{
    let head = match head_bytes(alloc, host, request) {
        Ok(head) => head,
        Err(AllocError) => return Err(HttpRefusal::Memory),
    };
    match send_both(dial, head.as_slice(), request.body.as_slice()) {
        Ok(()) => Ok(()),
        Err(DialFault) => Err(HttpRefusal::DialFault),
    }
}

/// The head of a response, gathered to be written at once. The longest has 139 bytes.
type HeadBytes = ArrayVec<u8, 160>;

/// Adds a piece, for which there is room.
fn add(head: &mut HeadBytes, piece: &[u8])
    requires { array_vec_len head.old + length piece.now ≤ 160 }
    ensures { head.new.items ≡ head.old.items ++ piece.now }
{
    let added = head.try_extend_from_slice(piece).is_ok();
    prove!(added);
}

/// The canonical phrase of a status of three digits, or none.
fn phrase(status: u16) -> &'static str
    ensures { result.now ≡ phrase_of status }
{
    if status < 100 || 999 < status {
        return "";
    }
    match StatusCode::from_u16(status) {
        Ok(code) => match code.canonical_reason() {
            Some(text) => text,
            None => "",
        },
        Err(_) => "",
    }
}

/// The status line, without its end.
fn status_line(status: u16) -> HeadBytes
    ensures text { result.items ≡ status_text status }
    ensures short { array_vec_len result ≤ 46 }
{
    let mut number = Buffer::new();
    let mut line = ArrayVec::new();
    add(&mut line, b"HTTP/1.1 ");
    add(&mut line, number.format(status).as_bytes());
    add(&mut line, b" ");
    add(&mut line, phrase(status).as_bytes());
    line
}

/// Adds the fields of a response with a body of this length.
fn add_fields(head: &mut HeadBytes, count: usize)
    requires { array_vec_len head.old ≤ 46 }
    ensures { head.new.items ≡ head.old.items ++ codes "\r\nContent-Type: application/json\r\nContent-Length: " ++ decimal count ++ codes "\r\nConnection: close\r\n\r\n" }
{
    let mut number = Buffer::new();
    add(head, TYPE_AND_LENGTH);
    add(head, number.format(count).as_bytes());
    add(head, END_OF_FIELDS);
}

/// The bytes of a response, up to its body.
fn response_head(status: u16, body: &[u8]) -> HeadBytes
    ensures { result.items ++ body_text (response_with status body.now) ≡ response_text (response_with status body.now) }
{
    let mut head = status_line(status);
    if status == 204 {
        add(&mut head, END_OF_FIELDS);
    } else {
        add_fields(&mut head, body.len());
    }
    head
}

/// The body of a response, as it is sent.
fn sent_body(status: u16, body: &[u8]) -> &[u8]
    ensures { result.now ≡ body_text (response_with status body.now) }
{
    if status == 204 { b"" } else { body }
}

/// Writes two pieces one after the other. On a fault a prefix of them was written.
fn write_both<K: Sink>(output: &mut K, first: &[u8], second: &[u8]) -> Result<(), WriteFault>
    ensures counts { Counts (K.faults output.old) (K.faults output.new) result }
    ensures written { (taken : List ℕ) → K.taken output.old ≡ Some taken → OnOk result (K.taken output.new ≡ Some (taken ++ (first.now ++ second.now))) }
    ensures front { (taken : List ℕ) → K.taken output.old ≡ Some taken → OnErr result (TookFront taken (K.taken output.new) (first.now ++ second.now)) }
{
    match write_all(output, first) {
        Ok(()) => {}
        Err(WriteFault) => return Err(WriteFault),
    }
    write_all(output, second)
}

/// Writes a response whose body is lent, as one whose text is in the program: so it can be answered that memory is out. Takes
/// no memory. On a fault a prefix of its bytes was written.
pub fn write_lent_response<K: Sink>(
    output: &mut K,
    status: u16,
    body: &[u8],
) -> Result<(), WriteFault>
    ensures counts { Counts (K.faults output.old) (K.faults output.new) result }
    ensures written { (taken : List ℕ) → K.taken output.old ≡ Some taken → OnOk result (K.taken output.new ≡ Some (taken ++ response_text (response_with status body.now))) }
    ensures front { (taken : List ℕ) → K.taken output.old ≡ Some taken → OnErr result (TookFront taken (K.taken output.new) (response_text (response_with status body.now))) }
{
    let head = response_head(status, body);
    write_both(output, head.as_slice(), sent_body(status, body))
}

/// Writes a response. Takes no memory. On a fault a prefix of its bytes was written.
pub fn write_response<K: Sink>(output: &mut K, response: &Response) -> Result<(), WriteFault>
    ensures counts { Counts (K.faults output.old) (K.faults output.new) result }
    ensures written { (taken : List ℕ) → K.taken output.old ≡ Some taken → OnOk result (K.taken output.new ≡ Some (taken ++ response_text response.now)) }
    ensures front { (taken : List ℕ) → K.taken output.old ≡ Some taken → OnErr result (TookFront taken (K.taken output.new) (response_text response.now)) }
{
    write_lent_response(output, response.status, response.body.as_slice())
}
