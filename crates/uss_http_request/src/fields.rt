ghost use Rattle.std.specs.Prelude.{◌≡◌, ℕ, List, length, map, All, Some, None, IfOk, IfErr, IsErrOf, ◌⊎◌, if◌then◌else◌};
ghost use Rattle.httparse.specs.Spans.{IsHeaderWithin, header_bytes};
ghost use Rattle.uss_http_request.specs.Fields.{values_of, framing_by, framing_of, client_of, is_number, capped_number};
ghost use Rattle.uss_http_request.specs.Found.{Describes, and_one_more, after_field};

use crate::refusal::ReadRefusal;
use httparse::spans::{HeaderSpan, Span};
use std::alloc::Global;
use uss_intent::{IntentRefusal, Name};

/// How the end of a body is found.
#[derive(Clone, Copy)]
pub enum Framing {
    /// There is no body.
    Nothing,
    /// By this many bytes; 8 MiB and one byte stand for every number above 8 MiB.
    Length(u32),
    /// By the sizes of its chunks.
    Chunked,
}

/// How many fields have a name, and where the value of the only one is.
#[derive(Clone, Copy)]
pub enum Values {
    /// No field has the name.
    None,
    /// One has it, with its value at this place.
    One(Span),
    /// Several have it.
    Several,
}

/// What was found so far, and one more.
fn with_one_more(found: Values, value: Span) -> Values
    ensures { result ≡ and_one_more found value }
{
    match found {
        Values::None => Values::One(value),
        Values::One(_) | Values::Several => Values::Several,
    }
}

/// What was found so far, and this field where it has the name.
fn with_field(bytes: &[u8], name: &[u8], found: Values, header: HeaderSpan) -> Values
    requires { IsHeaderWithin (length bytes.now) header }
    ensures { result ≡ after_field bytes.now name.now found header }
{
    if header.name.of(bytes).eq_ignore_ascii_case(name) {
        with_one_more(found, header.value)
    } else {
        found
    }
}

/// Finds the fields with a name, without regard to case.
fn find_values(bytes: &[u8], headers: &[HeaderSpan], name: &[u8]) -> Values
    requires { All (IsHeaderWithin (length bytes.now)) headers.now }
    ensures { Describes bytes.now result (values_of name.now (map (header_bytes bytes.now) headers.now)) }
{
    let mut found = Values::None;
    for header in headers {
        found = with_field(bytes, name, found, *header);
    }
    found
}

/// The number that a text writes, where it has at least one decimal digit and nothing else. 8 MiB and one stand for
/// every number above 8 MiB.
fn number(text: &[u8]) -> Option<u32>
    ensures { result ≡ (if is_number text.now then Some (capped_number text.now) else None) }
{
    if text.is_empty() {
        return None;
    }
    let mut value: u32 = 0;
    for digit in text {
        if *digit < b'0' || b'9' < *digit {
            return None;
        }
        value = (value * 10 + (*digit - b'0') as u32).min(8388609);
    }
    Some(value)
}

/// How the end of a body is found, by what was found of the length and of the coding.
fn framing_by(bytes: &[u8], length: Values, coding: Values) -> Option<Framing>
    requires places { (lengths : List (List ℕ)) × (codings : List (List ℕ)) × Describes bytes.now length lengths × Describes bytes.now coding codings }
    ensures { (lengths codings : List (List ℕ)) → Describes bytes.now length lengths → Describes bytes.now coding codings → result ≡ framing_by lengths codings }
{
    match (length, coding) {
        (Values::None, Values::None) => Some(Framing::Nothing),
        (Values::One(text), Values::None) => match number(text.of(bytes)) {
            Some(count) => Some(Framing::Length(count)),
            None => None,
        },
        (Values::None, Values::One(name)) => {
            if name.of(bytes).eq_ignore_ascii_case(b"chunked") {
                Some(Framing::Chunked)
            } else {
                None
            }
        }
        _ => None,
    }
}

/// How the end of the body is found. None where the fields have two lengths or two codings, a length and a coding,
/// a length that isn't decimal digits, or a coding other than `chunked`.
pub fn body_framing(bytes: &[u8], headers: &[HeaderSpan]) -> Option<Framing>
    requires { All (IsHeaderWithin (length bytes.now)) headers.now }
    ensures { result ≡ framing_of (map (header_bytes bytes.now) headers.now) }
{
    let length = find_values(bytes, headers, b"content-length");
    let coding = find_values(bytes, headers, b"transfer-encoding");
    framing_by(bytes, length, coding)
}

/// The name of the client, which has to be there once.
pub fn client_name(alloc: Global, bytes: &[u8], headers: &[HeaderSpan]) -> Result<Name, ReadRefusal>
    requires { All (IsHeaderWithin (length bytes.now)) headers.now }
    ensures named { IfOk result (λ name. client_of (map (header_bytes bytes.now) headers.now) ≡ Some name) }
    ensures none { IsErrOf result ReadRefusal.NoClient → client_of (map (header_bytes bytes.now) headers.now) ≡ None }
    ensures kinds { IfErr result (λ e. (e ≡ ReadRefusal.NoClient) ⊎ (e ≡ ReadRefusal.Memory)) }
{
    let Values::One(text) = find_values(bytes, headers, b"uss-client") else {
        return Err(ReadRefusal::NoClient);
    };
    match Name::of(alloc, text.of(bytes)) {
        Ok(name) => Ok(name),
        Err(IntentRefusal::BadName) => Err(ReadRefusal::NoClient),
        Err(_) => Err(ReadRefusal::Memory),
    }
}
