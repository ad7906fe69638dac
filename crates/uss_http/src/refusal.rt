ghost use Rattle.std.specs.Prelude.{◌≡◌};
ghost use Rattle.uss_http.specs.Refusals.{refusal_of, refusal_over, number_of};

use uss_http_request::{Bytes, ReadRefusal};

/// Why a message was not read, sent or routed. In brackets the number of the refusal.
#[derive(Debug, Drop)]
pub enum HttpRefusal {
    /// 16 KiB were taken that hold no whole head (431).
    HeadTooLarge,
    /// What came can't begin a head, or its fields say of the body what isn't accepted: a `Content-Length` that isn't a
    /// decimal number, a `Transfer-Encoding` other than `chunked`, one of these twice, or both (432).
    BadHead,
    /// The body has more than 8 MiB (433).
    BodyTooLarge,
    /// A chunk, its size line or the trailers are malformed, or 16 KiB don't end them (434).
    BadChunk,
    /// The end came before the end of the message (435).
    Truncated,
    /// No path of the routes is that of the request (436).
    NoRoute,
    /// The path is one of the routes, but not with this method (437).
    WrongMethod {
        /// The methods of the path, joined by a comma and a space.
        allowed: Bytes,
    },
    /// The name of the client isn't there once as a name (438).
    NoClient,
    /// A read of the source answered a fault.
    ReadFault,
    /// A call of the dial answered a fault.
    DialFault,
    /// Memory is wanting.
    Memory,
}

/// The refusal of reading from a source.
pub(crate) fn of_source(refusal: ReadRefusal) -> HttpRefusal
    ensures { result ≡ refusal_of refusal }
{
    match refusal {
        ReadRefusal::HeadTooLarge => HttpRefusal::HeadTooLarge,
        ReadRefusal::BadHead => HttpRefusal::BadHead,
        ReadRefusal::BodyTooLarge => HttpRefusal::BodyTooLarge,
        ReadRefusal::BadChunk => HttpRefusal::BadChunk,
        ReadRefusal::Truncated => HttpRefusal::Truncated,
        ReadRefusal::NoClient => HttpRefusal::NoClient,
        ReadRefusal::Fault => HttpRefusal::ReadFault,
        ReadRefusal::Memory => HttpRefusal::Memory,
    }
}

/// The refusal of reading over a dial.
pub(crate) fn of_dial(refusal: ReadRefusal) -> HttpRefusal
    ensures { result ≡ refusal_over refusal }
{
    match refusal {
        ReadRefusal::Fault => HttpRefusal::DialFault,
        other => of_source(other),
    }
}

impl HttpRefusal {
    /// The number of the refusal; none for a fault and for out of memory.
    pub fn number(&self) -> Option<u16>
        ensures { result ≡ number_of self.now }
    {
        match self {
            HttpRefusal::HeadTooLarge => Some(431),
            HttpRefusal::BadHead => Some(432),
            HttpRefusal::BodyTooLarge => Some(433),
            HttpRefusal::BadChunk => Some(434),
            HttpRefusal::Truncated => Some(435),
            HttpRefusal::NoRoute => Some(436),
            HttpRefusal::WrongMethod { .. } => Some(437),
            HttpRefusal::NoClient => Some(438),
            HttpRefusal::ReadFault | HttpRefusal::DialFault | HttpRefusal::Memory => None,
        }
    }
}
