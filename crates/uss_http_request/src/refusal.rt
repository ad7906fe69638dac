/// Why a message was not read. In brackets the number of the refusal.
#[derive(Clone, Copy, Debug, PartialEq, Eq)]
pub enum ReadRefusal {
    /// 16 KiB were taken that hold no whole head (431).
    HeadTooLarge,
    /// What came can't begin a head, or its fields say of the body what isn't accepted: a `Content-Length` that isn't a
    /// decimal number, a `Transfer-Encoding` other than `chunked`, one of these twice, or both (432).
    BadHead,
    /// The body has more than 8 MiB (433).
    BodyTooLarge,
    /// A chunk, its size line or the trailers are malformed, or 16 KiB don't end them (434).
    BadChunk,
    /// The end came before the end of the message (435).
    Truncated,
    /// The name of the client isn't there once as a name (438).
    NoClient,
    /// A call of the source or the dial answered a fault.
    Fault,
    /// Memory is wanting.
    Memory,
}
