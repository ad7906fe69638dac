use uss_http_request::ReadRefusal;

/// The number of a refusal; 1 for a fault, and 2 for out of memory.
pub(crate) fn number_of_refusal(refusal: ReadRefusal) -> u16 {
    match refusal {
        ReadRefusal::HeadTooLarge => 431,
        ReadRefusal::BadHead => 432,
        ReadRefusal::BodyTooLarge => 433,
        ReadRefusal::BadChunk => 434,
        ReadRefusal::Truncated => 435,
        ReadRefusal::NoClient => 438,
        ReadRefusal::Fault => 1,
        ReadRefusal::Memory => 2,
    }
}
