ghost use Rattle.std.specs.Prelude.{◌≡◌, ◌≢◌, [], IfOk};
ghost use Rattle.std.specs.Str.{IsUtf8};
ghost use Rattle.uss_intent.specs.Refusals.{refusal_number};
ghost use Rattle.uss_rest.specs.DssRefusals as spec;
ghost use Rattle.uss_rest.specs.DssRefusals.{IsResponseOf, refusal_numbered, refusal_in};

use std::alloc::{AllocError, Global};
use uss_http_response::Response;
use uss_intent::{DssRefusal, Name, References, Sequence};
use uss_wire_base::WireRefusal;
use uss_wire_dss::{ErrorBody, read_error, write_error};

/// The status of a response that is this refusal.
pub fn status_of(refusal: &DssRefusal) -> u16
    ensures { result ≡ spec.status_of refusal.now }
{
    match refusal {
        DssRefusal::BadCall
        | DssRefusal::NoTicket
        | DssRefusal::NotCovered
        | DssRefusal::TicketInUse => 400,
        DssRefusal::NotYours => 403,
        DssRefusal::Retired | DssRefusal::Absent => 404,
        DssRefusal::Exists | DssRefusal::StaleOvn | DssRefusal::MissingKey(_) => 409,
        DssRefusal::Full(_) => 503,
    }
}

/// The name of the refusal, as the `message` of its error body has it.
pub fn name_of(refusal: &DssRefusal) -> &'static str
    ensures { result.now ≡ spec.name_of refusal.now }
{
    match refusal {
        DssRefusal::BadCall => "BadCall",
        DssRefusal::NotYours => "NotYours",
        DssRefusal::Exists => "Exists",
        DssRefusal::Retired => "Retired",
        DssRefusal::Absent => "Absent",
        DssRefusal::StaleOvn => "StaleOvn",
        DssRefusal::NoTicket => "NoTicket",
        DssRefusal::NotCovered => "NotCovered",
        DssRefusal::MissingKey(_) => "MissingKey",
        DssRefusal::TicketInUse => "TicketInUse",
        DssRefusal::Full(_) => "Full",
    }
}

/// The references whose OVNs the key lacked, if that is the refusal.
fn missing_in(alloc: Global, refusal: DssRefusal) -> References
    ensures value { result ≡ spec.missing_of refusal }
    ensures only { refusal_number refusal ≢ 209 → result ≡ [] }
{
    match refusal {
        DssRefusal::MissingKey(references) => references,
        _ => References::new(alloc),
    }
}

/// The error body of a response that is this refusal.
pub fn error_body(alloc: Global, refusal: DssRefusal) -> Result<ErrorBody, AllocError>
    ensures value { IfOk result (λ e. e ≡ spec.error_of refusal) }
    ensures text { IfOk result (λ e. IsUtf8 e.message) }
    ensures missing { IfOk result (λ e. e.refusal ≢ 209 → e.missing ≡ []) }
{
    let number = refusal.number();
    let mut name = Vec::new(alloc);
    name.extend_from_slice(name_of(&refusal).as_bytes())?;
    Ok(ErrorBody {
        message: Sequence::from_vec(name),
        refusal: number,
        missing: missing_in(alloc, refusal),
    })
}

/// The response that is this refusal.
pub fn write_refusal(alloc: Global, refusal: DssRefusal) -> Result<Response, AllocError>
    ensures { IfOk result (IsResponseOf refusal) }
{
    let status = status_of(&refusal);
    let error = error_body(alloc, refusal)?;
    let body = write_error(alloc, &error)?;
    Ok(Response {
        status,
        body: Sequence::from_vec(body),
    })
}

/// The refusal with this number. The limit of 211 isn't known.
fn refusal_numbered(number: u16, missing: References) -> Option<DssRefusal>
    ensures { result ≡ refusal_numbered number missing }
{
    match number {
        201 => Some(DssRefusal::BadCall),
        202 => Some(DssRefusal::NotYours),
        203 => Some(DssRefusal::Exists),
        204 => Some(DssRefusal::Retired),
        205 => Some(DssRefusal::Absent),
        206 => Some(DssRefusal::StaleOvn),
        207 => Some(DssRefusal::NoTicket),
        208 => Some(DssRefusal::NotCovered),
        209 => Some(DssRefusal::MissingKey(missing)),
        210 => Some(DssRefusal::TicketInUse),
        211 => Some(DssRefusal::Full(0)),
        _ => None,
    }
}

/// The refusal that a status and an error body stand for: 201 to 211, where it has that status. For 211 the limit is 0.
pub fn refusal_from(status: u16, error: ErrorBody) -> Option<DssRefusal>
    ensures { result ≡ spec.refusal_from status error }
{
    let refusal = refusal_numbered(error.refusal, error.missing)?;
    if status_of(&refusal) == status {
        Some(refusal)
    } else {
        None
    }
}

/// The refusal that a response of the discovery service to this client stands for, and none where its body is no error, or not with
/// this status. Its one error is that there is no memory.
pub fn read_refusal(
    alloc: Global,
    status: u16,
    body: &[u8],
    client: &Name,
) -> Result<Option<DssRefusal>, AllocError>
    ensures { IfOk result (λ refusal. refusal ≡ refusal_in client.now status body.now) }
{
    match read_error(alloc, body, client) {
        Ok(error) => Ok(refusal_from(status, error)),
        Err(WireRefusal::Memory) => Err(AllocError),
        Err(_) => Ok(None),
    }
}
