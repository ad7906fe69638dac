ghost use Rattle.std.specs.Prelude.{◌≡◌, IfOk, codes};
ghost use Rattle.uss_rest.specs.Errors as spec;
ghost use Rattle.uss_rest.specs.Errors.{IsError, IsHttpAnswer, not_manager};

use std::alloc::{AllocError, Global};
use uss_http::HttpRefusal;
use uss_http_response::Response;
use uss_intent::{References, Sequence};
use uss_wire_base::WireRefusal;
use uss_wire_dss::{ErrorBody, write_error};

/// The number under which a notification is refused that isn't of its manager.
pub const NOT_MANAGER: u16 = 439;

/// The status of the response to a request that is refused; none where nothing is answered, since the client was cut off or a stream
/// failed.
pub fn http_status(refusal: &HttpRefusal) -> Option<u16>
    ensures { result ≡ spec.http_status refusal.now }
{
    match refusal {
        HttpRefusal::HeadTooLarge => Some(431),
        HttpRefusal::BodyTooLarge => Some(413),
        HttpRefusal::BadHead | HttpRefusal::BadChunk | HttpRefusal::NoClient => Some(400),
        HttpRefusal::NoRoute => Some(404),
        HttpRefusal::WrongMethod { .. } => Some(405),
        HttpRefusal::Memory => Some(507),
        HttpRefusal::Truncated | HttpRefusal::ReadFault | HttpRefusal::DialFault => None,
    }
}

/// The name of the refusal.
pub fn http_name(refusal: &HttpRefusal) -> &'static str
    ensures { result.now ≡ spec.http_name refusal.now }
{
    match refusal {
        HttpRefusal::HeadTooLarge => "HeadTooLarge",
        HttpRefusal::BadHead => "BadHead",
        HttpRefusal::BodyTooLarge => "BodyTooLarge",
        HttpRefusal::BadChunk => "BadChunk",
        HttpRefusal::Truncated => "Truncated",
        HttpRefusal::NoRoute => "NoRoute",
        HttpRefusal::WrongMethod { .. } => "WrongMethod",
        HttpRefusal::NoClient => "NoClient",
        HttpRefusal::ReadFault => "ReadFault",
        HttpRefusal::DialFault => "DialFault",
        HttpRefusal::Memory => "Memory",
    }
}

/// The error with this status, text and number.
fn write_error_with(
    alloc: Global,
    status: u16,
    name: &str,
    number: u16,
) -> Result<Response, AllocError>
    ensures { IfOk result (IsError status name.now number) }
{
    let mut message = Vec::new(alloc);
    message.extend_from_slice(name.as_bytes())?;
    let error = ErrorBody {
        message: Sequence::from_vec(message),
        refusal: number,
        missing: References::new(alloc),
    };
    let body = write_error(alloc, &error)?;
    Ok(Response {
        status,
        body: Sequence::from_vec(body),
    })
}

/// The response to a request that is refused, if there is one.
pub fn write_http_refusal(
    alloc: Global,
    refusal: &HttpRefusal,
) -> Result<Option<Response>, AllocError>
    ensures { IfOk result (IsHttpAnswer refusal.now) }
{
    let Some(status) = http_status(refusal) else {
        return Ok(None);
    };
    let number = refusal.number().unwrap_or(0);
    let response = write_error_with(alloc, status, http_name(refusal), number)?;
    Ok(Some(response))
}

/// The status of the response to a request whose message is refused, also for an identifier or an OVN in its path.
pub fn message_status(refusal: &WireRefusal) -> u16
    ensures { result ≡ spec.message_status refusal.now }
{
    match refusal {
        WireRefusal::Memory => 507,
        _ => 400,
    }
}

/// The name of the refusal.
pub fn message_name(refusal: &WireRefusal) -> &'static str
    ensures { result.now ≡ spec.message_name refusal.now }
{
    match refusal {
        WireRefusal::BadJson => "BadJson",
        WireRefusal::Missing(_) => "Missing",
        WireRefusal::WrongKind(_) => "WrongKind",
        WireRefusal::NotThisProfile(_) => "NotThisProfile",
        WireRefusal::BadTime(_) => "BadTime",
        WireRefusal::TooMany(_) => "TooMany",
        WireRefusal::TooFewVertices => "TooFewVertices",
        WireRefusal::TooManyVertices => "TooManyVertices",
        WireRefusal::OutOfRange(_) => "OutOfRange",
        WireRefusal::LowAboveHigh => "LowAboveHigh",
        WireRefusal::StartAfterEnd => "StartAfterEnd",
        WireRefusal::AltitudeRange => "AltitudeRange",
        WireRefusal::TimeRange => "TimeRange",
        WireRefusal::TooManyVolumes => "TooManyVolumes",
        WireRefusal::TooManyVerticesTogether => "TooManyVerticesTogether",
        WireRefusal::OffNominalNotAllowed => "OffNominalNotAllowed",
        WireRefusal::NoVolume => "NoVolume",
        WireRefusal::PriorityRange => "PriorityRange",
        WireRefusal::BadName => "BadName",
        WireRefusal::BadBase => "BadBase",
        WireRefusal::BadOvn => "BadOvn",
        WireRefusal::Memory => "Memory",
    }
}

/// The response to a request whose message is refused.
pub fn write_message_refusal(alloc: Global, refusal: &WireRefusal) -> Result<Response, AllocError>
    ensures { IfOk result (IsError (spec.message_status refusal.now) (spec.message_name refusal.now) (spec.message_number refusal.now)) }
{
    let number = refusal.number().unwrap_or(0);
    write_error_with(
        alloc,
        message_status(refusal),
        message_name(refusal),
        number,
    )
}

/// The response to a notification of an intent by one who isn't its manager.
pub fn write_not_manager(alloc: Global) -> Result<Response, AllocError>
    ensures { IfOk result (IsError 403 (codes "NotManager") not_manager) }
{
    write_error_with(alloc, 403, "NotManager", NOT_MANAGER)
}

/// The body of the response 507, which is answered when out of memory. Takes no memory.
pub fn memory_body() -> &'static [u8]
    ensures { result.now ≡ codes "{\"message\":\"Memory\",\"refusal\":0}" }
{
    b"{\"message\":\"Memory\",\"refusal\":0}"
}
