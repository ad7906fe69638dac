//! Refusals as responses.

use crate::fixtures::{own, reference};
use std::alloc::Global;
use std::test::Fail;
use uss_http::HttpRefusal;
use uss_intent::{DssRefusal, References, Sequence};
use uss_rest::{
    memory_body, read_refusal, version_of, write_http_refusal, write_message_refusal,
    write_not_manager, write_refusal,
};
use uss_wire_base::{Member, WireRefusal};

/// Whether the refusal goes out with this status and body, written by hand, comes back as this one, and is none with another status.
fn comes_back(
    alloc: Global,
    refusal: DssRefusal,
    again: DssRefusal,
    status: u16,
    body: &str,
) -> Result<bool, Fail> {
    let client = own(alloc)?;
    let response = write_refusal(alloc, refusal)?;
    let read = read_refusal(alloc, status, body.as_bytes(), &client)?;
    let other = read_refusal(alloc, 418, body.as_bytes(), &client)?;
    Ok(
        response.status == status
            && response.body.as_slice() == body.as_bytes()
            && read == Some(again)
            && other.is_none(),
    )
}

#[test]
fn refusals_come_back(rt: HostRuntime) -> Result<(), Fail> {
    let body = "{\"message\":\"BadCall\",\"refusal\":201}";
    assert!(rt;
        comes_back(
            rt.alloc(),
            DssRefusal::BadCall,
            DssRefusal::BadCall,
            400,
            body
        )?
    );
    let body = "{\"message\":\"NotYours\",\"refusal\":202}";
    assert!(rt;
        comes_back(
            rt.alloc(),
            DssRefusal::NotYours,
            DssRefusal::NotYours,
            403,
            body
        )?
    );
    let body = "{\"message\":\"Exists\",\"refusal\":203}";
    assert!(rt;
        comes_back(
            rt.alloc(),
            DssRefusal::Exists,
            DssRefusal::Exists,
            409,
            body
        )?
    );
    let body = "{\"message\":\"Retired\",\"refusal\":204}";
    assert!(rt;
        comes_back(
            rt.alloc(),
            DssRefusal::Retired,
            DssRefusal::Retired,
            404,
            body
        )?
    );
    let body = "{\"message\":\"Absent\",\"refusal\":205}";
    assert!(rt;
        comes_back(
            rt.alloc(),
            DssRefusal::Absent,
            DssRefusal::Absent,
            404,
            body
        )?
    );
    Ok(())
}

#[test]
fn further_refusals_come_back(rt: HostRuntime) -> Result<(), Fail> {
    let body = "{\"message\":\"StaleOvn\",\"refusal\":206}";
    assert!(rt;
        comes_back(
            rt.alloc(),
            DssRefusal::StaleOvn,
            DssRefusal::StaleOvn,
            409,
            body
        )?
    );
    let body = "{\"message\":\"NoTicket\",\"refusal\":207}";
    assert!(rt;
        comes_back(
            rt.alloc(),
            DssRefusal::NoTicket,
            DssRefusal::NoTicket,
            400,
            body
        )?
    );
    let body = "{\"message\":\"NotCovered\",\"refusal\":208}";
    assert!(rt;
        comes_back(
            rt.alloc(),
            DssRefusal::NotCovered,
            DssRefusal::NotCovered,
            400,
            body
        )?
    );
    let body = "{\"message\":\"TicketInUse\",\"refusal\":210}";
    assert!(rt;
        comes_back(
            rt.alloc(),
            DssRefusal::TicketInUse,
            DssRefusal::TicketInUse,
            400,
            body
        )?
    );
    let body = "{\"message\":\"Full\",\"refusal\":211}";
    assert!(rt;
        comes_back(
            rt.alloc(),
            DssRefusal::Full(0),
            DssRefusal::Full(0),
            503,
            body
        )?
    );
    Ok(())
}

/// The refusal of a key that lacks the OVN of one flight.
fn missing(alloc: Global) -> Result<DssRefusal, Fail> {
    let mut references = References::new(alloc);
    references.push(reference(alloc, 1)?)?;
    Ok(DssRefusal::MissingKey(references))
}

#[test]
fn a_missing_key_is_written_and_read(rt: HostRuntime) -> Result<(), Fail> {
    let client = own(rt.alloc())?;
    let response = write_refusal(rt.alloc(), missing(rt.alloc())?)?;
    assert!(rt; response.status == 409);
    let read = read_refusal(rt.alloc(), 409, response.body.as_slice(), &client)?;
    assert!(rt; read == Some(missing(rt.alloc())?));
    Ok(())
}

#[test]
fn the_limit_of_a_full_service_is_not_sent(rt: HostRuntime) -> Result<(), Fail> {
    let client = own(rt.alloc())?;
    let response = write_refusal(rt.alloc(), DssRefusal::Full(4096))?;
    let read = read_refusal(
        rt.alloc(),
        response.status,
        response.body.as_slice(),
        &client,
    )?;
    assert!(rt; read == Some(DssRefusal::Full(0)));
    Ok(())
}

#[test]
fn other_bodies_are_no_refusal(rt: HostRuntime) -> Result<(), Fail> {
    let client = own(rt.alloc())?;
    let table = [
        (400, ""),
        (400, "{}"),
        (400, "{\"message\":\"BadCall\"}"),
        (400, "{\"message\":\"BadCall\",\"refusal\":200}"),
        (400, "{\"message\":\"BadCall\",\"refusal\":212}"),
        (400, "{\"message\":\"Absent\",\"refusal\":205}"),
        (404, "{\"message\":7,\"refusal\":205}"),
        (409, "{\"message\":\"MissingKey\",\"refusal\":209}"),
    ];
    for (status, body) in table {
        let read = read_refusal(rt.alloc(), status, body.as_bytes(), &client)?;
        assert!(rt; read.is_none());
    }
    Ok(())
}

#[test]
fn refusals_of_http_have_their_statuses(rt: HostRuntime) -> Result<(), Fail> {
    let allowed = Sequence::new(rt.alloc());
    let table = [
        (
            HttpRefusal::HeadTooLarge,
            Some((431, "{\"message\":\"HeadTooLarge\",\"refusal\":431}")),
        ),
        (
            HttpRefusal::BadHead,
            Some((400, "{\"message\":\"BadHead\",\"refusal\":432}")),
        ),
        (
            HttpRefusal::BodyTooLarge,
            Some((413, "{\"message\":\"BodyTooLarge\",\"refusal\":433}")),
        ),
        (
            HttpRefusal::BadChunk,
            Some((400, "{\"message\":\"BadChunk\",\"refusal\":434}")),
        ),
        (HttpRefusal::Truncated, None),
        (
            HttpRefusal::NoRoute,
            Some((404, "{\"message\":\"NoRoute\",\"refusal\":436}")),
        ),
        (
            HttpRefusal::WrongMethod { allowed },
            Some((405, "{\"message\":\"WrongMethod\",\"refusal\":437}")),
        ),
        (
            HttpRefusal::NoClient,
            Some((400, "{\"message\":\"NoClient\",\"refusal\":438}")),
        ),
        (HttpRefusal::ReadFault, None),
        (HttpRefusal::DialFault, None),
        (
            HttpRefusal::Memory,
            Some((507, "{\"message\":\"Memory\",\"refusal\":0}")),
        ),
    ];
    for (refusal, wanted) in &table {
        let answer = write_http_refusal(rt.alloc(), refusal)?;
        match (&answer, wanted) {
            (None, None) => {}
            (Some(response), Some((status, body))) => {
                assert!(rt; response.status == *status);
                assert!(rt; response.body.as_slice() == body.as_bytes());
            }
            _ => assert!(rt; false),
        }
    }
    assert!(rt; memory_body() == b"{\"message\":\"Memory\",\"refusal\":0}".as_slice());
    Ok(())
}

#[test]
fn refusals_of_messages_have_their_statuses(rt: HostRuntime) -> Result<(), Fail> {
    let table = [
        (
            WireRefusal::BadJson,
            400,
            "{\"message\":\"BadJson\",\"refusal\":401}",
        ),
        (
            WireRefusal::WrongKind(Member::Id),
            400,
            "{\"message\":\"WrongKind\",\"refusal\":403}",
        ),
        (
            WireRefusal::TooManyVertices,
            400,
            "{\"message\":\"TooManyVertices\",\"refusal\":102}",
        ),
        (
            WireRefusal::TooManyVerticesTogether,
            400,
            "{\"message\":\"TooManyVerticesTogether\",\"refusal\":122}",
        ),
        (
            WireRefusal::BadOvn,
            400,
            "{\"message\":\"BadOvn\",\"refusal\":130}",
        ),
        (
            WireRefusal::Memory,
            507,
            "{\"message\":\"Memory\",\"refusal\":0}",
        ),
    ];
    for (refusal, status, body) in table {
        let response = write_message_refusal(rt.alloc(), &refusal)?;
        assert!(rt; response.status == status);
        assert!(rt; response.body.as_slice() == body.as_bytes());
    }
    let response = write_not_manager(rt.alloc())?;
    assert!(rt; response.status == 403);
    assert!(rt;
        response.body.as_slice() == b"{\"message\":\"NotManager\",\"refusal\":439}".as_slice()
    );
    Ok(())
}

#[test]
fn other_versions_are_none(rt: HostRuntime) -> Result<(), Fail> {
    assert!(rt; version_of(b"1") == 1);
    for text in ["", "0", "2", "01", "1 ", "x"] {
        assert!(rt; version_of(text.as_bytes()) == 0);
    }
    Ok(())
}
