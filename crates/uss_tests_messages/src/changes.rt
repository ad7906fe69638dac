//! Answers to changes, and errors, each with what it is read as or how it is refused.

use std::alloc::Global;
use std::str;
use std::test::Fail;
use uss_intent::{Name, References, Sequence};
use uss_wire::{
    ErrorBody, Member, WireRefusal, read_change_answer, read_error, write_change_answer,
    write_error,
};

// A change of uss1's reference, of which uss2 is to be notified.
const CHANGE: &str =
    "{\"operational_intent_reference\":{\"id\":\"00000001-0000-4000-8000-000000000001\",\"manager\":\"uss1\",\"ovn\":\"ovn-0000000000000001\",\"state\":\"Accepted\",\"subscription_id\":\"00000001-0001-4000-8000-000000000001\",\"time_end\":{\"format\":\"RFC3339\",\"value\":\"2023-11-14T23:43:20.000000000Z\"},\"time_start\":{\"format\":\"RFC3339\",\"value\":\"2023-11-14T23:13:20.000000000Z\"},\"uss_availability\":\"Unknown\",\"uss_base_url\":\"http://uss1.test/a/1\",\"version\":1},\"subscribers\":[{\"subscriptions\":[{\"notification_index\":1,\"subscription_id\":\"00000002-0001-4000-8000-000000000001\"}],\"uss_base_url\":\"http://uss2.test\"}]}";

// An error, and how it is refused.
const ERRORS: [(&str, Option<WireRefusal>); 8] = [
    ("{\"message\":\"Absent\",\"refusal\":205}", None),
    (
        "{\"message\":\"MissingKey\",\"refusal\":209}",
        Some(WireRefusal::Missing(Member::MissingOperationalIntents)),
    ),
    (
        "{\"message\":\"MissingKey\",\"refusal\":209,\"missing_operational_intents\":[]}",
        None,
    ),
    (
        "{\"message\":\"MissingKey\",\"refusal\":209,\"missing_operational_intents\":[{}]}",
        Some(WireRefusal::Missing(Member::Id)),
    ),
    (
        "{\"message\":\"Absent\",\"refusal\":205,\"missing_operational_intents\":1}",
        None,
    ),
    (
        "{\"refusal\":205}",
        Some(WireRefusal::Missing(Member::Message)),
    ),
    (
        "{\"message\":\"Absent\",\"refusal\":65536}",
        Some(WireRefusal::WrongKind(Member::Refusal)),
    ),
    (
        "{\"message\":1,\"refusal\":1.5}",
        Some(WireRefusal::WrongKind(Member::Message)),
    ),
];

fn refusal<T: Drop>(answer: Result<T, WireRefusal>) -> Option<WireRefusal> {
    match answer {
        Ok(_) => None,
        Err(refusal) => Some(refusal),
    }
}

#[test]
fn reads_answers(rt: HostRuntime) -> Result<(), Fail> {
    let alloc = rt.alloc();
    let Ok(own) = Name::of(alloc, b"uss1") else {
        panic!(rt; "uss1 is a name");
    };
    let Ok(other) = Name::of(alloc, b"uss2") else {
        panic!(rt; "uss2 is a name");
    };
    for (text, answer) in ERRORS {
        assert!(rt; refusal(read_error(alloc, text.as_bytes(), &own)) == answer);
    }
    let Ok((reference, owed)) = read_change_answer(alloc, CHANGE.as_bytes(), &own) else {
        panic!(rt; "the answer isn't read");
    };
    assert!(rt; reference.ovn.is_some());
    assert!(rt; owed.len() == 1);
    let bytes = write_change_answer(alloc, &reference, &owed)?;
    assert!(rt; bytes.as_slice() == CHANGE.as_bytes());
    let Ok((shown, _)) = read_change_answer(alloc, CHANGE.as_bytes(), &other) else {
        panic!(rt; "the answer isn't read");
    };
    assert!(rt; shown.ovn.is_none());
    Ok(())
}

// The number of an error, and the error as it is written.
const WRITTEN: [(u16, &str); 2] = [
    (205, "{\"message\":\"Absent\",\"refusal\":205}"),
    (
        209,
        "{\"message\":\"MissingKey\",\"missing_operational_intents\":[],\"refusal\":209}",
    ),
];

// The bytes of an error that lacks no reference.
fn written(alloc: Global, message: Sequence<u8>, refusal: u16) -> Option<Vec<u8>> {
    let error = ErrorBody {
        message,
        refusal,
        missing: References::new(alloc),
    };
    match str::from_utf8(error.message.as_slice()) {
        Ok(_) => write_error(alloc, &error).ok(),
        Err(_) => None,
    }
}

#[test]
fn writes_the_errors_that_it_reads(rt: HostRuntime) -> Result<(), Fail> {
    let alloc = rt.alloc();
    let Ok(own) = Name::of(alloc, b"uss1") else {
        panic!(rt; "uss1 is a name");
    };
    for (refusal, text) in WRITTEN {
        let Ok(error) = read_error(alloc, text.as_bytes(), &own) else {
            panic!(rt; "the error isn't read");
        };
        let Some(bytes) = written(alloc, error.message, refusal) else {
            panic!(rt; "the error isn't written");
        };
        assert!(rt; bytes.as_slice() == text.as_bytes());
    }
    Ok(())
}
