//! Outcomes with known texts.

use crate::fixtures::{name, ovn};
use std::alloc::{AllocError, Global};
use std::test::Fail;
use uss_event::{Answer, AskField, AskRefusal, Conform, FlightIds, Tags, Verdict};
use uss_intent::{State, flight_id};
use uss_outcome::Outcome;

// A refusal, and how it is printed.
const REFUSALS: [(AskRefusal, &str); 12] = [
    (AskRefusal::BadPlan(121), "refused 301 121"),
    (
        AskRefusal::WrongTransition(State::Activated, State::Accepted),
        "refused 302 Activated Accepted",
    ),
    (
        AskRefusal::WrongTransition(State::Nonconforming, State::Contingent),
        "refused 302 Nonconforming Contingent",
    ),
    (AskRefusal::TooFar(-1), "refused 303 -1"),
    (AskRefusal::Past, "refused 304"),
    (AskRefusal::Busy(7), "refused 305 7"),
    (AskRefusal::OldNumber(8), "refused 306 8"),
    (AskRefusal::NoSuchFlight, "refused 308"),
    (AskRefusal::Closed, "refused 309"),
    (AskRefusal::BookFull(1, 2), "refused 310 1 2"),
    (AskRefusal::NotAsked(9), "refused 312 9"),
    (AskRefusal::OldPosition(3), "refused 313 3"),
];

// A part of a request, and how the refusal of a repeat that differs in it is printed.
const PARTS: [(AskField, &str); 5] = [
    (AskField::Kind, "refused 307 Kind"),
    (AskField::To, "refused 307 To"),
    (AskField::Priority, "refused 307 Priority"),
    (AskField::Rounds, "refused 307 Rounds"),
    (AskField::Proposals, "refused 307 Proposals"),
];

// A verdict on a flight, and how the answer is printed.
const CONFLICTS: [(Verdict, &str); 3] = [
    (
        Verdict::Clear,
        "conflict 00000003-0000-4000-8000-000000000004 uss2 Clear",
    ),
    (
        Verdict::EqualForbidden,
        "conflict 00000003-0000-4000-8000-000000000004 uss2 EqualForbidden",
    ),
    (
        Verdict::HigherStands,
        "conflict 00000003-0000-4000-8000-000000000004 uss2 HigherStands",
    ),
];

// What the conformance monitor finds, and how the answer is printed.
const FINDINGS: [(Conform, &str); 3] = [
    (Conform::Conforming, "steady Conforming"),
    (Conform::Nonconforming, "steady Nonconforming"),
    (Conform::Contingent, "steady Contingent"),
];

fn shows(alloc: Global, outcome: &Outcome, text: &str) -> Result<bool, AllocError> {
    let shown = format!(in alloc; "{outcome}")?;
    Ok(shown.as_str() == text)
}

fn shows_refusal(alloc: Global, refusal: AskRefusal, text: &str) -> Result<bool, AllocError> {
    shows(alloc, &Outcome::Refused(refusal), text)
}

fn shows_answer(alloc: Global, answer: Answer, text: &str) -> Result<bool, AllocError> {
    shows(alloc, &Outcome::Answer(answer), text)
}

fn planned(alloc: Global) -> Result<Answer, Fail> {
    Ok(Answer::Planned {
        flight: flight_id(1, 5),
        tag: 2,
        alternative: 3,
        ovn: ovn(alloc)?,
        version: 4,
    })
}

fn changed(alloc: Global) -> Result<Answer, Fail> {
    Ok(Answer::Changed {
        flight: flight_id(1, 5),
        tag: 6,
        alternative: 7,
        ovn: ovn(alloc)?,
        version: 8,
    })
}

fn conflict(alloc: Global, rule: Verdict) -> Result<Answer, Fail> {
    Ok(Answer::Conflict {
        flight: flight_id(3, 4),
        manager: name(alloc, "uss2")?,
        rule,
    })
}

fn stale(alloc: Global) -> Result<Answer, Fail> {
    let mut missing = FlightIds::new(alloc);
    missing.push(flight_id(2, 1))?;
    missing.push(flight_id(3, 1))?;
    Ok(Answer::Stale { missing })
}

fn peer_refused(alloc: Global) -> Result<Answer, Fail> {
    Ok(Answer::PeerRefused {
        peer: name(alloc, "uss2")?,
        status: 404,
    })
}

fn dss_fault(alloc: Global) -> Result<Outcome, Fail> {
    let mut tags = Tags::new(alloc);
    tags.push(5)?;
    tags.push(4)?;
    Ok(Outcome::DssFault { count: 3, tags })
}

fn peer_fault(alloc: Global) -> Result<Outcome, Fail> {
    Ok(Outcome::PeerFault {
        peer: name(alloc, "uss2")?,
        count: 7,
    })
}

#[test]
fn prints_refusals(rt: HostRuntime) -> Result<(), Fail> {
    let alloc = rt.alloc();
    for (refusal, text) in REFUSALS {
        assert!(rt; shows_refusal(alloc, refusal, text)?);
    }
    for (part, text) in PARTS {
        assert!(rt; shows_refusal(alloc, AskRefusal::DifferentRepeat(part), text)?);
    }
    Ok(())
}

#[test]
fn prints_answers(rt: HostRuntime) -> Result<(), Fail> {
    let alloc = rt.alloc();
    assert!(rt;
        shows_answer(
            alloc,
            planned(alloc)?,
            "planned tag 2 alternative 3 ovn ovn-0000000000000001 version 4"
        )?
    );
    assert!(rt;
        shows_answer(
            alloc,
            changed(alloc)?,
            "changed tag 6 alternative 7 ovn ovn-0000000000000001 version 8"
        )?
    );
    for (rule, text) in CONFLICTS {
        assert!(rt; shows_answer(alloc, conflict(alloc, rule)?, text)?);
    }
    assert!(rt;
        shows_answer(
            alloc,
            stale(alloc)?,
            "stale 2 00000002-0000-4000-8000-000000000001 00000003-0000-4000-8000-000000000001"
        )?
    );
    assert!(rt; shows_answer(alloc, peer_refused(alloc)?, "peer-refused uss2 404")?);
    Ok(())
}

#[test]
fn prints_answers_without_names(rt: HostRuntime) -> Result<(), Fail> {
    let alloc = rt.alloc();
    let flight = flight_id(1, 1);
    assert!(rt; shows_answer(alloc, Answer::Ended { flight }, "ended")?);
    assert!(rt; shows_answer(alloc, Answer::Cancelled, "cancelled")?);
    for (verdict, text) in FINDINGS {
        assert!(rt; shows_answer(alloc, Answer::Steady { verdict }, text)?);
    }
    assert!(rt; shows_answer(alloc, Answer::Crowded { count: 65 }, "crowded 65")?);
    assert!(rt; shows_answer(alloc, Answer::DssRefused { number: 209 }, "dss-refused 209")?);
    assert!(rt; shows_answer(alloc, Answer::Unsettled { tag: 0 }, "unsettled 0")?);
    Ok(())
}

#[test]
fn prints_faults(rt: HostRuntime) -> Result<(), Fail> {
    let alloc = rt.alloc();
    assert!(rt; shows(alloc, &dss_fault(alloc)?, "dss-fault 3 tags 2 5 4")?);
    assert!(rt; shows(alloc, &peer_fault(alloc)?, "peer-fault uss2 7")?);
    assert!(rt; shows(alloc, &Outcome::JournalFault, "journal-fault")?);
    assert!(rt; shows(alloc, &Outcome::Memory, "")?);
    Ok(())
}
