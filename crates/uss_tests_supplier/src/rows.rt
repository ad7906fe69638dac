//! The table of a job, row by row.

use std::alloc::Global;
use std::process::Abort;
use std::test::Fail;
use uss_job::{on_reply, resume};
use uss_law_supplier::{Awaited, Heard, JobView};

/// A job into Accepted or Activated that made one of its four attempts and waits for nothing.
const TRIED: JobView = JobView {
    end: false,
    keyed: true,
    ticket_open: true,
    deciding: false,
    attempts: 1,
    rounds: 4,
    awaited: None,
};

/// The same of a job into Nonconforming or Contingent.
const UNKEYED: JobView = JobView {
    end: false,
    keyed: false,
    ticket_open: true,
    deciding: false,
    attempts: 1,
    rounds: 4,
    awaited: None,
};

/// What is heard where this call is waited for, and what the job does then.
type Row = (Awaited, Heard, &'static str);

/// Gives the job each reply, where it waits for the call.
fn follow(rt: &impl Abort, alloc: Global, job: JobView, rows: &[Row]) -> Result<(), Fail> {
    for (kind, heard, wanted) in rows {
        let view = waiting(job, *kind);
        let duty = on_reply(&view, *heard);
        assert!(rt; format!(in alloc; "{duty:?}")?.as_str() == *wanted);
    }
    Ok(())
}

fn waiting(job: JobView, kind: Awaited) -> JobView {
    JobView {
        end: job.end,
        keyed: job.keyed,
        ticket_open: job.ticket_open,
        deciding: job.deciding,
        attempts: job.attempts,
        rounds: job.rounds,
        awaited: Some(kind),
    }
}

fn after(attempts: usize) -> JobView {
    JobView {
        end: false,
        keyed: true,
        ticket_open: true,
        deciding: false,
        attempts,
        rounds: 4,
        awaited: None,
    }
}

fn found(others: usize, unheard: bool) -> Heard {
    Heard::Found { others, unheard }
}

#[test]
fn tickets_open_and_close(rt: HostRuntime) -> Result<(), Fail> {
    follow(
        &rt,
        rt.alloc(),
        TRIED,
        &[
            (Awaited::TicketPut, Heard::Made, "OpenTicket"),
            (Awaited::TicketPut, Heard::Refused(203), "OpenTicket"),
            (Awaited::TicketPut, Heard::Refused(211), "DssRefused(211)"),
            (Awaited::TicketPut, Heard::Landed, "Call(TicketPut)"),
            (Awaited::TicketRemove, Heard::Removed, "Close"),
            (Awaited::TicketRemove, Heard::Refused(204), "Close"),
            (Awaited::TicketRemove, Heard::Refused(210), "Call(Get)"),
            (
                Awaited::TicketRemove,
                Heard::Refused(205),
                "DssRefused(205)",
            ),
            (Awaited::TicketRemove, Heard::Made, "Call(TicketRemove)"),
            (Awaited::Remove, Heard::Removed, "Close"),
            (Awaited::Remove, Heard::Refused(204), "Close"),
            (Awaited::Remove, Heard::Refused(206), "DssRefused(206)"),
            (Awaited::Remove, Heard::Refused(210), "DssRefused(210)"),
        ],
    )
}

#[test]
fn a_job_looks_round_and_chooses(rt: HostRuntime) -> Result<(), Fail> {
    follow(
        &rt,
        rt.alloc(),
        TRIED,
        &[
            (Awaited::Query, found(0, false), "Choose"),
            (Awaited::Query, found(1024, false), "Choose"),
            (Awaited::Query, found(1024, true), "Call(Details)"),
            (Awaited::Query, found(1025, true), "Crowded"),
            (Awaited::Query, found(1025, false), "Crowded"),
            (Awaited::Query, Heard::Refused(201), "DssRefused(201)"),
            (
                Awaited::Details,
                Heard::Answered { unheard: true },
                "Call(Details)",
            ),
            (
                Awaited::Details,
                Heard::Answered { unheard: false },
                "Choose",
            ),
            (Awaited::Details, Heard::Status(404), "PeerRefused"),
            (Awaited::Details, found(0, false), "Call(Details)"),
        ],
    )?;
    follow(
        &rt,
        rt.alloc(),
        UNKEYED,
        &[
            (Awaited::Query, found(1025, true), "Attempt"),
            (Awaited::Query, found(0, false), "Attempt"),
        ],
    )
}

#[test]
fn attempts_are_held_or_made_again(rt: HostRuntime) -> Result<(), Fail> {
    let alloc = rt.alloc();
    let lacking = (Awaited::Put, Heard::Refused(209), "Call(Query)");
    let stale = (Awaited::Put, Heard::Refused(209), "DecideStale");
    follow(&rt, alloc, after(1), &[lacking])?;
    follow(&rt, alloc, after(3), &[lacking])?;
    follow(&rt, alloc, after(4), &[stale])?;
    let unkeyed = (Awaited::Put, Heard::Refused(209), "DssRefused(209)");
    follow(&rt, alloc, UNKEYED, &[unkeyed])?;
    follow(
        &rt,
        alloc,
        TRIED,
        &[
            (Awaited::Put, Heard::Landed, "Hold"),
            (Awaited::Put, Heard::Refused(203), "Call(Get)"),
            (Awaited::Put, Heard::Refused(206), "Call(Get)"),
            (Awaited::Put, Heard::Refused(208), "DssRefused(208)"),
            (Awaited::Get, Heard::Got { own: true }, "Hold"),
            (Awaited::Get, Heard::Got { own: false }, "Unsettled"),
            (Awaited::Get, Heard::Refused(205), "DssRefused(205)"),
        ],
    )
}

/// Whether the job does this when it is resumed, and when any reply comes though it waits for none.
fn goes_on(alloc: Global, view: JobView, wanted: &str) -> Result<bool, Fail> {
    let duty = resume(&view);
    let answered = on_reply(&view, Heard::Removed);
    Ok(
        format!(in alloc; "{duty:?}")?.as_str() == wanted
            && format!(in alloc; "{answered:?}")?.as_str() == wanted,
    )
}

fn by_book(end: bool, keyed: bool, ticket_open: bool, deciding: bool, attempts: usize) -> JobView {
    JobView {
        end,
        keyed,
        ticket_open,
        deciding,
        attempts,
        rounds: 4,
        awaited: None,
    }
}

#[test]
fn a_job_goes_on_by_its_book(rt: HostRuntime) -> Result<(), Fail> {
    let alloc = rt.alloc();
    let end = by_book(true, false, false, false, 0);
    assert!(rt; goes_on(alloc, end, "Call(Remove)")?);
    let deciding = by_book(false, true, true, true, 2);
    assert!(rt; goes_on(alloc, deciding, "Call(TicketRemove)")?);
    let tried = by_book(false, true, true, false, 2);
    assert!(rt; goes_on(alloc, tried, "Call(Put)")?);
    let keyed = by_book(false, true, true, false, 0);
    assert!(rt; goes_on(alloc, keyed, "Call(Query)")?);
    let unkeyed = by_book(false, false, true, false, 0);
    assert!(rt; goes_on(alloc, unkeyed, "Attempt")?);
    let opened = by_book(false, true, false, false, 0);
    assert!(rt; goes_on(alloc, opened, "Call(TicketPut)")?);
    // the call that is waited for goes out again, whatever the book would bring
    let waits = waiting(tried, Awaited::Get);
    assert!(rt; goes_on(alloc, waits, "Call(Get)")?);
    Ok(())
}
