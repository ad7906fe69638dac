//! Messages as they are to be written, by hand: each is read, and written again as it was.

use crate::kinds::{area, own};
use crate::messages::message_of;
use std::alloc::{AllocError, Global};
use std::str;
use std::test::Fail;
use uss_event::Answer;
use uss_intent::{DssAsk, FlightId, Ovn, TicketId};
use uss_outcome::Outcome;
use uss_wire::{
    ErrorBody, read_asks, read_cancels, read_change_answer, read_details_answer, read_error,
    read_get_answer, read_notification, read_positions, read_put_reference, read_put_subscription,
    read_query, read_query_answer, read_subscription_answer, read_sweeps, write_asks,
    write_cancels, write_change_answer, write_details_answer, write_error, write_get_answer,
    write_notification, write_outcome, write_positions, write_put_reference,
    write_put_subscription, write_query, write_query_answer, write_subscription_answer,
    write_sweeps, write_swept,
};

/// Whether the bytes were written, and are the text.
fn is_text(bytes: Option<Vec<u8>>, text: &str) -> bool {
    match bytes {
        Some(bytes) => bytes.as_slice() == text.as_bytes(),
        None => false,
    }
}

/// The bytes of a call that has a message.
fn call_bytes(alloc: Global, ask: &DssAsk) -> Option<Vec<u8>> {
    match ask {
        DssAsk::Query { .. } => write_query(alloc, ask).ok(),
        DssAsk::Put { .. } => write_put_reference(alloc, ask).ok(),
        DssAsk::TicketPut { .. } => write_put_subscription(alloc, ask).ok(),
        _ => None,
    }
}

fn query_again(alloc: Global, text: &str) -> bool {
    match read_query(alloc, text.as_bytes()) {
        Ok(ask) => is_text(call_bytes(alloc, &ask), text),
        Err(_) => false,
    }
}

fn put_again(alloc: Global, text: &str) -> bool {
    let flight = FlightId::from_number(1);
    match read_put_reference(alloc, text.as_bytes(), flight, None) {
        Ok(ask) => is_text(call_bytes(alloc, &ask), text),
        Err(_) => false,
    }
}

/// Whether the call is a change of flight 1.
fn is_change(ask: &DssAsk) -> bool {
    match ask {
        DssAsk::Put { flight, ovn, .. } => flight.number() == 1 && ovn.is_some(),
        _ => false,
    }
}

fn change_of(alloc: Global, text: &str) -> Result<bool, AllocError> {
    let ovn = Ovn::of(alloc, b"ovn-0000000000000002").map_err(|_| AllocError)?;
    let flight = FlightId::from_number(1);
    match read_put_reference(alloc, text.as_bytes(), flight, Some(ovn)) {
        Ok(ask) => Ok(is_change(&ask)),
        Err(_) => Ok(false),
    }
}

fn ticket_put_again(alloc: Global, text: &str) -> bool {
    let ticket = TicketId::from_number(2);
    match read_put_subscription(alloc, text.as_bytes(), ticket) {
        Ok(ask) => is_text(call_bytes(alloc, &ask), text),
        Err(_) => false,
    }
}

fn found_again(alloc: Global, text: &str) -> Result<bool, AllocError> {
    match read_query_answer(alloc, text.as_bytes(), &own(alloc)?) {
        Ok(references) => Ok(is_text(write_query_answer(alloc, &references).ok(), text)),
        Err(_) => Ok(false),
    }
}

fn got_again(alloc: Global, text: &str) -> Result<bool, AllocError> {
    match read_get_answer(alloc, text.as_bytes(), &own(alloc)?) {
        Ok(reference) => Ok(is_text(write_get_answer(alloc, &reference).ok(), text)),
        Err(_) => Ok(false),
    }
}

fn change_again(alloc: Global, text: &str) -> Result<bool, AllocError> {
    match read_change_answer(alloc, text.as_bytes(), &own(alloc)?) {
        Ok((reference, owed)) => {
            let bytes = write_change_answer(alloc, &reference, &owed);
            Ok(is_text(bytes.ok(), text))
        }
        Err(_) => Ok(false),
    }
}

fn ticket_again(alloc: Global, text: &str) -> Result<bool, AllocError> {
    let client = own(alloc)?;
    let area = area(alloc)?;
    match read_subscription_answer(alloc, text.as_bytes(), &client, &area) {
        Ok(ticket) => Ok(is_text(write_subscription_answer(alloc, &ticket).ok(), text)),
        Err(_) => Ok(false),
    }
}

/// The bytes of an error 209.
fn error_bytes(alloc: Global, error: &ErrorBody) -> Option<Vec<u8>> {
    if error.refusal != 209 {
        return None;
    }
    match str::from_utf8(error.message.as_slice()) {
        Ok(_) => write_error(alloc, error).ok(),
        Err(_) => None,
    }
}

fn error_again(alloc: Global, text: &str) -> Result<bool, AllocError> {
    match read_error(alloc, text.as_bytes(), &own(alloc)?) {
        Ok(error) => Ok(is_text(error_bytes(alloc, &error), text)),
        Err(_) => Ok(false),
    }
}

fn intent_again(alloc: Global, text: &str) -> bool {
    match read_details_answer(alloc, text.as_bytes()) {
        Ok(pair) => is_text(write_details_answer(alloc, &pair).ok(), text),
        Err(_) => false,
    }
}

fn note_again(alloc: Global, text: &str) -> bool {
    match read_notification(alloc, text.as_bytes()) {
        Ok(note) => is_text(write_notification(alloc, &note).ok(), text),
        Err(_) => false,
    }
}

fn ask_again(alloc: Global, text: &str) -> bool {
    match read_asks(alloc, text.as_bytes()) {
        Ok(ask) => is_text(write_asks(alloc, &ask).ok(), text),
        Err(_) => false,
    }
}

fn position_again(alloc: Global, text: &str) -> bool {
    match read_positions(alloc, text.as_bytes()) {
        Ok(position) => is_text(write_positions(alloc, &position).ok(), text),
        Err(_) => false,
    }
}

fn cancel_again(alloc: Global, text: &str) -> bool {
    match read_cancels(alloc, text.as_bytes()) {
        Ok((flight, number)) => is_text(write_cancels(alloc, flight, number).ok(), text),
        Err(_) => false,
    }
}

fn sweep_again(alloc: Global, text: &str) -> bool {
    match read_sweeps(alloc, text.as_bytes()) {
        Ok(skip) => is_text(write_sweeps(alloc, skip).ok(), text),
        Err(_) => false,
    }
}

#[test]
fn calls_are_written_as_they_were_read(rt: HostRuntime) -> Result<(), Fail> {
    let alloc = rt.alloc();
    let query = message_of(alloc, "{'area_of_interest':@V}")?;
    assert!(rt; query_again(alloc, query.as_str()));
    let put = message_of(
        alloc,
        "{'extents':[@V,@V],'key':['@O','ovn%2F00000000000000'],'state':'Nonconforming','subscription_id':'@T','uss_base_url':'http://uss1.test/a/1'}",
    )?;
    assert!(rt; put_again(alloc, put.as_str()));
    assert!(rt; change_of(alloc, put.as_str())?);
    let ticket = message_of(
        alloc,
        "{'extents':@V,'notify_for_constraints':false,'notify_for_operational_intents':true,'uss_base_url':'http://uss1.test'}",
    )?;
    assert!(rt; ticket_put_again(alloc, ticket.as_str()));
    Ok(())
}

#[test]
fn answers_are_written_as_they_were_read(rt: HostRuntime) -> Result<(), Fail> {
    let alloc = rt.alloc();
    let found = message_of(alloc, "{'operational_intent_references':[{@R},{@N}]}")?;
    assert!(rt; found_again(alloc, found.as_str())?);
    let got = message_of(alloc, "{'operational_intent_reference':{@R}}")?;
    assert!(rt; got_again(alloc, got.as_str())?);
    let change = message_of(
        alloc,
        "{'operational_intent_reference':{@R},'subscribers':[{'subscriptions':[@W],'uss_base_url':'http://uss2.test'},{'subscriptions':[@W],'uss_base_url':'http://uss3.test'}]}",
    )?;
    assert!(rt; change_again(alloc, change.as_str())?);
    let ticket = message_of(alloc, "{'subscription':@K}")?;
    assert!(rt; ticket_again(alloc, ticket.as_str())?);
    let error = message_of(
        alloc,
        "{'message':'MissingKey','missing_operational_intents':[{@R},{@N}],'refusal':209}",
    )?;
    assert!(rt; error_again(alloc, error.as_str())?);
    Ok(())
}

#[test]
fn what_suppliers_tell_is_written_as_it_was_read(rt: HostRuntime) -> Result<(), Fail> {
    let alloc = rt.alloc();
    let intent = message_of(alloc, "{'operational_intent':@I}")?;
    assert!(rt; intent_again(alloc, intent.as_str()));
    let changed = message_of(
        alloc,
        "{'operational_intent':@I,'operational_intent_id':'@F','subscriptions':[@W]}",
    )?;
    assert!(rt; note_again(alloc, changed.as_str()));
    let ended = message_of(alloc, "{'operational_intent_id':'@F','subscriptions':[@W]}")?;
    assert!(rt; note_again(alloc, ended.as_str()));
    Ok(())
}

#[test]
fn what_operators_ask_is_written_as_it_was_read(rt: HostRuntime) -> Result<(), Fail> {
    let alloc = rt.alloc();
    let put = message_of(
        alloc,
        "{'alternatives':[{'off_nominal_volumes':[@V],'volumes':[@V]}],'flight':1,'number':2,'priority':65535,'rounds':255,'to':'Contingent','wish':'put'}",
    )?;
    assert!(rt; ask_again(alloc, put.as_str()));
    assert!(rt; ask_again(alloc, "{\"flight\":1,\"number\":2,\"wish\":\"end\"}"));
    let position = message_of(
        alloc,
        "{'altitude_mm':-5,'flight':1,'lat_e7':9223372036854775807,'lng_e7':-9223372036854775808,'number':2,'off_nominal_volumes':[@V]}",
    )?;
    assert!(rt; position_again(alloc, position.as_str()));
    assert!(rt; cancel_again(alloc, "{\"flight\":18446744073709551615,\"number\":0}"));
    assert!(rt; sweep_again(alloc, "{\"skip\":64}"));
    Ok(())
}

fn cancelled(alloc: Global) -> Option<Vec<u8>> {
    write_outcome(alloc, &Outcome::Answer(Answer::Cancelled)).ok()
}

fn failed(alloc: Global) -> Option<Vec<u8>> {
    write_outcome(alloc, &Outcome::JournalFault).ok()
}

#[test]
fn outcomes_are_written(rt: HostRuntime) -> Result<(), Fail> {
    let alloc = rt.alloc();
    assert!(rt; is_text(cancelled(alloc), "{\"outcome\":\"cancelled\"}"));
    assert!(rt; is_text(failed(alloc), "{\"outcome\":\"journal-fault\"}"));
    assert!(rt; is_text(write_swept(alloc, 2, 1).ok(), "{\"failed\":1,\"tried\":2}"));
    Ok(())
}
