//! The fields of values that were read, each another number or text: no member of a message stands for another.

use crate::kinds::{area, own};
use crate::messages::message_of;
use std::alloc::{AllocError, Global};
use std::test::Fail;
use uss_event::{Details, FlightAsk, Note, Pair, PositionAsk, Proposals, Wish};
use uss_intent::{
    DssAsk, Ovn, Ovns, Reference, State, Subscriber, Ticket, Volumes, flight_id, ticket_id,
};
use uss_shape::Place;
use uss_vol4::Volume4;
use uss_wire::{
    ErrorBody, read_asks, read_cancels, read_change_answer, read_details_answer, read_error,
    read_get_answer, read_notification, read_positions, read_put_reference, read_put_subscription,
    read_query, read_subscription_answer,
};

// 2023-11-14T23:13:20Z and 23:43:20Z
const START: i64 = 1_700_003_600_000_000_000;

const END: i64 = 1_700_005_400_000_000_000;

fn is_at(place: &Place, x: i64, y: i64) -> bool {
    place.x == x && place.y == y
}

fn is_outline(vertices: &[Place]) -> bool {
    match vertices {
        [a, b, c] => is_at(a, 2, -1) && is_at(b, 100, 3) && is_at(c, 4, 100),
        _ => false,
    }
}

/// Whether it is the volume of the messages.
fn is_volume(volume: &Volume4) -> bool {
    let heights = volume.low() == -5 && volume.high() == 1000;
    let times = volume.start() == START && volume.end() == END;
    heights && times && is_outline(volume.outline().vertices())
}

fn is_only_volume(volumes: &Volumes) -> bool {
    match volumes.as_slice() {
        [volume] => is_volume(volume),
        _ => false,
    }
}

fn is_ovn(ovn: &Option<Ovn>, text: &str) -> bool {
    match ovn {
        Some(ovn) => ovn.as_str() == text,
        None => false,
    }
}

fn is_only_ovn(key: &Ovns, text: &str) -> bool {
    match key.as_slice() {
        [ovn] => ovn.as_str() == text,
        _ => false,
    }
}

// ---- what operators ask
fn is_position(position: &PositionAsk) -> bool {
    let numbers = position.flight == 1 && position.number == 2;
    let height = position.altitude == 5;
    numbers && height && is_at(&position.place, 4, 3) && is_only_volume(&position.off_nominal)
}

fn position_is_read(alloc: Global) -> Result<bool, AllocError> {
    let text = message_of(
        alloc,
        "{'altitude_mm':5,'flight':1,'lat_e7':3,'lng_e7':4,'number':2,'off_nominal_volumes':[@V]}",
    )?;
    match read_positions(alloc, text.as_bytes()) {
        Ok(position) => Ok(is_position(&position)),
        Err(_) => Ok(false),
    }
}

fn are_proposals(proposals: &Proposals) -> bool {
    match proposals.as_slice() {
        [one] => is_only_volume(&one.volumes) && one.off_nominal.is_empty(),
        _ => false,
    }
}

fn is_wish(wish: &Wish) -> bool {
    match wish {
        Wish::Put {
            to,
            priority,
            rounds,
            proposals,
        } => {
            let numbers = *priority == 3 && *rounds == 4;
            numbers && *to == State::Activated && are_proposals(proposals)
        }
        Wish::End => false,
    }
}

fn is_ask(ask: &FlightAsk) -> bool {
    ask.flight == 1 && ask.number == 2 && is_wish(&ask.wish)
}

fn ask_is_read(alloc: Global) -> Result<bool, AllocError> {
    let text = message_of(
        alloc,
        "{'alternatives':[{'off_nominal_volumes':[],'volumes':[@V]}],'flight':1,'number':2,'priority':3,'rounds':4,'to':'Activated','wish':'put'}",
    )?;
    match read_asks(alloc, text.as_bytes()) {
        Ok(ask) => Ok(is_ask(&ask)),
        Err(_) => Ok(false),
    }
}

fn cancel_is_read(alloc: Global) -> bool {
    match read_cancels(alloc, b"{\"flight\":1,\"number\":2}") {
        Ok((flight, number)) => flight == 1 && number == 2,
        Err(_) => false,
    }
}

// ---- calls of the discovery service
fn query_is_read(alloc: Global) -> Result<bool, AllocError> {
    let text = message_of(alloc, "{'area_of_interest':@V}")?;
    match read_query(alloc, text.as_bytes()) {
        Ok(DssAsk::Query { area }) => Ok(is_volume(&area)),
        _ => Ok(false),
    }
}

fn is_put(ask: &DssAsk) -> bool {
    match ask {
        DssAsk::Put {
            flight,
            ovn,
            extents,
            key,
            state,
            base,
            ticket,
        } => {
            let names = *flight == flight_id(1, 5) && *ticket == ticket_id(1, 1);
            let ovns = is_ovn(ovn, "ovn-0000000000000002")
                && is_only_ovn(key, "ovn-0000000000000001");
            let place = base.as_str() == "http://uss1.test/a/1" && is_only_volume(extents);
            names && ovns && place && *state == State::Nonconforming
        }
        _ => false,
    }
}

fn put_is_read(alloc: Global) -> Result<bool, AllocError> {
    let text = message_of(
        alloc,
        "{'extents':[@V],'key':['@O'],'state':'Nonconforming','subscription_id':'@T','uss_base_url':'http://uss1.test/a/1'}",
    )?;
    let ovn = Ovn::of(alloc, b"ovn-0000000000000002").map_err(|_| AllocError)?;
    match read_put_reference(alloc, text.as_bytes(), flight_id(1, 5), Some(ovn)) {
        Ok(ask) => Ok(is_put(&ask)),
        Err(_) => Ok(false),
    }
}

fn is_ticket_put(ask: &DssAsk) -> bool {
    match ask {
        DssAsk::TicketPut { ticket, area, base } => {
            let place = base.as_str() == "http://uss1.test";
            place && *ticket == ticket_id(1, 6) && is_volume(area)
        }
        _ => false,
    }
}

fn ticket_put_is_read(alloc: Global) -> Result<bool, AllocError> {
    let text = message_of(alloc, "{'extents':@V,'uss_base_url':'http://uss1.test'}")?;
    match read_put_subscription(alloc, text.as_bytes(), ticket_id(1, 6)) {
        Ok(ask) => Ok(is_ticket_put(&ask)),
        Err(_) => Ok(false),
    }
}

// ---- answers of the discovery service
fn is_reference(reference: &Reference) -> bool {
    let names = reference.flight == flight_id(1, 1) && reference.ticket == ticket_id(1, 1);
    let times = reference.start == START && reference.end == END;
    let manager = reference.manager.as_str() == "uss1";
    let place = manager && reference.base.as_str() == "http://uss1.test/a/1";
    let step = reference.version == 1 && reference.state == State::Accepted;
    names && times && place && step && is_ovn(&reference.ovn, "ovn-0000000000000001")
}

fn reference_is_read(alloc: Global) -> Result<bool, AllocError> {
    let text = message_of(alloc, "{'operational_intent_reference':{@R}}")?;
    match read_get_answer(alloc, text.as_bytes(), &own(alloc)?) {
        Ok(reference) => Ok(is_reference(&reference)),
        Err(_) => Ok(false),
    }
}

fn are_told(owed: &[Subscriber]) -> bool {
    match owed {
        [one] => {
            let place = one.base.as_str() == "http://uss2.test";
            place && one.ticket == ticket_id(2, 1) && one.index == 7
        }
        _ => false,
    }
}

fn change_is_read(alloc: Global) -> Result<bool, AllocError> {
    let text = message_of(
        alloc,
        "{'operational_intent_reference':{@R},'subscribers':[{'subscriptions':[@W],'uss_base_url':'http://uss2.test'}]}",
    )?;
    match read_change_answer(alloc, text.as_bytes(), &own(alloc)?) {
        Ok((reference, owed)) => Ok(is_reference(&reference) && are_told(owed.as_slice())),
        Err(_) => Ok(false),
    }
}

fn is_ticket(ticket: &Ticket) -> bool {
    let place = ticket.base.as_str() == "http://uss1.test";
    place && ticket.id == ticket_id(1, 1) && ticket.index == 3
}

fn ticket_is_read(alloc: Global) -> Result<bool, AllocError> {
    let text = message_of(alloc, "{'subscription':@K}")?;
    let client = own(alloc)?;
    let area = area(alloc)?;
    match read_subscription_answer(alloc, text.as_bytes(), &client, &area) {
        Ok(ticket) => Ok(is_ticket(&ticket)),
        Err(_) => Ok(false),
    }
}

fn is_error(error: &ErrorBody) -> bool {
    let text = error.message.as_slice() == b"MissingKey".as_slice();
    match error.missing.as_slice() {
        [one] => text && error.refusal == 209 && is_reference(one),
        _ => false,
    }
}

fn error_is_read(alloc: Global) -> Result<bool, AllocError> {
    let text = message_of(
        alloc,
        "{'message':'MissingKey','missing_operational_intents':[{@R}],'refusal':209}",
    )?;
    match read_error(alloc, text.as_bytes(), &own(alloc)?) {
        Ok(error) => Ok(is_error(&error)),
        Err(_) => Ok(false),
    }
}

// ---- what suppliers tell
fn are_details(details: &Details) -> bool {
    let only = is_only_volume(&details.volumes) && details.off_nominal.is_empty();
    only && details.priority == 7
}

fn is_intent(pair: &Pair) -> bool {
    is_reference(pair.reference()) && are_details(pair.details())
}

fn intent_is_read(alloc: Global) -> Result<bool, AllocError> {
    let text = message_of(alloc, "{'operational_intent':@I}")?;
    match read_details_answer(alloc, text.as_bytes()) {
        Ok(pair) => Ok(is_intent(&pair)),
        Err(_) => Ok(false),
    }
}

fn is_note(note: &Note) -> bool {
    match &note.pair {
        Some(pair) => {
            let names = note.flight == flight_id(3, 4) && note.ticket == ticket_id(2, 1);
            names && note.index == 7 && is_intent(pair)
        }
        None => false,
    }
}

fn note_is_read(alloc: Global) -> Result<bool, AllocError> {
    let text = message_of(
        alloc,
        "{'operational_intent':@I,'operational_intent_id':'00000003-0000-4000-8000-000000000004','subscriptions':[@W]}",
    )?;
    match read_notification(alloc, text.as_bytes()) {
        Ok(note) => Ok(is_note(&note)),
        Err(_) => Ok(false),
    }
}

#[test]
fn no_member_of_a_call_stands_for_another(rt: HostRuntime) -> Result<(), Fail> {
    let alloc = rt.alloc();
    assert!(rt; position_is_read(alloc)?);
    assert!(rt; ask_is_read(alloc)?);
    assert!(rt; cancel_is_read(alloc));
    assert!(rt; query_is_read(alloc)?);
    assert!(rt; put_is_read(alloc)?);
    assert!(rt; ticket_put_is_read(alloc)?);
    Ok(())
}

#[test]
fn no_member_of_an_answer_stands_for_another(rt: HostRuntime) -> Result<(), Fail> {
    let alloc = rt.alloc();
    assert!(rt; reference_is_read(alloc)?);
    assert!(rt; change_is_read(alloc)?);
    assert!(rt; ticket_is_read(alloc)?);
    assert!(rt; error_is_read(alloc)?);
    assert!(rt; intent_is_read(alloc)?);
    assert!(rt; note_is_read(alloc)?);
    Ok(())
}
