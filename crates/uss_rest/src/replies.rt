ghost use Rattle.std.specs.Prelude.{◌≡◌, ◌<◌, IfOk, drop, length, option_map};
ghost use Rattle.uss_law_dss.specs.Fits as fit;
ghost use Rattle.uss_intent.specs.declared.calls.DssReply.TheVariants as replies;
ghost use Rattle.uss_rest.specs.Replies as spec;
ghost use Rattle.uss_rest.specs.Replies.{IsResponseTo, answer_in, as_reply, read_of, reply_read, reply_in};
ghost use Rattle.uss_wire_base.specs.Reading.{message_of};
ghost use Rattle.uss_wire_dss.specs.ChangesAndErrors.{change_answer_at};
ghost use Rattle.uss_wire_dss.specs.Replies.{query_answer_at, get_answer_at, subscription_answer_at};

use crate::dss_refusals::{read_refusal, write_refusal};
use std::alloc::{AllocError, Global};
use uss_http_response::Response;
use uss_intent::{
    DssAsk, DssRefusal, DssReply, FlightId, MOST_REFERENCES, MOST_TICKETS, Name, Owed, Reference,
    References, Sequence, Ticket,
};
use uss_vol4::Volume4;
use uss_wire_base::WireRefusal;
use uss_wire_dss::{
    read_change_answer, read_get_answer, read_query_answer, read_subscription_answer,
    write_change_answer, write_get_answer, write_query_answer, write_subscription_answer,
};

/// The status of a call that isn't refused: 201 for the creation of a reference, else 200.
pub fn ok_status(ask: &DssAsk) -> u16
    ensures { result ≡ spec.ok_status ask.now }
{
    match ask {
        DssAsk::Put { ovn: None, .. } => 201,
        _ => 200,
    }
}

/// The response with this status and body.
fn response(status: u16, body: Vec<u8>) -> Response
    ensures status { result.status ≡ status }
    ensures body { result.body ≡ body.items }
{
    Response {
        status,
        body: Sequence::from_vec(body),
    }
}

/// The response that is this reply to the call.
pub fn write_reply(alloc: Global, ask: &DssAsk, reply: DssReply) -> Result<Response, AllocError>
    ensures { IfOk result (IsResponseTo ask.now reply) }
{
    let status = ok_status(ask);
    match reply {
        DssReply::Found(references) => {
            Ok(response(status, write_query_answer(alloc, &references)?))
        }
        DssReply::Got(reference) => Ok(response(status, write_get_answer(alloc, &reference)?)),
        DssReply::Landed {
            reference,
            subscribers,
        }
        | DssReply::Removed {
            reference,
            subscribers,
        } => Ok(response(
            status,
            write_change_answer(alloc, &reference, &subscribers)?,
        )),
        DssReply::TicketMade(ticket)
        | DssReply::TicketGot(ticket)
        | DssReply::TicketRemoved(ticket) => {
            Ok(response(status, write_subscription_answer(alloc, &ticket)?))
        }
        DssReply::Refused(refusal) => write_refusal(alloc, refusal),
    }
}

/// Whether the flight at this place is less than that of the next, if there is one.
fn rises_at(references: &[Reference], i: usize) -> bool
    requires { i < length references.now }
    ensures { result ≡ spec.first_rises (drop i references.now) }
{
    match &references[i..] {
        [first, next, ..] => first.flight < next.flight,
        _ => true,
    }
}

/// Whether the references ascend by flight, each flight once.
fn ascend(references: &[Reference]) -> bool
    ensures { result ≡ fit.ascend references.now }
{
    for i in 0..references.len() {
        if !rises_at(references, i) {
            return false;
        }
    }
    true
}

fn is_list(references: &References) -> bool
    ensures { result ≡ fit.is_list references.now }
{
    references.len() <= MOST_REFERENCES && ascend(references.as_slice())
}

fn are_few(subscribers: &Owed) -> bool
    ensures { result ≡ fit.are_few subscribers.now }
{
    subscribers.len() <= MOST_TICKETS
}

fn refusal_fits(refusal: &DssRefusal) -> bool
    ensures { result ≡ fit.refusal_fits refusal.now }
{
    match refusal {
        DssRefusal::MissingKey(references) => is_list(references),
        _ => true,
    }
}

/// Whether the reply fits the call: a client takes any other reply as unreadable. Takes no memory.
pub fn fits(ask: &DssAsk, reply: &DssReply) -> bool
    ensures { result ≡ fit.fits ask.now reply.now }
{
    match (ask, reply) {
        (DssAsk::Query { .. }, DssReply::Found(references)) => is_list(references),
        (DssAsk::Query { .. }, _) => false,
        (_, DssReply::Refused(refusal)) => refusal_fits(refusal),
        (DssAsk::Get { flight }, DssReply::Got(reference)) => reference.flight == *flight,
        (
            DssAsk::Put {
                flight,
                state,
                base,
                ..
            },
            DssReply::Landed {
                reference,
                subscribers,
            },
        ) => {
            reference.flight == *flight
                && reference.state == *state
                && reference.base == *base
                && reference.ovn.is_some()
                && are_few(subscribers)
        }
        (
            DssAsk::Remove { flight, .. },
            DssReply::Removed {
                reference,
                subscribers,
            },
        ) => reference.flight == *flight && are_few(subscribers),
        (DssAsk::TicketPut { ticket, .. }, DssReply::TicketMade(made)) => made.id == *ticket,
        (DssAsk::TicketGet { ticket }, DssReply::TicketGot(got)) => got.id == *ticket,
        (DssAsk::TicketRemove { ticket, .. }, DssReply::TicketRemoved(removed)) => removed.id
            == *ticket,
        _ => false,
    }
}

/// The references that a query found.
fn read_found(alloc: Global, client: &Name, body: &[u8]) -> Result<Option<DssReply>, AllocError>
    ensures { IfOk result (λ r. r ≡ as_reply replies.Found (message_of (query_answer_at client.now) body.now)) }
{
    match read_query_answer(alloc, body, client) {
        Ok(references) => Ok(Some(DssReply::Found(references))),
        Err(WireRefusal::Memory) => Err(AllocError),
        Err(_) => Ok(None),
    }
}

/// One reference.
fn read_got(alloc: Global, client: &Name, body: &[u8]) -> Result<Option<DssReply>, AllocError>
    ensures { IfOk result (λ r. r ≡ as_reply replies.Got (message_of (get_answer_at client.now) body.now)) }
{
    match read_get_answer(alloc, body, client) {
        Ok(reference) => Ok(Some(DssReply::Got(reference))),
        Err(WireRefusal::Memory) => Err(AllocError),
        Err(_) => Ok(None),
    }
}

/// A reference that was recorded.
fn read_landed(alloc: Global, client: &Name, body: &[u8]) -> Result<Option<DssReply>, AllocError>
    ensures { IfOk result (λ r. r ≡ as_reply (λ x. replies.Landed x.0 x.1) (message_of (change_answer_at client.now) body.now)) }
{
    match read_change_answer(alloc, body, client) {
        Ok((reference, subscribers)) => Ok(Some(DssReply::Landed {
            reference,
            subscribers,
        })),
        Err(WireRefusal::Memory) => Err(AllocError),
        Err(_) => Ok(None),
    }
}

/// A reference that was removed.
fn read_removed(alloc: Global, client: &Name, body: &[u8]) -> Result<Option<DssReply>, AllocError>
    ensures { IfOk result (λ r. r ≡ as_reply (λ x. replies.Removed x.0 x.1) (message_of (change_answer_at client.now) body.now)) }
{
    match read_change_answer(alloc, body, client) {
        Ok((reference, subscribers)) => Ok(Some(DssReply::Removed {
            reference,
            subscribers,
        })),
        Err(WireRefusal::Memory) => Err(AllocError),
        Err(_) => Ok(None),
    }
}

/// A ticket of this area.
fn read_ticket(
    alloc: Global,
    client: &Name,
    area: &Volume4,
    body: &[u8],
) -> Result<Option<Ticket>, AllocError>
    ensures { IfOk result (λ t. t ≡ read_of (message_of (subscription_answer_at client.now area.now) body.now)) }
{
    match read_subscription_answer(alloc, body, client, area) {
        Ok(ticket) => Ok(Some(ticket)),
        Err(WireRefusal::Memory) => Err(AllocError),
        Err(_) => Ok(None),
    }
}

fn made(ticket: Option<Ticket>) -> Option<DssReply>
    ensures { result ≡ option_map replies.TicketMade ticket }
{
    match ticket {
        Some(ticket) => Some(DssReply::TicketMade(ticket)),
        None => None,
    }
}

fn got(ticket: Option<Ticket>) -> Option<DssReply>
    ensures { result ≡ option_map replies.TicketGot ticket }
{
    match ticket {
        Some(ticket) => Some(DssReply::TicketGot(ticket)),
        None => None,
    }
}

fn removed(ticket: Option<Ticket>) -> Option<DssReply>
    ensures { result ≡ option_map replies.TicketRemoved ticket }
{
    match ticket {
        Some(ticket) => Some(DssReply::TicketRemoved(ticket)),
        None => None,
    }
}

/// The reply that a body stands for where the call wasn't refused.
fn read_answer(
    alloc: Global,
    client: &Name,
    given: &Volume4,
    ask: &DssAsk,
    body: &[u8],
) -> Result<Option<DssReply>, AllocError>
    ensures { IfOk result (λ r. r ≡ answer_in client.now given.now ask.now body.now) }
{
    match ask {
        DssAsk::Query { .. } => read_found(alloc, client, body),
        DssAsk::Get { .. } => read_got(alloc, client, body),
        DssAsk::Put { .. } => read_landed(alloc, client, body),
        DssAsk::Remove { .. } => read_removed(alloc, client, body),
        DssAsk::TicketPut { area, .. } => Ok(made(read_ticket(alloc, client, area, body)?)),
        DssAsk::TicketGet { .. } => Ok(got(read_ticket(alloc, client, given, body)?)),
        DssAsk::TicketRemove { .. } => Ok(removed(read_ticket(alloc, client, given, body)?)),
    }
}

/// The reply that a status and a body stand for, whether or not it fits the call.
fn read_unfitted(
    alloc: Global,
    client: &Name,
    given: &Volume4,
    ask: &DssAsk,
    status: u16,
    body: &[u8],
) -> Result<Option<DssReply>, AllocError>
    ensures { IfOk result (λ r. r ≡ reply_read client.now given.now ask.now status body.now) }
{
    if status == ok_status(ask) {
        return read_answer(alloc, client, given, ask, body);
    }
    match read_refusal(alloc, status, body, client)? {
        Some(refusal) => Ok(Some(DssReply::Refused(refusal))),
        None => Ok(None),
    }
}

/// The reply that a response of the discovery service to this client's call stands for; none where the status and the body are no
/// reply, or one that doesn't fit the call. A ticket's area isn't in its message: it is the area of the call that made it, or else
/// the one that is given here. The one error is that there is no memory.
pub fn read_reply(
    alloc: Global,
    client: &Name,
    given: &Volume4,
    ask: &DssAsk,
    status: u16,
    body: &[u8],
) -> Result<Option<DssReply>, AllocError>
    ensures { IfOk result (λ r. r ≡ reply_in client.now given.now ask.now status body.now) }
{
    match read_unfitted(alloc, client, given, ask, status, body)? {
        Some(reply) => {
            if fits(ask, &reply) {
                Ok(Some(reply))
            } else {
                Ok(None)
            }
        }
        None => Ok(None),
    }
}
