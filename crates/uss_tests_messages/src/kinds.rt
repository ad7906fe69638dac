//! The readers, by the message that they read.

use crate::messages::{message_of, told_of};
use std::alloc::{AllocError, Global};
use uss_intent::{FlightId, Name, TicketId};
use uss_shape::{Outline, Rect};
use uss_vol4::Volume4;
use uss_wire::{
    read_asks, read_cancels, read_change_answer, read_details_answer, read_error, read_get_answer,
    read_notification, read_positions, read_put_reference, read_put_subscription, read_query,
    read_query_answer, read_subscription_answer, read_sweeps,
};

/// A message. Answers of the discovery service are read by uss1, and `Foreign`, an answer with one reference, by uss2.
#[derive(Clone, Copy)]
pub enum Kind {
    Query,
    Found,
    Got,
    Foreign,
    Put,
    Change,
    TicketPut,
    Ticket,
    Error,
    Intent,
    Note,
    Ask,
    Position,
    Cancel,
    Sweep,
}

pub fn own(alloc: Global) -> Result<Name, AllocError> {
    Name::of(alloc, b"uss1").map_err(|_| AllocError)
}

fn other(alloc: Global) -> Result<Name, AllocError> {
    Name::of(alloc, b"uss2").map_err(|_| AllocError)
}

/// An area from 2023-11-14T23:13:20Z to 23:43:20Z.
pub fn area(alloc: Global) -> Result<Volume4, AllocError> {
    let corners = Rect {
        x1: 0,
        y1: 0,
        x2: 10,
        y2: 10,
    };
    let outline = Outline::rect(alloc, corners).map_err(|_| AllocError)?;
    let area = Volume4::of(
        outline,
        0,
        100,
        1_700_003_600_000_000_000,
        1_700_005_400_000_000_000,
    );
    area.map_err(|_| AllocError)
}

fn found_told(alloc: Global, bytes: &[u8]) -> Result<String, AllocError> {
    told_of(alloc, read_query_answer(alloc, bytes, &own(alloc)?))
}

fn got_told(alloc: Global, bytes: &[u8]) -> Result<String, AllocError> {
    told_of(alloc, read_get_answer(alloc, bytes, &own(alloc)?))
}

fn foreign_told(alloc: Global, bytes: &[u8]) -> Result<String, AllocError> {
    told_of(alloc, read_get_answer(alloc, bytes, &other(alloc)?))
}

fn put_told(alloc: Global, bytes: &[u8]) -> Result<String, AllocError> {
    let flight = FlightId::from_number(1);
    told_of(alloc, read_put_reference(alloc, bytes, flight, None))
}

fn change_told(alloc: Global, bytes: &[u8]) -> Result<String, AllocError> {
    told_of(alloc, read_change_answer(alloc, bytes, &own(alloc)?))
}

fn ticket_put_told(alloc: Global, bytes: &[u8]) -> Result<String, AllocError> {
    let ticket = TicketId::from_number(2);
    told_of(alloc, read_put_subscription(alloc, bytes, ticket))
}

fn ticket_told(alloc: Global, bytes: &[u8]) -> Result<String, AllocError> {
    let client = own(alloc)?;
    let area = area(alloc)?;
    told_of(
        alloc,
        read_subscription_answer(alloc, bytes, &client, &area),
    )
}

fn error_told(alloc: Global, bytes: &[u8]) -> Result<String, AllocError> {
    told_of(alloc, read_error(alloc, bytes, &own(alloc)?))
}

/// How the message of this kind is answered.
pub fn told_by(alloc: Global, kind: Kind, bytes: &[u8]) -> Result<String, AllocError> {
    match kind {
        Kind::Query => told_of(alloc, read_query(alloc, bytes)),
        Kind::Found => found_told(alloc, bytes),
        Kind::Got => got_told(alloc, bytes),
        Kind::Foreign => foreign_told(alloc, bytes),
        Kind::Put => put_told(alloc, bytes),
        Kind::Change => change_told(alloc, bytes),
        Kind::TicketPut => ticket_put_told(alloc, bytes),
        Kind::Ticket => ticket_told(alloc, bytes),
        Kind::Error => error_told(alloc, bytes),
        Kind::Intent => told_of(alloc, read_details_answer(alloc, bytes)),
        Kind::Note => told_of(alloc, read_notification(alloc, bytes)),
        Kind::Ask => told_of(alloc, read_asks(alloc, bytes)),
        Kind::Position => told_of(alloc, read_positions(alloc, bytes)),
        Kind::Cancel => told_of(alloc, read_cancels(alloc, bytes)),
        Kind::Sweep => told_of(alloc, read_sweeps(alloc, bytes)),
    }
}

/// Whether the message of a row is answered as the row says.
fn is_told(alloc: Global, kind: Kind, row: &str) -> Result<bool, AllocError> {
    match row.split_once('|') {
        Some((told, rest)) => {
            let text = message_of(alloc, rest)?;
            let found = told_by(alloc, kind, text.as_bytes())?;
            Ok(found.as_str() == told)
        }
        None => Ok(false),
    }
}

/// The first row that is answered otherwise than it says, and an empty one where there is none.
pub fn first_wrong<'a>(alloc: Global, kind: Kind, rows: &'a str) -> Result<&'a str, AllocError> {
    for row in rows.split('\n') {
        if !is_told(alloc, kind, row)? {
            return Ok(row);
        }
    }
    Ok("")
}
