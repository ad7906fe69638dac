ghost use Rattle.std.specs.Prelude.{◌≡◌, ◌++◌, IfOk, OnOk, string_bytes, decimal};
ghost use Rattle.std.specs.List.{flat_map};
ghost use Rattle.uss_intent.specs.Identifiers.{identifier_text};
ghost use Rattle.uss_rest.specs.Requests as spec;
ghost use Rattle.uss_rest.specs.Requests.{IsRequestOf, IsBodyOf, after_slash, path_of, parameters_of, row_of};
ghost use Rattle.uss_route.specs.Ovns.{segment_of};

use crate::Address;
use std::alloc::{AllocError, Global};
use uss_http_request::{Bytes, Request};
use uss_intent::{DssAsk, FlightId, Name, Ovn, Sequence, TicketId};
use uss_route::{RouteRow, segment_of_ovn};
use uss_wire_dss::{write_put_reference, write_put_subscription, write_query};
use uss_wire_words::{flight_text, ticket_text};

/// The route of a call.
pub fn row_of(ask: &DssAsk) -> RouteRow
    ensures { result ≡ spec.row_of ask.now }
{
    match ask {
        DssAsk::Query { .. } => RouteRow::DssQuery,
        DssAsk::Get { .. } => RouteRow::DssGet,
        DssAsk::Put { ovn: None, .. } => RouteRow::DssCreate,
        DssAsk::Put { ovn: Some(_), .. } => RouteRow::DssChange,
        DssAsk::Remove { .. } => RouteRow::DssRemove,
        DssAsk::TicketPut { .. } => RouteRow::TicketPut,
        DssAsk::TicketGet { .. } => RouteRow::TicketGet,
        DssAsk::TicketRemove { .. } => RouteRow::TicketRemove,
    }
}

/// Adds a parameter to a path.
fn add(path: &mut Vec<u8>, parameter: &str) -> Result<(), AllocError>
    ensures { OnOk result (path.new.items ≡ path.old.items ++ after_slash parameter.now) }
{
    path.extend_from_slice(b"/")?;
    path.extend_from_slice(parameter.as_bytes())
}

fn add_flight(alloc: Global, path: &mut Vec<u8>, flight: FlightId) -> Result<(), AllocError>
    ensures { OnOk result (path.new.items ≡ path.old.items ++ after_slash (identifier_text flight)) }
{
    let text = flight_text(alloc, flight)?;
    add(path, text.as_str())
}

fn add_ticket(alloc: Global, path: &mut Vec<u8>, ticket: TicketId) -> Result<(), AllocError>
    ensures { OnOk result (path.new.items ≡ path.old.items ++ after_slash (identifier_text ticket)) }
{
    let text = ticket_text(alloc, ticket)?;
    add(path, text.as_str())
}

fn add_ovn(alloc: Global, path: &mut Vec<u8>, ovn: &Ovn) -> Result<(), AllocError>
    ensures { OnOk result (path.new.items ≡ path.old.items ++ after_slash (segment_of ovn.now)) }
{
    let text = segment_of_ovn(alloc, ovn)?;
    add(path, text.as_str())
}

fn add_version(alloc: Global, path: &mut Vec<u8>, version: u32) -> Result<(), AllocError>
    ensures { OnOk result (path.new.items ≡ path.old.items ++ after_slash (decimal version)) }
{
    let text = format!(in alloc; "{version}")?;
    add(path, text.as_str())
}

/// Adds the parameters of a call.
fn add_parameters(alloc: Global, path: &mut Vec<u8>, ask: &DssAsk) -> Result<(), AllocError>
    ensures { OnOk result (path.new.items ≡ path.old.items ++ flat_map after_slash (parameters_of ask.now)) }
{
    match ask {
        DssAsk::Query { .. } => Ok(()),
        DssAsk::Get { flight }
        | DssAsk::Put {
            flight,
            ovn: None,
            ..
        } => { add_flight(alloc, path, *flight) }
        DssAsk::Put {
            flight,
            ovn: Some(ovn),
            ..
        }
        | DssAsk::Remove { flight, ovn } => {
            add_flight(alloc, path, *flight)?;
            add_ovn(alloc, path, ovn)
        }
        DssAsk::TicketPut { ticket, .. } | DssAsk::TicketGet { ticket } => {
            add_ticket(alloc, path, *ticket)
        }
        DssAsk::TicketRemove { ticket, version } => {
            add_ticket(alloc, path, *ticket)?;
            add_version(alloc, path, *version)
        }
    }
}

fn path_of_call(alloc: Global, address: &Address, ask: &DssAsk) -> Result<Vec<u8>, AllocError>
    ensures { IfOk result (λ path. path.items ≡ string_bytes address.now.prefix ++ path_of (row_of ask.now) (parameters_of ask.now)) }
{
    let mut path = Vec::new(alloc);
    path.extend_from_slice(address.prefix.as_bytes())?;
    path.extend_from_slice(row_of(ask).text().as_bytes())?;
    add_parameters(alloc, &mut path, ask)?;
    Ok(path)
}

fn body_of_call(alloc: Global, ask: &DssAsk) -> Result<Vec<u8>, AllocError>
    ensures { IfOk result (λ body. IsBodyOf ask.now body.items) }
{
    match ask {
        DssAsk::Query { .. } => write_query(alloc, ask),
        DssAsk::Put { .. } => write_put_reference(alloc, ask),
        DssAsk::TicketPut { .. } => write_put_subscription(alloc, ask),
        DssAsk::Get { .. }
        | DssAsk::Remove { .. }
        | DssAsk::TicketGet { .. }
        | DssAsk::TicketRemove { .. } => Ok(Vec::new(alloc)),
    }
}

fn bytes_of(alloc: Global, text: &str) -> Result<Bytes, AllocError>
    ensures { IfOk result (λ bytes. bytes ≡ text.now) }
{
    let mut bytes = Vec::new(alloc);
    bytes.extend_from_slice(text.as_bytes())?;
    Ok(Sequence::from_vec(bytes))
}

/// The request that is this client's call of the discovery service at the address.
pub fn write_call(
    alloc: Global,
    address: &Address,
    client: &Name,
    ask: &DssAsk,
) -> Result<Request, AllocError>
    ensures { IfOk result (IsRequestOf (string_bytes address.now.prefix) client.now ask.now) }
{
    Ok(Request {
        method: bytes_of(alloc, row_of(ask).method())?,
        path: Sequence::from_vec(path_of_call(alloc, address, ask)?),
        client: client.clone()?,
        body: Sequence::from_vec(body_of_call(alloc, ask)?),
    })
}
