//! The messages that the rows of tests stand for, and how an answer is shown.

use std::alloc::{AllocError, Global};
use uss_wire::{Member, WireRefusal};

/// The message that a row stands for. `'` is a quotation mark; `@I` is an intent of uss1, `@D` its details, `@R` the members of its
/// reference and `@N` these without the OVN, `@V` its volume, `@P` the space of that, `@S` and `@E` its times and `@L` one between
/// them, `@K` a ticket, `@W` a subscription by which one is notified, `@F` a flight, `@T` and `@U` identifiers of tickets, `@O` an OVN.
pub fn message_of(alloc: Global, row: &str) -> Result<String, AllocError> {
    let parts = with_objects(alloc, row)?;
    let times = with_volumes(alloc, parts.as_str())?;
    let words = with_times(alloc, times.as_str())?;
    words.replace(alloc, "'", "\"")
}

fn with_objects(alloc: Global, row: &str) -> Result<String, AllocError> {
    let intents = row.replace(alloc, "@I", "{'details':@D,'reference':{@R}}")?;
    let details = intents.replace(
        alloc,
        "@D",
        "{'off_nominal_volumes':[],'priority':7,'volumes':[@V]}",
    )?;
    let references = details.replace(alloc, "@R", "'id':'@F','manager':'uss1','ovn':'@O',@B")?;
    let hidden = references.replace(alloc, "@N", "'id':'@F','manager':'uss1',@B")?;
    let behind = hidden.replace(
        alloc,
        "@B",
        "'state':'Accepted','subscription_id':'@T','time_end':@E,'time_start':@S,'uss_availability':'Unknown','uss_base_url':'http://uss1.test/a/1','version':1",
    )?;
    let told = behind.replace(
        alloc,
        "@W",
        "{'notification_index':7,'subscription_id':'@U'}",
    )?;
    told.replace(
        alloc,
        "@K",
        "{'id':'@T','notification_index':3,'notify_for_constraints':false,'notify_for_operational_intents':true,'time_end':@E,'time_start':@S,'uss_base_url':'http://uss1.test','version':'1'}",
    )
}

fn with_volumes(alloc: Global, row: &str) -> Result<String, AllocError> {
    let volumes = row.replace(alloc, "@V", "{'time_end':@E,'time_start':@S,'volume':@P}")?;
    let spaces = volumes.replace(
        alloc,
        "@P",
        "{'altitude_lower':{@A'value_mm':-5},'altitude_upper':{@A'value_mm':1000},'outline_polygon':{'vertices':[{'lat_e7':-1,'lng_e7':2},{'lat_e7':3,'lng_e7':100},{'lat_e7':100,'lng_e7':4}]}}",
    )?;
    spaces.replace(alloc, "@A", "'reference':'W84','units':'MM',")
}

fn with_times(alloc: Global, row: &str) -> Result<String, AllocError> {
    let starts = row.replace(alloc, "@S", "{@M'2023-11-14T23:13:20.000000000Z'}")?;
    let between = starts.replace(alloc, "@L", "{@M'2023-11-14T23:23:20.000000000Z'}")?;
    let ends = between.replace(alloc, "@E", "{@M'2023-11-14T23:43:20.000000000Z'}")?;
    let formats = ends.replace(alloc, "@M", "'format':'RFC3339','value':")?;
    let flights = formats.replace(alloc, "@F", "00000001-0000-4000-8000-000000000001")?;
    let tickets = flights.replace(alloc, "@T", "00000001-0001-4000-8000-000000000001")?;
    let others = tickets.replace(alloc, "@U", "00000002-0001-4000-8000-000000000001")?;
    others.replace(alloc, "@O", "ovn-0000000000000001")
}

fn name_of(member: Option<Member>) -> &'static str {
    match member {
        Some(member) => member.name(),
        None => "",
    }
}

fn refusal_text(alloc: Global, refusal: WireRefusal) -> Result<String, AllocError> {
    if let WireRefusal::OutOfRange(index) = refusal {
        return format!(in alloc; "103 {index}");
    }
    let number = refusal.number().unwrap_or(0);
    let name = name_of(refusal.member());
    if name.is_empty() {
        format!(in alloc; "{number}")
    } else {
        format!(in alloc; "{number} {name}")
    }
}

/// `read`, or the number of the refusal and the member's name, or the vertex.
pub fn told_of<T: Drop>(
    alloc: Global,
    answer: Result<T, WireRefusal>,
) -> Result<String, AllocError> {
    match answer {
        Ok(_) => String::from_str(alloc, "read"),
        Err(refusal) => refusal_text(alloc, refusal),
    }
}

/// The item so many times, with commas between.
pub fn repeated(alloc: Global, item: &str, count: u32) -> Result<String, AllocError> {
    let mut text = String::new(alloc);
    for i in 0..count {
        if i > 0 {
            text.push_str(",")?;
        }
        text.push_str(item)?;
    }
    Ok(text)
}
