//! Lists at their limits and one item beyond, texts that nest as deep as they may, and messages that are cut.

use crate::kinds::{Kind, told_by};
use crate::messages::{message_of, repeated};
use std::alloc::{AllocError, Global};
use std::test::Fail;

// A query for the area over a polygon whose vertices are at `@Z`, and the area alone.
const QUERY: &str = "{'area_of_interest':@Y}";

const AREA: &str =
    "{'time_end':@E,'time_start':@S,'volume':{'altitude_lower':{@A'value_mm':0},'altitude_upper':{@A'value_mm':1},'outline_polygon':{'vertices':[@Z]}}}";

const VERTEX: &str = "{'lat_e7':0,'lng_e7':0}";

// The volumes of a change, and its key.
const EXTENTS: &str =
    "{'extents':[@Z],'state':'Accepted','subscription_id':'@T','uss_base_url':'http://uss1.test'}";

const KEY: &str =
    "{'extents':[],'key':[@Z],'state':'Accepted','subscription_id':'@T','uss_base_url':'http://uss1.test'}";

const INTENT: &str = "{'operational_intent':{'details':{'volumes':[@Z]},'reference':{@R}}}";

const FOUND: &str = "{'operational_intent_references':[@Z]}";

const ERROR: &str = "{'message':'MissingKey','missing_operational_intents':[@Z],'refusal':209}";

const CHANGE: &str = "{'operational_intent_reference':{@R},'subscribers':[@Z]}";

const ONE_TOLD: &str =
    "{'operational_intent_reference':{@R},'subscribers':[{'subscriptions':[@Z],'uss_base_url':'http://uss2.test'}]}";

const ASK: &str =
    "{'alternatives':[{'off_nominal_volumes':[],'volumes':[@V]}],'flight':1,'number':2,'priority':0,'rounds':4,'to':'Accepted','wish':'put'}";

/// The message around so many items.
fn listing(alloc: Global, around: &str, item: &str, count: u32) -> Result<String, AllocError> {
    let around = message_of(alloc, around)?;
    let item = message_of(alloc, item)?;
    let list = repeated(alloc, item.as_str(), count)?;
    around.replace(alloc, "@Z", list.as_str())
}

/// Whether the message around so many items is answered so.
fn is_told(
    alloc: Global,
    kind: Kind,
    around: &str,
    item: &str,
    count: u32,
    told: &str,
) -> Result<bool, AllocError> {
    let text = listing(alloc, around, item, count)?;
    let found = told_by(alloc, kind, text.as_bytes())?;
    Ok(found.as_str() == told)
}

#[test]
fn outlines_are_judged_by_their_length(rt: HostRuntime) -> Result<(), Fail> {
    let alloc = rt.alloc();
    let around = QUERY.replace(alloc, "@Y", AREA)?;
    let query = around.as_str();
    assert!(rt; is_told(alloc, Kind::Query, query, VERTEX, 0, "101")?);
    assert!(rt; is_told(alloc, Kind::Query, query, VERTEX, 2, "101")?);
    assert!(rt; is_told(alloc, Kind::Query, query, VERTEX, 3, "read")?);
    assert!(rt; is_told(alloc, Kind::Query, query, VERTEX, 1000, "read")?);
    assert!(rt; is_told(alloc, Kind::Query, query, VERTEX, 1001, "102")?);
    assert!(rt; is_told(alloc, Kind::Query, query, "1", 1001, "403 vertices")?);
    Ok(())
}

#[test]
fn volumes_are_judged_by_their_number(rt: HostRuntime) -> Result<(), Fail> {
    let alloc = rt.alloc();
    assert!(rt; is_told(alloc, Kind::Put, EXTENTS, "@V", 65, "read")?);
    assert!(rt; is_told(alloc, Kind::Intent, INTENT, "@V", 64, "read")?);
    assert!(rt; is_told(alloc, Kind::Intent, INTENT, "@V", 65, "121")?);
    let area = listing(alloc, AREA, VERTEX, 1000)?;
    let volume = area.as_str();
    assert!(rt; is_told(alloc, Kind::Intent, INTENT, volume, 10, "read")?);
    assert!(rt; is_told(alloc, Kind::Intent, INTENT, volume, 11, "122")?);
    Ok(())
}

#[test]
fn long_lists_are_refused_before_their_items(rt: HostRuntime) -> Result<(), Fail> {
    let alloc = rt.alloc();
    assert!(rt; is_told(alloc, Kind::Put, KEY, "'@O'", 1024, "read")?);
    assert!(rt; is_told(alloc, Kind::Put, KEY, "'@O'", 1025, "406 key")?);
    assert!(rt; is_told(alloc, Kind::Put, KEY, "1", 1024, "403 key")?);
    assert!(rt; is_told(alloc, Kind::Put, KEY, "1", 1025, "406 key")?);
    let many = "406 operational_intent_references";
    assert!(rt; is_told(alloc, Kind::Found, FOUND, "{}", 4096, "402 id")?);
    assert!(rt; is_told(alloc, Kind::Found, FOUND, "1", 4097, many)?);
    let missing = "406 missing_operational_intents";
    assert!(rt; is_told(alloc, Kind::Error, ERROR, "{}", 4096, "402 id")?);
    assert!(rt; is_told(alloc, Kind::Error, ERROR, "1", 4097, missing)?);
    let told = "406 subscribers";
    assert!(rt; is_told(alloc, Kind::Change, CHANGE, "1", 8192, "403 subscribers")?);
    assert!(rt; is_told(alloc, Kind::Change, CHANGE, "1", 8193, told)?);
    assert!(rt; is_told(alloc, Kind::Change, ONE_TOLD, "@W", 8192, "read")?);
    assert!(rt; is_told(alloc, Kind::Change, ONE_TOLD, "@W", 8193, told)?);
    Ok(())
}

/// A list in a list, so many deep.
fn nested(alloc: Global, depth: u32) -> Result<String, AllocError> {
    let mut text = String::new(alloc);
    for _ in 0..depth {
        text.push_str("[")?;
    }
    for _ in 0..depth {
        text.push_str("]")?;
    }
    Ok(text)
}

/// Whether these bytes are answered so as a query.
fn is_query_told(alloc: Global, bytes: &[u8], told: &str) -> Result<bool, AllocError> {
    let found = told_by(alloc, Kind::Query, bytes)?;
    Ok(found.as_str() == told)
}

/// The length of the shortest beginning of the message that is no 401.
fn first_whole(alloc: Global, kind: Kind, bytes: &[u8]) -> Result<usize, AllocError> {
    for end in 0..bytes.len() {
        let found = told_by(alloc, kind, &bytes[..end])?;
        if found.as_str() != "401" {
            return Ok(end);
        }
    }
    Ok(bytes.len())
}

#[test]
fn what_is_no_text_of_a_value_is_refused(rt: HostRuntime) -> Result<(), Fail> {
    let alloc = rt.alloc();
    let deep = nested(alloc, 127)?;
    assert!(rt; is_query_told(alloc, deep.as_bytes(), "403")?);
    let deeper = nested(alloc, 128)?;
    assert!(rt; is_query_told(alloc, deeper.as_bytes(), "401")?);
    assert!(rt; is_query_told(alloc, b"{\"x\":\"\xc3\xa9\"}", "402 area_of_interest")?);
    assert!(rt; is_query_told(alloc, b"{\"x\":\"\xc3\"}", "401")?);
    assert!(rt; is_query_told(alloc, b"{\"x\":\"\xed\xa0\x80\"}", "401")?);
    assert!(rt; is_query_told(alloc, b"\xef\xbb\xbf{}", "401")?);
    assert!(rt; is_query_told(alloc, b"{}\x00", "401")?);
    let ask = message_of(alloc, ASK)?;
    assert_eq!(rt; first_whole(alloc, Kind::Ask, ask.as_bytes())?, ask.len());
    Ok(())
}
