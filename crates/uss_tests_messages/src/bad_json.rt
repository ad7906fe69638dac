//! Texts that are no JSON, which each reader answers with 401, and not as out of memory or with an empty value.

use crate::kinds::{Kind, first_wrong};
use std::test::Fail;

// No value, a part of one, more than one, and one in which a comma, a quotation mark or a literal is wrong.
const TEXTS: &str = "\
401|
401|{
401|{}{}
401|{'operational_intent':@I
401|{'flight':1,'number':2,}
401|{flight:1}
401|{'skip':NaN}
401|{'extents':[@V,]}";

const KINDS: [Kind; 15] = [
    Kind::Query,
    Kind::Found,
    Kind::Got,
    Kind::Foreign,
    Kind::Put,
    Kind::Change,
    Kind::TicketPut,
    Kind::Ticket,
    Kind::Error,
    Kind::Intent,
    Kind::Note,
    Kind::Ask,
    Kind::Position,
    Kind::Cancel,
    Kind::Sweep,
];

#[test]
fn each_reader_refuses_what_is_no_json(rt: HostRuntime) -> Result<(), Fail> {
    let alloc = rt.alloc();
    for kind in KINDS {
        assert_eq!(rt; first_wrong(alloc, kind, TEXTS)?, "");
    }
    Ok(())
}
