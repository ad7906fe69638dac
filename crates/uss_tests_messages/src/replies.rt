//! Calls and answers of the discovery service as anyone may send them, and how each is answered: `read`, or the number and the member
//! of the refusal.

use crate::kinds::{Kind, first_wrong};
use std::test::Fail;

// A query.
const QUERIES: &str = "\
read|{'area_of_interest':@V}
read|{'area_of_interest':@V,'area':null}
402 area_of_interest|{}
403 area_of_interest|{'area_of_interest':[@V]}
402 time_start|{'area_of_interest':{'time_end':@E,'volume':@P}}
402 time_end|{'area_of_interest':{'time_start':@S,'volume':@P}}
112|{'area_of_interest':{'time_end':@S,'time_start':@L,'volume':@P}}
405 value|{'area_of_interest':{'time_end':@E,'time_start':{'format':'RFC3339','value':'2023-04-31T00:00:00Z'},'volume':@P}}
405 value|{'area_of_interest':{'time_end':@E,'time_start':{'format':'RFC3339','value':'2023-11-14T23:13:60Z'},'volume':@P}}
405 value|{'area_of_interest':{'time_end':@E,'time_start':{'format':'RFC3339','value':'2023-11-14T23:13:20.0000000000Z'},'volume':@P}}
404 lat|{'area_of_interest':{'volume':{'outline_polygon':{'vertices':[{'lat':34.1,'lng':-118.2}]}}}}";

// The answer to a query.
const FOUND: &str = "\
read|{'operational_intent_references':[]}
read|{'operational_intent_references':[{@R},{@N}]}
403|[]
402 operational_intent_references|{}
403 operational_intent_references|{'operational_intent_references':{}}
403 operational_intent_references|{'operational_intent_references':[1]}
402 id|{'operational_intent_references':[{@R},{}]}
130|{'operational_intent_references':[{@R,'ovn':'short'},{}]}";

// The answer to a question for one reference.
const GOT: &str = "\
read|{'operational_intent_reference':{@R}}
read|{'operational_intent_reference':{@N}}
402 operational_intent_reference|{}
403 operational_intent_reference|{'operational_intent_reference':[]}
402 id|{'operational_intent_reference':{}}
403 id|{'operational_intent_reference':{'id':1}}
403 id|{'operational_intent_reference':{'id':'00000001-0000-4000-8000-00000000000A'}}
402 manager|{'operational_intent_reference':{'id':'@F'}}
403 manager|{'operational_intent_reference':{@R,'manager':null}}
128|{'operational_intent_reference':{@R,'manager':''}}
128|{'operational_intent_reference':{@R,'manager':'uss 1'}}
402 version|{'operational_intent_reference':{'id':'@F','manager':'uss1','state':1}}
403 version|{'operational_intent_reference':{@R,'version':'1'}}
403 version|{'operational_intent_reference':{@R,'version':-1}}
403 version|{'operational_intent_reference':{@R,'version':4294967296}}
402 state|{'operational_intent_reference':{'id':'@F','manager':'uss1','version':1,'ovn':1}}
403 state|{'operational_intent_reference':{@R,'state':'accepted'}}
403 ovn|{'operational_intent_reference':{@R,'ovn':null}}
130|{'operational_intent_reference':{@R,'ovn':'short'}}
402 time_start|{'operational_intent_reference':{'id':'@F','manager':'uss1','version':1,'state':'Accepted'}}
403 time_start|{'operational_intent_reference':{@R,'time_start':'2023-11-14T23:13:20Z'}}
114|{'operational_intent_reference':{@R,'time_start':{'format':'RFC3339','value':'2200-01-01T00:00:00.000000001Z'}}}
405 value|{'operational_intent_reference':{@R,'time_end':{'format':'RFC3339','value':'2023-04-31T00:00:00Z'}}}
129|{'operational_intent_reference':{@R,'uss_base_url':'http://uss1.test/'}}
129|{'operational_intent_reference':{@R,'uss_base_url':'ftp://uss1.test'}}
129|{'operational_intent_reference':{@R,'uss_base_url':'http://uss1.test?x'}}
403 subscription_id|{'operational_intent_reference':{@R,'subscription_id':'1'}}";

// The same, read by another client than the manager.
const FOREIGN: &str = "\
read|{'operational_intent_reference':{@R}}
read|{'operational_intent_reference':{@R,'ovn':'short'}}
read|{'operational_intent_reference':{@R,'ovn':''}}
403 ovn|{'operational_intent_reference':{@R,'ovn':null}}
403 ovn|{'operational_intent_reference':{@R,'ovn':7}}
130|{'operational_intent_reference':{@R,'manager':'uss2','ovn':'short'}}";

// The creation of a reference.
const PUTS: &str = "\
read|{'extents':[@V,@V],'key':['@O'],'state':'Accepted','subscription_id':'@T','uss_base_url':'http://uss1.test/a/1'}
404 new_subscription|{'extents':[@V],'new_subscription':{}}
111|{'extents':[{'time_end':@E,'time_start':@S,'volume':@P},{'time_end':@E,'time_start':@S,'volume':{'altitude_lower':{'reference':'W84','units':'MM','value_mm':2},'altitude_upper':{'reference':'W84','units':'MM','value_mm':1},'outline_polygon':{'vertices':[{'lat_e7':0,'lng_e7':0},{'lat_e7':0,'lng_e7':0},{'lat_e7':0,'lng_e7':0}]}}}],'key':1}
403 key|{'extents':[@V],'key':{}}
403 key|{'extents':[@V],'key':['@O',null]}";

// The answer to a change.
const CHANGES: &str = "\
read|{'operational_intent_reference':{@R},'subscribers':[]}
read|{'operational_intent_reference':{@N},'subscribers':[{'subscriptions':[@W,@W],'uss_base_url':'http://uss2.test'},{'subscriptions':[],'uss_base_url':'http://uss3.test'}]}
402 subscribers|{'operational_intent_reference':1}
403 subscribers|{'subscribers':{}}
403 subscribers|{'subscribers':[1]}
402 subscriptions|{'subscribers':[{'uss_base_url':1}]}
403 subscriptions|{'subscribers':[{'subscriptions':{}}]}
403 subscriptions|{'subscribers':[{'subscriptions':[1]}]}
402 subscription_id|{'subscribers':[{'subscriptions':[{}]}]}
403 subscription_id|{'subscribers':[{'subscriptions':[{'subscription_id':2}]}]}
402 notification_index|{'subscribers':[{'subscriptions':[@W,{'subscription_id':'@U'}]}]}
402 uss_base_url|{'subscribers':[{'subscriptions':[]}]}
129|{'subscribers':[{'subscriptions':[],'uss_base_url':'uss2.test'}]}
402 operational_intent_reference|{'subscribers':[]}";

// The making of a ticket.
const TICKET_PUTS: &str = "\
read|{'extents':@V,'uss_base_url':'http://uss1.test'}
read|{'extents':@V,'notify_for_operational_intents':false,'uss_base_url':'http://uss1.test'}
404 notify_for_constraints|{'extents':1,'notify_for_constraints':true}
402 extents|{'uss_base_url':1}
402 uss_base_url|{'extents':@V}
129|{'extents':@V,'uss_base_url':'http://uss1.test/#'}";

// The answer with a ticket.
const TICKETS: &str = "\
read|{'subscription':@K}
402 subscription|{}
403 subscription|{'subscription':null}
402 id|{'subscription':{'version':1}}
402 version|{'subscription':{'id':'@T'}}
403 version|{'subscription':{'id':'@T','version':1}}
402 notification_index|{'subscription':{'id':'@T','version':'any'}}
403 notification_index|{'subscription':{'id':'@T','version':'any','notification_index':'0'}}
402 time_start|{'subscription':{'id':'@T','version':'any','notification_index':0,'time_end':1}}
402 time_end|{'subscription':{'id':'@T','version':'any','notification_index':0,'time_start':@S}}
402 uss_base_url|{'subscription':{'id':'@T','version':'any','notification_index':0,'time_start':@S,'time_end':@S}}
read|{'subscription':{'id':'@T','version':'any','notification_index':0,'time_start':@E,'time_end':@S,'uss_base_url':'http://uss1.test'}}";

// An error.
const ERRORS: &str = "\
read|{'message':'Absent','refusal':205}
read|{'message':'','refusal':0,'missing_operational_intents':1}
402 message|{}
403 message|{'message':null}
402 refusal|{'message':'Absent'}
403 refusal|{'message':'Absent','refusal':'205'}
402 missing_operational_intents|{'message':'MissingKey','refusal':209}
403 missing_operational_intents|{'message':'MissingKey','refusal':209,'missing_operational_intents':null}
402 manager|{'message':'MissingKey','refusal':209,'missing_operational_intents':[{@R},{'id':'@F'}]}";

#[test]
fn calls_of_the_discovery_service_are_judged(rt: HostRuntime) -> Result<(), Fail> {
    let alloc = rt.alloc();
    assert_eq!(rt; first_wrong(alloc, Kind::Query, QUERIES)?, "");
    assert_eq!(rt; first_wrong(alloc, Kind::Put, PUTS)?, "");
    assert_eq!(rt; first_wrong(alloc, Kind::TicketPut, TICKET_PUTS)?, "");
    Ok(())
}

#[test]
fn answers_of_the_discovery_service_are_judged(rt: HostRuntime) -> Result<(), Fail> {
    let alloc = rt.alloc();
    assert_eq!(rt; first_wrong(alloc, Kind::Found, FOUND)?, "");
    assert_eq!(rt; first_wrong(alloc, Kind::Got, GOT)?, "");
    assert_eq!(rt; first_wrong(alloc, Kind::Foreign, FOREIGN)?, "");
    assert_eq!(rt; first_wrong(alloc, Kind::Change, CHANGES)?, "");
    assert_eq!(rt; first_wrong(alloc, Kind::Ticket, TICKETS)?, "");
    assert_eq!(rt; first_wrong(alloc, Kind::Error, ERRORS)?, "");
    Ok(())
}
