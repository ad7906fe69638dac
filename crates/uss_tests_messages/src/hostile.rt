//! Messages as anyone may send them, and how each is answered: `read`, or the number and the member of the refusal.

use crate::kinds::{Kind, first_wrong};
use std::test::Fail;

// An answer to a question for details.
const INTENTS: &str = "\
read|{'operational_intent':@I}
401|
401|{'operational_intent':@I
401|{'operational_intent':@I}}
403|[]
402 operational_intent|{}
403 operational_intent|{'operational_intent':null}
402 reference|{'operational_intent':{'details':1}}
403 reference|{'operational_intent':{'details':1,'reference':[]}}
402 id|{'operational_intent':{'details':1,'reference':{}}}
402 details|{'operational_intent':{'reference':{@R}}}
403 details|{'operational_intent':{'reference':{@R},'details':[]}}
402 ovn|{'operational_intent':{'reference':{@N},'details':1}}
403 ovn|{'operational_intent':{'reference':{@R,'ovn':null},'details':1}}
130|{'operational_intent':{'reference':{@R,'ovn':'short'},'details':1}}
130|{'operational_intent':{'reference':{@R,'ovn':'ovn 000000000000001'},'details':1}}
402 volumes|{'operational_intent':{'reference':{@R},'details':{}}}
403 volumes|{'operational_intent':{'reference':{@R},'details':{'volumes':{}}}}
403 volumes|{'operational_intent':{'reference':{@R},'details':{'volumes':[1],'priority':null}}}
402 volume|{'operational_intent':{'reference':{@R},'details':{'volumes':[{}]}}}
404 outline_circle|{'operational_intent':{'reference':{@R},'details':{'volumes':[@V,{'volume':{'outline_circle':1}}]}}}
403 off_nominal_volumes|{'operational_intent':{'reference':{@R},'details':{'off_nominal_volumes':null,'priority':null,'volumes':[]}}}
403 priority|{'operational_intent':{'reference':{@R},'details':{'priority':null,'volumes':[]}}}
403 priority|{'operational_intent':{'reference':{@R},'details':{'priority':65536,'volumes':[]}}}
403 priority|{'operational_intent':{'reference':{@R},'details':{'priority':1.0,'volumes':[@V]}}}
124|{'operational_intent':{'reference':{@R},'details':{'volumes':[]}}}
124|{'operational_intent':{'reference':{@R},'details':{'priority':1001,'volumes':[]}}}
125|{'operational_intent':{'reference':{@R},'details':{'priority':1001,'volumes':[@V]}}}
read|{'operational_intent':{'reference':{@R},'details':{'priority':1000,'volumes':[@V]}}}
123|{'operational_intent':{'reference':{@R},'details':{'off_nominal_volumes':[@V],'volumes':[]}}}
123|{'operational_intent':{'reference':{@R,'state':'Activated'},'details':{'off_nominal_volumes':[@V],'priority':1001,'volumes':[@V]}}}
read|{'operational_intent':{'reference':{@R,'state':'Contingent'},'details':{'off_nominal_volumes':[@V],'volumes':[]}}}
403 time_start|{'operational_intent':{'reference':{@R,'time_start':@L},'details':@D}}
403 time_start|{'operational_intent':{'reference':{@R,'time_start':@L,'time_end':@L},'details':@D}}
403 time_end|{'operational_intent':{'reference':{@R,'time_end':@L},'details':@D}}
125|{'operational_intent':{'reference':{@R,'time_end':@L},'details':{'priority':1001,'volumes':[@V]}}}";

// A notification.
const NOTES: &str = "\
read|{'operational_intent_id':'@F','subscriptions':[@W]}
read|{'operational_intent_id':'@U','operational_intent':@I,'subscriptions':[@W]}
403|1
402 operational_intent_id|{}
403 operational_intent_id|{'operational_intent_id':'uss1','operational_intent':null}
403 operational_intent_id|{'operational_intent_id':'0000000A-0000-4000-8000-000000000001'}
403 operational_intent_id|{'operational_intent_id':'00000001000040008000000000000001'}
403 operational_intent|{'operational_intent_id':'@F','operational_intent':null}
124|{'operational_intent_id':'@F','operational_intent':{'reference':{@R},'details':{'volumes':[]}},'subscriptions':[1,2]}
402 subscriptions|{'operational_intent_id':'@F'}
403 subscriptions|{'operational_intent_id':'@F','subscriptions':{}}
403 subscriptions|{'operational_intent_id':'@F','subscriptions':[]}
403 subscriptions|{'operational_intent_id':'@F','subscriptions':[1]}
406 subscriptions|{'operational_intent_id':'@F','subscriptions':[1,2]}
406 subscriptions|{'operational_intent_id':'@F','subscriptions':[@W,@W]}
402 subscription_id|{'operational_intent_id':'@F','subscriptions':[{}]}
402 notification_index|{'operational_intent_id':'@F','subscriptions':[{'subscription_id':'@U'}]}
403 notification_index|{'operational_intent_id':'@F','subscriptions':[{'subscription_id':'@U','notification_index':-1}]}
403 notification_index|{'operational_intent_id':'@F','subscriptions':[{'subscription_id':'@U','notification_index':1.5}]}";

// A request of an operator.
const ASKS: &str = "\
read|{'flight':1,'number':2,'wish':'end'}
read|{'flight':1,'number':2,'wish':'end','to':5}
read|{'flight':-1,'number':2,'wish':'end','flight':1}
403 wish|{'flight':1,'number':2,'wish':'stop'}
403 wish|{'flight':1,'number':2,'wish':'Put'}
403 wish|{'flight':1,'number':2,'wish':null}
402 wish|{'flight':1,'number':2}
402 number|{'flight':1,'wish':'stop'}
402 flight|{}
402 to|{'flight':1,'number':2,'wish':'put'}
403 to|{'flight':1,'number':2,'wish':'put','to':'Ended'}
402 priority|{'flight':1,'number':2,'wish':'put','to':'Accepted'}
403 priority|{'flight':1,'number':2,'wish':'put','to':'Accepted','priority':65536}
403 priority|{'flight':1,'number':2,'wish':'put','to':'Accepted','priority':-1}
402 rounds|{'flight':1,'number':2,'wish':'put','to':'Accepted','priority':65535}
403 rounds|{'flight':1,'number':2,'wish':'put','to':'Accepted','priority':0,'rounds':256}
402 alternatives|{'flight':1,'number':2,'wish':'put','to':'Accepted','priority':0,'rounds':255}
read|{'flight':1,'number':2,'wish':'put','to':'Accepted','priority':0,'rounds':0,'alternatives':[]}
403 alternatives|{'flight':1,'number':2,'wish':'put','to':'Accepted','priority':0,'rounds':4,'alternatives':{}}
403 alternatives|{'flight':1,'number':2,'wish':'put','to':'Accepted','priority':0,'rounds':4,'alternatives':[1]}
402 volumes|{'flight':1,'number':2,'wish':'put','to':'Accepted','priority':0,'rounds':4,'alternatives':[{}]}
read|{'flight':1,'number':2,'wish':'put','to':'Accepted','priority':0,'rounds':4,'alternatives':[{'volumes':[]}]}
403 off_nominal_volumes|{'flight':1,'number':2,'wish':'put','to':'Accepted','priority':0,'rounds':4,'alternatives':[{'volumes':[],'off_nominal_volumes':null}]}
404 outline_circle|{'flight':1,'number':2,'wish':'put','to':'Accepted','priority':0,'rounds':4,'alternatives':[{'volumes':[{'volume':{'outline_circle':1}}]}]}";

// A position.
const POSITIONS: &str = "\
read|{'flight':1,'number':2,'lat_e7':9223372036854775807,'lng_e7':-9223372036854775808,'altitude_mm':-5,'off_nominal_volumes':[@V]}
402 flight|{'number':2}
403 flight|{'flight':-1}
402 lat_e7|{'flight':1,'number':2,'lat':34.1,'lng_e7':4,'altitude_mm':5}
403 lat_e7|{'flight':1,'number':2,'lat_e7':1.5,'lng_e7':4,'altitude_mm':5}
402 lng_e7|{'flight':1,'number':2,'lat_e7':3,'altitude_mm':5}
403 lng_e7|{'flight':1,'number':2,'lat_e7':3,'lng_e7':9223372036854775808,'altitude_mm':5}
402 altitude_mm|{'flight':1,'number':2,'lat_e7':3,'lng_e7':4,'altitude':5}
402 off_nominal_volumes|{'flight':1,'number':2,'lat_e7':3,'lng_e7':4,'altitude_mm':5}
403 off_nominal_volumes|{'flight':1,'number':2,'lat_e7':3,'lng_e7':4,'altitude_mm':5,'off_nominal_volumes':null}
402 time_start|{'flight':1,'number':2,'lat_e7':3,'lng_e7':4,'altitude_mm':5,'off_nominal_volumes':[{'time_end':@E,'volume':@P}]}";

// The cancelling of a request.
const CANCELS: &str = "\
read|{'flight':1,'number':2}
403|null
402 flight|{'number':2}
402 number|{'flight':1}
403 number|{'flight':1,'number':'2'}
403 flight|{'flight':1e2,'number':2}";

// A sweep.
const SWEEPS: &str = "\
read|{'skip':0}
read|{'skip':18446744073709551615,'tried':null}
403|[]
402 skip|{}
403 skip|{'skip':-1}
403 skip|{'skip':1.5}
403 skip|{'skip':18446744073709551616}
403 skip|{'skip':1e308}
401|{'skip':1e400}
401|{'skip':0,'tried':-1e400}";

#[test]
fn what_suppliers_send_is_judged(rt: HostRuntime) -> Result<(), Fail> {
    let alloc = rt.alloc();
    assert_eq!(rt; first_wrong(alloc, Kind::Intent, INTENTS)?, "");
    assert_eq!(rt; first_wrong(alloc, Kind::Note, NOTES)?, "");
    Ok(())
}

#[test]
fn what_operators_send_is_judged(rt: HostRuntime) -> Result<(), Fail> {
    let alloc = rt.alloc();
    assert_eq!(rt; first_wrong(alloc, Kind::Ask, ASKS)?, "");
    assert_eq!(rt; first_wrong(alloc, Kind::Position, POSITIONS)?, "");
    assert_eq!(rt; first_wrong(alloc, Kind::Cancel, CANCELS)?, "");
    assert_eq!(rt; first_wrong(alloc, Kind::Sweep, SWEEPS)?, "");
    Ok(())
}
