//! Base URLs as addresses, and calls as requests.

use crate::fixtures::{area, base, flight, own, ticket};
use std::alloc::Global;
use std::test::Fail;
use uss_intent::{Base, DssAsk, Ovn, Ovns, State, Volumes};
use uss_rest::{Address, write_call};

#[test]
fn bases_have_their_addresses(rt: HostRuntime) -> Result<(), Fail> {
    // the base; the host, the port, the value of `Host`, and what stands before a path
    let table = [
        ("http://a.test", "a.test", 80, "a.test", ""),
        ("http://A.test:80", "a.test", 80, "a.test", ""),
        ("http://a.test:8080", "a.test", 8080, "a.test:8080", ""),
        ("http://a.test:81/b/c", "a.test", 81, "a.test:81", "/b/c"),
        ("http://10.0.0.1/a/17", "10.0.0.1", 80, "10.0.0.1", "/a/17"),
        ("http://[::1]:65535", "[::1]", 65535, "[::1]:65535", ""),
    ];
    for (text, host, port, named, prefix) in table {
        let base = Base::of(rt.alloc(), text.as_bytes())?;
        let address = Address::of(rt.alloc(), &base)?;
        assert!(rt; address.host.as_str() == host);
        assert!(rt; address.port == port);
        assert!(rt; address.named.as_str() == named);
        assert!(rt; address.prefix.as_str() == prefix);
    }
    Ok(())
}

/// The creation of the first flight's reference, or the change of the one with this OVN.
fn put(alloc: Global, ovn: Option<Ovn>) -> Result<DssAsk, Fail> {
    let mut extents = Volumes::new(alloc);
    extents.push(area(alloc, 0)?)?;
    Ok(DssAsk::Put {
        flight: flight(1),
        ovn,
        extents,
        key: Ovns::new(alloc),
        state: State::Accepted,
        base: base(alloc)?,
        ticket: ticket(1),
    })
}

/// Whether the call goes out with this method and path, after the service's own path, by its client, and with a message just where the
/// method has one.
fn goes_out(alloc: Global, ask: &DssAsk, method: &str, path: &str) -> Result<bool, Fail> {
    let client = own(alloc)?;
    let base = Base::of(alloc, b"http://dss.test/x")?;
    let address = Address::of(alloc, &base)?;
    let request = write_call(alloc, &address, &client, ask)?;
    let has_message = method == "POST" || method == "PUT";
    Ok(
        request.method.as_slice() == method.as_bytes()
            && request.path.as_slice() == path.as_bytes()
            && request.client == client
            && (request.body.len() > 0) == has_message,
    )
}

#[test]
fn queries_go_out(rt: HostRuntime) -> Result<(), Fail> {
    let query = DssAsk::Query {
        area: area(rt.alloc(), 0)?,
    };
    let path = "/x/dss/v1/operational_intent_references/query";
    assert!(rt; goes_out(rt.alloc(), &query, "POST", path)?);
    Ok(())
}

#[test]
fn calls_of_references_go_out(rt: HostRuntime) -> Result<(), Fail> {
    let get = DssAsk::Get { flight: flight(1) };
    let path = "/x/dss/v1/operational_intent_references/00000001-0000-4000-8000-000000000001";
    assert!(rt; goes_out(rt.alloc(), &get, "GET", path)?);
    let creation = put(rt.alloc(), None)?;
    assert!(rt; goes_out(rt.alloc(), &creation, "PUT", path)?);
    Ok(())
}

#[test]
fn calls_with_an_ovn_go_out(rt: HostRuntime) -> Result<(), Fail> {
    let escaped = Ovn::of(rt.alloc(), b"ovn-00000000000000/%1")?;
    let change = put(rt.alloc(), Some(escaped))?;
    let path =
        "/x/dss/v1/operational_intent_references/00000001-0000-4000-8000-000000000001/ovn-00000000000000%2F%251";
    assert!(rt; goes_out(rt.alloc(), &change, "PUT", path)?);
    let remove = DssAsk::Remove {
        flight: flight(1),
        ovn: Ovn::of(rt.alloc(), b"ovn-0000000000000001")?,
    };
    let path =
        "/x/dss/v1/operational_intent_references/00000001-0000-4000-8000-000000000001/ovn-0000000000000001";
    assert!(rt; goes_out(rt.alloc(), &remove, "DELETE", path)?);
    Ok(())
}

#[test]
fn calls_of_tickets_go_out(rt: HostRuntime) -> Result<(), Fail> {
    let path = "/x/dss/v1/subscriptions/00000001-0001-4000-8000-000000000001";
    let make = DssAsk::TicketPut {
        ticket: ticket(1),
        area: area(rt.alloc(), 0)?,
        base: base(rt.alloc())?,
    };
    assert!(rt; goes_out(rt.alloc(), &make, "PUT", path)?);
    let get = DssAsk::TicketGet { ticket: ticket(1) };
    assert!(rt; goes_out(rt.alloc(), &get, "GET", path)?);
    let remove = DssAsk::TicketRemove {
        ticket: ticket(1),
        version: 1,
    };
    let path = "/x/dss/v1/subscriptions/00000001-0001-4000-8000-000000000001/1";
    assert!(rt; goes_out(rt.alloc(), &remove, "DELETE", path)?);
    Ok(())
}
