use std::alloc::Global;
use std::test::Fail;
use uss_http::HttpRefusal;
use uss_intent::{IntentRefusal, Ovn};
use uss_route::{RouteRow, Routes, ovn_of_segment, segment_of_ovn};

/// Methods, targets, and the row and the parameters that each is routed to.
const ROUTED: [(&str, &str, RouteRow, &str, &str); 24] = [
    (
        "POST",
        "/dss/v1/operational_intent_references/query",
        RouteRow::DssQuery,
        "",
        "",
    ),
    (
        "GET",
        "/dss/v1/operational_intent_references/x",
        RouteRow::DssGet,
        "x",
        "",
    ),
    (
        "PUT",
        "/dss/v1/operational_intent_references/x",
        RouteRow::DssCreate,
        "x",
        "",
    ),
    (
        "PUT",
        "/dss/v1/operational_intent_references/x/y",
        RouteRow::DssChange,
        "x",
        "y",
    ),
    (
        "DELETE",
        "/dss/v1/operational_intent_references/x/a%2Fb",
        RouteRow::DssRemove,
        "x",
        "a%2Fb",
    ),
    (
        "PUT",
        "/dss/v1/subscriptions/x",
        RouteRow::TicketPut,
        "x",
        "",
    ),
    (
        "GET",
        "/dss/v1/subscriptions/x",
        RouteRow::TicketGet,
        "x",
        "",
    ),
    (
        "DELETE",
        "/dss/v1/subscriptions/x/1",
        RouteRow::TicketRemove,
        "x",
        "1",
    ),
    (
        "POST",
        "/dss/v1/subscriptions/query",
        RouteRow::TicketQuery,
        "",
        "",
    ),
    (
        "PUT",
        "/dss/v1/subscriptions/x/1",
        RouteRow::TicketChange,
        "x",
        "1",
    ),
    (
        "GET",
        "/uss/v1/operational_intents/x",
        RouteRow::Details,
        "x",
        "",
    ),
    (
        "POST",
        "/uss/v1/operational_intents",
        RouteRow::Notified,
        "",
        "",
    ),
    ("POST", "/operator/v1/asks", RouteRow::Asks, "", ""),
    ("POST", "/operator/v1/cancels", RouteRow::Cancels, "", ""),
    (
        "POST",
        "/operator/v1/positions",
        RouteRow::Positions,
        "",
        "",
    ),
    ("POST", "/operator/v1/sweeps", RouteRow::Sweeps, "", ""),
    (
        "GET",
        "/a/7/uss/v1/operational_intents/x",
        RouteRow::Details,
        "x",
        "",
    ),
    (
        "POST",
        "/a/no%20number/uss/v1/operational_intents",
        RouteRow::Notified,
        "",
        "",
    ),
    ("POST", "/a/7/operator/v1/asks?b=/c", RouteRow::Asks, "", ""),
    (
        "GET",
        "/dss/v1/subscriptions/x?y",
        RouteRow::TicketGet,
        "x",
        "",
    ),
    (
        "GET",
        "/dss/v1/subscriptions/x?",
        RouteRow::TicketGet,
        "x",
        "",
    ),
    (
        "GET",
        "/dss/v1/subscriptions/querz",
        RouteRow::TicketGet,
        "querz",
        "",
    ),
    (
        "DELETE",
        "/dss/v1/subscriptions/query/1",
        RouteRow::TicketRemove,
        "query",
        "1",
    ),
    (
        "GET",
        "/uss/v1/operational_intents/é",
        RouteRow::Details,
        "é",
        "",
    ),
];

/// Methods and targets that have no route, with the number of the refusal and the methods allowed.
const REFUSED: [(&str, &str, u16, &str); 22] = [
    ("GET", "", 436, ""),
    ("GET", "/", 436, ""),
    ("GET", "dss/v1/subscriptions/x", 436, ""),
    ("GET", "/dss/v1/subscriptions", 436, ""),
    ("GET", "/dss/v1/subscriptions/", 436, ""),
    ("DELETE", "/dss/v1/subscriptions/x/", 436, ""),
    ("DELETE", "/dss/v1/subscriptions//1", 436, ""),
    ("DELETE", "/dss/v1/subscriptions/x/1/2", 436, ""),
    ("GET", "/dss/v1/subscriptionsx", 436, ""),
    ("GET", "/a/7/dss/v1/subscriptions/x", 436, ""),
    ("POST", "/a//operator/v1/asks", 436, ""),
    ("POST", "/a/7/a/7/operator/v1/asks", 436, ""),
    ("POST", "/a/7", 436, ""),
    ("POST", "/operator/v1/asks/", 436, ""),
    ("POST", "/Operator/v1/asks", 436, ""),
    ("GET", "?/dss/v1/subscriptions/x", 436, ""),
    ("GET", "/dss/v1/subscriptions/query", 437, "POST"),
    (
        "PUT",
        "/dss/v1/operational_intent_references/query",
        437,
        "POST",
    ),
    (
        "POST",
        "/dss/v1/operational_intent_references/x",
        437,
        "GET, PUT",
    ),
    (
        "get",
        "/dss/v1/operational_intent_references/x/y",
        437,
        "PUT, DELETE",
    ),
    ("GET", "/dss/v1/subscriptions/x/1", 437, "DELETE, PUT"),
    ("DELETE", "/a/7/operator/v1/sweeps", 437, "POST"),
];

/// Whether the target is routed so.
fn is_routed(
    routes: &Routes,
    alloc: Global,
    method: &str,
    target: &str,
    row: RouteRow,
    first: &str,
    second: &str,
) -> bool {
    match routes.route(alloc, method.as_bytes(), target.as_bytes()) {
        Ok(found) => {
            found.row == row
                && found.first.as_slice() == first.as_bytes()
                && found.second.as_slice() == second.as_bytes()
        }
        Err(_) => false,
    }
}

/// Whether the target is refused so.
fn is_refused(
    routes: &Routes,
    alloc: Global,
    method: &str,
    target: &[u8],
    number: u16,
    methods: &str,
) -> bool {
    match routes.route(alloc, method.as_bytes(), target) {
        Ok(_) => false,
        Err(HttpRefusal::WrongMethod { allowed }) => {
            number == 437 && allowed.as_slice() == methods.as_bytes()
        }
        Err(refusal) => refusal.number() == Some(number),
    }
}

#[test]
fn targets_are_routed(rt: HostRuntime) -> Result<(), Fail> {
    let alloc = rt.alloc();
    let routes = Routes::new(alloc)?;
    for (method, target, row, first, second) in ROUTED {
        assert!(rt;
            is_routed(&routes, alloc, method, target, row, first, second),
            "{target}"
        );
    }
    Ok(())
}

#[test]
fn other_targets_are_refused(rt: HostRuntime) -> Result<(), Fail> {
    let alloc = rt.alloc();
    let routes = Routes::new(alloc)?;
    for (method, target, number, methods) in REFUSED {
        assert!(rt;
            is_refused(&routes, alloc, method, target.as_bytes(), number, methods),
            "{target}"
        );
    }
    assert!(rt;
        is_refused(
            &routes,
            alloc,
            "GET",
            b"/dss/v1/subscriptions/\xff",
            436,
            ""
        )
    );
    Ok(())
}

/// OVNs, and each as it is written in a path.
const WRITTEN: [(&str, &str); 4] = [
    ("AZaz09-._~AZaz09", "AZaz09-._~AZaz09"),
    ("2024-05/ovn?100%", "2024-05%2Fovn%3F100%25"),
    (
        "!\"#$&'()*+,:;<=>",
        "%21%22%23%24%26%27%28%29%2A%2B%2C%3A%3B%3C%3D%3E",
    ),
    ("0123456789@[]^`{|}", "0123456789%40%5B%5D%5E%60%7B%7C%7D"),
];

/// Whether the OVN is written so, and read again.
fn is_written(alloc: Global, text: &str, segment: &str) -> bool {
    let Ok(ovn) = Ovn::of(alloc, text.as_bytes()) else {
        return false;
    };
    let Ok(written) = segment_of_ovn(alloc, &ovn) else {
        return false;
    };
    written.as_str() == segment && is_read(alloc, segment.as_bytes(), text)
}

/// Whether the parameter is read as this OVN.
fn is_read(alloc: Global, segment: &[u8], text: &str) -> bool {
    match ovn_of_segment(alloc, segment) {
        Ok(ovn) => ovn.as_str() == text,
        Err(_) => false,
    }
}

/// Whether the parameter is no OVN.
fn is_no_ovn(alloc: Global, segment: &[u8]) -> bool {
    matches!(ovn_of_segment(alloc, segment), Err(IntentRefusal::BadOvn))
}

/// Parameters that aren't an OVN: for a `%`, a byte, or how many there are.
const NO_OVNS: [&str; 10] = [
    "",
    "0123456789abcde",
    "0123456789abcdef%",
    "0123456789abcdef%4",
    "0123456789abcdef%4G",
    "0123456789abcdef%%41",
    "0123456789abcdef%+1",
    "0123456789abcdef%20",
    "0123456789abcdef%C3%A9",
    "0123456789abcd%41",
];

#[test]
fn ovns_stand_in_paths(rt: HostRuntime) -> Result<(), Fail> {
    let alloc = rt.alloc();
    for (text, segment) in WRITTEN {
        assert!(rt; is_written(alloc, text, segment), "{text}");
    }
    // digits of either case, and bytes that could be written as they are
    assert!(rt; is_read(alloc, b"0123456789%2f%2F%41+/a", "0123456789//A+/a"));
    Ok(())
}

#[test]
fn other_parameters_are_no_ovns(rt: HostRuntime) -> Result<(), Fail> {
    let alloc = rt.alloc();
    for segment in NO_OVNS {
        assert!(rt; is_no_ovn(alloc, segment.as_bytes()), "{segment}");
    }
    Ok(())
}
