ghost use Rattle.std.specs.Prelude.{◌≡◌};
ghost use Rattle.uss_route.specs.Patterns.{rows_of};

use crate::rows::RouteRow;

/// A path of the table, for all of its methods and whatever its parameters.
#[derive(Clone, Copy, Debug)]
pub(crate) enum RoutePath {
    /// `/dss/v1/operational_intent_references/query`
    ReferenceQuery,
    /// `/dss/v1/operational_intent_references/{entityid}`
    Reference,
    /// `/dss/v1/operational_intent_references/{entityid}/{ovn}`
    ReferenceVersion,
    /// `/dss/v1/subscriptions/query`
    TicketQuery,
    /// `/dss/v1/subscriptions/{subscriptionid}`
    Ticket,
    /// `/dss/v1/subscriptions/{subscriptionid}/{version}`
    TicketVersion,
    /// `/uss/v1/operational_intents`
    Intents,
    /// `/uss/v1/operational_intents/{entityid}`
    Intent,
    /// `/operator/v1/asks`
    Asks,
    /// `/operator/v1/cancels`
    Cancels,
    /// `/operator/v1/positions`
    Positions,
    /// `/operator/v1/sweeps`
    Sweeps,
}

/// The pattern of each path, and of those of a supplier the pattern after a tag too.
pub(crate) const PATTERNS: [(&str, RoutePath); 18] = [
    (
        "/dss/v1/operational_intent_references/query",
        RoutePath::ReferenceQuery,
    ),
    (
        "/dss/v1/operational_intent_references/{entityid}",
        RoutePath::Reference,
    ),
    (
        "/dss/v1/operational_intent_references/{entityid}/{ovn}",
        RoutePath::ReferenceVersion,
    ),
    ("/dss/v1/subscriptions/query", RoutePath::TicketQuery),
    ("/dss/v1/subscriptions/{subscriptionid}", RoutePath::Ticket),
    (
        "/dss/v1/subscriptions/{subscriptionid}/{version}",
        RoutePath::TicketVersion,
    ),
    ("/uss/v1/operational_intents", RoutePath::Intents),
    ("/uss/v1/operational_intents/{entityid}", RoutePath::Intent),
    ("/operator/v1/asks", RoutePath::Asks),
    ("/operator/v1/cancels", RoutePath::Cancels),
    ("/operator/v1/positions", RoutePath::Positions),
    ("/operator/v1/sweeps", RoutePath::Sweeps),
    ("/a/{tag}/uss/v1/operational_intents", RoutePath::Intents),
    (
        "/a/{tag}/uss/v1/operational_intents/{entityid}",
        RoutePath::Intent,
    ),
    ("/a/{tag}/operator/v1/asks", RoutePath::Asks),
    ("/a/{tag}/operator/v1/cancels", RoutePath::Cancels),
    ("/a/{tag}/operator/v1/positions", RoutePath::Positions),
    ("/a/{tag}/operator/v1/sweeps", RoutePath::Sweeps),
];

impl RoutePath {
    /// The rows of the path, in the order of the table.
    pub(crate) fn rows(self) -> &'static [RouteRow]
        ensures { result.now ≡ rows_of self }
    {
        match self {
            RoutePath::ReferenceQuery => &[RouteRow::DssQuery],
            RoutePath::Reference => &[RouteRow::DssGet, RouteRow::DssCreate],
            RoutePath::ReferenceVersion => &[RouteRow::DssChange, RouteRow::DssRemove],
            RoutePath::TicketQuery => &[RouteRow::TicketQuery],
            RoutePath::Ticket => &[RouteRow::TicketPut, RouteRow::TicketGet],
            RoutePath::TicketVersion => &[RouteRow::TicketRemove, RouteRow::TicketChange],
            RoutePath::Intents => &[RouteRow::Notified],
            RoutePath::Intent => &[RouteRow::Details],
            RoutePath::Asks => &[RouteRow::Asks],
            RoutePath::Cancels => &[RouteRow::Cancels],
            RoutePath::Positions => &[RouteRow::Positions],
            RoutePath::Sweeps => &[RouteRow::Sweeps],
        }
    }
}
