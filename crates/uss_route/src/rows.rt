ghost use Rattle.std.specs.Prelude.{◌≡◌};
ghost use Rattle.uss_route.specs.Rows.{method_of, text_of, count_of, is_of_a_supplier};

/// A call of the discovery service, or an event of a supplier: one for each method and path.
#[derive(Clone, Copy, Debug, PartialEq, Eq)]
pub enum RouteRow {
    /// `POST /dss/v1/operational_intent_references/query`
    DssQuery,
    /// `GET /dss/v1/operational_intent_references/{entityid}`
    DssGet,
    /// `PUT /dss/v1/operational_intent_references/{entityid}`
    DssCreate,
    /// `PUT /dss/v1/operational_intent_references/{entityid}/{ovn}`
    DssChange,
    /// `DELETE /dss/v1/operational_intent_references/{entityid}/{ovn}`
    DssRemove,
    /// `PUT /dss/v1/subscriptions/{subscriptionid}`
    TicketPut,
    /// `GET /dss/v1/subscriptions/{subscriptionid}`
    TicketGet,
    /// `DELETE /dss/v1/subscriptions/{subscriptionid}/{version}`
    TicketRemove,
    /// `POST /dss/v1/subscriptions/query`
    TicketQuery,
    /// `PUT /dss/v1/subscriptions/{subscriptionid}/{version}`
    TicketChange,
    /// `GET /uss/v1/operational_intents/{entityid}`
    Details,
    /// `POST /uss/v1/operational_intents`
    Notified,
    /// `POST /operator/v1/asks`
    Asks,
    /// `POST /operator/v1/cancels`
    Cancels,
    /// `POST /operator/v1/positions`
    Positions,
    /// `POST /operator/v1/sweeps`
    Sweeps,
}

/// All rows, in their order.
pub(crate) const ROWS: [RouteRow; 16] = [
    RouteRow::DssQuery,
    RouteRow::DssGet,
    RouteRow::DssCreate,
    RouteRow::DssChange,
    RouteRow::DssRemove,
    RouteRow::TicketPut,
    RouteRow::TicketGet,
    RouteRow::TicketRemove,
    RouteRow::TicketQuery,
    RouteRow::TicketChange,
    RouteRow::Details,
    RouteRow::Notified,
    RouteRow::Asks,
    RouteRow::Cancels,
    RouteRow::Positions,
    RouteRow::Sweeps,
];

impl RouteRow {
    /// The method.
    pub fn method(self) -> &'static str
        ensures { result.now ≡ method_of self }
    {
        match self {
            RouteRow::DssQuery
            | RouteRow::TicketQuery
            | RouteRow::Notified
            | RouteRow::Asks
            | RouteRow::Cancels
            | RouteRow::Positions
            | RouteRow::Sweeps => "POST",
            RouteRow::DssGet | RouteRow::TicketGet | RouteRow::Details => "GET",
            RouteRow::DssCreate
            | RouteRow::DssChange
            | RouteRow::TicketPut
            | RouteRow::TicketChange => "PUT",
            RouteRow::DssRemove | RouteRow::TicketRemove => "DELETE",
        }
    }

    /// The path as it is written out, without its parameters and the slashes before them.
    pub fn text(self) -> &'static str
        ensures { result.now ≡ text_of self }
    {
        match self {
            RouteRow::DssQuery => "/dss/v1/operational_intent_references/query",
            RouteRow::DssGet | RouteRow::DssCreate | RouteRow::DssChange | RouteRow::DssRemove =>
                "/dss/v1/operational_intent_references",
            RouteRow::TicketQuery => "/dss/v1/subscriptions/query",
            RouteRow::TicketPut
            | RouteRow::TicketGet
            | RouteRow::TicketRemove
            | RouteRow::TicketChange => "/dss/v1/subscriptions",
            RouteRow::Details | RouteRow::Notified => "/uss/v1/operational_intents",
            RouteRow::Asks => "/operator/v1/asks",
            RouteRow::Cancels => "/operator/v1/cancels",
            RouteRow::Positions => "/operator/v1/positions",
            RouteRow::Sweeps => "/operator/v1/sweeps",
        }
    }

    /// How many parameters come after the text.
    pub fn parameters(self) -> usize
        ensures { result ≡ count_of self }
    {
        match self {
            RouteRow::DssQuery
            | RouteRow::TicketQuery
            | RouteRow::Notified
            | RouteRow::Asks
            | RouteRow::Cancels
            | RouteRow::Positions
            | RouteRow::Sweeps => 0,
            RouteRow::DssGet
            | RouteRow::DssCreate
            | RouteRow::TicketPut
            | RouteRow::TicketGet
            | RouteRow::Details => 1,
            RouteRow::DssChange
            | RouteRow::DssRemove
            | RouteRow::TicketRemove
            | RouteRow::TicketChange => 2,
        }
    }

    /// Whether it is an event of a supplier, whose path is served after a tag too.
    pub fn is_of_a_supplier(self) -> bool
        ensures { result ≡ is_of_a_supplier self }
    {
        matches!(
            self,
            RouteRow::Details
                | RouteRow::Notified
                | RouteRow::Asks
                | RouteRow::Cancels
                | RouteRow::Positions
                | RouteRow::Sweeps
        )
    }
}
