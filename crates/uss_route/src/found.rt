use crate::rows::RouteRow;
use uss_http::Bytes;

/// A route: its row, and the parameters of the path as they are in it, empty where there is none.
#[derive(Debug, Drop)]
pub struct Route {
    /// The call or the event.
    pub row: RouteRow,
    /// The first parameter.
    pub first: Bytes,
    /// The second parameter.
    pub second: Bytes,
}
