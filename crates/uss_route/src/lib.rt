//! The routes of requests: which call or event the method and the path of a request name.
//!
//! ```
//! let routes = Routes::new(alloc)?;
//! match routes.route(alloc, request.method.as_slice(), request.path.as_slice()) {
//!     Ok(Route { row: RouteRow::DssChange, first, second }) => {
//!         let ovn = ovn_of_segment(alloc, second.as_slice())?;
//!         change(first, ovn, request.body)
//!     }
//!     Ok(route) => serve(route, request.body),
//!     Err(HttpRefusal::WrongMethod { allowed }) => refuse(437, allowed),
//!     Err(refusal) => refuse_by(refusal.number()),
//! }
//! ```
//!
//! `specs/Rows.antt` has the table, `specs/Served.antt` which of its rows are served at a path, `specs/Routes.antt` how a path is
//! looked up in it, `specs/Patterns.antt` that the router finds the rows of each path, `specs/Ovns.antt` how an OVN is written in
//! one.
#![tactic(auto)]

mod found;
mod laws;
mod ovns;
mod paths;
mod patterns;
mod routes;
mod rows;
mod table;

pub use found::Route;
pub use laws::{
    only_served_paths, ovns_are_read_again, paths_are_texts_and_parameters, refused_targets,
    tags_are_dropped, written_paths_are_routed,
};
pub use ovns::{ovn_of_segment, segment_of_ovn};
pub use rows::RouteRow;
pub use table::Routes;
