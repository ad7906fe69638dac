ghost use Rattle.std.specs.Prelude.{◌≡◌, ◌⊎◌, ◌∷◌, true, Err, IfOk};
ghost use Rattle.uss_http.specs.declared.refusal.HttpRefusal.{HttpRefusal};
ghost use Rattle.uss_route.specs.Routes as spec;
ghost use Rattle.uss_route.specs.Routes.{route_of};

use crate::found::Route;
use crate::paths::{before, parameters, untagged};
use crate::rows::RouteRow;
use crate::table::Routes;
use std::alloc::{AllocError, Global};
use std::str::from_utf8;
use uss_http::{Bytes, HttpRefusal};

/// The first row with this method.
fn with_method(method: &[u8], rows: &[RouteRow]) -> Option<RouteRow>
    ensures { result ≡ spec.with_method method.now rows.now }
{
    for row in rows {
        if row.method().as_bytes() == method {
            return Some(*row);
        }
    }
    None
}

/// The methods of this row and of more, joined by a comma and a space.
fn joined(alloc: Global, row: RouteRow, rows: &[RouteRow]) -> Result<Vec<u8>, AllocError>
    ensures { IfOk result (λ text. text.items ≡ spec.joined (row ∷ rows.now)) }
{
    let mut text = Vec::from_slice(alloc, row.method().as_bytes())?;
    for more in rows {
        text.extend_from_slice(b", ")?;
        text.extend_from_slice(more.method().as_bytes())?;
    }
    Ok(text)
}

/// Why there is no route with the method among these rows.
fn refused(alloc: Global, rows: &[RouteRow]) -> HttpRefusal
    ensures { (result ≡ HttpRefusal.Memory) ⊎ (result ≡ spec.refused rows.now) }
{
    let (row, more) = match rows.split_first() {
        Some(parts) => parts,
        None => return HttpRefusal::NoRoute,
    };
    match joined(alloc, *row, more) {
        Ok(allowed) => HttpRefusal::WrongMethod {
            allowed: Bytes::from_vec(allowed),
        },
        Err(AllocError) => HttpRefusal::Memory,
    }
}

/// The route of this row at this path.
fn route_at(alloc: Global, path: &[u8], row: RouteRow) -> Result<Route, AllocError>
    requires { spec.fits row path.now ≡ true }
    ensures { IfOk result (λ route. route ≡ spec.route_at path.now row) }
{
    let (first, second) = match parameters(row, path) {
        Some(found) => found,
        None => (b"".as_slice(), b"".as_slice()),
    };
    Ok(Route {
        row,
        first: Bytes::from_vec(Vec::from_slice(alloc, first)?),
        second: Bytes::from_vec(Vec::from_slice(alloc, second)?),
    })
}

impl Routes {
    /// The route of a method at a path without query.
    fn route_on(&self, alloc: Global, method: &[u8], path: &str) -> Result<Route, HttpRefusal>
        ensures { (result ≡ Err HttpRefusal.Memory) ⊎ (result ≡ spec.route_on method.now path.now) }
    {
        let rows = self.rows_at(path);
        let row = match with_method(method, rows) {
            Some(row) => row,
            None => return Err(refused(alloc, rows)),
        };
        match route_at(alloc, untagged(path.as_bytes()), row) {
            Ok(route) => Ok(route),
            Err(AllocError) => Err(HttpRefusal::Memory),
        }
    }

    /// The route of a method and a target. A `?` in the target and all that follows it is dropped first. A path that is written
    /// out wins over one with a parameter, for the allowed methods too. What isn't UTF-8 has no route.
    pub fn route(&self, alloc: Global, method: &[u8], target: &[u8]) -> Result<Route, HttpRefusal>
        ensures answer { (result ≡ Err HttpRefusal.Memory) ⊎ (result ≡ route_of method.now target.now) }
    {
        let path = before(target, b'?');
        match from_utf8(path) {
            Ok(path) => self.route_on(alloc, method, path),
            Err(_) => Err(HttpRefusal::NoRoute),
        }
    }
}
