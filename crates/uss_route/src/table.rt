ghost use Rattle.std.specs.Prelude.{◌≡◌, OnOk, IfOk};
ghost use Rattle.uss_route.specs.Routes as spec;
ghost use Rattle.uss_route.specs.Routes.{is_tagged, untagged};
ghost use Rattle.uss_route.specs.Patterns.{with_pattern, IsFree, FindsRows};

use crate::patterns::{PATTERNS, RoutePath};
use crate::rows::RouteRow;
use matchit::{InsertError, Router};
use std::alloc::{AllocError, Global};
use std::marker::Model;

/// The table of routes, which a contract sees as the patterns in its router. Making it takes some time, so it is made once and
/// lent to whoever routes.
#[derive(Drop)]
pub struct Routes {
    router: Router<RoutePath>,
}

impl Model for Routes {
    ghost use Rattle.uss_route.specs.Patterns.{Table, FindsRows};

    ghost Value = { Table };

    ghost view = { λ a. a.router };

    ghost invariant = { λ a. FindsRows a.router };
}

/// Adds a pattern.
fn put(router: &mut Router<RoutePath>, pattern: &str, path: RoutePath) -> Result<(), AllocError>
    requires { IsFree router.old pattern.now }
    ensures { OnOk result (router.new ≡ with_pattern router.old (pattern.now, path)) }
{
    match router.insert(pattern, path) {
        Ok(()) => Ok(()),
        Err(InsertError::OutOfMemory) => Err(AllocError),
        Err(_) => unreachable!(),
    }
}

/// The router with all patterns.
fn table(alloc: Global) -> Result<Router<RoutePath>, AllocError>
    ensures { IfOk result FindsRows }
{
    let mut router = Router::new(alloc);
    for (pattern, path) in PATTERNS {
        put(&mut router, pattern, path)?;
    }
    Ok(router)
}

impl Routes {
    /// The table with all its routes.
    pub fn new(alloc: Global) -> Result<Routes, AllocError>
        ensures finds { IfOk result FindsRows }
    {
        Ok(Routes {
            router: table(alloc)?,
        })
    }

    /// The rows of a path.
    pub(crate) fn rows_at(&self, path: &str) -> &'static [RouteRow]
        ensures { result.now ≡ spec.rows_at (is_tagged path.now) (untagged path.now) }
    {
        match self.router.at(path) {
            Ok(found) => found.value.rows(),
            Err(_) => &[],
        }
    }
}
