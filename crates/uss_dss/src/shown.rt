//! References as clients see them.

ghost use Rattle.std.specs.Prelude.{◌≡◌, IfOk};
ghost use Rattle.uss_law_dss.specs.Service.{shown_to};

use std::alloc::AllocError;
use uss_intent::{Name, Reference};

/// The reference as it is shown to the client: its OVN is shown to its manager alone.
pub(crate) fn shown(client: &Name, r: &Reference) -> Result<Reference, AllocError>
    ensures { IfOk result (λ s. s ≡ shown_to client.now r.now) }
{
    let mut copy = r.clone()?;
    if r.manager != *client {
        copy.ovn = None;
    }
    Ok(copy)
}
