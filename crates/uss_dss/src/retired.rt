//! The identifiers that were removed.

ghost use Rattle.std.specs.Prelude.{◌≡◌, ◌++◌, ◌<◌, ◌^◌, [], ◌∷◌, length, OnOk, OnErr};
ghost use Rattle.uss_intent.specs.Numbers.{is_one_of};

use std::alloc::{AllocError, Global};
use std::collections::BTreeSet;
use std::marker::Model;

/// Identifiers that are never used again. A contract sees their list, in the order of their removal.
#[derive(Drop)]
pub(crate) struct Retired {
    /// They are looked up here.
    known: BTreeSet<u128>,
    /// The order of their removal.
    order: Vec<u128>,
}

impl Model for Retired {
    ghost use Rattle.std.specs.Prelude.{◌≡◌, ℕ, List};
    ghost use Rattle.std.specs.BTreeSet.{contains};
    ghost use Rattle.std.specs.Ordering.{nat_cmp};
    ghost use Rattle.uss_intent.specs.Numbers.{is_one_of};

    ghost Value = { List ℕ };

    ghost view = { λ s. s.order.items };

    ghost invariant = { λ s. (q : ℕ) → contains nat_cmp s.known q ≡ is_one_of q s.order.items };
}

impl Retired {
    /// None. Takes no memory.
    pub(crate) fn new(alloc: Global) -> Retired
        ensures { result ≡ [] }
    {
        Retired {
            known: BTreeSet::new(alloc),
            order: Vec::new(alloc),
        }
    }

    /// How many were removed.
    pub(crate) fn len(&self) -> usize
        ensures value { result ≡ length self.now }
        ensures small { result < 2 ^ 63 }
    {
        self.order.len()
    }

    /// Whether the identifier was removed, in the logarithm of how many were.
    pub(crate) fn has(&self, id: u128) -> bool
        ensures { result ≡ is_one_of id self.now }
    {
        self.known.contains(&id)
    }

    /// One identifier more. Running out of memory changes nothing.
    pub(crate) fn push(&mut self, id: u128) -> Result<(), AllocError>
        ensures ok { OnOk result (self.new ≡ self.old ++ id ∷ []) }
        ensures err { OnErr result (self.new ≡ self.old) }
    {
        self.order.reserve(1)?;
        match self.known.insert(id) {
            Ok(_) => {
                self.order.push_reserved(id);
                Ok(())
            }
            Err(_) => Err(AllocError),
        }
    }
}
