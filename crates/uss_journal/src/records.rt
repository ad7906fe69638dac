ghost use Rattle.std.specs.Prelude.{◌≡◌, length, slice_get};
ghost use Rattle.std.specs.Option.{option_copied};

use crate::known::Known;
use std::marker::Model;

/// The records of a journal, the oldest first, seen as their list.
#[derive(Drop)]
pub struct Records<'a> {
    pub(crate) known: &'a Known,
}

impl<'a> Model for Records<'a> {
    ghost use Rattle.std.specs.Prelude.{List, ℕ};
    ghost use Rattle.uss_journal.specs.Gates.{Gated, records_between};

    ghost Value = { List (List ℕ) };

    ghost view = { λ r. records_between r.known.now.bytes.items 8 r.known.now.gates.items };

    ghost invariant = { λ r. Gated r.known.now.bytes.items r.known.now.gates.items r.known.now.last };
}

impl<'a> Records<'a> {
    /// How many records there are.
    pub fn count(&self) -> usize
        ensures { result ≡ length self.now }
    {
        self.known.count()
    }

    /// The record with this number, from 0, the oldest first.
    pub fn item(&self, n: usize) -> Option<&'a [u8]>
        ensures { option_copied result ≡ slice_get self.now n }
    {
        self.known.item(n)
    }
}
