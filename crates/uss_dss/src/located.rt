//! Where things with an identifier each are: their boxes in an index.

ghost use Rattle.std.specs.Prelude.{◌≡◌, ℕ, [], List, Option, ◌||◌, Some, None, IfOk, OnOk, OnErr};
ghost use Rattle.std.specs.BTreeSet.{contains};
ghost use Rattle.std.specs.Ordering.{nat_cmp};
ghost use Rattle.uss_vol4.specs.Volume.{Volume4D};
ghost use Rattle.uss_dss.specs.Located.{number_of, whose, box_under, is_that, IsLocated, IsEntered, IsAlike, IsWithout, AreNumbersKept, IsNumbered, is_near, meets, IsBounded};

use std::alloc::{AllocError, Global};
use std::collections::{BTreeMap, BTreeSet};
use uss_index::Grid;
use uss_vol4::{Box4, Volume4};

/// The boxes of things, each under a number that nothing else has or had.
#[derive(Drop)]
pub(crate) struct Located {
    pub(crate) boxes: Grid,
    /// Whose box it is, by number.
    pub(crate) ids: BTreeMap<u64, u128>,
    /// The number of each one's box.
    pub(crate) numbers: BTreeMap<u128, u64>,
}

impl Located {
    /// Nothing. Takes no memory.
    pub(crate) fn new(alloc: Global) -> Located
        ensures { IsLocated (λ id. None) result }
    {
        Located {
            boxes: Grid::new(alloc),
            ids: BTreeMap::new(alloc),
            numbers: BTreeMap::new(alloc),
        }
    }

    /// Takes out what stands under the number. Takes no memory.
    fn take(&mut self, number: u64)
        ensures without { IsWithout (Some number) self.old self.new }
        ensures kept { AreNumbersKept self.old self.new }
    {
        let _ = self.boxes.remove(number);
        let _ = self.ids.remove(&number);
    }

    /// Puts the box under a number that has none, and tells the number that the identifier had before, whose box stays. Out of memory,
    /// every box is where it was.
    pub(crate) fn enter(
        &mut self,
        number: u64,
        id: u128,
        b: Box4,
    ) -> Result<Option<u64>, AllocError>
        requires { box_under number self.old ≡ None }
        ensures previous { IfOk result (λ previous. previous ≡ number_of id self.old) }
        ensures ok { OnOk result (IsEntered number id b self.old self.new) }
        ensures err { OnErr result (IsAlike number self.old self.new) }
    {
        self.boxes.insert(number, b)?;
        let Ok(_) = self.ids.insert(number, id) else {
            let _ = self.boxes.remove(number);
            return Err(AllocError);
        };
        match self.numbers.insert(id, number) {
            Ok(previous) => Ok(previous),
            Err(_) => {
                self.take(number);
                Err(AllocError)
            }
        }
    }

    /// Undoes `enter`, which told the number from before. Takes no memory.
    pub(crate) fn undo(&mut self, number: u64, id: u128, previous: Option<u64>)
        requires { number_of id self.old ≡ Some number }
        ensures without { IsWithout (Some number) self.old self.new }
        ensures numbered { IsNumbered id previous self.old self.new }
    {
        self.take(number);
        match previous {
            Some(n) => {
                let _ = self.numbers.insert(id, n);
            }
            None => {
                let _ = self.numbers.remove(&id);
            }
        }
    }

    /// Takes out what stands under the number, where there is one: the box that an identifier had before. Takes no memory.
    pub(crate) fn forget(&mut self, number: Option<u64>)
        ensures without { IsWithout number self.old self.new }
        ensures kept { AreNumbersKept self.old self.new }
    {
        match number {
            Some(n) => self.take(n),
            None => {}
        }
    }

    /// Takes out the identifier with its box. Takes no memory.
    pub(crate) fn leave(&mut self, id: u128)
        ensures without { IsWithout (number_of id self.old) self.old self.new }
        ensures numbered { IsNumbered id None self.old self.new }
    {
        let number = self.numbers.remove(&id);
        self.forget(number);
    }

    /// Adds the identifier of whose box stands under the number.
    fn add_owner(&self, n: &u64, near: &mut BTreeSet<u128>) -> Result<(), AllocError>
        ensures { OnOk result ((k : ℕ) → contains nat_cmp near.new k ≡ (contains nat_cmp near.old k || is_that (whose n.now self.now) k)) }
    {
        let Some(id) = self.ids.get(n) else {
            return Ok(());
        };
        match near.insert(*id) {
            Ok(_) => Ok(()),
            Err(_) => Err(AllocError),
        }
    }

    /// Adds the identifiers of those whose box has a point in common with `q`. It looks at no other but as the index does.
    pub(crate) fn add_near(
        &self,
        alloc: Global,
        q: &Box4,
        near: &mut BTreeSet<u128>,
    ) -> Result<(), AllocError>
        ensures { OnOk result ((what : ℕ → Option (List Volume4D)) → IsLocated what self.now → (id : ℕ) → contains nat_cmp near.new id ≡ (contains nat_cmp near.old id || is_near q.now (what id))) }
    {
        let mut numbers = Vec::new(alloc);
        self.boxes.candidates(q, &mut numbers)?;
        for n in &numbers {
            self.add_owner(n, near)?;
        }
        Ok(())
    }

    /// The same with the bounding box of these volumes. Where there is none, it adds nothing.
    pub(crate) fn add_meeting(
        &self,
        alloc: Global,
        volumes: &[Volume4],
        near: &mut BTreeSet<u128>,
    ) -> Result<(), AllocError>
        ensures near { OnOk result ((what : ℕ → Option (List Volume4D)) → IsLocated what self.now → (id : ℕ) → contains nat_cmp near.new id ≡ (contains nat_cmp near.old id || meets volumes.now (what id))) }
        ensures bounded { IsBounded volumes.now }
    {
        if volumes.is_empty() {
            return Ok(());
        }
        self.add_near(alloc, &Volume4::bounding(volumes), near)
    }
}
