ghost use Rattle.std.specs.Prelude.{◌≡◌, ◌+◌, ◌++◌, [], ◌<◌, ◌^◌, ◌&&◌, filter, count_by, length, OnOk, OnErr};
ghost use Rattle.std.specs.List.Sorted.{IsPermutation};
ghost use Rattle.std.specs.BTreeMap as tree;
ghost use Rattle.std.specs.Map.{keys_of};
ghost use Rattle.std.specs.Ordering.{nat_cmp};
ghost use Rattle.uss_index.specs.SlotOrder.{slot_cmp};
ghost use Rattle.uss_index.specs.Points.{have_common_point};
ghost use Rattle.uss_index.specs.Cells.{AreInOrder};
ghost use Rattle.uss_index.specs.Slots.{is_counted, ids_of};
ghost use Rattle.uss_index.specs.Places.{StandsAt, IsPut, AreUnchanged};

use crate::cells::Cells;
use crate::points::have_common_point;
use crate::slots::Slots;
use std::alloc::{AllocError, Global};
use std::collections::BTreeMap;
use uss_vol4::Box4;

/// Where boxes stand: in each of their cells or, where they are wide, in a list of their own.
#[derive(Drop)]
pub(crate) struct Places {
    slots: Slots,
    wide: BTreeMap<u64, Box4>,
}

impl Places {
    /// No box. Takes no memory.
    pub(crate) fn new(alloc: Global) -> Places
        ensures slots { result.slots.boxes.entries ≡ [] }
        ensures wide { result.wide.entries ≡ [] }
    {
        Places {
            slots: Slots::new(alloc),
            wide: BTreeMap::new(alloc),
        }
    }

    /// Puts a box of which nothing stands here where it belongs. Out of memory, nothing changes.
    pub(crate) fn enter(&mut self, id: u64, b: Box4) -> Result<(), AllocError>
        requires { StandsAt id None self.old.slots.boxes self.old.wide }
        ensures ok { OnOk result (IsPut id (Some b) self.old.slots.boxes self.new.slots.boxes self.old.wide self.new.wide) }
        ensures err { OnErr result (AreUnchanged self.old.slots.boxes self.new.slots.boxes self.old.wide self.new.wide) }
    {
        let cells = Cells::of(&b);
        if !cells.are_many() {
            return self.slots.enter(id, &b, cells);
        }
        match self.wide.insert(id, b) {
            Ok(_) => Ok(()),
            Err(_) => Err(AllocError),
        }
    }

    /// Takes the box out of where it stands. Takes no memory.
    pub(crate) fn leave(&mut self, id: u64, b: &Box4)
        requires { StandsAt id (Some b.now) self.old.slots.boxes self.old.wide }
        ensures { IsPut id None self.old.slots.boxes self.new.slots.boxes self.old.wide self.new.wide }
    {
        let cells = Cells::of(b);
        if cells.are_many() {
            let _ = self.wide.remove(&id);
        } else {
            self.slots.leave(id, cells);
        }
    }

    /// Adds the identifiers of the boxes that have a point in common with `q` and are wide or stand in its cells, each once.
    pub(crate) fn gather(
        &self,
        q: &Box4,
        cells: Cells,
        found: &mut Vec<u64>,
    ) -> Result<(), AllocError>
        requires { AreInOrder cells }
        ensures found { OnOk result (IsPermutation ((found.old.items ++ keys_of (filter (λ e. have_common_point q.now e.1) self.now.wide.entries)) ++ ids_of (filter (λ e. is_counted cells e && have_common_point q.now e.1) self.now.slots.boxes.entries)) found.new.items) }
        ensures wide { tree.IsOrdered nat_cmp self.now.wide }
        ensures slots { OnOk result (tree.IsOrdered slot_cmp self.now.slots.boxes) }
    {
        sift(&self.wide, q, found)?;
        self.slots.gather(q, cells, found)
    }

    /// How many boxes are wide or stand in these cells, each counted once. Takes no memory.
    pub(crate) fn count(&self, cells: Cells) -> usize
        requires { AreInOrder cells }
        ensures value { result ≡ count_by (is_counted cells) self.now.slots.boxes.entries + length self.now.wide.entries }
        ensures wide { tree.IsOrdered nat_cmp self.now.wide }
        ensures slots { tree.IsOrdered slot_cmp self.now.slots.boxes }
    {
        self.slots.count(cells) + self.wide.len()
    }
}

/// Adds the identifiers of those of these boxes that have a point in common with `q`, ascending.
pub(crate) fn sift(
    boxes: &BTreeMap<u64, Box4>,
    q: &Box4,
    found: &mut Vec<u64>,
) -> Result<(), AllocError>
    ensures found { OnOk result (found.new.items ≡ found.old.items ++ keys_of (filter (λ e. have_common_point q.now e.1) boxes.now.entries)) }
    ensures ordered { tree.IsOrdered nat_cmp boxes.now }
{
    for (id, b) in boxes {
        if have_common_point(q, b) {
            found.push(*id)?;
        }
    }
    Ok(())
}
