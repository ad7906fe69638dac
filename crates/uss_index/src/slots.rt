ghost use Rattle.std.specs.Prelude.{◌≡◌, ◌++◌, [], ◌<◌, ◌^◌, ◌&&◌, Bool, true, false, filter, count_by, OnOk, OnErr};
ghost use Rattle.std.specs.List.Sorted.{IsPermutation};
ghost use Rattle.std.specs.BTreeMap as tree;
ghost use Rattle.uss_index.specs.declared.slot.Slot.{Slot};
ghost use Rattle.uss_index.specs.SlotOrder.{slot_cmp};
ghost use Rattle.uss_index.specs.Points.{have_common_point};
ghost use Rattle.uss_index.specs.Cells.{cells_of, AreInOrder};
ghost use Rattle.uss_index.specs.Slots.{is_slot_of, is_slot_in, AreSet, AreKept, is_first_common, is_counted_in, is_counted, first_slot, last_slot, ids_of};

use crate::cells::Cells;
use crate::points::have_common_point;
use crate::slot::Slot;
use std::alloc::{AllocError, Global};
use std::collections::BTreeMap;
use uss_vol4::Box4;

/// Boxes by the cells that they touch and by their identifiers.
#[derive(Drop)]
pub(crate) struct Slots {
    boxes: BTreeMap<Slot, Box4>,
}

impl Slots {
    /// No box. Takes no memory.
    pub(crate) fn new(alloc: Global) -> Slots
        ensures { result.boxes.entries ≡ [] }
    {
        Slots {
            boxes: BTreeMap::new(alloc),
        }
    }

    /// Puts the box into these cells, where nothing of its identifier stands. Out of memory, nothing changes.
    pub(crate) fn enter(&mut self, id: u64, b: &Box4, cells: Cells) -> Result<(), AllocError>
        requires in_order { AreInOrder cells }
        requires absent { (s : Slot) → is_slot_of id cells s ≡ true → tree.get slot_cmp self.old.boxes s ≡ None }
        ensures ok { OnOk result (AreSet (is_slot_of id cells) (Some b.now) self.old.boxes self.new.boxes) }
        ensures err { OnErr result (AreKept (λ _. false) self.old.boxes self.new.boxes) }
    {
        for x in cells.left..cells.right + 1 {
            let Ok(()) = self.enter_column(id, b, cells, x) else {
                self.leave(id, cells);
                return Err(AllocError);
            };
        }
        Ok(())
    }

    /// Puts the box into those of these cells that stand in this column. Out of memory, some may have it and others not.
    fn enter_column(&mut self, id: u64, b: &Box4, cells: Cells, x: i64) -> Result<(), AllocError>
        requires { AreInOrder cells }
        ensures ok { OnOk result (AreSet (is_slot_in id cells x) (Some b.now) self.old.boxes self.new.boxes) }
        ensures err { OnErr result (AreKept (is_slot_in id cells x) self.old.boxes self.new.boxes) }
    {
        for y in cells.bottom..cells.top + 1 {
            let Ok(_) = self.boxes.insert(Slot { x, y, id }, *b) else {
                return Err(AllocError);
            };
        }
        Ok(())
    }

    /// Takes what stands under this identifier out of these cells. Takes no memory.
    pub(crate) fn leave(&mut self, id: u64, cells: Cells)
        requires { AreInOrder cells }
        ensures { AreSet (is_slot_of id cells) None self.old.boxes self.new.boxes }
    {
        for x in cells.left..cells.right + 1 {
            self.leave_column(id, cells, x);
        }
    }

    fn leave_column(&mut self, id: u64, cells: Cells, x: i64)
        requires { AreInOrder cells }
        ensures { AreSet (is_slot_in id cells x) None self.old.boxes self.new.boxes }
    {
        for y in cells.bottom..cells.top + 1 {
            let _ = self.boxes.remove(&Slot { x, y, id });
        }
    }

    /// Adds the identifiers of the boxes of these cells that have a point in common with `q`, each where its first common cell stands.
    pub(crate) fn gather(
        &self,
        q: &Box4,
        cells: Cells,
        found: &mut Vec<u64>,
    ) -> Result<(), AllocError>
        requires { AreInOrder cells }
        ensures found { OnOk result (IsPermutation (found.old.items ++ ids_of (filter (λ e. is_counted cells e && have_common_point q.now e.1) self.now.boxes.entries)) found.new.items) }
        ensures ordered { tree.IsOrdered slot_cmp self.now.boxes }
    {
        if self.boxes.len() == 0 {
            return Ok(());
        }
        for x in cells.left..cells.right + 1 {
            self.gather_column(q, cells, x, found)?;
        }
        Ok(())
    }

    fn gather_column(
        &self,
        q: &Box4,
        cells: Cells,
        x: i64,
        found: &mut Vec<u64>,
    ) -> Result<(), AllocError>
        requires { AreInOrder cells }
        ensures { OnOk result (found.new.items ≡ found.old.items ++ ids_of (filter (λ e. is_counted_in cells x e && have_common_point q.now e.1) self.now.boxes.entries)) }
    {
        for (slot, b) in self.boxes.range(first_slot(cells, x)..last_slot(cells, x)) {
            if is_found(cells, q, *slot, b) {
                found.push(slot.id)?;
            }
        }
        Ok(())
    }

    /// How many boxes stand in these cells, each counted where its first common cell stands. Takes no memory.
    pub(crate) fn count(&self, cells: Cells) -> usize
        requires { AreInOrder cells }
        ensures value { result ≡ count_by (is_counted cells) self.now.boxes.entries }
        ensures bound { result < 2 ^ 63 }
        ensures ordered { tree.IsOrdered slot_cmp self.now.boxes }
    {
        let mut all = 0;
        if self.boxes.len() == 0 {
            return all;
        }
        for x in cells.left..cells.right + 1 {
            all += self.count_column(cells, x);
        }
        all
    }

    fn count_column(&self, cells: Cells, x: i64) -> usize
        requires { AreInOrder cells }
        ensures { result ≡ count_by (is_counted_in cells x) self.now.boxes.entries }
    {
        let mut all = 0;
        for (slot, b) in self.boxes.range(first_slot(cells, x)..last_slot(cells, x)) {
            if is_first_common(cells, *slot, b) {
                all += 1;
            }
        }
        all
    }
}

/// The first slot that may be in these cells' rows of the column.
fn first_slot(cells: Cells, x: i64) -> Slot
    ensures { result ≡ first_slot cells x }
{
    Slot {
        x,
        y: cells.bottom,
        id: 0,
    }
}

/// The first slot beyond them.
fn last_slot(cells: Cells, x: i64) -> Slot
    requires { AreInOrder cells }
    ensures { result ≡ last_slot cells x }
{
    Slot {
        x,
        y: cells.top + 1,
        id: 0,
    }
}

/// Whether the slot stands in the first cell, least column and then least row, that its box has in common with these.
fn is_first_common(cells: Cells, slot: Slot, b: &Box4) -> bool
    ensures { result ≡ is_first_common cells (slot, b.now) }
{
    let own = Cells::of(b);
    if slot.x != cells.left.max(own.left) {
        return false;
    }
    slot.y == cells.bottom.max(own.bottom)
}

/// Whether the slot stands there and its box has a point in common with `q`.
fn is_found(cells: Cells, q: &Box4, slot: Slot, b: &Box4) -> bool
    ensures { result ≡ (is_first_common cells (slot, b.now) && have_common_point q.now b.now) }
{
    is_first_common(cells, slot, b) && have_common_point(q, b)
}
