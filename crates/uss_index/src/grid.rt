ghost use Rattle.std.specs.Prelude.{◌≡◌, ℕ, nat_eq, [], is_some, if◌then◌else◌, OnOk, OnErr};
ghost use Rattle.std.specs.BTreeMap.{is_at, insert_entry};
ghost use Rattle.std.specs.Map.{remove_entry};
ghost use Rattle.std.specs.Ordering.{nat_cmp};
ghost use Rattle.uss_index.specs.Boxes.{AreAscending, box_at, candidates_of, AreCandidates, looked_at};

use crate::cells::Cells;
use crate::places::{Places, sift};
use std::alloc::{AllocError, Global};
use std::collections::BTreeMap;
use std::marker::Model;
use uss_vol4::Box4;

/// Boxes by identifier, from which those that have a point in common with another box are found. A contract sees the list of the
/// identifiers with their boxes, ascending.
#[derive(Drop)]
pub struct Grid {
    boxes: BTreeMap<u64, Box4>,
    /// Where each of them stands.
    places: Places,
}

impl Model for Grid {
    ghost use Rattle.uss_index.specs.Boxes.{Boxes};
    ghost use Rattle.uss_index.specs.Places.{IsGrid};

    ghost Value = { Boxes };

    ghost view = { λ g. g.boxes.entries };

    ghost invariant = { λ g. IsGrid g.boxes g.places.slots.boxes g.places.wide };
}

impl Grid {
    /// No box. Takes no memory.
    pub fn new(alloc: Global) -> Grid
        ensures { result ≡ [] }
    {
        Grid {
            boxes: BTreeMap::new(alloc),
            places: Places::new(alloc),
        }
    }

    /// Puts a box under an identifier that isn't there. Out of memory, nothing changes.
    pub fn insert(&mut self, id: u64, b: Box4) -> Result<(), AllocError>
        requires { box_at self.old id ≡ None }
        ensures ok { OnOk result (self.new ≡ insert_entry nat_cmp self.old id b) }
        ensures found { OnOk result ((k : ℕ) → box_at self.new k ≡ (if nat_eq k id then Some b else box_at self.old k)) }
        ensures err { OnErr result (self.new ≡ self.old) }
        ensures ascending { AreAscending self.new }
    {
        let Ok(_) = self.boxes.insert(id, b) else {
            return Err(AllocError);
        };
        match self.places.enter(id, b) {
            Ok(()) => Ok(()),
            Err(wanting) => {
                let _ = self.boxes.remove(&id);
                Err(wanting)
            }
        }
    }

    /// Takes the box under this identifier out, and tells whether there was one. Takes no memory.
    pub fn remove(&mut self, id: u64) -> bool
        ensures was_there { result ≡ is_some (box_at self.old id) }
        ensures removed { self.new ≡ remove_entry (is_at (nat_cmp id)) self.old }
        ensures found { (k : ℕ) → box_at self.new k ≡ (if nat_eq k id then None else box_at self.old k) }
        ensures ascending { AreAscending self.new }
    {
        let Some(b) = self.boxes.remove(&id) else {
            return false;
        };
        self.places.leave(id, &b);
        true
    }

    /// Fills `found` with the identifiers, ascending, of all boxes that have a point in common with `q`. Out of memory, `found` is
    /// empty. It takes memory for `found` alone, and none where that has room enough.
    pub fn candidates(&self, q: &Box4, found: &mut Vec<u64>) -> Result<(), AllocError>
        ensures value { OnOk result (found.new.items ≡ candidates_of self.now q.now) }
        ensures points { OnOk result (AreCandidates self.now q.now found.new.items) }
        ensures err { OnErr result (found.new.items ≡ []) }
        ensures ascending { AreAscending self.now }
    {
        found.clear();
        match self.gather(q, found) {
            Ok(()) => Ok(()),
            Err(wanting) => {
                found.clear();
                Err(wanting)
            }
        }
    }

    /// At how many boxes `candidates` looks for this box: at all where it touches more than 64 cells, and else at those that do and at
    /// those in its cells, each once. Takes no memory.
    pub fn looked(&self, q: &Box4) -> usize
        ensures { result ≡ looked_at self.now q.now }
    {
        let cells = Cells::of(q);
        if cells.are_many() {
            return self.boxes.len();
        }
        self.places.count(cells)
    }

    fn gather(&self, q: &Box4, found: &mut Vec<u64>) -> Result<(), AllocError>
        requires { found.old.items ≡ [] }
        ensures value { OnOk result (found.new.items ≡ candidates_of self.now q.now) }
        ensures points { AreCandidates self.now q.now (candidates_of self.now q.now) }
        ensures ascending { AreAscending self.now }
    {
        let cells = Cells::of(q);
        if cells.are_many() {
            return sift(&self.boxes, q, found);
        }
        self.places.gather(q, cells, found)?;
        found.sort_unstable();
        Ok(())
    }
}
