ghost use Rattle.std.specs.Prelude.{◌≡◌, ◌++◌, ◌∷◌, [], List, length, find, IsTrue, OnOk, Some, None};
ghost use Rattle.uss_event.specs.declared.entries.Entry.{Entry};
ghost use Rattle.uss_book_index.specs.Marks.{mark_of, has_mark};
ghost use Rattle.uss_book_index.specs.Firsts.{IsAt, AreFirsts, has_place};

use crate::marks::Mark;
use std::alloc::{AllocError, Global};
use std::collections::BTreeMap;

/// Where the first entry with each mark stands in a list of entries, and none for a mark for which there is only room.
#[derive(Drop)]
pub(crate) struct Firsts {
    places: BTreeMap<Mark, Option<usize>>,
}

impl Firsts {
    /// Of no entry. Takes no memory.
    pub(crate) fn new(alloc: Global) -> Firsts
        ensures { AreFirsts result.places [] }
    {
        Firsts {
            places: BTreeMap::new(alloc),
        }
    }

    /// Makes room for the place of an entry with this mark.
    pub(crate) fn make_room(&mut self, mark: Mark) -> Result<(), AllocError>
        ensures kept { (es : List Entry) → AreFirsts self.old.places es → AreFirsts self.new.places es }
        ensures room { OnOk result (IsTrue (has_place self.new.places mark)) }
    {
        if self.places.contains_key(&mark) {
            return Ok(());
        }
        match self.places.insert(mark, None) {
            Ok(_) => Ok(()),
            Err(_) => Err(AllocError),
        }
    }

    /// Takes down that an entry with this mark comes at this place. Takes no memory.
    pub(crate) fn enter(&mut self, mark: Mark, place: usize)
        requires { IsTrue (has_place self.old.places mark) }
        ensures { (es : List Entry) (e : Entry) → AreFirsts self.old.places es → mark_of e ≡ mark → length es ≡ place → AreFirsts self.new.places (es ++ e ∷ []) }
    {
        match self.places.get(&mark) {
            Some(None) => {
                let _ = self.places.insert(mark, Some(place));
            }
            Some(Some(_)) => {}
            None => {}
        }
    }

    /// Where the first entry with the mark stands.
    pub(crate) fn place(&self, mark: Mark) -> Option<usize>
        ensures { (es : List Entry) → AreFirsts self.now.places es → IsAt es (Some result) (find (has_mark mark) es) }
    {
        match self.places.get(&mark) {
            Some(place) => *place,
            None => None,
        }
    }
}
