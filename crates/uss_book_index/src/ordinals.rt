ghost use Rattle.std.specs.Prelude.{◌≡◌, ◌++◌, ◌∷◌, [], List, length, slice_get, IsTrue, OnOk};
ghost use Rattle.uss_event.specs.declared.entries.Entry.{Entry};
ghost use Rattle.uss_law_book.specs.Contents.{trials_of};
ghost use Rattle.uss_book_index.specs.Ordinals.{IsPlaceOf, AreOrdinals, has_ordinal_room, ordinal_for};

use crate::ordinal::Ordinal;
use std::alloc::{AllocError, Global};
use std::collections::BTreeMap;

/// Where each attempt of each job stands in a list of entries, and none for an attempt for which there is only room.
#[derive(Drop)]
pub(crate) struct Ordinals {
    places: BTreeMap<Ordinal, Option<usize>>,
}

impl Ordinals {
    /// Of no entry. Takes no memory.
    pub(crate) fn new(alloc: Global) -> Ordinals
        ensures { AreOrdinals result.places [] }
    {
        Ordinals {
            places: BTreeMap::new(alloc),
        }
    }

    /// Makes room for the place of this attempt.
    pub(crate) fn make_room(&mut self, ordinal: Option<Ordinal>) -> Result<(), AllocError>
        ensures kept { (es : List Entry) → AreOrdinals self.old.places es → AreOrdinals self.new.places es }
        ensures room { OnOk result (IsTrue (has_ordinal_room self.new.places ordinal)) }
    {
        let Some(ordinal) = ordinal else {
            return Ok(());
        };
        if self.places.contains_key(&ordinal) {
            return Ok(());
        }
        match self.places.insert(ordinal, None) {
            Ok(_) => Ok(()),
            Err(_) => Err(AllocError),
        }
    }

    /// Takes down that an entry at this place makes this attempt, if it makes one. Takes no memory.
    pub(crate) fn enter(&mut self, ordinal: Option<Ordinal>, place: usize)
        requires { IsTrue (has_ordinal_room self.old.places ordinal) }
        ensures { (es : List Entry) (e : Entry) → AreOrdinals self.old.places es → ordinal_for es e ≡ ordinal → length es ≡ place → AreOrdinals self.new.places (es ++ e ∷ []) }
    {
        match ordinal {
            Some(ordinal) => {
                let _ = self.places.insert(ordinal, Some(place));
            }
            None => {}
        }
    }

    /// Where the attempt stands.
    pub(crate) fn place(&self, ordinal: Ordinal) -> Option<usize>
        ensures { (es : List Entry) → AreOrdinals self.now.places es → IsPlaceOf es result (slice_get (trials_of ordinal.job es) ordinal.number) }
    {
        match self.places.get(&ordinal) {
            Some(place) => *place,
            None => None,
        }
    }
}
