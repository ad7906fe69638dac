ghost use Rattle.std.specs.Prelude.{◌≡◌, ◌++◌, ◌∷◌, [], List, IsTrue, OnOk};
ghost use Rattle.std.specs.Option.{option_copied};
ghost use Rattle.uss_event.specs.declared.entries.Entry.{Entry};
ghost use Rattle.uss_law_book.specs.Contents.{last_holding};
ghost use Rattle.uss_law_book.specs.Attempts.{held_by};
ghost use Rattle.uss_law_book.specs.Legal.{IsDue};
ghost use Rattle.uss_law_book.specs.Orderly.{IsOrderly};
ghost use Rattle.uss_book_index.specs.Flights.{flight_in};
ghost use Rattle.uss_book_index.specs.Records.{AreRecords, has_pair_room, pair_for};

use std::alloc::{AllocError, Global};
use std::collections::BTreeMap;
use uss_event::Pair;

/// What was recorded last of each flight in a list of entries, and none for a flight for which there is only room.
#[derive(Drop)]
pub(crate) struct Records {
    pairs: BTreeMap<u64, Option<Pair>>,
}

impl Records {
    /// Of no entry. Takes no memory.
    pub(crate) fn new(alloc: Global) -> Records
        ensures { AreRecords result.pairs [] }
    {
        Records {
            pairs: BTreeMap::new(alloc),
        }
    }

    /// Makes room for what is recorded of this flight.
    pub(crate) fn make_room(&mut self, flight: Option<u64>) -> Result<(), AllocError>
        ensures kept { (es : List Entry) → AreRecords self.old.pairs es → AreRecords self.new.pairs es }
        ensures room { OnOk result (IsTrue (has_pair_room self.new.pairs flight)) }
    {
        let Some(flight) = flight else {
            return Ok(());
        };
        if self.pairs.contains_key(&flight) {
            return Ok(());
        }
        match self.pairs.insert(flight, None) {
            Ok(_) => Ok(()),
            Err(_) => Err(AllocError),
        }
    }

    /// Puts in place what an entry records, which changes what is kept of this flight. Takes no memory.
    pub(crate) fn enter(&mut self, flight: Option<u64>, pair: Option<Pair>)
        requires { IsTrue (has_pair_room self.old.pairs flight) }
        ensures { (es : List Entry) (e : Entry) → AreRecords self.old.pairs es → IsOrderly es → IsDue es e → flight_in es e ≡ flight → pair_for es e ≡ pair → AreRecords self.new.pairs (es ++ e ∷ []) }
    {
        match pair {
            Some(pair) => match flight {
                Some(flight) => {
                    let _ = self.pairs.insert(flight, Some(pair));
                }
                None => {}
            },
            None => {}
        }
    }

    /// What was recorded last of the flight, whether it has ended or not.
    pub(crate) fn pair(&self, flight: u64) -> Option<&Pair>
        ensures { (es : List Entry) → AreRecords self.now.pairs es → option_copied result ≡ held_by es (last_holding flight es) }
    {
        match self.pairs.get(&flight) {
            Some(Some(pair)) => Some(pair),
            Some(None) => None,
            None => None,
        }
    }
}
