ghost use Rattle.std.specs.Prelude.{◌≡◌, ◌<◌, ◌≤◌, ◌++◌, [], ◌∷◌, length, drop, find, slice_get, option_copied, IsTrue, OnOk, OnErr, IfErr, None};
ghost use Rattle.std.specs.List.{list_any};
ghost use Rattle.std.specs.Option.{option_map};
ghost use Rattle.uss_event.specs.Heard.{is_of, without};
ghost use Rattle.uss_key.specs.Kept.{may_be_kept, room_for};
ghost use Rattle.uss_intent.specs.Limits.{most_references};

use std::alloc::Global;
use std::collections::BTreeMap;
use std::marker::Model;
use uss_event::Pair;
use uss_intent::{FlightId, MOST_REFERENCES};

/// Pairs by the order in which they were heard, and by flight. A contract sees the list of the pairs, in that order; no two are of one
/// flight.
#[derive(Drop)]
pub(crate) struct Store {
    /// Each flight's number of hearing.
    numbers: BTreeMap<u128, u64>,
    /// The pairs by their number of hearing.
    pairs: BTreeMap<u64, Pair>,
    /// Above each number that was given.
    next: u64,
}

impl Model for Store {
    ghost use Rattle.std.specs.Prelude.{List};
    ghost use Rattle.std.specs.Map.{values_of};
    ghost use Rattle.uss_event.specs.Pairs.{OperationalIntent};
    ghost use Rattle.uss_key.specs.Store.{IsStore};

    ghost Value = { List OperationalIntent };

    ghost view = { λ s. values_of s.pairs.entries };

    ghost invariant = { λ s. IsStore s.numbers s.pairs s.next };
}

impl Store {
    pub(crate) fn new(alloc: Global) -> Store
        ensures { result ≡ [] }
    {
        Store {
            numbers: BTreeMap::new(alloc),
            pairs: BTreeMap::new(alloc),
            next: 0,
        }
    }

    pub(crate) fn len(&self) -> usize
        ensures value { result ≡ length self.now }
        ensures kept { IsTrue (may_be_kept self.now) }
    {
        self.pairs.len()
    }

    /// The flight's pair.
    pub(crate) fn get(&self, flight: FlightId) -> Option<&Pair>
        ensures { option_copied result ≡ find (is_of flight) self.now }
    {
        let Some(number) = self.numbers.get(&flight.number()) else {
            return None;
        };
        self.pairs.get(number)
    }

    /// The flight of the pair that was heard first.
    pub(crate) fn first_flight(&self) -> Option<FlightId>
        ensures { result ≡ option_map (λ p. p.reference.flight) (slice_get self.now 0) }
    {
        match self.pairs.first_key_value() {
            Some((_, pair)) => Some(pair.reference().flight),
            None => None,
        }
    }

    /// Whether there is a pair of the flight.
    pub(crate) fn has(&self, flight: FlightId) -> bool
        ensures { result ≡ list_any (is_of flight) self.now }
    {
        self.numbers.contains_key(&flight.number())
    }

    /// Takes the flight's pair out, if there is one.
    pub(crate) fn remove(&mut self, flight: FlightId) -> Option<Pair>
        ensures { self.new ≡ without flight self.old }
    {
        match self.numbers.remove(&flight.number()) {
            Some(number) => self.pairs.remove(&number),
            None => None,
        }
    }

    /// Takes the pair that was heard first out, if there is one.
    fn remove_first(&mut self) -> Option<Pair>
        ensures { self.new ≡ drop 1 self.old }
    {
        match self.pairs.pop_first() {
            Some((_, pair)) => {
                self.numbers.remove(&pair.reference().flight.number());
                Some(pair)
            }
            None => None,
        }
    }

    /// Makes room for a pair of this flight: forgets the flight's own pair, or, where there is none and no room, the first.
    #[tactic(auto, using(crate::proofs::Rooms::room_where_heard, crate::proofs::Rooms::room_of_the_first, crate::proofs::Rooms::room_enough))]
    pub(crate) fn make_room(&mut self, flight: FlightId)
        ensures { self.new ≡ room_for flight self.old }
    {
        if self.has(flight) {
            let _ = self.remove(flight);
            return;
        }
        if self.len() >= MOST_REFERENCES {
            let _ = self.remove_first();
        }
    }

    /// Puts a pair at the end. Out of memory, and once 2^64 - 1 numbers were given, it is handed back and nothing changes.
    pub(crate) fn push(&mut self, pair: Pair) -> Result<(), Pair>
        requires new { find (is_of pair.reference.flight) self.old ≡ None }
        requires room { length self.old < most_references }
        ensures ok { OnOk result (self.new ≡ self.old ++ pair ∷ []) }
        ensures err { OnErr result (self.new ≡ self.old) }
        ensures back { IfErr result (λ p. p ≡ pair) }
    {
        if self.next == u64::MAX {
            return Err(pair);
        }
        let flight = pair.reference().flight.number();
        let Ok(_) = self.numbers.insert(flight, self.next) else {
            return Err(pair);
        };
        match self.pairs.insert(self.next, pair) {
            Ok(_) => {
                self.next += 1;
                Ok(())
            }
            Err(failed) => {
                self.numbers.remove(&flight);
                Err(failed.value.1)
            }
        }
    }
}
