ghost use Rattle.std.specs.Prelude.{◌≡◌, ◌≢◌, ◌≤◌, ◌+◌, ◌++◌, [], ◌∷◌, ℕ, List, length, find, option_copied, IsTrue, IsOk, IfSome, IfNone, OnOk, OnErr};
ghost use Rattle.std.specs.List.{list_any};
ghost use Rattle.std.specs.Option.{option_map, option_to_list};
ghost use Rattle.uss_event.specs.Pairs.{OperationalIntent};
ghost use Rattle.uss_event.specs.Heard.{News, is_of, without, after_news, kept_pairs};
ghost use Rattle.uss_event.specs.Heard.News.{Heard, Forgotten};
ghost use Rattle.uss_key.specs.Kept.{may_be_kept, room_for, is_older, forgotten_for};

use crate::store::Store;
use std::alloc::{AllocError, Global};
use std::marker::Model;
use uss_event::Pair;
use uss_intent::{FlightId, MOST_REFERENCES};

/// The pairs that a supplier heard and keeps: at most 4,096, one of each flight. A contract sees the list of the kept pairs, the one
/// heard longest ago first, and the number of pairs that can be heard without further memory.
#[derive(Drop)]
pub struct Cache {
    /// All but the one that was heard last.
    earlier: Store,
    /// The one that was heard last, until there is room to settle it.
    newest: Option<Pair>,
}

impl Model for Cache {
    ghost use Rattle.std.specs.Prelude.{◌++◌, is_none, IsTrue, if◌then◌else◌};
    ghost use Rattle.std.specs.Option.{option_to_list};
    ghost use Rattle.uss_key.specs.Kept.{Kept, may_be_kept};

    ghost Value = { Kept };

    ghost view = { λ c. record { pairs = c.earlier ++ option_to_list c.newest; spare = if is_none c.newest then 1 else 0 } };

    ghost invariant = { λ c. IsTrue (may_be_kept (c.earlier ++ option_to_list c.newest)) };
}

impl Cache {
    /// No pair. Takes no memory.
    pub fn new(alloc: Global) -> Cache
        ensures none { result.pairs ≡ [] }
        ensures heard { result.pairs ≡ kept_pairs [] }
        ensures room { result.spare ≡ 1 }
    {
        Cache {
            earlier: Store::new(alloc),
            newest: None,
        }
    }

    /// Makes room, so that a pair can be heard without further memory: a supplier calls it before it enters what it is going to hear.
    /// The kept pairs stay.
    pub fn reserve(&mut self) -> Result<(), AllocError>
        ensures pairs { self.new.pairs ≡ self.old.pairs }
        ensures room { OnOk result (self.new.spare ≡ 1) }
        ensures spare { self.old.spare ≤ self.new.spare }
        ensures reserved { 1 ≤ self.old.spare → IsOk result }
        ensures err { OnErr result (self.new ≡ self.old) }
    {
        let Some(pair) = self.newest.take() else {
            return Ok(());
        };
        match self.earlier.push(pair) {
            Ok(()) => Ok(()),
            Err(pair) => {
                self.newest = Some(pair);
                Err(AllocError)
            }
        }
    }

    /// The kept pair of the flight. Takes no memory.
    pub fn pair(&self, flight: FlightId) -> Option<&Pair>
        ensures value { option_copied result ≡ find (is_of flight) self.now.pairs }
        ensures valid { IsTrue (may_be_kept self.now.pairs) }
    {
        if is_of(&self.newest, flight) {
            return self.newest.as_ref();
        }
        self.earlier.get(flight)
    }

    fn keeps_newer(&self, p: &Pair) -> bool
        ensures { result ≡ is_older p.now (find (is_of p.now.reference.flight) self.now.pairs) }
    {
        let reference = p.reference();
        match self.pair(reference.flight) {
            Some(kept) => reference.version < kept.reference().version,
            None => false,
        }
    }

    fn put(&mut self, p: Pair)
        requires { 1 ≤ self.old.spare }
        ensures { self.new.pairs ≡ room_for p.reference.flight self.old.pairs ++ p ∷ [] }
    {
        self.earlier.make_room(p.reference().flight);
        self.newest = Some(p);
    }

    /// Keeps the pair, in place of the kept one of its flight, unless that has a greater version. Where 4,096 pairs of other flights are
    /// kept, the one heard longest ago is forgotten. Never wants memory where room was reserved.
    pub fn hear(&mut self, p: Pair) -> Result<(), AllocError>
        ensures heard { OnOk result (self.new.pairs ≡ after_news self.old.pairs (Heard p)) }
        ensures every { (list : List News) → self.old.pairs ≡ kept_pairs list → OnOk result (self.new.pairs ≡ kept_pairs (list ++ Heard p ∷ [])) }
        ensures reserved { 1 ≤ self.old.spare → IsOk result }
        ensures spare { self.old.spare ≤ self.new.spare + 1 }
        ensures err { OnErr result (self.new ≡ self.old) }
    {
        if self.keeps_newer(&p) {
            return Ok(());
        }
        match self.reserve() {
            Ok(()) => {
                self.put(p);
                Ok(())
            }
            Err(wanting) => Err(wanting),
        }
    }

    /// Drops the kept pair of the flight, if there is one. Takes no memory.
    pub fn forget(&mut self, flight: FlightId)
        ensures forgotten { self.new.pairs ≡ after_news self.old.pairs (Forgotten flight) }
        ensures every { (list : List News) → self.old.pairs ≡ kept_pairs list → self.new.pairs ≡ kept_pairs (list ++ Forgotten flight ∷ []) }
        ensures spare { self.old.spare ≤ self.new.spare }
    {
        if is_of(&self.newest, flight) {
            self.newest = None;
            return;
        }
        let _ = self.earlier.remove(flight);
    }

    /// The flight whose pair is forgotten where a pair of this flight is heard: that of the pair heard longest ago, where the cache is
    /// full and keeps none of this flight. Where there is none, the kept pair of each other flight stays. Takes no memory.
    pub fn next_forgotten(&self, flight: FlightId) -> Option<FlightId>
        ensures forgotten { result ≡ forgotten_for flight self.now.pairs }
        ensures only { (p : OperationalIntent) → p.reference.flight ≡ flight → IfSome result (λ other. after_news self.now.pairs (Heard p) ≡ without other self.now.pairs ++ p ∷ []) }
        ensures none { (p : OperationalIntent) (other : ℕ) → p.reference.flight ≡ flight → other ≢ flight
            → IfNone result (find (is_of other) (after_news self.now.pairs (Heard p)) ≡ find (is_of other) self.now.pairs) }
    {
        if is_of(&self.newest, flight) || self.earlier.has(flight) {
            return None;
        }
        if self.earlier.len() + count(&self.newest) < MOST_REFERENCES {
            return None;
        }
        self.earlier.first_flight()
    }
}

fn is_of(newest: &Option<Pair>, flight: FlightId) -> bool
    ensures { result ≡ list_any (is_of flight) (option_to_list newest.now) }
{
    match newest {
        Some(pair) => pair.reference().flight == flight,
        None => false,
    }
}

fn count(newest: &Option<Pair>) -> usize
    ensures value { result ≡ length (option_to_list newest.now) }
    ensures bound { result ≤ 1 }
{
    match newest {
        Some(_) => 1,
        None => 0,
    }
}
