//! The recorded references, in an ordered map by flight.

ghost use Rattle.std.specs.Prelude.{◌≡◌, ◌==◌, ◌++◌, [], List, filter, find, length, map, slice_get, option_copied, IfOk, OnOk, OnErr};
ghost use Rattle.std.specs.BTreeSet.{contains};
ghost use Rattle.std.specs.Option.{option_to_list};
ghost use Rattle.std.specs.Ordering.{nat_cmp};
ghost use Rattle.uss_law_dss.specs.Orderly.{Ascend, flight_recorded};
ghost use Rattle.uss_law_dss.specs.Refusals.{is_cited};
ghost use Rattle.uss_law_dss.specs.Step.{put_recorded, without_flight};

use std::alloc::{AllocError, Global};
use std::collections::{BTreeMap, BTreeSet};
use std::marker::Model;
use uss_intent::{FlightId, Recorded, TicketId};

/// The recorded references with their extents. A contract sees their list, ascending by flight.
#[derive(Drop)]
pub(crate) struct Records {
    by_flight: BTreeMap<u128, Recorded>,
}

impl Model for Records {
    ghost use Rattle.std.specs.Prelude.{List};
    ghost use Rattle.std.specs.Map.{values_of};
    ghost use Rattle.uss_intent.specs.declared.records.Recorded.{Recorded};
    ghost use Rattle.uss_law_dss.specs.Orderly.{flight_recorded};
    ghost use Rattle.uss_dss.specs.Maps.{AreBy};

    ghost Value = { List Recorded };

    ghost view = { λ s. values_of s.by_flight.entries };

    ghost invariant = { λ s. AreBy flight_recorded s.by_flight.entries };
}

/// The number of the reference's flight.
pub(crate) fn key_of(r: &Recorded) -> u128
    ensures { result ≡ flight_recorded r.now }
{
    r.reference.flight.number()
}

impl Records {
    /// No reference. Takes no memory.
    pub(crate) fn new(alloc: Global) -> Records
        ensures { result ≡ [] }
    {
        Records {
            by_flight: BTreeMap::new(alloc),
        }
    }

    pub(crate) fn len(&self) -> usize
        ensures { result ≡ length self.now }
    {
        self.by_flight.len()
    }

    /// The flight's reference, in the logarithm of the number of references.
    pub(crate) fn get(&self, flight: FlightId) -> Option<&Recorded>
        ensures { option_copied result ≡ find (λ r. r.reference.flight == flight) self.now }
    {
        self.by_flight.get(&flight.number())
    }

    /// The reference with this number from 0, ascending by flight: in time that grows with the number.
    pub(crate) fn nth(&self, n: usize) -> Option<&Recorded>
        ensures { option_copied result ≡ slice_get self.now n }
    {
        self.by_flight.values().nth(n)
    }

    /// Adds the flight's reference, where it is there.
    fn add<'a>(&'a self, flight: &u128, found: &mut Vec<&'a Recorded>) -> Result<(), AllocError>
        ensures { OnOk result (map (λ r. r.now) found.new.items ≡ map (λ r. r.now) found.old.items ++ option_to_list (find (λ r. r.reference.flight == flight.now) self.now)) }
    {
        match self.by_flight.get(flight) {
            Some(r) => found.push(r)?,
            None => {}
        }
        Ok(())
    }

    /// The references of these flights, ascending by flight, of those that are there. Each flight is looked up.
    pub(crate) fn those(
        &self,
        alloc: Global,
        flights: &BTreeSet<u128>,
    ) -> Result<Vec<&Recorded>, AllocError>
        requires { Ascend flight_recorded self.now }
        ensures { IfOk result (λ v. map (λ r. r.now) v.items ≡ filter (λ r. contains nat_cmp flights.now r.reference.flight) self.now) }
    {
        let mut found = Vec::new(alloc);
        for flight in flights {
            self.add(flight, &mut found)?;
        }
        Ok(found)
    }

    /// Whether a reference cites the ticket.
    pub(crate) fn cites(&self, ticket: TicketId) -> bool
        ensures { result ≡ is_cited ticket self.now }
    {
        self.by_flight
            .values()
            .any(|r| r.reference.ticket == ticket)
    }

    /// Puts the reference into its place by flight, or into the place of the one of its flight, which needs no memory. Running out of memory
    /// changes nothing.
    pub(crate) fn put(&mut self, new: Recorded) -> Result<(), AllocError>
        ensures ok { OnOk result (self.new ≡ put_recorded new self.old) }
        ensures err { OnErr result (self.new ≡ self.old) }
    {
        match self.by_flight.insert(key_of(&new), new) {
            Ok(_) => Ok(()),
            Err(_) => Err(AllocError),
        }
    }

    /// Takes the flight's reference out.
    pub(crate) fn remove(&mut self, flight: FlightId)
        requires { Ascend flight_recorded self.old }
        ensures { self.new ≡ without_flight flight self.old }
    {
        let _ = self.by_flight.remove(&flight.number());
    }
}
