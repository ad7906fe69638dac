//! The tickets, in an ordered map by identifier.

ghost use Rattle.std.specs.Prelude.{◌≡◌, ◌==◌, ◌++◌, [], List, None, filter, find, length, map, option_copied, IfOk, OnOk, OnErr};
ghost use Rattle.std.specs.BTreeSet.{contains};
ghost use Rattle.std.specs.Option.{option_to_list};
ghost use Rattle.std.specs.Ordering.{nat_cmp};
ghost use Rattle.uss_law_dss.specs.Orderly.{Ascend, id_of};
ghost use Rattle.uss_law_dss.specs.Step.{put_ticket, without_ticket};
ghost use Rattle.uss_dss.specs.Effects.{with_index, with_indices};

use std::alloc::{AllocError, Global};
use std::collections::{BTreeMap, BTreeSet};
use std::marker::Model;
use uss_intent::{Subscriber, Ticket, TicketId};

/// The tickets. A contract sees their list, ascending by identifier.
#[derive(Drop)]
pub(crate) struct Tickets {
    by_id: BTreeMap<u128, Ticket>,
}

impl Model for Tickets {
    ghost use Rattle.std.specs.Prelude.{List};
    ghost use Rattle.std.specs.Map.{values_of};
    ghost use Rattle.uss_intent.specs.declared.records.Ticket.{Ticket};
    ghost use Rattle.uss_law_dss.specs.Orderly.{id_of};
    ghost use Rattle.uss_dss.specs.Maps.{AreBy};

    ghost Value = { List Ticket };

    ghost view = { λ s. values_of s.by_id.entries };

    ghost invariant = { λ s. AreBy id_of s.by_id.entries };
}

impl Tickets {
    /// No ticket. Takes no memory.
    pub(crate) fn new(alloc: Global) -> Tickets
        ensures { result ≡ [] }
    {
        Tickets {
            by_id: BTreeMap::new(alloc),
        }
    }

    pub(crate) fn len(&self) -> usize
        ensures { result ≡ length self.now }
    {
        self.by_id.len()
    }

    /// The ticket with this identifier, in the logarithm of the number of tickets.
    pub(crate) fn get(&self, id: TicketId) -> Option<&Ticket>
        ensures { option_copied result ≡ find (λ t. t.id == id) self.now }
    {
        self.by_id.get(&id.number())
    }

    /// Adds the ticket with this identifier, where it is there.
    fn add<'a>(&'a self, id: &u128, found: &mut Vec<&'a Ticket>) -> Result<(), AllocError>
        ensures { OnOk result (map (λ t. t.now) found.new.items ≡ map (λ t. t.now) found.old.items ++ option_to_list (find (λ t. t.id == id.now) self.now)) }
    {
        match self.by_id.get(id) {
            Some(t) => found.push(t)?,
            None => {}
        }
        Ok(())
    }

    /// The tickets with these identifiers, ascending by identifier, of those that are there. Each identifier is looked up.
    pub(crate) fn those(
        &self,
        alloc: Global,
        ids: &BTreeSet<u128>,
    ) -> Result<Vec<&Ticket>, AllocError>
        requires { Ascend id_of self.now }
        ensures { IfOk result (λ v. map (λ t. t.now) v.items ≡ filter (λ t. contains nat_cmp ids.now t.id) self.now) }
    {
        let mut found = Vec::new(alloc);
        for id in ids {
            self.add(id, &mut found)?;
        }
        Ok(found)
    }

    /// Puts a new ticket into its place by identifier. Running out of memory changes nothing.
    pub(crate) fn put(&mut self, new: Ticket) -> Result<(), AllocError>
        requires { find (λ t. t.id == new.id) self.old ≡ None }
        ensures ok { OnOk result (self.new ≡ put_ticket new self.old) }
        ensures err { OnErr result (self.new ≡ self.old) }
    {
        match self.by_id.insert(new.id.number(), new) {
            Ok(_) => Ok(()),
            Err(_) => Err(AllocError),
        }
    }

    /// Takes the ticket out.
    pub(crate) fn remove(&mut self, id: TicketId)
        requires { Ascend id_of self.old }
        ensures { self.new ≡ without_ticket id self.old }
    {
        let _ = self.by_id.remove(&id.number());
    }

    /// Gives the ticket this index.
    fn set_index(&mut self, id: TicketId, index: u64)
        ensures { self.new ≡ with_index id index self.old }
    {
        match self.by_id.get_mut(&id.number()) {
            Some(t) => t.index = index,
            None => {}
        }
    }

    /// Gives the tickets of those that are notified their new indices. Takes no memory.
    pub(crate) fn set_indices(&mut self, notified: &[Subscriber])
        ensures { self.new ≡ with_indices notified.now self.old }
    {
        for s in notified {
            self.set_index(s.ticket, s.index);
        }
    }
}
