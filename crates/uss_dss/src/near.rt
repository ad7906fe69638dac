//! What a call has to look at exactly: who is found near by boxes.

ghost use Rattle.std.specs.Prelude.{◌≡◌, ℕ, Bool, true, List, Some, map, filter, ◌++◌, IfOk};
ghost use Rattle.uss_vol4.specs.Sharing.{any_shares};
ghost use Rattle.uss_intent.specs.declared.records.Recorded.{Recorded};
ghost use Rattle.uss_law_dss.specs.Refusals.{shown_all};
ghost use Rattle.uss_law_dss.specs.Step.{subscribers, found_in};
ghost use Rattle.uss_dss.specs.Effects.{CanRise};
ghost use Rattle.uss_dss.specs.Located.{is_met, meets};

use crate::Dss;
use crate::changes::found;
use std::alloc::AllocError;
use std::collections::BTreeSet;
use uss_intent::{Name, Recorded, Reference, Ticket};
use uss_vol4::Volume4;

impl Dss {
    /// The tickets, ascending by identifier, of which the area meets the old extents or the new ones, all taken as boxes.
    pub(crate) fn tickets_met(
        &self,
        old: &[Volume4],
        new: &[Volume4],
    ) -> Result<Vec<&Ticket>, AllocError>
        ensures found { IfOk result (λ v. map (λ t. t.now) v.items ≡ filter (is_met old.now new.now) self.now.tickets) }
        ensures told { IfOk result (λ v. (client : List ℕ) → subscribers client (old.now ++ new.now) (map (λ t. t.now) v.items) ≡ subscribers client (old.now ++ new.now) self.now.tickets) }
        ensures rise { IfOk result (λ v. CanRise (map (λ t. t.now) v.items)) }
    {
        let mut near = BTreeSet::new(self.alloc);
        self.ticket_boxes.add_meeting(self.alloc, old, &mut near)?;
        self.ticket_boxes.add_meeting(self.alloc, new, &mut near)?;
        self.tickets.those(self.alloc, &near)
    }

    /// The recorded references, ascending by flight, of which the extents meet these volumes, all taken as boxes: no other shares a point
    /// with them.
    pub(crate) fn references_met(&self, volumes: &[Volume4]) -> Result<Vec<&Recorded>, AllocError>
        ensures found { IfOk result (λ v. map (λ r. r.now) v.items ≡ filter (λ r. meets volumes.now (Some r.extents)) self.now.references) }
        ensures all { IfOk result (λ v. (p : Recorded → Bool) → ((r : Recorded) → p r ≡ true → any_shares r.extents volumes.now ≡ true) → filter p (map (λ r. r.now) v.items) ≡ filter p self.now.references) }
    {
        let mut near = BTreeSet::new(self.alloc);
        self.reference_boxes
            .add_meeting(self.alloc, volumes, &mut near)?;
        self.references.those(self.alloc, &near)
    }

    /// The references whose extents share a point with the area, as they are shown to the client.
    pub(crate) fn found(&self, client: &Name, area: &Volume4) -> Result<Vec<Reference>, AllocError>
        ensures { IfOk result (λ v. v.items ≡ shown_all client.now (found_in area.now self.now.references)) }
    {
        let met = self.references_met(std::slice::from_ref(area))?;
        found(self.alloc, &met, client, area)
    }
}
