//! The parts of what calls do: new lists, made before anything is changed, and changes that are whole or none.

ghost use Rattle.std.specs.Prelude.{◌≡◌, ◌+◌, ◌<◌, ◌^◌, ◌++◌, [], ◌∷◌, List, length, map, Some, None, ◌==◌, find, IfOk, OnOk, OnErr};
ghost use Rattle.uss_vol4.specs.Bounding.{IsBoundingBox, bounding_box};
ghost use Rattle.uss_intent.specs.declared.records.Landing.{Landing};
ghost use Rattle.uss_law_dss.specs.Service.{reach, digits, ovn_of};
ghost use Rattle.uss_law_dss.specs.Refusals.{shown_all};
ghost use Rattle.uss_law_dss.specs.Step.{is_notified, subscribers, put_recorded, put_ticket, found_in};
ghost use Rattle.uss_dss.specs.Effects.{CanRise};
ghost use Rattle.uss_dss.specs.Located.{area_in, extents_in, box_under, IsLocated, IsNumbered, AreNumbersKept};

use crate::located::Located;
use crate::records::{Records, key_of};
use crate::shown::shown;
use crate::tickets::Tickets;
use std::alloc::{AllocError, Global};
use uss_intent::{Landing, Landings, Name, Ovn, Recorded, Reference, Subscriber, Ticket};
use uss_vol4::{Box4, Volume4};

/// Whether some of the extents shares a point with the area.
pub(crate) fn reaches(extents: &[Volume4], area: &Volume4) -> bool
    ensures { result ≡ reach extents.now area.now }
{
    extents.iter().any(|v| Volume4::shares(v, area))
}

/// Of these references those whose extents share a point with the area, as they are shown to the client.
pub(crate) fn found(
    alloc: Global,
    references: &[&Recorded],
    client: &Name,
    area: &Volume4,
) -> Result<Vec<Reference>, AllocError>
    ensures { IfOk result (λ v. v.items ≡ shown_all client.now (found_in area.now (map (λ r. r.now) references.now))) }
{
    let mut found = Vec::new(alloc);
    for r in references {
        if reaches(r.extents.as_slice(), area) {
            found.push(shown(client, &r.reference)?)?;
        }
    }
    Ok(found)
}

/// Whether the ticket's manager is notified of a change from the old extents to the new ones.
fn is_notified(client: &Name, old: &[Volume4], new: &[Volume4], ticket: &Ticket) -> bool
    ensures { result ≡ is_notified client.now (old.now ++ new.now) ticket.now }
{
    ticket.manager != *client && (reaches(old, &ticket.area) || reaches(new, &ticket.area))
}

fn subscriber(ticket: &Ticket) -> Result<Subscriber, AllocError>
    requires { ticket.now.index + 1 < 2 ^ 64 }
    ensures { IfOk result (λ s. s ≡ record { base = ticket.now.base; ticket = ticket.now.id; index = ticket.now.index + 1 }) }
{
    Ok(Subscriber {
        base: ticket.base.clone()?,
        ticket: ticket.id,
        index: ticket.index + 1,
    })
}

/// Who of these tickets' managers is notified of a change from the old extents to the new ones.
pub(crate) fn notified(
    alloc: Global,
    client: &Name,
    old: &[Volume4],
    new: &[Volume4],
    tickets: &[&Ticket],
) -> Result<Vec<Subscriber>, AllocError>
    requires { CanRise (map (λ t. t.now) tickets.now) }
    ensures { IfOk result (λ notified. notified.items ≡ subscribers client.now (old.now ++ new.now) (map (λ t. t.now) tickets.now)) }
{
    let mut notified = Vec::new(alloc);
    for t in tickets {
        if is_notified(client, old, new, t) {
            notified.push(subscriber(t)?)?;
        }
    }
    Ok(notified)
}

fn take_back(landings: &mut Landings)
    ensures { (l : List Landing) (x : Landing) → landings.old ≡ l ++ x ∷ [] → landings.new ≡ l }
{
    let _ = landings.pop();
}

/// The box of the reference's extents.
fn bounds_of(r: &Recorded) -> Box4
    requires { 0 < length r.now.extents }
    ensures value { result ≡ bounding_box r.now.extents }
    ensures least { IsBoundingBox r.now.extents (bounding_box r.now.extents) }
{
    Volume4::bounding(r.extents.as_slice())
}

/// Puts the reference into its place, and the box of its extents under a number that has none, in place of the box that the flight had.
/// Running out of memory leaves all as it was.
fn place_reference(
    references: &mut Records,
    boxes: &mut Located,
    number: u64,
    new: Recorded,
) -> Result<(), AllocError>
    requires some { 0 < length new.extents }
    requires located { IsLocated (extents_in references.old) boxes.old }
    requires free { box_under number boxes.old ≡ None }
    ensures ok { OnOk result (references.new ≡ put_recorded new references.old) }
    ensures numbered { OnOk result (IsNumbered new.reference.flight (Some number) boxes.old boxes.new) }
    ensures err { OnErr result (references.new ≡ references.old) }
    ensures kept { OnErr result (AreNumbersKept boxes.old boxes.new) }
    ensures located { IsLocated (extents_in references.new) boxes.new }
{
    let flight = key_of(&new);
    let bounds = bounds_of(&new);
    let earlier = boxes.enter(number, flight, bounds)?;
    match references.put(new) {
        Ok(()) => {
            boxes.forget(earlier);
            Ok(())
        }
        Err(wanting) => {
            boxes.undo(number, flight, earlier);
            Err(wanting)
        }
    }
}

/// Records a landing: the reference in its place with its box, and its place in the history. Running out of memory changes nothing.
pub(crate) fn record(
    references: &mut Records,
    boxes: &mut Located,
    landings: &mut Landings,
    new: Recorded,
    landing: Landing,
) -> Result<(), AllocError>
    requires some { 0 < length new.extents }
    requires few { length landings.old + 1 < 2 ^ 64 }
    requires located { IsLocated (extents_in references.old) boxes.old }
    requires free { box_under (length landings.old + 1) boxes.old ≡ None }
    ensures ok { OnOk result ((references.new ≡ put_recorded new references.old) × (landings.new ≡ landings.old ++ landing ∷ [])) }
    ensures numbered { OnOk result (IsNumbered new.reference.flight (Some (length landings.old + 1)) boxes.old boxes.new) }
    ensures err { OnErr result ((references.new ≡ references.old) × (landings.new ≡ landings.old)) }
    ensures kept { OnErr result (AreNumbersKept boxes.old boxes.new) }
    ensures located { IsLocated (extents_in references.new) boxes.new }
{
    let number = landings.len() as u64 + 1;
    landings.push(landing)?;
    match place_reference(references, boxes, number, new) {
        Ok(()) => Ok(()),
        Err(wanting) => {
            take_back(landings);
            Err(wanting)
        }
    }
}

/// Puts a new ticket into its place, and the box of its area under a number that has none. Running out of memory leaves all as it was.
pub(crate) fn place(
    tickets: &mut Tickets,
    boxes: &mut Located,
    number: u64,
    new: Ticket,
) -> Result<(), AllocError>
    requires new { find (λ t. t.id == new.id) tickets.old ≡ None }
    requires located { IsLocated (area_in tickets.old) boxes.old }
    requires free { box_under number boxes.old ≡ None }
    ensures ok { OnOk result (tickets.new ≡ put_ticket new tickets.old) }
    ensures numbered { OnOk result (IsNumbered new.id (Some number) boxes.old boxes.new) }
    ensures err { OnErr result (tickets.new ≡ tickets.old) }
    ensures kept { OnErr result (AreNumbersKept boxes.old boxes.new) }
    ensures located { IsLocated (area_in tickets.new) boxes.new }
{
    let id = new.id.number();
    let bounds = Volume4::bounding(std::slice::from_ref(&new.area));
    let previous = boxes.enter(number, id, bounds)?;
    match tickets.put(new) {
        Ok(()) => {
            boxes.forget(previous);
            Ok(())
        }
        Err(wanting) => {
            boxes.undo(number, id, previous);
            Err(wanting)
        }
    }
}

/// Puts the last digits of the number at the end of the text, so many.
fn push_digits(text: &mut Vec<u8>, count: u32, n: u64) -> Result<(), AllocError>
    ensures { OnOk result (text.new.items ≡ text.old.items ++ digits count n) }
{
    if count == 0 {
        return Ok(());
    }
    push_digits(text, count - 1, n / 10)?;
    text.push(b'0' + (n % 10) as u8)?;
    Ok(())
}

/// The OVN of the landing with this number from 1.
#[tactic(auto, unfolding(uss_law_dss::specs::Service::ovn_of))]
pub(crate) fn ovn_of(alloc: Global, n: u64) -> Result<Ovn, AllocError>
    ensures { IfOk result (λ ovn. ovn ≡ ovn_of n) }
{
    let mut text = Vec::with_capacity(alloc, 20)?;
    text.extend_from_slice(b"ovn-")?;
    push_digits(&mut text, 16, n)?;
    match Ovn::of(alloc, &text) {
        Ok(ovn) => Ok(ovn),
        Err(_) => Err(AllocError),
    }
}
