// The calls of a job, by its book.
ghost use Rattle.std.specs.Prelude.{◌≡◌, ◌++◌, ◌≤◌, ℕ, IfOk, OnOk, Some, length, slice_get};
ghost use Rattle.std.specs.Option.{option_copied, option_map};
ghost use Rattle.uss_intent.specs.declared.calls.DssAsk.TheVariants as Asks;
ghost use Rattle.uss_law_book.specs.Attempts.{attempted, by_wish, put_of};
ghost use Rattle.uss_law_book.specs.Contents.{current_ovn_of, opening_of};
ghost use Rattle.uss_law_book.specs.Lists.{owner_of};
ghost use Rattle.uss_law_duty.specs.Answers.{flight_of};
ghost use Rattle.uss_law_duty.specs.Sends.{ticket_put};
ghost use Rattle.uss_law_supplier.specs.Calls.{call_of, last_attempt, proposals_of};
ghost use Rattle.uss_job.specs.Area.{HasArea, HasExtents};

use crate::area::area_round;
use std::alloc::{AllocError, Global};
use uss_book_index::Entries;
use uss_book_rules::holding;
use uss_event::{Opening, Owner, Proposal, Trial, Wish};
use uss_intent::{DssAsk, FlightId, State, Volumes, flight_id, ticket_id};
use uss_law_supplier::Awaited;
use uss_vol4::Volume4;

fn flight_of(owner: &Owner, opening: &Opening) -> FlightId
    ensures { result ≡ flight_of owner.now opening.now }
{
    flight_id(owner.number, opening.ask.flight)
}

fn proposals_of(wish: &Wish) -> &[Proposal]
    ensures { result.now ≡ proposals_of wish.now }
{
    match wish {
        Wish::Put { proposals, .. } => proposals.as_slice(),
        Wish::End => &[],
    }
}

fn add(extents: &mut Vec<Volume4>, volumes: &[Volume4]) -> Result<(), AllocError>
    ensures { OnOk result (extents.new.items ≡ extents.old.items ++ volumes.now) }
{
    extents.reserve(volumes.len())?;
    for volume in volumes {
        extents.push(volume.clone()?)?;
    }
    Ok(())
}

/// The volumes of an alternative, followed by its off-nominal volumes.
fn extents_of(proposal: &Proposal) -> Result<Volumes, AllocError>
    ensures { IfOk result (λ v. v ≡ proposal.now.volumes ++ proposal.now.off_nominal) }
{
    let mut extents = proposal.volumes.clone()?.into_vec();
    add(&mut extents, proposal.off_nominal.as_slice())?;
    Ok(Volumes::from_vec(extents))
}

fn ticket_put(
    alloc: Global,
    owner: &Owner,
    job: u64,
    proposals: &[Proposal],
) -> Result<DssAsk, AllocError>
    requires { HasExtents proposals.now }
    ensures { IfOk result (λ c. c ≡ ticket_put owner.now job proposals.now) }
{
    Ok(DssAsk::TicketPut {
        ticket: ticket_id(owner.number, job),
        area: area_round(alloc, proposals)?,
        base: owner.base.clone()?,
    })
}

/// The call that records this attempt of this alternative.
fn put_by_proposal(
    alloc: Global,
    owner: &Owner,
    opening: &Opening,
    trial: &Trial,
    to: State,
    proposal: &Proposal,
) -> Result<DssAsk, AllocError>
    requires { length owner.now.base ≤ 256 }
    ensures { (priority : ℕ) → IfOk result (λ c. c ≡ put_of (attempted owner.now opening.now trial.now to priority proposal.now)) }
{
    Ok(DssAsk::Put {
        flight: flight_of(owner, opening),
        ovn: trial.previous.clone()?,
        extents: extents_of(proposal)?,
        key: trial.key.clone()?,
        state: to,
        base: owner.base.tagged(alloc, trial.tag)?,
        ticket: ticket_id(owner.number, trial.job),
    })
}

/// The alternative that the attempt is of.
fn alternative_of<'a>(trial: &Trial, proposals: &'a [Proposal]) -> Option<&'a Proposal>
    ensures { option_copied result ≡ slice_get proposals.now trial.now.alternative }
{
    proposals.get(usize::from(trial.alternative))
}

fn put_by_wish(
    alloc: Global,
    owner: &Owner,
    opening: &Opening,
    trial: &Trial,
) -> Result<Option<DssAsk>, AllocError>
    requires { length owner.now.base ≤ 256 }
    ensures { IfOk result (λ c. c ≡ option_map put_of (by_wish owner.now opening.now trial.now opening.now.ask.wish)) }
{
    let Wish::Put { to, proposals, .. } = &opening.ask.wish else {
        return Ok(None);
    };
    match alternative_of(trial, proposals.as_slice()) {
        Some(proposal) => {
            let put = put_by_proposal(alloc, owner, opening, trial, *to, proposal)?;
            Ok(Some(put))
        }
        None => Ok(None),
    }
}

/// The Put of the job's last attempt.
fn last_put(
    alloc: Global,
    owner: &Owner,
    entries: &Entries,
    opening: &Opening,
) -> Result<Option<DssAsk>, AllocError>
    requires owner { owner_of entries.now.entries ≡ Some owner.now }
    requires opened { opening_of opening.now.job entries.now.entries ≡ Some opening.now }
    ensures { IfOk result (λ c. c ≡ option_map put_of (last_attempt opening.now.job entries.now.entries)) }
{
    entries.are_legal();
    match entries.last_trial(opening.job) {
        Some(trial) => put_by_wish(alloc, owner, opening, trial),
        None => Ok(None),
    }
}

/// The call that ends what is recorded of the job's flight.
fn remove(owner: &Owner, entries: &Entries, opening: &Opening) -> Result<Option<DssAsk>, AllocError>
    ensures { IfOk result (λ c. c ≡ option_map (λ ovn. Asks.Remove (flight_of owner.now opening.now) ovn) (current_ovn_of opening.now.ask.flight entries.now.entries)) }
{
    match holding(entries, opening.ask.flight) {
        Some(recorded) => {
            let ovn = recorded.ovn.clone()?;
            let flight = flight_of(owner, opening);
            Ok(Some(DssAsk::Remove { flight, ovn }))
        }
        None => Ok(None),
    }
}

/// The call of this kind that the job with this opening makes by its owner's book: the ticket with the area round all its alternatives, what
/// is recorded there, the Put of its last attempt, its own reference, the removals of its ticket and of what is recorded of its flight.
/// None where the book has no attempt for a Put, or nothing recorded for a removal; and for details, which aren't asked of the discovery
/// service. Only memory can be wanting.
pub fn call_of(
    alloc: Global,
    owner: &Owner,
    entries: &Entries,
    opening: &Opening,
    kind: Awaited,
) -> Result<Option<DssAsk>, AllocError>
    requires owner { owner_of entries.now.entries ≡ Some owner.now }
    requires opened { opening_of opening.now.job entries.now.entries ≡ Some opening.now }
    requires area { HasArea kind opening.now.ask.wish }
    ensures { IfOk result (λ c. c ≡ call_of owner.now entries.now.entries opening.now kind) }
{
    entries.are_legal();
    let proposals = proposals_of(&opening.ask.wish);
    match kind {
        Awaited::TicketPut => Ok(Some(ticket_put(alloc, owner, opening.job, proposals)?)),
        Awaited::Query => {
            let area = area_round(alloc, proposals)?;
            Ok(Some(DssAsk::Query { area }))
        }
        Awaited::Details => Ok(None),
        Awaited::Put => last_put(alloc, owner, entries, opening),
        Awaited::Get => Ok(Some(DssAsk::Get {
            flight: flight_of(owner, opening),
        })),
        Awaited::TicketRemove => Ok(Some(DssAsk::TicketRemove {
            ticket: ticket_id(owner.number, opening.job),
            version: 1,
        })),
        Awaited::Remove => remove(owner, entries, opening),
    }
}
