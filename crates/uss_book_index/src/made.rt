// The operational intent as which an attempt is recorded.
ghost use Rattle.std.specs.Prelude.{◌≡◌, ◌≤◌, IfOk, IsTrue, All, Some, length};
ghost use Rattle.std.specs.Option.{option_map, option_copied};
ghost use Rattle.uss_vol4.specs.Volume.{IsVolume};
ghost use Rattle.uss_intent.specs.Identifiers.{flight_number, ticket_number};
ghost use Rattle.uss_intent.specs.Texts.{tagged_base};
ghost use Rattle.uss_law_book.specs.Attempts.{attempt_of, recorded_as};
ghost use Rattle.uss_law_book.specs.Legal.{IsLegal};
ghost use Rattle.uss_law_book.specs.Lists.{owner_of};
ghost use Rattle.uss_book_index.specs.Firsts.{AreFirsts};
ghost use Rattle.uss_book_index.specs.Records.{IsPlan, ArePlanned, pair_by_proposal, pair_by_wish, pair_by_tried, pair_for, ask_of, tried_of};

use crate::firsts::Firsts;
use crate::indexed::{opening, trial};
use crate::times::{Times, times_of};
use crate::tried::Tried;
use std::alloc::{AllocError, Global};
use uss_event::{Details, Entry, FlightAsk, Holding, Opening, Owner, Pair, Proposal, Trial, Wish};
use uss_intent::{Ovn, Reference, State, flight_id, ticket_id};

fn details_of(priority: u16, proposal: &Proposal) -> Result<Details, AllocError>
    ensures { IfOk result (λ d. d ≡ record { volumes = proposal.now.volumes; off_nominal = proposal.now.off_nominal; priority = priority }) }
{
    Ok(Details {
        volumes: proposal.volumes.clone()?,
        off_nominal: proposal.off_nominal.clone()?,
        priority,
    })
}

fn reference_of(
    alloc: Global,
    owner: &Owner,
    flight: u64,
    tried: Tried,
    ovn: &Ovn,
    state: State,
    times: Times,
) -> Result<Reference, AllocError>
    requires { length owner.now.base ≤ 256 }
    ensures { IfOk result (λ r. r ≡ record { flight = flight_number owner.now.number flight; manager = owner.now.name; version = tried.version; state = state; ovn = Some ovn.now; start = times.start; end = times.end; base = tagged_base owner.now.base tried.tag; ticket = ticket_number owner.now.number tried.job }) }
{
    Ok(Reference {
        flight: flight_id(owner.number, flight),
        manager: owner.name.clone()?,
        version: tried.version,
        state,
        ovn: Some(ovn.clone()?),
        start: times.start,
        end: times.end,
        base: owner.base.tagged(alloc, tried.tag)?,
        ticket: ticket_id(owner.number, tried.job),
    })
}

fn pair_by_proposal(
    alloc: Global,
    owner: &Owner,
    flight: u64,
    tried: Tried,
    ovn: &Ovn,
    to: State,
    priority: u16,
    proposal: &Proposal,
) -> Result<Option<Pair>, AllocError>
    requires base { length owner.now.base ≤ 256 }
    requires plan { IsPlan to priority proposal.now }
    ensures { IfOk result (λ p. p ≡ Some (pair_by_proposal owner.now flight tried ovn.now to priority proposal.now)) }
{
    let times = times_of(proposal.volumes.as_slice(), proposal.off_nominal.as_slice());
    let reference = reference_of(alloc, owner, flight, tried, ovn, to, times)?;
    let details = details_of(priority, proposal)?;
    Ok(Pair::of(reference, details))
}

fn pair_by_wish(
    alloc: Global,
    owner: &Owner,
    ask: &FlightAsk,
    tried: Tried,
    ovn: &Ovn,
) -> Result<Option<Pair>, AllocError>
    requires base { length owner.now.base ≤ 256 }
    requires plans { ArePlanned ask.now.wish }
    ensures { IfOk result (λ p. p ≡ pair_by_wish owner.now ask.now.flight tried ovn.now ask.now.wish) }
{
    let Wish::Put {
        to,
        priority,
        proposals,
        ..
    } = &ask.wish
    else {
        return Ok(None);
    };
    let alternative = usize::from(tried.alternative);
    match proposals.as_slice().get(alternative) {
        Some(p) => pair_by_proposal(alloc, owner, ask.flight, tried, ovn, *to, *priority, p),
        None => Ok(None),
    }
}

fn owner_of(entries: &[Entry]) -> Option<&Owner>
    ensures { option_copied result ≡ owner_of entries.now }
{
    match entries {
        [Entry::Owner(owner), ..] => Some(owner),
        _ => None,
    }
}

fn ask_of(opening: Option<&Opening>) -> Option<&FlightAsk>
    ensures { option_copied result ≡ ask_of (option_copied opening.entry) }
{
    match opening {
        Some(opening) => Some(&opening.ask),
        None => None,
    }
}

fn tried_of(version: u32, trial: Option<&Trial>) -> Option<Tried>
    ensures { result ≡ tried_of version (option_copied trial.entry) }
{
    match trial {
        Some(trial) => Some(Tried {
            job: trial.job,
            tag: trial.tag,
            alternative: trial.alternative,
            version,
        }),
        None => None,
    }
}

fn pair_by_tried(
    alloc: Global,
    entries: &[Entry],
    firsts: &Firsts,
    tried: Tried,
    ovn: &Ovn,
) -> Result<Option<Pair>, AllocError>
    requires legal { IsLegal entries.now }
    requires index { AreFirsts firsts.now.places entries.now }
    ensures { IfOk result (λ p. p ≡ pair_by_tried entries.now ovn.now (Some tried)) }
{
    match owner_of(entries) {
        Some(owner) => match ask_of(opening(entries, firsts, tried.job)) {
            Some(ask) => pair_by_wish(alloc, owner, ask, tried, ovn),
            None => Ok(None),
        },
        None => Ok(None),
    }
}

fn pair_by_tag(
    alloc: Global,
    entries: &[Entry],
    firsts: &Firsts,
    tag: u64,
    ovn: &Ovn,
    version: u32,
) -> Result<Option<Pair>, AllocError>
    requires legal { IsLegal entries.now }
    requires index { AreFirsts firsts.now.places entries.now }
    ensures { IfOk result (λ p. p ≡ option_map (λ a. recorded_as a ovn.now version) (attempt_of tag entries.now)) }
{
    match tried_of(version, trial(entries, firsts, tag)) {
        Some(tried) => pair_by_tried(alloc, entries, firsts, tried, ovn),
        None => Ok(None),
    }
}

/// What an entry records after these. Only memory can be wanting.
pub(crate) fn pair_for(
    alloc: Global,
    entries: &[Entry],
    firsts: &Firsts,
    e: &Entry,
) -> Result<Option<Pair>, AllocError>
    requires legal { IsLegal entries.now }
    requires index { AreFirsts firsts.now.places entries.now }
    ensures { IfOk result (λ p. p ≡ pair_for entries.now e.now) }
{
    match e {
        Entry::Held(
            Holding {
                tag,
                ovn,
                version,
                ..
            },
        ) => pair_by_tag(alloc, entries, firsts, *tag, ovn, *version),
        Entry::Owner(_)
        | Entry::Opened(_)
        | Entry::TicketOpen { .. }
        | Entry::Pending(_)
        | Entry::Deciding(_)
        | Entry::Done(_)
        | Entry::TicketGone { .. }
        | Entry::Sent(_) => Ok(None),
    }
}
