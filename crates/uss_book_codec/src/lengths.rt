// How many bytes the coding of an entry has, without making it.
ghost use Rattle.std.specs.Prelude.{◌≡◌, ℕ, ℤ, ◌+◌, ◌≤◌, length, All, sum_by};
ghost use Rattle.uss_intent.specs.Texts.{IsOvn};
ghost use Rattle.uss_event.specs.declared.entries.Entry.TheVariants as Enters;
ghost use Rattle.uss_law_book.specs.Coding.{text_length, texts_length, option_length, volume_length, volumes_length, proposal_length, wish_length, subscriber_length, owed_length, ending_length, coding_length, IsProposal, IsWish, IsAsk, AreOwed, IsEnding, IsOwner, HasCoding};
ghost use Rattle.uss_intent.specs.Limits.{most_ovns, most_tickets};

use uss_event::{
    Closing, Ending, Entry, FlightAsk, Holding, Opening, Owner, Proposal, Trial, Wish,
};
use uss_intent::{Name, Ovn, Subscriber};
use uss_vol4::Volume4;

fn volume_length(volume: &Volume4) -> u64
    ensures value { result ≡ volume_length volume.now }
    ensures bound { result ≤ 16036 }
{
    36 + 16 * volume.outline().vertices().len() as u64
}

fn volumes_length(volumes: &[Volume4]) -> u64
    requires { length volumes.now ≤ 255 }
    ensures value { result ≡ volumes_length volumes.now }
    ensures bound { result ≤ 4089181 }
{
    let mut total: u64 = 0;
    for volume in volumes {
        total += volume_length(volume);
    }
    1 + total
}

fn proposal_length(proposal: &Proposal) -> u64
    requires { IsProposal proposal.now }
    ensures value { result ≡ proposal_length proposal.now }
    ensures bound { result ≤ 8178362 }
{
    volumes_length(proposal.volumes.as_slice()) + volumes_length(proposal.off_nominal.as_slice())
}

fn proposals_length(proposals: &[Proposal]) -> u64
    requires few { length proposals.now ≤ 255 }
    requires each { All IsProposal proposals.now }
    ensures value { result ≡ sum_by proposal_length proposals.now }
    ensures bound { result ≤ 2085482310 }
{
    let mut total: u64 = 0;
    for proposal in proposals {
        total += proposal_length(proposal);
    }
    total
}

fn wish_length(wish: &Wish) -> u64
    requires { IsWish wish.now }
    ensures value { result ≡ wish_length wish.now }
    ensures bound { result ≤ 2085482316 }
{
    match wish {
        Wish::Put { proposals, .. } => 6 + proposals_length(proposals.as_slice()),
        Wish::End => 1,
    }
}

/// How many bytes the coding of a job's opening for this request has. Takes no memory.
pub fn opening_length(ask: &FlightAsk) -> u64
    requires { IsAsk ask.now }
    ensures value { (job : ℕ) (moment : ℤ) → result ≡ coding_length (Enters.Opened (record { job = job; moment = moment; ask = ask.now })) }
    ensures bound { result ≤ 2085482349 }
{
    33 + wish_length(&ask.wish)
}

fn ovn_length(ovn: &Ovn) -> u64
    ensures value { result ≡ text_length ovn.now }
    ensures bound { result ≤ 132 }
{
    4 + ovn.as_bytes().len() as u64
}

fn key_length(key: &[Ovn]) -> u64
    requires { length key.now ≤ most_ovns }
    ensures value { result ≡ texts_length key.now }
    ensures bound { result ≤ 135172 }
{
    let mut total: u64 = 0;
    for ovn in key {
        total += ovn_length(ovn);
    }
    4 + total
}

fn option_length(ovn: &Option<Ovn>) -> u64
    ensures value { result ≡ option_length ovn.now }
    ensures bound { result ≤ 133 }
{
    match ovn {
        None => 1,
        Some(ovn) => 1 + ovn_length(ovn),
    }
}

fn subscriber_length(subscriber: &Subscriber) -> u64
    ensures value { result ≡ subscriber_length subscriber.now }
    ensures bound { result ≤ 328 }
{
    28 + subscriber.base.as_bytes().len() as u64
}

fn owed_length(owed: &[Subscriber]) -> u64
    requires { length owed.now ≤ most_tickets }
    ensures value { result ≡ owed_length owed.now }
    ensures bound { result ≤ 2686980 }
{
    let mut total: u64 = 0;
    for subscriber in owed {
        total += subscriber_length(subscriber);
    }
    4 + total
}

fn name_length(name: &Name) -> u64
    ensures value { result ≡ text_length name.now }
    ensures bound { result ≤ 68 }
{
    4 + name.as_bytes().len() as u64
}

fn ending_length(end: &Ending) -> u64
    requires { IsEnding end.now }
    ensures value { result ≡ ending_length end.now }
    ensures bound { result ≤ 2686981 }
{
    match end {
        Ending::Conflict { manager, .. } => 18 + name_length(manager),
        Ending::Stale { missing } => 5 + 16 * missing.len() as u64,
        Ending::Cancelled => 1,
        Ending::Ended { owed } => 1 + owed_length(owed.as_slice()),
    }
}

fn owner_length(owner: &Owner) -> u64
    requires { IsOwner owner.now }
    ensures value { result ≡ coding_length (Enters.Owner owner.now) }
    ensures bound { result ≤ 2500 }
{
    13 + name_length(&owner.name)
        + owner.base.as_bytes().len() as u64
        + 2 * owner.table.priorities().len() as u64
}

/// How many bytes the coding of an entry has. Takes no memory.
pub fn length_of(entry: &Entry) -> u64
    requires { HasCoding entry.now }
    ensures value { result ≡ coding_length entry.now }
    ensures bound { result ≤ 2085482349 }
{
    match entry {
        Entry::Owner(owner) => owner_length(owner),
        Entry::Opened(opening) => opening_length(&opening.ask),
        Entry::TicketOpen { .. } | Entry::TicketGone { .. } => 9,
        Entry::Pending(Trial { previous, key, .. }) => {
            18 + option_length(previous) + key_length(key.as_slice())
        }
        Entry::Held(Holding { ovn, owed, .. }) => 21
            + ovn_length(ovn)
            + owed_length(owed.as_slice()),
        Entry::Deciding(Closing { end, .. }) | Entry::Done(Closing { end, .. }) => 9
            + ending_length(end),
        Entry::Sent(_) => 13,
    }
}
