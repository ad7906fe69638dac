// What a reply says to a job.
ghost use Rattle.std.specs.Prelude.{◌≡◌, ◌==◌, not, length};
ghost use Rattle.uss_event.specs.declared.entries.Opening.{Opening};
ghost use Rattle.uss_law_duty.specs.Entered.{shown_tag};
ghost use Rattle.uss_law_duty.specs.Sayings.{others};
ghost use Rattle.uss_law_supplier.specs.Jobs.{heard_of_dss, heard_of_peer, owns_tag};
ghost use Rattle.uss_law_supplier.specs.Turns.{Standing};
ghost use Rattle.uss_job.specs.Left.{IsLeftBy, IsLeftByPeer};

use uss_book_index::Entries;
use uss_book_rules::Tells;
use uss_event::{Opening, Owner, PeerReply};
use uss_intent::{DssReply, FlightId, Reference, flight_id, tag_of};
use uss_law_supplier::Heard;

fn is_other(flight: FlightId, reference: &Reference) -> bool
    ensures { result ≡ not (reference.now.flight == flight) }
{
    reference.flight != flight
}

/// How many of the references are of other flights.
fn others(flight: FlightId, references: &[Reference]) -> usize
    ensures { result ≡ length (others flight references.now) }
{
    references.iter().filter(|r| is_other(flight, r)).count()
}

fn shown_tag(reference: &Reference) -> Option<u64>
    ensures { result ≡ shown_tag reference.now }
{
    match reference.ovn {
        Some(_) => tag_of(&reference.base),
        None => None,
    }
}

fn owns_tag(entries: &Entries, job: u64, tag: Option<u64>) -> bool
    ensures { result ≡ owns_tag job entries.now.entries tag }
{
    match tag {
        Some(tag) => entries.owns(job, tag),
        None => false,
    }
}

/// What a reply of the discovery service says to the job with this opening. Whether a reference is left to be asked for is told by who
/// knows what was heard, and matters to what a query found alone. Takes no memory.
pub fn heard_of_dss(
    owner: &Owner,
    entries: &Entries,
    opening: &Opening,
    reply: &DssReply,
    left: bool,
) -> Heard
    ensures { (s : Standing) → s.owner ≡ owner.now → s.book ≡ entries.now.entries → IsLeftBy s opening.now reply.now left → result ≡ heard_of_dss s opening.now reply.now }
{
    match reply {
        DssReply::Found(references) => Heard::Found {
            others: others(
                flight_id(owner.number, opening.ask.flight),
                references.as_slice(),
            ),
            unheard: left,
        },
        DssReply::Got(reference) => Heard::Got {
            own: owns_tag(entries, opening.job, shown_tag(reference)),
        },
        DssReply::Landed { .. } => Heard::Landed,
        DssReply::TicketMade(_) | DssReply::TicketGot(_) => Heard::Made,
        DssReply::Removed { .. } | DssReply::TicketRemoved(_) => Heard::Removed,
        DssReply::Refused(refusal) => Heard::Refused(refusal.number()),
    }
}

/// What a reply of another supplier says to the job with this opening, likewise; whether a reference is left matters to each but a status.
/// Takes no memory.
pub fn heard_of_peer(reply: &PeerReply, left: bool) -> Heard
    ensures { (s : Standing) (o : Opening) → IsLeftByPeer s o reply.now left → result ≡ heard_of_peer s o reply.now }
{
    match reply {
        PeerReply::Status(status) => Heard::Status(*status),
        PeerReply::Served(_) | PeerReply::Gone | PeerReply::Noted => {
            Heard::Answered { unheard: left }
        }
    }
}
