ghost use Rattle.std.specs.Prelude.{◌≡◌, ◌++◌, string_bytes, OnOk};
ghost use Rattle.std.specs.List.{flat_map};
ghost use Rattle.uss_text.specs.Replies as spec;

use std::alloc::AllocError;
use uss_intent::{DssRefusal, DssReply, Ovn, Reference, Subscriber, Ticket};

/// Appends the OVN, or `-` where none is shown.
fn write_ovn(ovn: &Option<Ovn>, text: &mut String) -> Result<(), AllocError>
    ensures { OnOk result (string_bytes text.new ≡ string_bytes text.old ++ spec.ovn_text ovn.now) }
{
    match ovn {
        Some(ovn) => text.push_str(ovn.as_str()),
        None => text.push_str("-"),
    }
}

/// Appends what stands before the OVN of a reference.
fn write_front(reference: &Reference, text: &mut String) -> Result<(), AllocError>
    ensures { OnOk result (string_bytes text.new ≡ string_bytes text.old ++ spec.reference_front reference.now) }
{
    let flight = reference.flight;
    let manager = reference.manager.as_str();
    let version = reference.version;
    let state = reference.state;
    write!(text, "ref {flight} {manager} {version} {state} ")
}

/// Appends what stands after the OVN of a reference.
fn write_back(reference: &Reference, text: &mut String) -> Result<(), AllocError>
    ensures { OnOk result (string_bytes text.new ≡ string_bytes text.old ++ spec.reference_back reference.now) }
{
    let start = reference.start;
    let end = reference.end;
    let base = reference.base.as_str();
    let ticket = reference.ticket;
    write!(text, " {start} {end} {base} {ticket}\n")
}

/// Appends the line of a reference.
fn write_reference(reference: &Reference, text: &mut String) -> Result<(), AllocError>
    ensures { OnOk result (string_bytes text.new ≡ string_bytes text.old ++ spec.reference_line reference.now) }
{
    write_front(reference, text)?;
    write_ovn(&reference.ovn, text)?;
    write_back(reference, text)
}

/// Appends the line of a subscriber.
#[tactic(auto, unfolding(crate::specs::Replies::subscriber_line))]
fn write_subscriber(subscriber: &Subscriber, text: &mut String) -> Result<(), AllocError>
    ensures { OnOk result (string_bytes text.new ≡ string_bytes text.old ++ spec.subscriber_line subscriber.now) }
{
    let ticket = subscriber.ticket;
    let index = subscriber.index;
    let base = subscriber.base.as_str();
    write!(text, "sub {ticket} {index} {base}\n")
}

/// Appends the lines of references.
fn write_each_reference(list: &[Reference], text: &mut String) -> Result<(), AllocError>
    ensures { OnOk result (string_bytes text.new ≡ string_bytes text.old ++ flat_map spec.reference_line list.now) }
{
    for reference in list {
        write_reference(reference, text)?;
    }
    Ok(())
}

/// Appends the lines of subscribers.
fn write_each_subscriber(list: &[Subscriber], text: &mut String) -> Result<(), AllocError>
    ensures { OnOk result (string_bytes text.new ≡ string_bytes text.old ++ flat_map spec.subscriber_line list.now) }
{
    for subscriber in list {
        write_subscriber(subscriber, text)?;
    }
    Ok(())
}

/// Appends the word, the count of the references and their lines.
#[tactic(auto, unfolding(crate::specs::Replies::references_text))]
fn write_references(word: &str, list: &[Reference], text: &mut String) -> Result<(), AllocError>
    ensures { OnOk result (string_bytes text.new ≡ string_bytes text.old ++ spec.references_text word.now list.now) }
{
    let count = list.len();
    write!(text, "{word} {count}\n")?;
    write_each_reference(list, text)
}

/// Appends the count of the subscribers and their lines.
#[tactic(auto, unfolding(crate::specs::Replies::subscribers_text))]
fn write_subscribers(list: &[Subscriber], text: &mut String) -> Result<(), AllocError>
    ensures { OnOk result (string_bytes text.new ≡ string_bytes text.old ++ spec.subscribers_text list.now) }
{
    let count = list.len();
    write!(text, "subscribers {count}\n")?;
    write_each_subscriber(list, text)
}

/// Appends the word, the reference and the subscribers of a change.
#[tactic(auto, unfolding(crate::specs::Replies::change_text))]
fn write_change(
    word: &str,
    reference: &Reference,
    subscribers: &[Subscriber],
    text: &mut String,
) -> Result<(), AllocError>
    ensures { OnOk result (string_bytes text.new ≡ string_bytes text.old ++ spec.change_text word.now reference.now subscribers.now) }
{
    write!(text, "{word}\n")?;
    write_reference(reference, text)?;
    write_subscribers(subscribers, text)
}

/// Appends the line of a ticket.
#[tactic(auto, unfolding(crate::specs::Replies::ticket_line))]
fn write_ticket(ticket: &Ticket, text: &mut String) -> Result<(), AllocError>
    ensures { OnOk result (string_bytes text.new ≡ string_bytes text.old ++ spec.ticket_line ticket.now) }
{
    let id = ticket.id;
    let manager = ticket.manager.as_str();
    let index = ticket.index;
    write!(text, "ticket {id} {manager} 1 {index}\n")
}

/// Appends the line of a refusal, and of what a key lacks.
#[tactic(auto, unfolding(crate::specs::Replies::refused_text))]
fn write_refused(refusal: &DssRefusal, text: &mut String) -> Result<(), AllocError>
    ensures { OnOk result (string_bytes text.new ≡ string_bytes text.old ++ spec.refused_text refusal.now) }
{
    let number = refusal.number();
    write!(text, "refused {number}\n")?;
    match refusal {
        DssRefusal::MissingKey(list) => write_references("missing", list.as_slice(), text),
        _ => Ok(()),
    }
}

/// Appends the lines that `uss discover` writes of a reply. After memory ran out the text may end in a part of
/// them, and is to be dropped.
#[tactic(auto, unfolding(crate::specs::Replies::reply_text))]
pub fn write_reply(reply: &DssReply, text: &mut String) -> Result<(), AllocError>
    ensures { OnOk result (string_bytes text.new ≡ string_bytes text.old ++ spec.reply_text reply.now) }
{
    match reply {
        DssReply::Found(list) => write_references("found", list.as_slice(), text),
        DssReply::Got(reference) => write_reference(reference, text),
        DssReply::Landed {
            reference,
            subscribers,
        } => write_change("landed", reference, subscribers.as_slice(), text),
        DssReply::Removed {
            reference,
            subscribers,
        } => write_change("removed", reference, subscribers.as_slice(), text),
        DssReply::TicketMade(ticket) | DssReply::TicketGot(ticket) => write_ticket(ticket, text),
        DssReply::TicketRemoved(ticket) => write_tremoved(ticket, text),
        DssReply::Refused(refusal) => write_refused(refusal, text),
    }
}

/// Appends the line of a ticket that was taken out.
fn write_tremoved(ticket: &Ticket, text: &mut String) -> Result<(), AllocError>
    ensures { OnOk result (string_bytes text.new ≡ string_bytes text.old ++ spec.removed_ticket_line ticket.now) }
{
    let id = ticket.id;
    write!(text, "tremoved {id}\n")
}
