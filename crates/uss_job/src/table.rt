// What a job does next, as a table.
ghost use Rattle.std.specs.Prelude.{◌≡◌, ◌==◌, false, if◌then◌else◌};
ghost use Rattle.uss_law_supplier.specs.declared.duties.Awaited.TheVariants as Waits;
ghost use Rattle.uss_law_supplier.specs.declared.duties.Heard.TheVariants as Hears;
ghost use Rattle.uss_law_supplier.specs.declared.duties.Duty.TheVariants.{Call, Close, DssRefused};
ghost use Rattle.uss_law_supplier.specs.Table.{by_book, next_or_choice, on_found, on_got, on_heard, on_lack, on_put_refused, on_reply, resume, with_ticket};
ghost use Rattle.uss_job.specs.Rows.{has_row};

use uss_intent::MOST_OVNS;
use uss_law_supplier::{Awaited, Duty, Heard, JobView};

fn with_ticket(keyed: bool) -> Duty
    ensures { result ≡ with_ticket keyed }
{
    if keyed {
        Duty::Call(Awaited::Query)
    } else {
        Duty::Attempt
    }
}

/// What a job does that waits for nothing.
fn by_book(view: &JobView) -> Duty
    ensures { result ≡ by_book view.now }
{
    if view.end {
        Duty::Call(Awaited::Remove)
    } else if view.deciding {
        Duty::Call(Awaited::TicketRemove)
    } else if 0 < view.attempts {
        Duty::Call(Awaited::Put)
    } else if view.ticket_open {
        with_ticket(view.keyed)
    } else {
        Duty::Call(Awaited::TicketPut)
    }
}

/// What a job does that is resumed: it makes the call again that it waits for, or goes on by its book. Takes no memory.
pub fn resume(view: &JobView) -> Duty
    ensures { result ≡ resume view.now }
{
    match view.awaited {
        Some(kind) => Duty::Call(kind),
        None => by_book(view),
    }
}

fn next_or_choice(unheard: bool) -> Duty
    ensures { result ≡ next_or_choice unheard }
{
    if unheard {
        Duty::Call(Awaited::Details)
    } else {
        Duty::Choose
    }
}

fn on_found(keyed: bool, others: usize, unheard: bool) -> Duty
    ensures { result ≡ on_found keyed others unheard }
{
    if !keyed {
        Duty::Attempt
    } else if MOST_OVNS < others {
        Duty::Crowded
    } else {
        next_or_choice(unheard)
    }
}

fn on_lack(view: &JobView) -> Duty
    ensures { result ≡ on_lack view.now }
{
    if !view.keyed {
        Duty::DssRefused(209)
    } else if view.attempts < usize::from(view.rounds) {
        Duty::Call(Awaited::Query)
    } else {
        Duty::DecideStale
    }
}

fn on_got(own: bool) -> Duty
    ensures { result ≡ on_got own }
{
    if own { Duty::Hold } else { Duty::Unsettled }
}

fn on_put_refused(view: &JobView, number: u16) -> Duty
    ensures { result ≡ on_put_refused view.now number }
{
    match number {
        209 => on_lack(view),
        203 | 206 => Duty::Call(Awaited::Get),
        _ => Duty::DssRefused(number),
    }
}

fn on_ticket_remove_refused(number: u16) -> Duty
    ensures { result ≡ (if number == 204 then Close else if number == 210 then Call Waits.Get else DssRefused number) }
{
    match number {
        204 => Duty::Close,
        210 => Duty::Call(Awaited::Get),
        _ => Duty::DssRefused(number),
    }
}

/// What a refusal by the discovery service makes a job do.
fn on_refused(view: &JobView, kind: Awaited, number: u16) -> Duty
    ensures { result ≡ on_heard view.now kind (Hears.Refused number) }
{
    match kind {
        Awaited::TicketPut => {
            if number == 203 {
                Duty::OpenTicket
            } else {
                Duty::DssRefused(number)
            }
        }
        Awaited::Put => on_put_refused(view, number),
        Awaited::TicketRemove => on_ticket_remove_refused(number),
        Awaited::Remove => {
            if number == 204 {
                Duty::Close
            } else {
                Duty::DssRefused(number)
            }
        }
        Awaited::Query | Awaited::Details | Awaited::Get => Duty::DssRefused(number),
    }
}

/// What a reply to a call of this kind makes a job do, where the job waits for it.
fn on_heard(view: &JobView, kind: Awaited, heard: Heard) -> Duty
    ensures { result ≡ on_heard view.now kind heard }
{
    match heard {
        Heard::Made => match kind {
            Awaited::TicketPut => Duty::OpenTicket,
            _ => Duty::Call(kind),
        },
        Heard::Found { others, unheard } => match kind {
            Awaited::Query => on_found(view.keyed, others, unheard),
            _ => Duty::Call(kind),
        },
        Heard::Answered { unheard } => match kind {
            Awaited::Details => next_or_choice(unheard),
            _ => Duty::Call(kind),
        },
        Heard::Status(_) => match kind {
            Awaited::Details => Duty::PeerRefused,
            _ => Duty::Call(kind),
        },
        Heard::Landed => match kind {
            Awaited::Put => Duty::Hold,
            _ => Duty::Call(kind),
        },
        Heard::Got { own } => match kind {
            Awaited::Get => on_got(own),
            _ => Duty::Call(kind),
        },
        Heard::Removed => match kind {
            Awaited::TicketRemove | Awaited::Remove => Duty::Close,
            _ => Duty::Call(kind),
        },
        Heard::Refused(number) => on_refused(view, kind, number),
    }
}

/// What a job does at a reply. One that answers the call that it waits for has its row in the table; any other makes it resume. Takes no
/// memory.
#[tactic(auto, using(crate::proofs::Rows::no_row_resumes))]
pub fn on_reply(view: &JobView, heard: Heard) -> Duty
    ensures row { result ≡ on_reply view.now heard }
    ensures other { has_row view.now.awaited heard ≡ false → result ≡ resume view.now }
{
    match view.awaited {
        Some(kind) => on_heard(view, kind, heard),
        None => by_book(view),
    }
}
