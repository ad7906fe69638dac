// What decides a job's next duty, by its book and the call that it waits for.
ghost use Rattle.std.specs.Prelude.{◌≡◌};
ghost use Rattle.std.specs.Option.{option_copied, option_and_then};
ghost use Rattle.uss_law_book.specs.Contents.{rounds_of};
ghost use Rattle.uss_law_supplier.specs.Values.{awaited_of};
ghost use Rattle.uss_law_supplier.specs.Calls.{kind_of, kind_of_ask, kind_of_call};
ghost use Rattle.uss_law_supplier.specs.Jobs.{is_end, keeps_key, view_of};
ghost use Rattle.uss_law_supplier.specs.Turns.{Standing};

use uss_book_index::Entries;
use uss_book_rules::Tells;
use uss_event::{Opening, Outgoing, PeerCall, Wish};
use uss_intent::DssAsk;
use uss_law_supplier::{Awaited, JobView};

fn kind_of_ask(ask: &DssAsk) -> Option<Awaited>
    ensures { result ≡ kind_of_ask ask.now }
{
    match ask {
        DssAsk::Query { .. } => Some(Awaited::Query),
        DssAsk::Get { .. } => Some(Awaited::Get),
        DssAsk::Put { .. } => Some(Awaited::Put),
        DssAsk::Remove { .. } => Some(Awaited::Remove),
        DssAsk::TicketPut { .. } => Some(Awaited::TicketPut),
        DssAsk::TicketGet { .. } => None,
        DssAsk::TicketRemove { .. } => Some(Awaited::TicketRemove),
    }
}

fn kind_of_call(call: &PeerCall) -> Option<Awaited>
    ensures { result ≡ kind_of_call call.now }
{
    match call {
        PeerCall::Details { .. } => Some(Awaited::Details),
        PeerCall::Notify { .. } => None,
    }
}

fn kind_of_outgoing(call: &Outgoing) -> Option<Awaited>
    ensures { result ≡ kind_of call.now }
{
    match call {
        Outgoing::Dss(call) => kind_of_ask(&call.ask),
        Outgoing::Peer(call) => kind_of_call(call),
    }
}

/// Of which kind the call is that a job waits for; none where it waits for none, or no job waits for such a call.
fn kind_of(awaited: Option<&Outgoing>) -> Option<Awaited>
    ensures { result ≡ option_and_then kind_of (option_copied awaited.entry) }
{
    match awaited {
        Some(call) => kind_of_outgoing(call),
        None => None,
    }
}

fn is_end(wish: &Wish) -> bool
    ensures { result ≡ is_end wish.now }
{
    matches!(wish, Wish::End)
}

fn keeps_key(wish: &Wish) -> bool
    ensures { result ≡ keeps_key wish.now }
{
    match wish {
        Wish::Put { to, .. } => to.is_strategic(),
        Wish::End => false,
    }
}

fn rounds_of(wish: &Wish) -> u8
    ensures { result ≡ rounds_of wish.now }
{
    match wish {
        Wish::Put { rounds, .. } => *rounds,
        Wish::End => 0,
    }
}

/// What decides the next duty of the job with this opening, which waits for this call, or for none. Takes no memory.
#[tactic(auto, unfolding(uss_law_supplier::specs::Jobs::view_of))]
pub fn view_of(entries: &Entries, opening: &Opening, awaited: Option<&Outgoing>) -> JobView
    ensures { (s : Standing) → s.book ≡ entries.now.entries → awaited_of opening.now.job s.values ≡ option_copied awaited.entry → result ≡ view_of s opening.now }
{
    JobView {
        end: is_end(&opening.ask.wish),
        keyed: keeps_key(&opening.ask.wish),
        ticket_open: entries.has_ticket(opening.job),
        deciding: entries.decision(opening.job).is_some(),
        attempts: entries.attempts(opening.job),
        rounds: rounds_of(&opening.ask.wish),
        awaited: kind_of(awaited),
    }
}
