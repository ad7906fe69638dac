ghost use Rattle.std.specs.Prelude.{◌≡◌, ℕ, List, Option, IfOk, Ok};
ghost use Rattle.serde_json.specs.View.{view};
ghost use Rattle.uss_wire_base.specs.Reading.{message_of};
ghost use Rattle.uss_wire_base.specs.Writing.{IsTextOf};
ghost use Rattle.uss_vol4.specs.Volume.{Volume4D, IsVolume};
ghost use Rattle.uss_intent.specs.Texts.{IsBase};
ghost use Rattle.uss_intent.specs.declared.records.State.{State};
ghost use Rattle.uss_intent.specs.declared.records.Ticket.{Ticket};
ghost use Rattle.uss_intent.specs.declared.calls.DssAsk.TheVariants as Ask;
ghost use Rattle.uss_wire_dss.specs.Calls as reads;
ghost use Rattle.uss_wire_dss.specs.Replies.{subscription_answer_at};
ghost use Rattle.uss_wire_dss.specs.CallWriting.{IsQuery, IsPut, IsTicketPut, IsReadablePut};
ghost use Rattle.uss_wire_dss.specs.ReplyWriting.{subscription_answer_json, IsReadableTicket};
ghost use Rattle.uss_wire_dss.specs.CallWriting as spec;

use serde_json::{Value, json};
use std::alloc::{AllocError, Global};
use uss_intent::{Base, DssAsk, Ovn, Ovns, State, TicketId, Volumes};
use uss_vol4::Volume4;
use uss_wire_base::{WriteItem, list, message};
use uss_wire_words::{VolumeWriter, state_word, ticket_text, volume_value};

/// How the OVNs of a key are written.
#[derive(Clone, Copy)]
struct OvnWriter;

impl WriteItem<Ovn> for OvnWriter {
    ghost use Rattle.serde_json.specs.Data.{string};

    ghost json = { λ _. string };

    fn write_item(&self, alloc: Global, item: &Ovn) -> Result<Value, AllocError> {
        Value::try_from_str(alloc, item.as_str())
    }
}

#[tactic(auto, unfolding(crate::specs::CallWriting::query_json))]
fn query(alloc: Global, area: &Volume4) -> Result<Value, AllocError>
    ensures { IfOk result (λ v. view v ≡ spec.query_json area.now) }
{
    let area = volume_value(alloc, area)?;
    json!(in alloc; {"area_of_interest": area})
}

#[tactic(auto, unfolding(crate::specs::CallWriting::put_reference_json))]
fn put_reference(
    alloc: Global,
    extents: &Volumes,
    key: &Ovns,
    state: State,
    base: &Base,
    ticket: TicketId,
) -> Result<Value, AllocError>
    ensures { IfOk result (λ v. view v ≡ spec.put_reference_json extents.now key.now state base.now ticket) }
{
    let extents = list(alloc, &VolumeWriter, extents.as_slice())?;
    let key = list(alloc, &OvnWriter, key.as_slice())?;
    let ticket = ticket_text(alloc, ticket)?;
    json!(in alloc; {
        "extents": extents,
        "key": key,
        "state": state_word(state),
        "subscription_id": ticket,
        "uss_base_url": base.as_str()
    })
}

#[tactic(auto, unfolding(crate::specs::CallWriting::put_subscription_json))]
fn put_subscription(alloc: Global, area: &Volume4, base: &Base) -> Result<Value, AllocError>
    ensures { IfOk result (λ v. view v ≡ spec.put_subscription_json area.now base.now) }
{
    let area = volume_value(alloc, area)?;
    json!(in alloc; {
        "extents": area,
        "notify_for_constraints": false,
        "notify_for_operational_intents": true,
        "uss_base_url": base.as_str()
    })
}

fn query_bytes(alloc: Global, area: &Volume4) -> Result<Vec<u8>, AllocError>
    ensures { IfOk result (λ b. IsTextOf (spec.query_json area.now) b.items) }
{
    let value = query(alloc, area)?;
    message(alloc, &value)
}

fn put_reference_bytes(
    alloc: Global,
    extents: &Volumes,
    key: &Ovns,
    state: State,
    base: &Base,
    ticket: TicketId,
) -> Result<Vec<u8>, AllocError>
    ensures { IfOk result (λ b. IsTextOf (spec.put_reference_json extents.now key.now state base.now ticket) b.items) }
{
    let value = put_reference(alloc, extents, key, state, base, ticket)?;
    message(alloc, &value)
}

fn put_subscription_bytes(alloc: Global, area: &Volume4, base: &Base) -> Result<Vec<u8>, AllocError>
    ensures { IfOk result (λ b. IsTextOf (spec.put_subscription_json area.now base.now) b.items) }
{
    let value = put_subscription(alloc, area, base)?;
    message(alloc, &value)
}

/// The bytes of a query.
pub fn write_query(alloc: Global, ask: &DssAsk) -> Result<Vec<u8>, AllocError>
    requires { IsQuery ask.now }
    ensures { IfOk result (λ b. IsTextOf (spec.ask_json ask.now) b.items) }
{
    match ask {
        DssAsk::Query { area } => query_bytes(alloc, area),
        _ => unreachable!(),
    }
}

/// The bytes of the creation or the change of a reference. Its flight and its OVN stand in the path of the call.
pub fn write_put_reference(alloc: Global, ask: &DssAsk) -> Result<Vec<u8>, AllocError>
    requires { IsPut ask.now }
    ensures { IfOk result (λ b. IsTextOf (spec.ask_json ask.now) b.items) }
{
    match ask {
        DssAsk::Put {
            extents,
            key,
            state,
            base,
            ticket,
            ..
        } => put_reference_bytes(alloc, extents, key, *state, base, *ticket),
        _ => unreachable!(),
    }
}

/// The bytes of the making of a ticket. Its identifier stands in the path of the call.
pub fn write_put_subscription(alloc: Global, ask: &DssAsk) -> Result<Vec<u8>, AllocError>
    requires { IsTicketPut ask.now }
    ensures { IfOk result (λ b. IsTextOf (spec.ask_json ask.now) b.items) }
{
    match ask {
        DssAsk::TicketPut { area, base, .. } => put_subscription_bytes(alloc, area, base),
        _ => unreachable!(),
    }
}

/// What is written of a call or a ticket is read again as the same: the bytes of `write_query`, `write_put_reference`,
/// `write_put_subscription` and `write_subscription_answer`. The function does nothing.
pub fn messages_are_read_again()
    ensures query { (area : Volume4D) (b : List ℕ) → IsVolume area → IsTextOf (spec.query_json area) b → message_of reads.query_at b ≡ Ok (Ask.Query area) }
    ensures put_reference { (f : ℕ) (o : Option (List ℕ)) (e : List Volume4D) (k : List (List ℕ)) (s : State) (u : List ℕ) (t : ℕ) (b : List ℕ)
        → IsReadablePut e k u t → IsTextOf (spec.put_reference_json e k s u t) b → message_of (reads.put_reference_at f o) b ≡ Ok (Ask.Put f o e k s u t) }
    ensures put_subscription { (t : ℕ) (area : Volume4D) (u b : List ℕ) → IsVolume area → IsBase u → IsTextOf (spec.put_subscription_json area u) b
        → message_of (reads.put_subscription_at t) b ≡ Ok (Ask.TicketPut t area u) }
    ensures subscription_answer { (t : Ticket) (b : List ℕ) → IsReadableTicket t → IsTextOf (subscription_answer_json t) b
        → message_of (subscription_answer_at t.manager t.area) b ≡ Ok t }
{}
