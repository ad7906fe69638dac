ghost use Rattle.std.specs.Prelude.{◌≡◌, ◌≢◌, ◌^◌, List, ℕ, [], IfOk, Ok};
ghost use Rattle.std.specs.Str.{IsUtf8};
ghost use Rattle.serde_json.specs.View.{view};
ghost use Rattle.uss_wire_base.specs.Reading.{Gives, GivesBy, field, natural_below, text_at, message_of};
ghost use Rattle.uss_wire_base.specs.Writing.{IsTextOf};
ghost use Rattle.uss_wire_dss.specs.declared.errors.ErrorBody.{ErrorBody};
ghost use Rattle.uss_wire_dss.specs.ChangesAndErrors as spec;
ghost use Rattle.uss_wire_dss.specs.ReplyWriting.{error_json, IsReadableError};

use serde_json::{Value, json};
use std::alloc::{AllocError, Global};
use std::str;
use uss_intent::{Name, References, Sequence};
use uss_wire_base::{
    Member, WireRefusal, data, list, member_of, message, natural_16, object, text,
};
use uss_wire_words::{ReferenceWriter, references_of};

/// The body of an error.
#[derive(Debug, Drop)]
pub struct ErrorBody {
    /// Its text, in UTF-8.
    pub message: Sequence<u8>,
    /// Its number.
    pub refusal: u16,
    /// The references whose OVNs the key lacks, for 209 alone.
    pub missing: References,
}

fn message_of_error(
    alloc: Global,
    member: Member,
    value: &Value,
) -> Result<Sequence<u8>, WireRefusal>
    ensures { Gives result (field member text_at (view value.now)) }
{
    let text = text(member, member_of(member, value)?)?;
    let mut bytes = Vec::new(alloc);
    bytes.extend_from_slice(text.as_bytes())?;
    Ok(Sequence::from_vec(bytes))
}

fn number_of(member: Member, value: &Value) -> Result<u16, WireRefusal>
    ensures { Gives result (field member (natural_below (2 ^ 16)) (view value.now)) }
{
    natural_16(member, member_of(member, value)?)
}

fn missing_of(
    alloc: Global,
    client: &Name,
    refusal: u16,
    value: &Value,
) -> Result<References, WireRefusal>
    ensures { Gives result (spec.missing_at client.now refusal (view value.now)) }
{
    if refusal == 209 {
        references_of(alloc, client, Member::MissingOperationalIntents, value)
    } else {
        Ok(References::new(alloc))
    }
}

#[tactic(auto, unfolding(crate::specs::ChangesAndErrors::error_at))]
fn error(
    alloc: Global,
    client: &Name,
    place: Member,
    value: &Value,
) -> Result<ErrorBody, WireRefusal>
    ensures { Gives result (spec.error_at client.now place (view value.now)) }
{
    object(place, value)?;
    let message = message_of_error(alloc, Member::Message, value)?;
    let refusal = number_of(Member::Refusal, value)?;
    let missing = missing_of(alloc, client, refusal, value)?;
    Ok(ErrorBody {
        message,
        refusal,
        missing,
    })
}

/// The body of an error in an answer to this client. Another client's OVN is dropped.
pub fn read_error(alloc: Global, bytes: &[u8], client: &Name) -> Result<ErrorBody, WireRefusal>
    ensures { Gives result (message_of (spec.error_at client.now) bytes.now) }
{
    let value = data(alloc, bytes)?;
    error(alloc, client, Member::Whole, &value)
}

/// The text of an error.
fn text_of(error: &ErrorBody) -> &str
    requires { IsUtf8 error.now.message }
    ensures { result.now ≡ error.now.message }
{
    match str::from_utf8(error.message.as_slice()) {
        Ok(text) => text,
        Err(_) => unreachable!(),
    }
}

#[tactic(auto, unfolding(crate::specs::ReplyWriting::error_json))]
fn error_value(alloc: Global, error: &ErrorBody) -> Result<Value, AllocError>
    requires { IsUtf8 error.now.message }
    ensures { IfOk result (λ v. view v ≡ error_json error.now) }
{
    let message = text_of(error);
    if error.refusal == 209 {
        let missing = list(alloc, &ReferenceWriter, error.missing.as_slice())?;
        return json!(in alloc; {"message": message, "missing_operational_intents": missing, "refusal": error.refusal});
    }
    json!(in alloc; {"message": message, "refusal": error.refusal})
}

/// The bytes of the body of an error.
pub fn write_error(alloc: Global, error: &ErrorBody) -> Result<Vec<u8>, AllocError>
    requires text { IsUtf8 error.now.message }
    requires missing { error.now.refusal ≢ 209 → error.now.missing ≡ [] }
    ensures { IfOk result (λ b. IsTextOf (error_json error.now) b.items) }
{
    let value = error_value(alloc, error)?;
    message(alloc, &value)
}

/// What is written of an error is read again as the same by the client that it was shown to. The function does nothing.
pub fn errors_are_read_again()
    ensures { (client : List ℕ) (e : ErrorBody) (b : List ℕ) → IsReadableError client e → IsTextOf (error_json e) b → message_of (spec.error_at client) b ≡ Ok e }
{}
