ghost use Rattle.std.specs.Prelude.{◌≡◌, ◌^◌, ◌≤◌, ℕ, length, option_map, Ok, Err};
ghost use Rattle.serde_json.specs.Find.{get};
ghost use Rattle.serde_json.specs.View.{view, items_view};
ghost use Rattle.uss_wire_base.specs.Names.{name};
ghost use Rattle.uss_wire_base.specs.Reading.{Gives, GivesBy, Reader, each};
ghost use Rattle.uss_wire_base.specs.Reading as spec;

use crate::refusal::{Member, WireRefusal};
use serde_json::Value;
use serde_json::error::Category;
use std::alloc::Global;

/// The value that a message stands for: its bytes must be UTF-8 and JSON that nests at most 127 deep.
pub fn data(alloc: Global, bytes: &[u8]) -> Result<Value, WireRefusal>
    ensures { GivesBy view result (spec.message_of (λ _ d. Ok d) bytes.now) }
{
    match Value::from_slice(alloc, bytes) {
        Ok(value) => Ok(value),
        Err(error) => match error.classify() {
            Category::Memory => Err(WireRefusal::Memory),
            _ => Err(WireRefusal::BadJson),
        },
    }
}

/// That the value is an object.
pub fn object(place: Member, value: &Value) -> Result<(), WireRefusal>
    ensures { result ≡ spec.object_at place (view value.now) }
{
    if value.is_object() {
        Ok(())
    } else {
        Err(WireRefusal::WrongKind(place))
    }
}

/// The value of a member, if it is there.
pub fn find(member: Member, value: &Value) -> Option<&Value>
    ensures { option_map (λ v. view v.now) result ≡ get (name member) (view value.now) }
{
    value.get(member.name())
}

/// The value of a member, which must be there.
pub fn member_of(member: Member, value: &Value) -> Result<&Value, WireRefusal>
    ensures { GivesBy (λ v. view v.now) result (spec.member_of member (view value.now)) }
{
    find(member, value).ok_or(WireRefusal::Missing(member))
}

/// That the object lacks a member which this profile refuses.
pub fn without(member: Member, value: &Value) -> Result<(), WireRefusal>
    ensures { result ≡ spec.without member (view value.now) }
{
    match find(member, value) {
        Some(_) => Err(WireRefusal::NotThisProfile(member)),
        None => Ok(()),
    }
}

/// That the object lacks a member, or has it with another value than true.
pub fn without_true(member: Member, value: &Value) -> Result<(), WireRefusal>
    ensures { result ≡ spec.without_true member (view value.now) }
{
    if find(member, value)
        .and_then(Value::as_bool)
        .unwrap_or(false)
    {
        Err(WireRefusal::NotThisProfile(member))
    } else {
        Ok(())
    }
}

/// A whole number of 64 bits, signed.
pub fn integer(member: Member, value: &Value) -> Result<i64, WireRefusal>
    ensures { result ≡ spec.integer_at member (view value.now) }
{
    value.as_i64().ok_or(WireRefusal::WrongKind(member))
}

/// A whole number of 64 bits from 0 on.
pub fn natural(member: Member, value: &Value) -> Result<u64, WireRefusal>
    ensures { result ≡ spec.natural_at member (view value.now) }
{
    value.as_u64().ok_or(WireRefusal::WrongKind(member))
}

/// The whole number of a member, signed.
pub fn integer_of(member: Member, value: &Value) -> Result<i64, WireRefusal>
    ensures { Gives result (spec.field member spec.integer_at (view value.now)) }
{
    integer(member, member_of(member, value)?)
}

/// The whole number of a member, from 0 on.
pub fn natural_of(member: Member, value: &Value) -> Result<u64, WireRefusal>
    ensures { Gives result (spec.field member spec.natural_at (view value.now)) }
{
    natural(member, member_of(member, value)?)
}

/// A whole number from 0 to 4,294,967,295.
pub fn natural_32(member: Member, value: &Value) -> Result<u32, WireRefusal>
    ensures { result ≡ spec.natural_below (2 ^ 32) member (view value.now) }
{
    let number = natural(member, value)?;
    if number <= u64::from(u32::MAX) {
        Ok(number as u32)
    } else {
        Err(WireRefusal::WrongKind(member))
    }
}

/// A whole number from 0 to 65,535.
pub fn natural_16(member: Member, value: &Value) -> Result<u16, WireRefusal>
    ensures { result ≡ spec.natural_below (2 ^ 16) member (view value.now) }
{
    let number = natural(member, value)?;
    if number <= u64::from(u16::MAX) {
        Ok(number as u16)
    } else {
        Err(WireRefusal::WrongKind(member))
    }
}

/// A whole number from 0 to 255.
pub fn natural_8(member: Member, value: &Value) -> Result<u8, WireRefusal>
    ensures { result ≡ spec.natural_below (2 ^ 8) member (view value.now) }
{
    let number = natural(member, value)?;
    if number <= u64::from(u8::MAX) {
        Ok(number as u8)
    } else {
        Err(WireRefusal::WrongKind(member))
    }
}

/// A text.
pub fn text(member: Member, value: &Value) -> Result<&str, WireRefusal>
    ensures { GivesBy (λ s. s.now) result (spec.text_at member (view value.now)) }
{
    value.as_str().ok_or(WireRefusal::WrongKind(member))
}

/// That the value is this text.
pub fn word(text: &str, member: Member, value: &Value) -> Result<(), WireRefusal>
    ensures { result ≡ spec.word_at text.now member (view value.now) }
{
    match value.as_str() {
        Some(found) if found == text => Ok(()),
        _ => Err(WireRefusal::WrongKind(member)),
    }
}

/// The items of a list.
pub fn items(member: Member, value: &Value) -> Result<&[Value], WireRefusal>
    ensures { GivesBy (λ vs. items_view vs.now) result (spec.items_at member (view value.now)) }
{
    match value.as_array() {
        Some(items) => Ok(items.as_slice()),
        None => Err(WireRefusal::WrongKind(member)),
    }
}

/// The items of a list that has at most so many.
pub fn few_items(limit: usize, member: Member, value: &Value) -> Result<&[Value], WireRefusal>
    ensures { GivesBy (λ vs. items_view vs.now) result (spec.few_items_at limit member (view value.now)) }
{
    let items = items(member, value)?;
    if items.len() <= limit {
        Ok(items)
    } else {
        Err(WireRefusal::TooMany(member))
    }
}

/// The one item of a list.
pub fn only_item(member: Member, items: &[Value]) -> Result<&Value, WireRefusal>
    ensures { GivesBy (λ v. view v.now) result (spec.only_item member (items_view items.now)) }
{
    match items {
        [] => Err(WireRefusal::WrongKind(member)),
        [only] => Ok(only),
        _ => Err(WireRefusal::TooMany(member)),
    }
}

/// How the items of a list are read. The readers of this crate go through a list by it.
pub trait ReadItem<T: Drop> {
    /// What an item gives, where the member of its list is named.
    ghost reads: { Self → Reader T };

    /// Reads one item.
    fn read_item(&self, alloc: Global, place: Member, value: &Value) -> Result<T, WireRefusal>
        ensures { Gives result (reads self.now place (view value.now)) };
}

/// The items of a list in their order, or the first refusal. Linear in the items; none is copied.
pub fn each<T: Drop, R: ReadItem<T>>(
    alloc: Global,
    reader: &R,
    place: Member,
    items: &[Value],
) -> Result<Vec<T>, WireRefusal>
    ensures { GivesBy (λ v. v.items) result (each (R.reads reader.now place) (items_view items.now)) }
{
    let mut list = Vec::new(alloc);
    for item in items {
        list.push(reader.read_item(alloc, place, item)?)?;
    }
    Ok(list)
}
