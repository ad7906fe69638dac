ghost use Rattle.std.specs.Prelude.{◌≡◌, List, ℕ, IfOk, IfSome, IfNone, Some};
ghost use Rattle.uss_event.specs.declared.entries.Entry.{Entry};
ghost use Rattle.uss_law_book.specs.Coding.{HasCoding};
ghost use Rattle.uss_codec.specs.Reading.{Gives};
ghost use Rattle.uss_book_codec.specs.Coding.{coding_of};
ghost use Rattle.uss_book_codec.specs.Reading.{all_of};

use crate::entries::{put_entry, take_entry};
use crate::lengths::length_of;
use std::alloc::{AllocError, Global};
use uss_codec::Unread;
use uss_event::Entry;

/// The coding of an entry: one buffer, as the journal takes it, with room for all of it from the start.
pub fn write(alloc: Global, entry: &Entry) -> Result<Vec<u8>, AllocError>
    requires { HasCoding entry.now }
    ensures { IfOk result (λ v. v.items ≡ coding_of entry.now) }
{
    let mut out = Vec::with_capacity(alloc, length_of(entry) as usize)?;
    put_entry(entry, &mut out)?;
    Ok(out)
}

/// The entry whose coding is all of the bytes.
#[tactic(auto, unfolding(crate::specs::Reading::all_of))]
fn all(alloc: Global, bytes: &[u8]) -> Result<Entry, Unread>
    ensures { Gives (λ e. e) result (all_of bytes.now) }
{
    let (entry, rest) = take_entry(alloc, bytes)?;
    if !rest.is_empty() {
        return Err(Unread::Malformed);
    }
    Ok(entry)
}

/// The entry whose coding these bytes are, and none where they aren't the coding of one: where bytes are missing or stand after it,
/// a value is beyond its limits, or a kind is unknown.
pub fn read(alloc: Global, bytes: &[u8]) -> Result<Option<Entry>, AllocError>
    // What is read has a coding, and the bytes are that.
    ensures found { IfOk result (λ o. IfSome o (λ e. HasCoding e × (bytes.now ≡ coding_of e))) }
    // What has a coding is read from it.
    ensures only { (e : Entry) → HasCoding e → bytes.now ≡ coding_of e → IfOk result (λ o. o ≡ Some e) }
{
    match all(alloc, bytes) {
        Ok(entry) => Ok(Some(entry)),
        Err(Unread::Malformed) => Ok(None),
        Err(Unread::Memory) => Err(AllocError),
    }
}
