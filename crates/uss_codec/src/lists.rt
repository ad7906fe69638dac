ghost use Rattle.std.specs.Prelude.{◌≡◌, ◌<◌, ◌≤◌, ◌^◌, ◌++◌, length, All, IfSome, OnOk};
ghost use Rattle.uss_codec.specs.Spelling.{optional, list, short_list};
ghost use Rattle.uss_codec.specs.Reading.{Gives, optional_at, many_at, list_at, short_list_at};
ghost use Rattle.std.specs.List.{flat_map};

use crate::{Coded, Unread};
use std::alloc::{AllocError, Global};

/// Writes a value that may be there.
pub fn put_option<T: Coded>(value: &Option<T>, out: &mut Vec<u8>) -> Result<(), AllocError>
    requires { IfSome value.now T.fits }
    ensures { OnOk result (out.new.items ≡ out.old.items ++ optional T.spelling value.now) }
{
    match value {
        None => {
            out.push(0)?;
            Ok(())
        }
        Some(value) => {
            out.push(1)?;
            value.put(out)
        }
    }
}

/// A value that may be there, and the bytes after it.
#[tactic(auto, unfolding(crate::specs::Reading::optional_at))]
pub fn take_option<T: Coded>(alloc: Global, bytes: &[u8]) -> Result<(Option<T>, &[u8]), Unread>
    ensures { Gives (λ x. (x.0, x.1.now)) result (optional_at T.reading bytes.now) }
{
    match bytes {
        [0, rest @ ..] => Ok((None, rest)),
        [1, rest @ ..] => {
            let (value, rest) = T::take(alloc, rest)?;
            Ok((Some(value), rest))
        }
        _ => Err(Unread::Malformed),
    }
}

/// Writes the items one after another.
fn put_all<T: Coded>(items: &[T], out: &mut Vec<u8>) -> Result<(), AllocError>
    requires { All T.fits items.now }
    ensures { OnOk result (out.new.items ≡ out.old.items ++ flat_map T.spelling items.now) }
{
    for item in items {
        item.put(out)?;
    }
    Ok(())
}

/// So many values, and the bytes after them.
fn take_many<T: Coded + Drop>(
    alloc: Global,
    count: u32,
    bytes: &[u8],
) -> Result<(Vec<T>, &[u8]), Unread>
    ensures { Gives (λ x. (x.0.items, x.1.now)) result (many_at T.reading count bytes.now) }
{
    let mut items = Vec::new(alloc);
    let mut rest = bytes;
    for _ in 0..count {
        let (item, behind) = T::take(alloc, rest)?;
        items.push(item)?;
        rest = behind;
    }
    Ok((items, rest))
}

/// Writes a list whose number of items has 4 bytes.
pub fn put_list<T: Coded>(items: &[T], out: &mut Vec<u8>) -> Result<(), AllocError>
    requires few { length items.now < 2 ^ 32 }
    requires fits { All T.fits items.now }
    ensures { OnOk result (out.new.items ≡ out.old.items ++ list T.spelling items.now) }
{
    (items.len() as u32).put(out)?;
    put_all(items, out)
}

/// A list of at most so many items, whose number has 4 bytes, and the bytes after it.
#[tactic(auto, unfolding(crate::specs::Reading::counted_at))]
pub fn take_list<T: Coded + Drop>(
    alloc: Global,
    limit: u32,
    bytes: &[u8],
) -> Result<(Vec<T>, &[u8]), Unread>
    ensures { Gives (λ x. (x.0.items, x.1.now)) result (list_at limit T.reading bytes.now) }
{
    let (count, rest) = u32::take(alloc, bytes)?;
    if count > limit {
        return Err(Unread::Malformed);
    }
    take_many(alloc, count, rest)
}

/// Writes a list whose number of items has one byte.
pub fn put_short_list<T: Coded>(items: &[T], out: &mut Vec<u8>) -> Result<(), AllocError>
    requires few { length items.now ≤ 255 }
    requires fits { All T.fits items.now }
    ensures { OnOk result (out.new.items ≡ out.old.items ++ short_list T.spelling items.now) }
{
    (items.len() as u8).put(out)?;
    put_all(items, out)
}

/// A list whose number of items has one byte, and the bytes after it.
#[tactic(auto, unfolding(crate::specs::Reading::counted_at))]
pub fn take_short_list<T: Coded + Drop>(
    alloc: Global,
    bytes: &[u8],
) -> Result<(Vec<T>, &[u8]), Unread>
    ensures { Gives (λ x. (x.0.items, x.1.now)) result (short_list_at T.reading bytes.now) }
{
    let (count, rest) = u8::take(alloc, bytes)?;
    take_many(alloc, u32::from(count), rest)
}
