// Whose book it is, as bytes.
ghost use Rattle.std.specs.Prelude.{◌≡◌, ◌++◌, OnOk};
ghost use Rattle.uss_law_book.specs.Coding.{IsOwner};
ghost use Rattle.uss_codec.specs.Reading.{Gives};
ghost use Rattle.uss_book_codec.specs.Coding.{owner};
ghost use Rattle.uss_book_codec.specs.Reading.{short_base_at, table_at, owner_at};

use std::alloc::{AllocError, Global};
use uss_codec::{Coded, Unread, put_list, take_list};
use uss_event::{Owner, RuleTable};
use uss_intent::{Base, Name};

/// Writes whose book it is.
pub(crate) fn put_owner(value: &Owner, out: &mut Vec<u8>) -> Result<(), AllocError>
    requires { IsOwner value.now }
    ensures { OnOk result (out.new.items ≡ out.old.items ++ owner value.now) }
{
    value.number.put(out)?;
    value.name.put(out)?;
    value.base.put(out)?;
    put_list(value.table.priorities(), out)?;
    Ok(())
}

/// The configured base URL at the start, of at most 256 bytes, and the bytes after it.
#[tactic(auto, unfolding(crate::specs::Reading::short_base_at))]
fn take_short_base(alloc: Global, bytes: &[u8]) -> Result<(Base, &[u8]), Unread>
    ensures { Gives (λ x. (x.0, x.1.now)) result (short_base_at bytes.now) }
{
    let (base, rest) = Base::take(alloc, bytes)?;
    if base.as_bytes().len() > 256 {
        return Err(Unread::Malformed);
    }
    Ok((base, rest))
}

/// The table of rules at the start, and the bytes after it.
#[tactic(auto, unfolding(crate::specs::Reading::table_at))]
fn take_table(alloc: Global, bytes: &[u8]) -> Result<(RuleTable, &[u8]), Unread>
    ensures { Gives (λ x. (x.0, x.1.now)) result (table_at bytes.now) }
{
    let (priorities, rest) = take_list::<u16>(alloc, 1001, bytes)?;
    match RuleTable::from_ascending(priorities) {
        Some(table) => Ok((table, rest)),
        None => Err(Unread::Malformed),
    }
}

/// Whose book it is, and the bytes after it.
#[tactic(auto, unfolding(crate::specs::Reading::owner_at))]
pub(crate) fn take_owner(alloc: Global, bytes: &[u8]) -> Result<(Owner, &[u8]), Unread>
    ensures { Gives (λ x. (x.0, x.1.now)) result (owner_at bytes.now) }
{
    let (number, rest) = u32::take(alloc, bytes)?;
    let (name, rest) = Name::take(alloc, rest)?;
    let (base, rest) = take_short_base(alloc, rest)?;
    let (table, rest) = take_table(alloc, rest)?;
    Ok((
        Owner {
            number,
            name,
            base,
            table,
        },
        rest,
    ))
}
