// Whose book it is.
ghost use Rattle.std.specs.Prelude.{◌≡◌, ◌↔◌, ◌≢◌, ◌≤◌, [], IsTrue, Some, length};
ghost use Rattle.uss_event.specs.declared.entries.Entry.TheVariants as Enters;
ghost use Rattle.uss_law_book.specs.Coding.{HasCoding};
ghost use Rattle.uss_law_book.specs.Legal.{IsLegal};
ghost use Rattle.uss_law_book.specs.Lists.{owner_of};

use uss_book_index::Entries;
use uss_book_rules::Tells;
use uss_event::{Entry, Owner};

/// Whether both are one owner: each of their parts is the same.
pub(crate) fn is_same(a: &Owner, b: &Owner) -> bool
    ensures { IsTrue result ↔ (a.now ≡ b.now) }
{
    a.number == b.number
        && a.name == b.name
        && a.base == b.base
        && a.table.priorities() == b.table.priorities()
}

/// Whether the entries are of this owner's book.
pub(crate) fn is_of(kept: &Entries, owner: &Owner) -> bool
    ensures { IsTrue result ↔ (owner_of kept.now.entries ≡ Some owner.now) }
{
    match kept.owner() {
        Some(first) => is_same(first, owner),
        None => false,
    }
}

/// The owner of a book, taken out of its entries.
pub(crate) fn into_owner(kept: Entries) -> Owner
    requires legal { IsLegal kept.entries }
    requires some { kept.entries ≢ [] }
    ensures { owner_of kept.entries ≡ Some result }
{
    let mut entries = kept.into_vec();
    match entries.remove(0) {
        Entry::Owner(owner) => owner,
        _ => unreachable!(),
    }
}

/// The first entry of a book of this owner, whose base URL has at most 256 bytes.
pub(crate) fn first_entry(owner: Owner) -> Entry
    requires { length owner.base ≤ 256 }
    ensures is { result ≡ Enters.Owner owner }
    ensures coding { HasCoding result }
{
    // What the types of a name, a base URL and a table hold is brought to the proof.
    let _name = owner.name.as_bytes();
    let _base = owner.base.as_bytes();
    let _table = owner.table.priorities();
    Entry::Owner(owner)
}
