ghost use Rattle.std.specs.Prelude.{◌≡◌, ◌==◌, ◌↔◌, true, ℕ, IsTrue, [], ◌∷◌, ◌++◌, List, length, if◌then◌else◌, is_ok, IfErr, IsSome, ◌<◌};
ghost use Rattle.std.specs.Option.{option_to_list};
ghost use Rattle.std.specs.List.{AllZip};
ghost use Rattle.std.specs.Cmp.Lexicographic.{pointwise, lists_per};

use crate::{Landing, Ovn, Reference, Subscriber};
use std::alloc::{AllocError, AllocFailed, Global};
use std::marker::Model;
use uss_vol4::Volume4;

/// A list of items of one type. A contract sees it as the list of its items, whatever room it keeps for more.
#[derive(Debug, Drop)]
pub struct Sequence<T> {
    items: Vec<T>,
}

impl<T> Model for Sequence<T> {
    ghost use Rattle.std.specs.Prelude.{List};

    ghost Value = { List T };

    ghost view = { λ a. a.items.items };
}

/// Volumes: the extents of an operational intent, or a part of them.
pub type Volumes = Sequence<Volume4>;

/// OVNs: the key of a change of a reference.
pub type Ovns = Sequence<Ovn>;

/// References, as the discovery service shows them.
pub type References = Sequence<Reference>;

/// Those that are to be notified of a change.
pub type Owed = Sequence<Subscriber>;

/// The history of the discovery service, oldest first.
pub type Landings = Sequence<Landing>;

impl<T> Sequence<T> {
    /// No items. Takes no memory.
    pub fn new(alloc: Global) -> Sequence<T>
        ensures { result ≡ [] }
    {
        Sequence {
            items: Vec::new(alloc),
        }
    }

    /// The items of a `Vec`. Takes no memory.
    pub fn from_vec(items: Vec<T>) -> Sequence<T>
        ensures { result ≡ items.items }
    {
        Sequence { items }
    }

    /// The items, given back as a `Vec`. Takes no memory.
    pub fn into_vec(self) -> Vec<T>
        ensures { result.items ≡ self }
    {
        self.items
    }

    /// The items, to be looked at.
    pub fn as_slice(&self) -> &[T]
        ensures { result.now ≡ self.now }
    {
        self.items.as_slice()
    }

    /// The number of items.
    pub fn len(&self) -> usize
        ensures { result ≡ length self.now }
    {
        self.items.len()
    }

    /// Whether there is no item.
    pub fn is_empty(&self) -> bool
        ensures { result ≡ (length self.now == 0) }
    {
        self.items.is_empty()
    }

    /// Puts an item at the end. Running out of memory hands it back and changes nothing.
    pub fn push(&mut self, item: T) -> Result<(), AllocFailed<T>>
        ensures items { self.new ≡ (if is_ok result then self.old ++ item ∷ [] else self.old) }
        ensures back { IfErr result (λ e. e.value ≡ item) }
    {
        self.items.push(item)
    }

    /// Takes the last item out, if there is one. Takes no memory.
    pub fn pop(&mut self) -> Option<T>
        ensures items { self.old ≡ self.new ++ option_to_list result }
        ensures some { IsSome result ↔ (0 < length self.old) }
    {
        self.items.pop()
    }
}

impl<T: Clone> Clone for Sequence<T> {
    ghost use Rattle.std.specs.Prelude.{◌≡◌};
    ghost use Rattle.std.specs.List.{AllZip};

    ghost is_clone = { λ list copy. AllZip T.is_clone list copy × (((x y : T) → T.is_clone x y → y ≡ x) → copy ≡ list) };

    fn clone(&self) -> Result<Sequence<T>, AllocError> {
        Ok(Sequence {
            items: self.items.clone()?,
        })
    }
}

impl<T: PartialEq> PartialEq for Sequence<T> {
    ghost eq = { pointwise T.eq };

    ghost laws = { lists_per T.laws };

    /// Whether both have equal items in one order.
    fn eq(&self, other: &Sequence<T>) -> bool
        ensures value { result ≡ pointwise T.eq self.now other.now }
        ensures same { ((x y : T) → (T.eq x y ≡ true) ↔ (x ≡ y)) → IsTrue result ↔ (self.now ≡ other.now) }
    {
        self.items == other.items
    }
}
