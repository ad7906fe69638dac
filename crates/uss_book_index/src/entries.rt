ghost use Rattle.std.specs.Prelude.{◌≡◌, ◌↔◌, IsTrue, ◌<◌, ◌++◌, ◌∷◌, [], length, slice_get, vec_len, vec_capacity, option_copied, OnOk};
ghost use Rattle.uss_law_book.specs.Coding.{HasCoding, journal_length};
ghost use Rattle.uss_law_book.specs.Legal.{IsLegal, MayFollow};
ghost use Rattle.uss_law_book.specs.Reserve.{need, settled};
ghost use Rattle.uss_book_index.specs.Known.{IsReadyFor};

use crate::index::Index;
use crate::indexed::room_for;
use crate::reserve::{covers, need_after, settled_after};
use crate::room::Room;
use std::alloc::{AllocError, Global};
use std::marker::Model;
use uss_book_rules::is_due;
use uss_event::Entry;

/// The entries of a supplier's book, which are a legal book, with an index over them. A contract sees the entries, the oldest first,
/// and for which further ones there is room.
#[derive(Drop)]
pub struct Entries {
    pub(crate) entries: Vec<Entry>,
    pub(crate) index: Index,
    alloc: Global,
    /// For what room was made, until an entry comes.
    ready: Option<Room>,
    /// The bytes to be kept free.
    need: u64,
    /// The bytes of the journal of the settled entries.
    settled: u64,
}

impl Model for Entries {
    ghost use Rattle.std.specs.Prelude.{vec_len, vec_capacity};
    ghost use Rattle.uss_book_index.specs.Known.{Known};
    ghost use Rattle.uss_book_index.specs.Kept.{IsKept};

    ghost Value = { Known };

    ghost view = { λ s. record { entries = s.entries.items; ready = s.ready } };

    ghost invariant = { λ s. IsKept s.entries.items (vec_len s.entries) (vec_capacity s.entries) s.index s.ready s.need s.settled };
}

fn count(entries: &[Entry]) -> usize
    ensures { result ≡ length entries.now }
{
    entries.len()
}

fn put(entries: &mut Vec<Entry>, e: Entry)
    requires { vec_len entries.old < vec_capacity entries.old }
    ensures { entries.new.items ≡ entries.old.items ++ e ∷ [] }
{
    let _ = entries.push(e);
}

impl Entries {
    /// No entry. Takes no memory.
    pub fn new(alloc: Global) -> Entries
        ensures { result.entries ≡ [] }
    {
        Entries {
            entries: Vec::new(alloc),
            index: Index::new(alloc),
            alloc,
            ready: None,
            need: 0,
            settled: 9,
        }
    }

    /// How many entries there are.
    pub fn len(&self) -> usize
        ensures { result ≡ length self.now.entries }
    {
        self.entries.as_slice().len()
    }

    /// The entries, the oldest first.
    pub fn as_slice(&self) -> &[Entry]
        ensures { result.now ≡ self.now.entries }
    {
        self.entries.as_slice()
    }

    /// The entries are a legal book. This does nothing: its contract tells it to whoever has the entries.
    pub fn are_legal(&self)
        ensures { IsLegal self.now.entries }
    {
        // What is true of the list is brought to the proof.
        let _ = count(&self.entries);
    }

    /// The entries themselves, without the index.
    pub fn into_vec(self) -> Vec<Entry>
        ensures { result.items ≡ self.entries }
    {
        self.entries
    }

    /// The entry with this number, from 0.
    pub fn entry(&self, n: usize) -> Option<&Entry>
        ensures { option_copied result ≡ slice_get self.now.entries n }
    {
        self.entries.as_slice().get(n)
    }

    /// The bytes to be kept free: 8 MiB for each open job, 64 for each notification that is owed and wasn't answered, 64 for each
    /// closed job's ticket that is there.
    pub fn need(&self) -> u64
        ensures { result ≡ need self.now.entries }
    {
        self.need
    }

    /// The bytes of the journal without those entries of open jobs that follow their openings.
    pub fn settled_length(&self) -> u64
        ensures { result ≡ journal_length (settled self.now.entries) }
    {
        self.settled
    }

    /// Whether an entry that has a coding may follow. Takes no memory.
    pub fn may_follow(&self, e: &Entry) -> bool
        requires { HasCoding e.now }
        ensures { IsTrue result ↔ MayFollow self.now.entries e.now }
    {
        // What is true of the list is brought to the proof.
        let _ = count(&self.entries);
        if is_due(self, e) {
            covers(self.need, self.settled, &self.entries, &self.index, e)
        } else {
            false
        }
    }

    /// Makes room for a further entry, so that entering it takes no memory. The entries stay.
    pub fn make_room(&mut self, e: &Entry) -> Result<(), AllocError>
        ensures entries { self.new.entries ≡ self.old.entries }
        ensures room { OnOk result (IsReadyFor self.new e.now) }
    {
        self.ready = None;
        let room = room_for(self.alloc, &self.entries, &self.index, e)?;
        self.entries.reserve(1)?;
        self.index.make_room(&room)?;
        self.ready = Some(room);
        Ok(())
    }

    /// Enters an entry that may follow. Takes no memory.
    pub fn enter(&mut self, e: Entry)
        requires room { IsReadyFor self.old e }
        requires follows { MayFollow self.old.entries e }
        ensures { self.new.entries ≡ self.old.entries ++ e ∷ [] }
    {
        let Some(room) = self.ready.take() else {
            return;
        };
        let place = count(&self.entries);
        self.need = need_after(self.need, &self.entries, &self.index.firsts, &e);
        self.settled = settled_after(self.settled, &self.entries, &self.index, &e);
        self.index
            .enter(&e, place, room.flight, room.ordinal, room.pair);
        put(&mut self.entries, e);
    }
}
