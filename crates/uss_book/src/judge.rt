// Records that were read are judged, one after another.
ghost use Rattle.std.specs.Prelude.{◌≡◌, ◌∷◌, ◌++◌, [], Bool, true, false, IfOk, IfErr, MatchResult};
ghost use Rattle.uss_law_book.specs.Legal.{MayFollow, IsLegal};
ghost use Rattle.uss_book_codec.specs.Coding.{coding_of};
ghost use Rattle.uss_book.specs.Book.{records_of};
ghost use Rattle.uss_book.specs.Judge.{IsJudged};
ghost use Rattle.uss_book.specs.Refusal.{Misread};

use crate::BookFault;
use std::alloc::{AllocError, Global};
use uss_book_codec::read;
use uss_book_index::Entries;
use uss_journal::Records;

/// Whether a record's bytes are the coding of an entry that may follow those that are kept: the entry is then kept too.
fn judge(alloc: Global, kept: &mut Entries, bytes: &[u8]) -> Result<bool, AllocError>
    requires { IsLegal kept.old.entries }
    ensures { IfOk result (IsJudged kept.old.entries bytes.now kept.new.entries) }
{
    let Some(e) = read(alloc, bytes)? else {
        return Ok(false);
    };
    if !kept.may_follow(&e) {
        return Ok(false);
    }
    kept.make_room(&e)?;
    kept.enter(e);
    Ok(true)
}

/// The entries whose codings the records are, or the number of the first that is bad.
pub(crate) fn entries_of(alloc: Global, records: &Records<'_>) -> Result<Entries, BookFault>
    ensures legal { IfOk result (λ k. IsLegal k.entries) }
    ensures found { IfOk result (λ k. records_of k.entries ≡ records.now) }
    ensures refused { IfErr result (Misread records.now) }
{
    let mut kept = Entries::new(alloc);
    for n in 0..records.count() {
        let record = records.item(n).unwrap();
        if !judge(alloc, &mut kept, record)? {
            return Err(BookFault::BadEntry(n as u64));
        }
    }
    Ok(kept)
}
