ghost use Rattle.std.specs.Prelude.{◌≡◌, ◌++◌, ◌∷◌, [], List, true, false};
ghost use Rattle.std.specs.Option.{option_to_list};
ghost use Rattle.uss_event.specs.declared.entries.Entry.{Entry};
ghost use Rattle.uss_law_book.specs.Legal.{IsLegal};
ghost use Rattle.uss_law_supplier.specs.Chores.{chores};
ghost use Rattle.uss_law_supplier.specs.Owed.{chores_book, fewer_chores_book};
ghost use Rattle.uss_law_supplier.specs.declared.duties.Chore.TheVariants.{Notify, Retire};
ghost use Rattle.uss_notify.specs.declared.changes.NoticeChange.TheVariants.{TicketOpened, Closed, Gone, Sent};
ghost use Rattle.uss_notify.specs.Changes.{change_of, changes_of};
ghost use Rattle.uss_notify.specs.After.{chores_after};

/// The chores of a legal book are those after what its entries say; and a further entry says one thing more, or nothing.
pub fn chores_follow_from_the_changes()
    ensures chores { (book : List Entry) → IsLegal book → chores_after (changes_of book) ≡ chores book }
    ensures one_more { (book : List Entry) (e : Entry) → changes_of (book ++ e ∷ []) ≡ changes_of book ++ option_to_list (change_of book e) }
{}

/// Worked rows: what the entries say of two jobs of one flight, the second of which supersedes the first, and of a cancelled job; and the
/// chores then, before and after the first of each is done. After the flight has ended no ticket of it is needed, and a ticket that was
/// heard as gone with the end of its job is no chore.
#[tactic(auto, unfolding(crate::specs::After::chores_after, uss_law_book::specs::Contents::opening_of, uss_law_book::specs::Contents::decision_of))]
pub fn worked_changes()
    ensures of_entries { changes_of chores_book ≡ TicketOpened 1 ∷ Closed 1 1 true false false 2 ∷ TicketOpened 2 ∷ Closed 2 1 true false false 1 ∷ TicketOpened 3 ∷ Closed 3 2 false false false 0 ∷ [] }
    ensures before { chores_after (changes_of chores_book) ≡ Notify 1 0 ∷ Notify 1 1 ∷ Notify 2 0 ∷ Retire 1 ∷ Retire 3 ∷ [] }
    ensures after { chores_after (changes_of fewer_chores_book) ≡ Notify 1 1 ∷ Notify 2 0 ∷ Retire 3 ∷ [] }
    ensures needed { chores_after (TicketOpened 1 ∷ Closed 1 7 true false false 0 ∷ []) ≡ [] }
    ensures ended { chores_after (TicketOpened 1 ∷ Closed 1 7 true false false 0 ∷ Closed 2 7 false true false 0 ∷ []) ≡ Retire 1 ∷ [] }
    ensures of_another_flight { chores_after (TicketOpened 1 ∷ Closed 1 7 true false false 0 ∷ Closed 2 8 false true false 0 ∷ []) ≡ [] }
    ensures gone_at_the_end { chores_after (TicketOpened 1 ∷ Closed 1 7 false false true 0 ∷ []) ≡ [] }
    ensures by_job { chores_after (Closed 2 8 false true false 1 ∷ Closed 1 7 false true false 2 ∷ Sent 1 1 ∷ []) ≡ Notify 1 0 ∷ Notify 2 0 ∷ [] }
{}
