ghost use Rattle.std.specs.Prelude.{◌≡◌, length};
ghost use Rattle.uss_intent.specs.declared.records.State.TheVariants as States;
ghost use Rattle.uss_event.specs.declared.rules.Verdict.TheVariants as Verdicts;
ghost use Rattle.uss_event.specs.declared.entries.Entry.{Entry};
ghost use Rattle.uss_law_book.specs.Coding.{HasCoding, coding_length};
ghost use Rattle.uss_book_codec.specs.Coding.{coding_of};
ghost use Rattle.uss_book_codec.specs.Worked.{ticket_open, ticket_open_bytes, opened, opened_bytes, held, held_bytes, done, done_bytes};
ghost use Rattle.uss_book_codec.specs.Worked.{owner, owner_bytes, opened_to_end, opened_to_end_bytes, opened_to_put, opened_to_put_bytes};
ghost use Rattle.uss_book_codec.specs.Worked.{pending, pending_bytes, creating, creating_bytes, deciding, deciding_bytes, cancelled, cancelled_bytes};
ghost use Rattle.uss_book_codec.specs.Worked.{ended, ended_bytes, ticket_gone, ticket_gone_bytes, sent, sent_bytes};

/// Each entry has one coding, and no two entries have the same. The function does nothing: its contract carries the law.
pub fn one_coding_each()
    ensures { (d e : Entry) → HasCoding d → HasCoding e → coding_of d ≡ coding_of e → d ≡ e }
{}

/// A coding is as long as the book's reserve counts it. The function does nothing: its contract carries the law.
pub fn codings_have_their_length()
    ensures { (e : Entry) → length (coding_of e) ≡ coding_length e }
{}

/// Codings that were worked out by hand: no two fields or halves stand in each other's place, and each number has its meaning. The
/// function does nothing: its contract carries the vectors.
pub fn worked_codings()
    ensures ticket_open { coding_of ticket_open ≡ ticket_open_bytes }
    ensures accepted { coding_of (opened States.Accepted) ≡ opened_bytes 1 }
    ensures activated { coding_of (opened States.Activated) ≡ opened_bytes 2 }
    ensures nonconforming { coding_of (opened States.Nonconforming) ≡ opened_bytes 3 }
    ensures contingent { coding_of (opened States.Contingent) ≡ opened_bytes 4 }
    ensures held { coding_of held ≡ held_bytes }
    ensures equal_forbidden { coding_of (done Verdicts.EqualForbidden) ≡ done_bytes 1 }
    ensures higher_stands { coding_of (done Verdicts.HigherStands) ≡ done_bytes 2 }
{}

/// The same for the kinds and the forms of an entry that `worked_codings` leaves out: with these each kind of entry has its worked coding,
/// and so do each wish and each ending. The function does nothing: its contract carries the vectors.
pub fn further_worked_codings()
    ensures owner { coding_of owner ≡ owner_bytes }
    ensures opened_to_end { coding_of opened_to_end ≡ opened_to_end_bytes }
    ensures opened_to_put { coding_of opened_to_put ≡ opened_to_put_bytes }
    ensures pending { coding_of pending ≡ pending_bytes }
    ensures creating { coding_of creating ≡ creating_bytes }
    ensures deciding { coding_of deciding ≡ deciding_bytes }
    ensures cancelled { coding_of cancelled ≡ cancelled_bytes }
    ensures ended { coding_of ended ≡ ended_bytes }
    ensures ticket_gone { coding_of ticket_gone ≡ ticket_gone_bytes }
    ensures sent { coding_of sent ≡ sent_bytes }
{}
