ghost use Rattle.std.specs.Prelude.{◌↔◌, ◌≡◌, IsTrue, ℕ, List, Option};
ghost use Rattle.uss_event.specs.declared.asks.FlightAsk.{FlightAsk};
ghost use Rattle.uss_event.specs.declared.entries.Ending.{Ending};
ghost use Rattle.uss_event.specs.declared.entries.Entry.{Entry};
ghost use Rattle.uss_law_book.specs.Legal.{MayOpen, MayOpenTicket, MayTry, MayHold, MayDecide, MayEnd, MayRetire, MaySend, IsDue, is_owner, is_new};
ghost use Rattle.uss_book_rules.specs.Due.{may_open, may_open_ticket, may_try, may_hold, may_decide, may_retire, may_send};
ghost use Rattle.uss_book_rules.specs.Ends.{may_end};
ghost use Rattle.uss_book_rules.specs.Next.{is_due};

/// The tests say exactly what the law of the book says of an entry that is due. The function does nothing: its contract carries the
/// law.
pub fn tests_are_exact()
    ensures opening { (es : List Entry) (job : ℕ) (ask : FlightAsk) → IsTrue (may_open es job ask) ↔ MayOpen es job ask }
    ensures ticket { (es : List Entry) (job : ℕ) → IsTrue (may_open_ticket es job) ↔ MayOpenTicket es job }
    ensures attempt { (es : List Entry) (job tag alternative : ℕ) (previous : Option (List ℕ)) (key : List (List ℕ)) →
        IsTrue (may_try es job tag alternative previous key) ↔ MayTry es job tag alternative previous key }
    ensures record_of { (es : List Entry) (job tag : ℕ) → IsTrue (may_hold es job tag) ↔ MayHold es job tag }
    ensures decision { (es : List Entry) (job : ℕ) (end : Ending) → IsTrue (may_decide es job end) ↔ MayDecide es job end }
    ensures end_of { (es : List Entry) (job : ℕ) (end : Ending) → IsTrue (may_end es job end) ↔ MayEnd es job end }
    ensures retirement { (es : List Entry) (job : ℕ) → IsTrue (may_retire es job) ↔ MayRetire es job }
    ensures answer { (es : List Entry) (job index : ℕ) → IsTrue (may_send es job index) ↔ MaySend es job index }
    ensures any_entry { (es : List Entry) (e : Entry) → IsTrue (is_due es e) ↔ ((is_owner e ≡ is_new es) × IsDue es e) }
{}
