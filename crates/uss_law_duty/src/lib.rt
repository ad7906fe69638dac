//! What one step of a supplier may do: what it may enter, send and say. Definitions and laws, and no code that runs.
//!
//! `specs/Heard.antt` of `uss_event` has what a supplier heard and which pairs it keeps of it, `specs/Kept.antt` what holds of these,
//! `specs/Answers.antt` the answers that a book keeps, `specs/Sends.antt`, `specs/Entered.antt` and `specs/Sayings.antt` what may be
//! sent, entered and said, and `specs/Duties.antt` the whole of a step. `specs/Worked.antt` has a worked job, and `specs/Flown.antt` a
//! flight that is changed. The functions below do nothing: their contracts carry the laws.
#![tactic(auto)]

ghost use Rattle.std.specs.Prelude.{ℕ, ◌<◌, ◌≤◌, ◌≡◌, ◌≢◌, ◌⊎◌, [], ◌∷◌, ◌++◌, ℤ, List, length, Option, codes, Some, None};
ghost use Rattle.uss_event.specs.declared.events.Answer.TheVariants as Answers;
ghost use Rattle.uss_event.specs.declared.events.Said.TheVariants as Says;
ghost use Rattle.uss_event.specs.declared.events.Event.TheVariants as Comes;
ghost use Rattle.uss_intent.specs.declared.calls.DssReply.TheVariants as Replies;
ghost use Rattle.uss_event.specs.declared.calls.PeerReply.TheVariants as Peers;
ghost use Rattle.uss_event.specs.declared.calls.Outgoing.TheVariants as Goes;
ghost use Rattle.uss_event.specs.declared.asks.Conform.TheVariants as Finds;
ghost use Rattle.uss_event.specs.declared.asks.AskRefusal.TheVariants as Refuses;
ghost use Rattle.uss_law_book.specs.Legal.{IsLegal};
ghost use Rattle.uss_event.specs.declared.entries.Entry.{Entry};
ghost use Rattle.uss_event.specs.declared.calls.Outgoing.{Outgoing};
ghost use Rattle.uss_event.specs.declared.events.Said.{Said};
ghost use Rattle.uss_event.specs.declared.events.Event.{Event};
ghost use Rattle.uss_event.specs.Pairs.{OperationalIntent};
ghost use Rattle.uss_law_dss.specs.Lists.{Has};
ghost use Rattle.uss_event.specs.Heard.{News, most_kept, kept_pairs, kept_pair};
ghost use Rattle.uss_event.specs.Heard.News.{Heard, Forgotten};
ghost use Rattle.uss_law_duty.specs.Kept.{IsLastHeard, AreCrowding};
ghost use Rattle.uss_law_duty.specs.Duties.{book_after, MayStep};
ghost use Rattle.uss_event.specs.declared.entries.Entry.TheVariants as Enters;
ghost use Rattle.uss_intent.specs.declared.calls.DssRefusal.TheVariants as Denies;
ghost use Rattle.uss_event.specs.declared.rules.Verdict.TheVariants.{HigherStands};
ghost use Rattle.uss_event.specs.Verdicts.{verdict};
ghost use Rattle.uss_law_duty.specs.Flown.{calls, replies_to, flown_ticket_book, flown_pending, flown_tried_book, flown_put, flown_reference, flown_held, changed, first_seen, strayed_book, strayed_query, strayed_pending, strayed_put, urgent_pair, staying_book, details_of_urgent, staying, staying_put, stays_as};
ghost use Rattle.uss_law_duty.specs.Worked.{owner, flight, held_book, other_pair, keyed, keyed_put, keyed_book, details_of_other, held_pair, end_ask, end_opened, ending_book, remove, end_sends, end_replied, end_done, owing_book, notify, notified, note_of_other, note_of_end, under_way, inside, above_it, now, ask, opened, heard_open, pending, recorded, cancelling, done, new_book, asked_book, ticket_book, tried_book, cancelled_book, sends, replied, ticket_put, query, put, get, ticket_remove, the_ticket, the_reference, planned, missing, exists};

/// A supplier may plan a flight: it opens a job for the request and asks for its ticket, asks what is there once it has the ticket,
/// makes an attempt where nothing is there, and enters what landed as held.
pub fn a_flight_may_be_planned()
    ensures asking { MayStep new_book [] now (Comes.Ask ask) (Some opened) (sends ticket_put) Says.Nothing [] }
    ensures ticket_made { MayStep asked_book [] now (replied ticket_put (Replies.TicketMade the_ticket)) (Some heard_open) (sends query) Says.Nothing [] }
    ensures nothing_found { MayStep ticket_book [] now (replied query (Replies.Found [])) (Some pending) (sends put) Says.Nothing [] }
    ensures landed { MayStep tried_book [] now (replied put (Replies.Landed the_reference [])) (Some recorded) [] planned [] }
{}

/// A supplier may go on where its key lacked something, and after a restart; and it may find a landing whose reply was lost.
pub fn a_job_may_go_on()
    ensures lacked { MayStep tried_book [] now (replied put missing) None (sends query) Says.Nothing [] }
    ensures resumed { MayStep tried_book [] now (Comes.Ask ask) None (sends put) Says.Nothing [] }
    ensures asks_again { MayStep tried_book [] now (replied put exists) None (sends get) Says.Nothing [] }
    ensures got { MayStep tried_book [] now (replied get (Replies.Got the_reference)) (Some recorded) [] planned [] }
{}

/// A supplier may make an attempt with the key of what it heard, serve what it holds, and end a flight.
pub fn a_flight_may_be_kept_apart_served_and_ended()
    ensures served { MayStep ticket_book [] now (Comes.Peer details_of_other (Peers.Served other_pair)) (Some keyed) (sends keyed_put) Says.Nothing (Heard other_pair ∷ []) }
    ensures serves { MayStep held_book [] now (Comes.Details (codes "uss2") flight) None [] (Says.Pair (Some held_pair)) [] }
    ensures ends { MayStep held_book [] now (Comes.Ask end_ask) (Some end_opened) (end_sends remove) Says.Nothing [] }
    ensures ended { MayStep ending_book [] now (end_replied remove (Replies.Removed the_reference [])) (Some end_done) [] (Says.Answer (Answers.Ended flight)) [] }
{}

/// A supplier may cancel a request after an attempt, once the attempt's ticket is gone.
pub fn a_job_may_be_cancelled()
    ensures cancels { MayStep tried_book [] now (Comes.Cancel 1 1) (Some cancelling) (sends ticket_remove) Says.Nothing [] }
    ensures cancelled { MayStep cancelled_book [] now (replied ticket_remove (Replies.TicketRemoved the_ticket)) (Some done) [] (Says.Answer Answers.Cancelled) [] }
{}

/// A supplier may find that a flight is where its plan says, or that it isn't.
pub fn a_position_may_be_judged()
    ensures conforms { MayStep held_book [] under_way (Comes.Position inside) None [] (Says.Answer (Answers.Steady Finds.Conforming)) [] }
    ensures strays { MayStep held_book [] under_way (Comes.Position above_it) None [] (Says.Answer (Answers.Steady Finds.Nonconforming)) [] }
    ensures old { MayStep held_book [] now (Comes.Position inside) None [] (Says.Refused (Refuses.OldPosition under_way)) [] }
{}

/// A supplier may send another a notification that it owes, and enter that it was sent; and it may hear of another's flight and of its end.
pub fn changes_may_be_notified()
    ensures tells { MayStep owing_book [] now (Comes.Sweep 0) None (Goes.Peer notify ∷ []) Says.Nothing [] }
    ensures notifying { MayStep owing_book [] now (Comes.Peer notify Peers.Noted) (Some notified) [] Says.Nothing [] }
    ensures hears { MayStep tried_book [] now (Comes.Notified (codes "uss2") note_of_other) None [] Says.Noted (Heard other_pair ∷ []) }
    ensures forgets { MayStep tried_book (Heard other_pair ∷ []) now (Comes.Notified (codes "uss2") note_of_end) None [] Says.Noted (Heard other_pair ∷ Forgotten other_pair.reference.flight ∷ []) }
{}

/// A supplier may say that a call failed, and which attempts of its job may still be recorded.
pub fn a_call_may_fail()
    ensures { MayStep tried_book [] now (Comes.Failed 1) None [] (Says.Left (1 ∷ [])) [] }
{}

/// A supplier may change a flight from what it holds of it, and enters what landed as changed; and it may record as it is one that
/// strays: with the first alternative and an empty key.
pub fn a_flight_may_be_changed()
    ensures flies { MayStep flown_ticket_book [] now (replies_to 2 query (Replies.Found (the_reference ∷ []))) (Some flown_pending) (calls 2 flown_put) Says.Nothing [] }
    ensures lands { MayStep flown_tried_book [] now (replies_to 2 flown_put (Replies.Landed flown_reference [])) (Some flown_held) [] changed [] }
    ensures strays { MayStep strayed_book [] first_seen (replies_to 3 strayed_query (Replies.Found (flown_reference ∷ []))) (Some strayed_pending) (calls 3 strayed_put) Says.Nothing [] }
{}

/// A flown flight may be recorded again as it is, though a flight of a greater priority was planned into its airspace meanwhile. Were it
/// not flown there already, the other flight would stand against it.
pub fn a_flown_flight_may_stay()
    ensures stays { MayStep staying_book [] now (Comes.Peer details_of_urgent (Peers.Served urgent_pair)) (Some staying) (calls 3 staying_put) Says.Nothing (Heard urgent_pair ∷ []) }
    ensures stands_otherwise { verdict owner.table stays_as urgent_pair None ≡ HigherStands }
{}

/// A job that gave up and whose ticket is still cited asks what is recorded. The ticket of a flight that has ended may be taken out, and
/// is then entered as gone.
pub fn a_ticket_may_be_taken_out()
    ensures in_use { MayStep cancelled_book [] now (replied ticket_remove (Replies.Refused Denies.TicketInUse)) None (sends get) Says.Nothing [] }
    ensures takes_out { MayStep (ending_book ++ end_done ∷ []) [] now (Comes.Sweep 0) None (sends ticket_remove) Says.Nothing [] }
    ensures gone { MayStep (ending_book ++ end_done ∷ []) [] now (replied ticket_remove (Replies.TicketRemoved the_ticket)) (Some (Enters.TicketGone 1)) [] Says.Nothing [] }
{}

/// Each kept pair is the last that was heard of its flight, and no older one since took its place; nothing is kept of a flight that was
/// forgotten and wasn't heard of since. Of each flight one pair is kept at most, and 4,096 in all.
pub fn kept_pairs_were_heard()
    ensures its_flight { (flight : ℕ) (heard : List News) (p : OperationalIntent) → kept_pair flight heard ≡ Some p → p.reference.flight ≡ flight }
    ensures was_heard { (flight : ℕ) (heard : List News) (p : OperationalIntent) → kept_pair flight heard ≡ Some p → Has heard (Heard p) }
    ensures last { (flight : ℕ) (heard : List News) (p : OperationalIntent) → kept_pair flight heard ≡ Some p → IsLastHeard heard p }
    ensures forgotten { (flight : ℕ) (before since : List News) → ((p : OperationalIntent) → Has since (Heard p) → p.reference.flight ≢ flight)
        → kept_pair flight (before ++ Forgotten flight ∷ since) ≡ None }
    ensures one_each { (heard : List News) (p : OperationalIntent) → Has (kept_pairs heard) p → kept_pair p.reference.flight heard ≡ Some p }
    ensures few { (heard : List News) → length (kept_pairs heard) ≤ most_kept }
{}

/// A pair that is heard is kept, unless a newer one of its flight is. It stays, or a newer one does, until its flight is forgotten or
/// pairs of 4,096 other flights were heard.
pub fn what_is_heard_is_kept()
    ensures taken { (heard : List News) (p : OperationalIntent) → (q : OperationalIntent) × (kept_pair p.reference.flight (heard ++ Heard p ∷ []) ≡ Some q)
        × ((q ≡ p) ⊎ (p.reference.version < q.reference.version)) }
    ensures stays { (before since : List News) (p : OperationalIntent) → kept_pair p.reference.flight (before ++ Heard p ∷ []) ≡ Some p
        → (Has since (Forgotten p.reference.flight) → ⊥)
        → ((q : OperationalIntent) × (kept_pair p.reference.flight (before ++ Heard p ∷ since) ≡ Some q) × (p.reference.version ≤ q.reference.version))
        ⊎ AreCrowding since p.reference.flight }
{}

/// The books of the worked steps are legal, from the owner's entry on: a flight that is planned and then ended, a request that is
/// cancelled, an attempt with a key, a record of which another supplier was notified, a flight that is flown and strays or stays, and a ticket
/// that is gone.
pub fn the_worked_books_are_legal()
    ensures ended { IsLegal (ending_book ++ end_done ∷ []) }
    ensures cancelled { IsLegal (cancelled_book ++ done ∷ []) }
    ensures keyed { IsLegal keyed_book }
    ensures notified { IsLegal (owing_book ++ notified ∷ []) }
    ensures strayed { IsLegal (strayed_book ++ strayed_pending ∷ []) }
    ensures stayed { IsLegal (staying_book ++ staying ∷ []) }
    ensures gone { IsLegal (ending_book ++ end_done ∷ Enters.TicketGone 1 ∷ []) }
{}

/// A legal book is still legal after a step that is allowed.
pub fn a_step_leaves_a_legal_book()
    ensures { (book : List Entry) (heard : List News) (moment : ℤ) (event : Event) (entry : Option Entry) (sends : List Outgoing) (said : Said) (after : List News)
        → IsLegal book → MayStep book heard moment event entry sends said after → IsLegal (book_after book entry) }
{}
