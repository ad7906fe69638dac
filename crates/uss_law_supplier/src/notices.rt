//! Worked chores of closed jobs, and worked exchanges with other suppliers.
#![tactic(auto, unfolding(crate::proofs::Computed::computed))]

ghost use Rattle.std.specs.Prelude.{[], ◌∷◌, ◌++◌, Some, None, codes};
ghost use Rattle.uss_intent.specs.declared.calls.DssRefusal.TheVariants as Refusals;
ghost use Rattle.uss_intent.specs.declared.calls.DssReply.TheVariants as Replies;
ghost use Rattle.uss_event.specs.declared.calls.Outgoing.TheVariants as Goes;
ghost use Rattle.uss_event.specs.declared.calls.PeerReply.TheVariants as Peers;
ghost use Rattle.uss_event.specs.declared.entries.Entry.TheVariants as Enters;
ghost use Rattle.uss_event.specs.declared.events.Event.TheVariants as Comes;
ghost use Rattle.uss_event.specs.declared.events.Said.TheVariants.{Nothing, Pair, Noted, NotManager};
ghost use Rattle.uss_event.specs.Heard.{News as Hears};
ghost use Rattle.uss_law_duty.specs.Flown.{calls, replies_to};
ghost use Rattle.uss_law_duty.specs.Worked.{new_book, tried_book, held_book, ending_book, owing_book, flight, ticket_remove, put};
ghost use Rattle.uss_law_duty.specs.Worked.{the_ticket, planned, notify, notified, subscriber, details_of_other, other_reference};
ghost use Rattle.uss_law_duty.specs.Worked.{other_pair, held_pair, note_of_other, note_of_end};
ghost use Rattle.uss_law_supplier.specs.Cases.{refused, of_no_manager, ended_book};
ghost use Rattle.uss_law_supplier.specs.Owed.{third_subscriber, chores_book, fewer_chores_book, notifies_flown, third_remove, ended_owing};
ghost use Rattle.uss_law_supplier.specs.Owed.{notice_of_end};
ghost use Rattle.uss_law_duty.specs.Flown.{flown_book, flown_pair};
ghost use Rattle.uss_law_supplier.specs.Twice.{third_ticket};
ghost use Rattle.uss_law_supplier.specs.Worked.{Does, Answers, nothing, waits, and_heard};

/// A sweep makes the calls of chores: the notifications that are owed, by job and index, and then the tickets to be taken out, by job; from so many on.
/// A note says what is held at that moment, or that the flight has ended.
pub fn a_sweep_makes_the_calls_of_chores()
    ensures one { Does owing_book nothing (Comes.Sweep 0) None (Goes.Peer notify ∷ []) Nothing nothing }
    ensures in_order { Does chores_book nothing (Comes.Sweep 0) None (notifies_flown 1 0 subscriber ∷ notifies_flown 1 1 third_subscriber ∷
        notifies_flown 2 0 subscriber ∷ calls 1 ticket_remove ++ calls 3 third_remove) Nothing nothing }
    ensures from_the_third { Does chores_book nothing (Comes.Sweep 3) None (calls 1 ticket_remove ++ calls 3 third_remove) Nothing nothing }
    ensures none_left { Does chores_book nothing (Comes.Sweep 5) None [] Nothing nothing }
    ensures some_done { Does fewer_chores_book nothing (Comes.Sweep 0) None
        (notifies_flown 1 1 third_subscriber ∷ notifies_flown 2 0 subscriber ∷ calls 3 third_remove) Nothing nothing }
    ensures of_the_end { Does (ending_book ++ ended_owing ∷ []) nothing (Comes.Sweep 0) None
        (Goes.Peer notice_of_end ∷ calls 1 ticket_remove) Nothing nothing }
    ensures beside_an_open_job { Does tried_book (waits 1 put) (Comes.Sweep 0) None [] Nothing (waits 1 put) }
{}

/// A reply to a chore that stands enters that it is done, and nobody is notified: a notification's by its index, even where another pair is
/// held now than its note has. Any other is one to a closed job.
pub fn chores_are_done_once()
    ensures notifying { Does owing_book nothing (Comes.Peer notify Peers.Noted) (Some notified) [] Nothing nothing }
    ensures notified_of_what_was_held { Does chores_book nothing (Comes.Peer notify Peers.Noted) (Some notified) [] Nothing nothing }
    ensures notified_before { Answers (owing_book ++ notified ∷ []) nothing (Comes.Peer notify Peers.Noted) planned }
    ensures not_notified { Answers owing_book nothing (Comes.Peer notify (Peers.Status 500)) planned }
    ensures taken_out { Does chores_book nothing (replies_to 1 ticket_remove (Replies.TicketRemoved the_ticket))
        (Some (Enters.TicketGone 1)) [] Nothing nothing }
    ensures taken_out_before { Does chores_book nothing (replies_to 1 ticket_remove (refused Refusals.Retired))
        (Some (Enters.TicketGone 1)) [] Nothing nothing }
    ensures of_another_ticket { Answers chores_book nothing (replies_to 1 ticket_remove (Replies.TicketRemoved third_ticket)) planned }
    ensures of_another_job { Answers chores_book nothing (replies_to 1 third_remove (Replies.TicketRemoved third_ticket)) planned }
    ensures heard_before { Answers fewer_chores_book nothing (replies_to 1 ticket_remove (Replies.TicketRemoved the_ticket)) planned }
    ensures still_needed { Answers held_book nothing (replies_to 1 ticket_remove (Replies.TicketRemoved the_ticket)) planned }
    ensures still_cited { Answers chores_book nothing (replies_to 1 ticket_remove (refused Refusals.TicketInUse)) planned }
{}

/// Another supplier is given what is held of a flight; what it tells of a flight that it manages is heard.
pub fn others_are_served_and_heard()
    ensures served { Answers held_book nothing (Comes.Details (codes "uss2") flight) (Pair (Some held_pair)) }
    ensures served_as_changed { Answers flown_book nothing (Comes.Details (codes "uss3") flight) (Pair (Some flown_pair)) }
    ensures none { Answers new_book nothing (Comes.Details (codes "uss2") flight) (Pair None) }
    ensures ended { Answers ended_book nothing (Comes.Details (codes "uss2") flight) (Pair None) }
    ensures of_another { Answers held_book nothing (Comes.Details (codes "uss2") other_reference.flight) (Pair None) }
    ensures heard { Does tried_book nothing (Comes.Notified (codes "uss2") note_of_other) None [] Noted (and_heard other_pair nothing) }
    ensures not_its_own { Answers tried_book nothing (Comes.Notified (codes "uss3") note_of_other) NotManager }
    ensures forgotten { Does tried_book nothing (Comes.Notified (codes "uss2") note_of_end) None [] Noted
        (record nothing { heard = Hears.Forgotten other_reference.flight ∷ [] }) }
{}

/// A served pair that fits its call is heard, whether the job is open, closed or was never opened; one that doesn't fit isn't.
pub fn served_pairs_are_heard()
    ensures not_awaited { Does tried_book (waits 1 put) (Comes.Peer details_of_other (Peers.Served other_pair)) None (calls 1 put) Nothing
        (and_heard other_pair (waits 1 put)) }
    ensures closed { Does held_book nothing (Comes.Peer details_of_other (Peers.Served other_pair)) None [] planned
        (and_heard other_pair nothing) }
    ensures never_opened { Does new_book nothing (Comes.Peer details_of_other (Peers.Served other_pair)) None [] Nothing
        (and_heard other_pair nothing) }
    ensures unfitting { Answers held_book nothing (Comes.Peer details_of_other (Peers.Served of_no_manager)) planned }
    ensures unfitting_never_opened { Answers new_book nothing (Comes.Peer details_of_other (Peers.Served of_no_manager)) Nothing }
{}
