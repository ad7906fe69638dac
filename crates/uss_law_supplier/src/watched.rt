//! Worked positions of a flight: what the monitor finds, and what change of state it comes to.
#![tactic(auto, unfolding(crate::proofs::Computed::computed))]

ghost use Rattle.std.specs.Prelude.{[], ◌∷◌, Some, None};
ghost use Rattle.uss_intent.specs.declared.records.State.TheVariants.{Activated, Nonconforming, Contingent};
ghost use Rattle.uss_event.specs.declared.asks.AskRefusal.TheVariants as Why;
ghost use Rattle.uss_event.specs.declared.asks.Conform.TheVariants as Finds;
ghost use Rattle.uss_event.specs.declared.entries.Entry.TheVariants as Enters;
ghost use Rattle.uss_event.specs.declared.events.Answer.TheVariants as Says;
ghost use Rattle.uss_event.specs.declared.events.Event.TheVariants as Comes;
ghost use Rattle.uss_event.specs.declared.events.Said.TheVariants.{Nothing, Answer};
ghost use Rattle.uss_law_duty.specs.Worked.{volume, proposal, new_book, held_book};
ghost use Rattle.uss_law_duty.specs.Flown.{calls, flown_book, strayed_book, strayed_pending, strayed_put, first_seen, around_it};
ghost use Rattle.uss_law_duty.specs.Flown.{with_around, straying, returning};
ghost use Rattle.uss_law_supplier.specs.Flown.{nonconforming_book, contingent_book, at_five, prior_book, prior_strayed_book};
ghost use Rattle.uss_law_supplier.specs.Flown.{a_minute_later, two_minutes_later, just_before, within, strays, losing, losing_inside};
ghost use Rattle.uss_law_supplier.specs.Flown.{ticket_round, seen_outside, seen_inside, seen, and_seen};
ghost use Rattle.uss_law_supplier.specs.Flown.{other_seen};
ghost use Rattle.uss_law_supplier.specs.Worked.{DoesAt, RefusesAt, nothing, waits};

/// A flight that is flown is inside its volume; it strays, and goes into Nonconforming; a minute later it is still outside, and goes into
/// Contingent. Each position is counted.
pub fn a_flight_strays_and_is_lost()
    ensures inside { DoesAt first_seen flown_book nothing (Comes.Position (within 3)) None [] (Answer (Says.Steady Finds.Conforming))
        (seen (seen_inside first_seen ∷ [])) }
    ensures outside { DoesAt a_minute_later flown_book (seen (seen_inside first_seen ∷ [])) (Comes.Position (strays 3))
        (Some (Enters.Opened (record { job = 3; moment = a_minute_later; ask = straying 3 }))) (calls 3 (ticket_round 3 around_it)) Nothing
        (and_seen (seen_inside first_seen ∷ seen_outside a_minute_later ∷ []) (waits 3 (ticket_round 3 around_it))) }
    ensures almost_a_minute { DoesAt just_before nonconforming_book (seen (seen_inside first_seen ∷ seen_outside a_minute_later ∷ []))
        (Comes.Position (strays 4)) None [] (Answer (Says.Steady Finds.Nonconforming))
        (seen (seen_inside first_seen ∷ seen_outside a_minute_later ∷ seen_outside just_before ∷ [])) }
    ensures a_minute { DoesAt two_minutes_later nonconforming_book (seen (seen_inside first_seen ∷ seen_outside a_minute_later ∷ []))
        (Comes.Position (strays 4)) (Some (Enters.Opened (record { job = 4; moment = two_minutes_later; ask = losing 4 }))) (calls 4 (ticket_round 4 around_it)) Nothing
        (and_seen (seen_inside first_seen ∷ seen_outside a_minute_later ∷ seen_outside two_minutes_later ∷ []) (waits 4 (ticket_round 4
        around_it))) }
    ensures lost_at_once { DoesAt two_minutes_later flown_book (seen (seen_outside a_minute_later ∷ [])) (Comes.Position (strays 3))
        (Some (Enters.Opened (record { job = 3; moment = two_minutes_later; ask = losing 3 }))) (calls 3 (ticket_round 3 around_it)) Nothing
        (and_seen (seen_outside a_minute_later ∷ seen_outside two_minutes_later ∷ []) (waits 3 (ticket_round 3 around_it))) }
{}

/// A straying flight that is inside again goes back into Activated, in its held volume alone and in four rounds; its time outside is
/// forgotten. One that was lost stays lost.
pub fn a_flight_comes_back_or_is_lost()
    ensures back { DoesAt two_minutes_later nonconforming_book (seen (seen_outside a_minute_later ∷ [])) (Comes.Position (within 4))
        (Some (Enters.Opened (record { job = 4; moment = two_minutes_later; ask = returning 4 }))) (calls 4 (ticket_round 4 volume)) Nothing
        (and_seen (seen_outside a_minute_later ∷ seen_inside two_minutes_later ∷ []) (waits 4 (ticket_round 4 volume))) }
    ensures out_again { DoesAt two_minutes_later nonconforming_book (seen (seen_outside first_seen ∷ seen_inside a_minute_later ∷ []))
        (Comes.Position (strays 4)) None [] (Answer (Says.Steady Finds.Nonconforming))
        (seen (seen_outside first_seen ∷ seen_inside a_minute_later ∷ seen_outside two_minutes_later ∷ [])) }
    ensures lost { DoesAt two_minutes_later nonconforming_book (seen (seen_outside first_seen ∷ seen_outside a_minute_later ∷ []))
        (Comes.Position (within 4)) (Some (Enters.Opened (record { job = 4; moment = two_minutes_later; ask = losing_inside 4 }))) (calls 4 (ticket_round 4 volume)) Nothing
        (and_seen (seen_outside first_seen ∷ seen_outside a_minute_later ∷ seen_inside two_minutes_later ∷ []) (waits 4 (ticket_round 4
        volume))) }
    ensures nothing_left { DoesAt two_minutes_later contingent_book (seen (seen_outside first_seen ∷ seen_outside a_minute_later ∷ []))
        (Comes.Position (strays 5)) None [] (Answer (Says.Steady Finds.Contingent))
        (seen (seen_outside first_seen ∷ seen_outside a_minute_later ∷ seen_outside two_minutes_later ∷ [])) }
    ensures not_flown { DoesAt first_seen held_book nothing (Comes.Position (strays 2)) None [] (Answer (Says.Steady Finds.Nonconforming))
        (seen (seen_outside first_seen ∷ [])) }
{}

/// A change of state that a position asks for is at the priority that is held.
pub fn a_straying_flight_keeps_its_priority()
    ensures strays { DoesAt first_seen prior_book nothing (Comes.Position (strays 3))
        (Some (Enters.Opened (record { job = 3; moment = first_seen; ask = at_five 3 Nonconforming 1 with_around }))) (calls 3 (ticket_round 3 around_it)) Nothing
        (and_seen (seen_outside first_seen ∷ []) (waits 3 (ticket_round 3 around_it))) }
    ensures lost { DoesAt a_minute_later prior_book (seen (seen_outside first_seen ∷ [])) (Comes.Position (strays 3))
        (Some (Enters.Opened (record { job = 3; moment = a_minute_later; ask = at_five 3 Contingent 1 with_around }))) (calls 3 (ticket_round 3 around_it)) Nothing
        (and_seen (seen_outside first_seen ∷ seen_outside a_minute_later ∷ []) (waits 3 (ticket_round 3 around_it))) }
    ensures lost_later { DoesAt a_minute_later prior_strayed_book (seen (seen_outside first_seen ∷ [])) (Comes.Position (strays 4))
        (Some (Enters.Opened (record { job = 4; moment = a_minute_later; ask = at_five 4 Contingent 1 with_around }))) (calls 4 (ticket_round 4 around_it)) Nothing
        (and_seen (seen_outside first_seen ∷ seen_outside a_minute_later ∷ []) (waits 4 (ticket_round 4 around_it))) }
    ensures back { DoesAt a_minute_later prior_strayed_book (seen (seen_outside first_seen ∷ [])) (Comes.Position (within 4))
        (Some (Enters.Opened (record { job = 4; moment = a_minute_later; ask = at_five 4 Activated 4 proposal }))) (calls 4 (ticket_round 4 volume)) Nothing
        (and_seen (seen_outside first_seen ∷ seen_inside a_minute_later ∷ []) (waits 4 (ticket_round 4 volume))) }
{}

/// A position isn't counted that is refused, whether for itself or as a request, or that resumes an open job; that it resumes it comes
/// before a later position, and that nothing is held of the flight before all else. A position at the moment of the last one is counted.
pub fn positions_may_not_count()
    ensures unknown { RefusesAt first_seen new_book nothing (Comes.Position (within 2)) Why.NoSuchFlight }
    ensures late { RefusesAt first_seen held_book (seen (seen_inside a_minute_later ∷ [])) (Comes.Position (within 2))
        (Why.OldPosition a_minute_later) }
    ensures as_late { DoesAt first_seen held_book (seen (seen_inside first_seen ∷ [])) (Comes.Position (within 2)) None []
        (Answer (Says.Steady Finds.Conforming)) (seen (seen_inside first_seen ∷ seen_inside first_seen ∷ [])) }
    ensures busy { RefusesAt first_seen strayed_book nothing (Comes.Position (strays 4)) (Why.Busy 3) }
    ensures late_before_busy { RefusesAt first_seen strayed_book (seen (seen_inside a_minute_later ∷ [])) (Comes.Position (strays 4))
        (Why.OldPosition a_minute_later) }
    ensures resumed { DoesAt first_seen strayed_book nothing (Comes.Position (strays 3)) (Some strayed_pending) (calls 3 strayed_put)
        Nothing (waits 3 strayed_put) }
    ensures resumed_before_late { DoesAt first_seen strayed_book (seen (seen_inside a_minute_later ∷ [])) (Comes.Position (within 3))
        (Some strayed_pending) (calls 3 strayed_put) Nothing (and_seen (seen_inside a_minute_later ∷ []) (waits 3 strayed_put)) }
{}

/// In any other case a position only says what is found: of a flight that isn't flown yet, and of one that was lost, whatever is found.
pub fn other_positions_say_what_is_found()
    ensures lost_before_it_was_flown { DoesAt a_minute_later held_book (seen (seen_outside first_seen ∷ [])) (Comes.Position (strays 2))
        None [] (Answer (Says.Steady Finds.Contingent)) (seen (seen_outside first_seen ∷ seen_outside a_minute_later ∷ [])) }
    ensures lost_and_inside { DoesAt two_minutes_later contingent_book nothing (Comes.Position (within 5)) None []
        (Answer (Says.Steady Finds.Conforming)) (seen (seen_inside two_minutes_later ∷ [])) }
    ensures lost_and_outside { DoesAt two_minutes_later contingent_book nothing (Comes.Position (strays 5)) None []
        (Answer (Says.Steady Finds.Nonconforming)) (seen (seen_outside two_minutes_later ∷ [])) }
{}

/// Each flight is judged by its own positions.
pub fn positions_of_other_flights_do_not_count()
    ensures not_lost { DoesAt a_minute_later held_book (seen (other_seen (seen_outside first_seen) ∷ [])) (Comes.Position (strays 2)) None
        [] (Answer (Says.Steady Finds.Nonconforming)) (seen (other_seen (seen_outside first_seen) ∷ seen_outside a_minute_later ∷ [])) }
    ensures not_late { DoesAt first_seen held_book (seen (other_seen (seen_inside a_minute_later) ∷ [])) (Comes.Position (within 2)) None []
        (Answer (Says.Steady Finds.Conforming)) (seen (other_seen (seen_inside a_minute_later) ∷ seen_inside first_seen ∷ [])) }
{}
