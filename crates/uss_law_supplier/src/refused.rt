//! Worked refusals of requests and of cancels, each where it comes, and each before the next in the order in which they are tried.
#![tactic(auto, unfolding(crate::proofs::Computed::computed))]

ghost use Rattle.std.specs.Prelude.{[], ◌∷◌, ◌++◌, Some, pos, replicate};
ghost use Rattle.uss_intent.specs.declared.records.State.TheVariants.{Accepted, Activated, Nonconforming, Contingent};
ghost use Rattle.uss_event.specs.declared.asks.AskField.TheVariants as Fields;
ghost use Rattle.uss_event.specs.declared.asks.AskRefusal.TheVariants as Why;
ghost use Rattle.uss_event.specs.declared.asks.Wish.TheVariants.{Put, End};
ghost use Rattle.uss_event.specs.declared.entries.Entry.TheVariants as Enters;
ghost use Rattle.uss_event.specs.declared.events.Event.TheVariants as Comes;
ghost use Rattle.uss_event.specs.declared.events.Said.TheVariants.{Nothing};
ghost use Rattle.uss_law_duty.specs.Worked.{ask, volume, proposal, new_book, tried_book, held_book, ticket_put, now};
ghost use Rattle.uss_law_supplier.specs.Cases.{asks, plans, nowhere, lasting, later_volume, far, largest, too_large, at_end, after_end};
ghost use Rattle.uss_law_supplier.specs.Cases.{early, too_early, before_2000, last_end_of_2000, ended_book, unlawful_book, busy_book};
ghost use Rattle.uss_law_supplier.specs.Cases.{opens_first};
ghost use Rattle.uss_law_duty.specs.Flown.{calls, flown_book};
ghost use Rattle.uss_law_supplier.specs.Flown.{ticket_round};
ghost use Rattle.uss_law_duty.specs.Worked.{ending_book, end_ask, remove, heard_open};
ghost use Rattle.uss_law_supplier.specs.Cases.{far_at_last, far_off_nominal, last_end, outlasting, outlasted, after_both, straying_in};
ghost use Rattle.uss_law_supplier.specs.Cases.{raised, of_vertices, of_volumes};
ghost use Rattle.uss_law_duty.specs.Flown.{with_around};
ghost use Rattle.uss_law_supplier.specs.Flown.{nonconforming_book, contingent_book};
ghost use Rattle.uss_law_supplier.specs.Owed.{busy_chores_book};
ghost use Rattle.uss_law_supplier.specs.Worked.{Does, DoesAt, Refuses, RefusesAt, nothing, waits};

/// Requests are refused for each of their reasons. A moment before the range of instants is taken as the range's beginning.
pub fn requests_are_refused()
    ensures no_rounds { Refuses new_book (asks 1 (plans 0 0 [])) (Why.BadPlan 127) }
    ensures too_many_rounds { Refuses new_book (asks 1 (plans 0 17 (proposal ∷ []))) (Why.BadPlan 127) }
    ensures no_alternatives { Refuses new_book (asks 1 (plans 0 4 [])) (Why.BadPlan 126) }
    ensures too_many_alternatives { Refuses new_book (asks 1 too_large) (Why.BadPlan 126) }
    ensures no_volume { Refuses new_book (asks 1 (plans 0 4 (proposal ∷ nowhere ∷ []))) (Why.BadPlan 124) }
    ensures priority { Refuses new_book (asks 1 (plans 1001 4 (proposal ∷ []))) (Why.BadPlan 125) }
    ensures old_number { Refuses held_book (asks 0 (plans 0 4 (proposal ∷ []))) (Why.OldNumber 1) }
    ensures not_the_last { Refuses flown_book (Comes.Ask ask) (Why.OldNumber 2) }
    ensures other_rounds { Refuses held_book (asks 1 (plans 0 5 (proposal ∷ []))) (Why.DifferentRepeat Fields.Rounds) }
    ensures other_kind { Refuses held_book (asks 1 End) (Why.DifferentRepeat Fields.Kind) }
    ensures busy { Refuses tried_book (asks 2 End) (Why.Busy 1) }
    ensures closed { Refuses ended_book (asks 3 (plans 0 4 (proposal ∷ []))) Why.Closed }
    ensures nothing_to_end { Refuses new_book (asks 1 End) Why.NoSuchFlight }
    ensures wrong_way { Refuses flown_book (asks 3 (plans 0 4 (proposal ∷ []))) (Why.WrongTransition Activated Accepted) }
    ensures straying_into_accepted { Refuses nonconforming_book (asks 4 (plans 0 4 (proposal ∷ [])))
        (Why.WrongTransition Nonconforming Accepted) }
    ensures lost_into_activated { Refuses contingent_book (asks 5 (Put Activated 0 4 (proposal ∷ [])))
        (Why.WrongTransition Contingent Activated) }
    ensures lost_into_straying { Refuses contingent_book (asks 5 (straying_in with_around)) (Why.WrongTransition Contingent Nonconforming) }
    ensures over { RefusesAt after_end new_book nothing (Comes.Ask ask) Why.Past }
    ensures too_far { RefusesAt too_early new_book nothing (Comes.Ask ask) (Why.TooFar (pos 1700005399999999999)) }
    ensures before_2000 { RefusesAt before_2000 new_book nothing (Comes.Ask ask) (Why.TooFar last_end_of_2000) }
    ensures full { Refuses (busy_book 63) (Comes.Ask ask) (Why.BookFull 9251 528482304) }
{}

/// What is just within a limit isn't refused: as many rounds and alternatives as there may be, an end at the moment, one at the horizon,
/// an alternative of which a volume isn't over, and the last job that has room.
pub fn requests_are_accepted_at_the_limits()
    ensures largest { Does new_book nothing (asks 1 largest) (Some (opens_first now largest)) (calls 1 ticket_put) Nothing
        (waits 1 ticket_put) }
    ensures ends_now { DoesAt at_end new_book nothing (Comes.Ask ask) (Some (opens_first at_end ask.wish)) (calls 1 ticket_put) Nothing
        (waits 1 ticket_put) }
    ensures ends_at_the_horizon { DoesAt early new_book nothing (Comes.Ask ask) (Some (opens_first early ask.wish)) (calls 1 ticket_put)
        Nothing (waits 1 ticket_put) }
    ensures lasts { DoesAt after_end new_book nothing (asks 1 (plans 0 4 (lasting ∷ [])))
        (Some (opens_first after_end (plans 0 4 (lasting ∷ [])))) (calls 1 (ticket_round 1 later_volume)) Nothing
        (waits 1 (ticket_round 1 later_volume)) }
    ensures last_with_room { Does (busy_book 62) nothing (Comes.Ask ask) (Some (Enters.Opened (record { job = 63; moment = now; ask = ask })))
        (calls 63 (ticket_round 63 volume)) Nothing (waits 63 (ticket_round 63 volume)) }
{}

/// Where two refusals fit, the earlier one is given: 301, 306, 307, 305, 309, 308, 302, 304, 303, 310. (A number can't be both below the
/// last and the last, so 306 is held against 305.)
pub fn requests_are_refused_in_order()
    ensures plan_before_number { Refuses held_book (asks 0 (plans 0 0 [])) (Why.BadPlan 127) }
    ensures plan_before_repeat { Refuses held_book (asks 1 (plans 0 0 [])) (Why.BadPlan 127) }
    ensures number_before_busy { Refuses tried_book (asks 0 End) (Why.OldNumber 1) }
    ensures repeat_before_busy { Refuses tried_book (asks 1 End) (Why.DifferentRepeat Fields.Kind) }
    ensures busy_before_closed { Refuses unlawful_book (asks 4 End) (Why.Busy 3) }
    ensures closed_before_unknown { Refuses ended_book (asks 3 End) Why.Closed }
    ensures unknown_before_wrong_way { Refuses new_book (asks 1 (Put Activated 0 4 (proposal ∷ []))) Why.NoSuchFlight }
    ensures wrong_way_before_over { RefusesAt after_end flown_book nothing (asks 3 (plans 0 4 (proposal ∷ [])))
        (Why.WrongTransition Activated Accepted) }
    ensures over_before_too_far { RefusesAt after_end new_book nothing (asks 1 (plans 0 4 (far ∷ proposal ∷ []))) Why.Past }
    ensures too_far_before_full { RefusesAt too_early (busy_book 63) nothing (Comes.Ask ask) (Why.TooFar (pos 1700005399999999999)) }
{}

/// A cancel names the flight's last request.
pub fn cancels_are_refused()
    ensures not_asked { Refuses held_book (Comes.Cancel 1 2) (Why.NotAsked 1) }
    ensures not_the_last { Refuses flown_book (Comes.Cancel 1 1) (Why.NotAsked 2) }
    ensures no_request { Refuses held_book (Comes.Cancel 2 1) Why.NoSuchFlight }
{}

/// A repeat that differs is refused by the first field that does: the kind, the state, the priority, the rounds, the alternatives. So it is
/// while its job is open, too.
pub fn repeats_are_refused()
    ensures other_state { Refuses held_book (asks 1 (Put Activated 0 4 (proposal ∷ []))) (Why.DifferentRepeat Fields.To) }
    ensures other_priority { Refuses held_book (asks 1 (plans 1 4 (proposal ∷ []))) (Why.DifferentRepeat Fields.Priority) }
    ensures other_altitude { Refuses held_book (asks 1 (plans 0 4 (raised ∷ []))) (Why.DifferentRepeat Fields.Proposals) }
    ensures further_alternative { Refuses held_book (asks 1 (plans 0 4 (proposal ∷ raised ∷ []))) (Why.DifferentRepeat Fields.Proposals) }
    ensures put_for_end { Refuses ending_book (asks 2 (plans 0 4 (proposal ∷ []))) (Why.DifferentRepeat Fields.Kind) }
    ensures state_before_priority { Refuses held_book (asks 1 (Put Activated 1 4 (proposal ∷ []))) (Why.DifferentRepeat Fields.To) }
    ensures priority_before_rounds { Refuses held_book (asks 1 (plans 1 5 (proposal ∷ []))) (Why.DifferentRepeat Fields.Priority) }
    ensures rounds_before_alternatives { Refuses held_book (asks 1 (plans 0 5 (raised ∷ []))) (Why.DifferentRepeat Fields.Rounds) }
    ensures state_before_all { Refuses tried_book (asks 1 (Put Activated 1 5 (raised ∷ []))) (Why.DifferentRepeat Fields.To) }
    ensures priority_before_alternatives { Refuses tried_book (asks 1 (plans 1 4 (raised ∷ []))) (Why.DifferentRepeat Fields.Priority) }
{}

/// Of several alternatives the first that is none is named, and of one the first reason; too many alternatives are refused before each of
/// them. Off-nominal volumes count among the volumes, and only a flight that strays has some.
pub fn alternatives_are_refused()
    ensures first_of_two { Refuses new_book (asks 1 (plans 0 4 (with_around ∷ nowhere ∷ []))) (Why.BadPlan 123) }
    ensures first_of_two_turned { Refuses new_book (asks 1 (plans 0 4 (nowhere ∷ with_around ∷ []))) (Why.BadPlan 124) }
    ensures first_reason { Refuses new_book (asks 1 (plans 1001 4 (nowhere ∷ []))) (Why.BadPlan 124) }
    ensures number_before_each { Refuses new_book (asks 1 (plans 0 4 (replicate 9 nowhere))) (Why.BadPlan 126) }
    ensures rounds_before_number { Refuses new_book (asks 1 (plans 0 17 (replicate 9 nowhere))) (Why.BadPlan 127) }
    ensures too_many_volumes { Refuses new_book (asks 1 (plans 0 4 (of_volumes 65 0 ∷ []))) (Why.BadPlan 121) }
    ensures too_many_together { Refuses flown_book (asks 3 (straying_in (of_volumes 64 1))) (Why.BadPlan 121) }
    ensures too_many_vertices { Refuses new_book (asks 1 (plans 0 4 (of_vertices 10001 ∷ []))) (Why.BadPlan 122) }
    ensures off_nominal { Refuses new_book (asks 1 (plans 0 4 (with_around ∷ []))) (Why.BadPlan 123) }
    ensures off_nominal_though_flown { Refuses held_book (asks 2 (Put Activated 0 4 (with_around ∷ []))) (Why.BadPlan 123) }
{}

/// That it isn't over, or ends too late, is asked of all volumes of an alternative, off-nominal ones among them, and of all alternatives;
/// and of a plan alone.
pub fn each_volume_is_looked_at()
    ensures lasts_off_nominal { DoesAt after_end flown_book nothing (asks 3 (straying_in outlasting))
        (Some (Enters.Opened (record { job = 3; moment = after_end; ask = record { flight = 1; number = 3; wish = straying_in outlasting } })))
        (calls 3 (ticket_round 3 later_volume)) Nothing (waits 3 (ticket_round 3 later_volume)) }
    ensures lasts_but_off_nominal { DoesAt after_end flown_book nothing (asks 3 (straying_in outlasted))
        (Some (Enters.Opened (record { job = 3; moment = after_end; ask = record { flight = 1; number = 3; wish = straying_in outlasted } })))
        (calls 3 (ticket_round 3 later_volume)) Nothing (waits 3 (ticket_round 3 later_volume)) }
    ensures over_off_nominal_too { RefusesAt after_both flown_book nothing (asks 3 (straying_in outlasting)) Why.Past }
    ensures over_second { RefusesAt after_end new_book nothing (asks 1 (plans 0 4 (lasting ∷ proposal ∷ []))) Why.Past }
    ensures far_off_nominal { Refuses flown_book (asks 3 (straying_in far_off_nominal)) (Why.TooFar last_end) }
    ensures far_second_volume { Refuses new_book (asks 1 (plans 0 4 (far_at_last ∷ []))) (Why.TooFar last_end) }
    ensures far_second_alternative { Refuses new_book (asks 1 (plans 0 4 (proposal ∷ far ∷ []))) (Why.TooFar last_end) }
    ensures an_end_is_never_over { DoesAt after_both held_book nothing (Comes.Ask end_ask) (Some (Enters.Opened (record { job = 2; moment = after_both; ask = end_ask })))
        (calls 2 remove) Nothing (waits 2 remove) }
{}

/// The whole journal counts, not the openings alone: of one of the 63 open jobs it is entered that its ticket is there, in 14 bytes more.
/// Beside the open jobs, room is kept for 3 notifications and for the tickets of 3 closed jobs.
pub fn the_whole_journal_counts()
    ensures full { Refuses (busy_book 63 ++ heard_open ∷ []) (Comes.Ask ask) (Why.BookFull 9265 528482304) }
    ensures full_with_chores { Refuses (busy_chores_book 63) (Comes.Ask (record { flight = 3; number = 1; wish = ask.wish }))
        (Why.BookFull 10066 528482688) }
{}
