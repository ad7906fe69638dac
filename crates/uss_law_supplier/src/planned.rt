//! Worked steps of one job, from its request to its end: what a supplier enters, calls and says, and what it keeps beside its book then.
//! The books and the calls are worked out by hand.
#![tactic(auto, unfolding(crate::proofs::Computed::computed))]

ghost use Rattle.std.specs.Prelude.{[], ◌∷◌, ◌++◌, Some, None};
ghost use Rattle.uss_intent.specs.declared.calls.DssAsk.TheVariants as Asks;
ghost use Rattle.uss_intent.specs.declared.calls.DssRefusal.TheVariants as Refusals;
ghost use Rattle.uss_intent.specs.declared.calls.DssReply.TheVariants as Replies;
ghost use Rattle.uss_event.specs.declared.calls.Outgoing.TheVariants as Goes;
ghost use Rattle.uss_event.specs.declared.calls.PeerReply.TheVariants as Peers;
ghost use Rattle.uss_event.specs.declared.entries.Ending.TheVariants as Ends;
ghost use Rattle.uss_event.specs.declared.entries.Entry.TheVariants as Enters;
ghost use Rattle.uss_event.specs.declared.events.Answer.TheVariants as Says;
ghost use Rattle.uss_event.specs.declared.events.Event.TheVariants as Comes;
ghost use Rattle.uss_event.specs.declared.events.Said.TheVariants.{Nothing, Answer, Left};
ghost use Rattle.uss_event.specs.declared.rules.Verdict.TheVariants.{EqualForbidden, HigherStands};
ghost use Rattle.uss_law_duty.specs.Worked.{ask, opened, heard_open, pending, recorded, cancelling, done, new_book, asked_book};
ghost use Rattle.uss_law_duty.specs.Worked.{ticket_book, tried_book, held_book, cancelled_book, ending_book, ticket_put, query, put, get};
ghost use Rattle.uss_law_duty.specs.Worked.{ticket_remove, remove, end_ask, end_opened, end_done, the_ticket, the_reference, planned};
ghost use Rattle.uss_law_duty.specs.Worked.{missing, exists, keyed, keyed_put, details_of_other, other_reference, other_pair, above, ovn};
ghost use Rattle.uss_law_duty.specs.Worked.{flight, subscriber};
ghost use Rattle.uss_law_supplier.specs.Cases.{refused, last_try_book, stale, stale_book, in_the_way, conflict, of_another_job, untagged};
ghost use Rattle.uss_law_supplier.specs.Cases.{unshown, unknown_own, newer_reference, newer_round, asked_newer, of_no_manager};
ghost use Rattle.uss_law_supplier.specs.Cases.{third_pair, details_of_third, first_of_both, both_asked, both_keyed, both_keyed_put};
ghost use Rattle.uss_law_supplier.specs.Cases.{upper_book, upper_pending, upper_put};
ghost use Rattle.uss_law_duty.specs.Flown.{urgent_pair, staying_book, details_of_urgent, staying, staying_put, calls, replies_to};
ghost use Rattle.uss_law_duty.specs.Flown.{flown_ask, flown_opened, flown_ticket_book, flown_pending, flown_tried_book, flown_put};
ghost use Rattle.uss_law_duty.specs.Flown.{flown_reference, flown_held, changed, strayed_book, strayed_query, strayed_pending};
ghost use Rattle.uss_law_duty.specs.Flown.{strayed_put, strayed_tried_book};
ghost use Rattle.uss_law_supplier.specs.Flown.{flown_ticket_put};
ghost use Rattle.uss_law_duty.specs.Worked.{now};
ghost use Rattle.uss_law_supplier.specs.Cases.{upper_ask, third_reference, third_in_the_way, asks, either, opens_first, either_book};
ghost use Rattle.uss_law_supplier.specs.Cases.{round_both, second_chosen, second_chosen_put, either_tried_book};
ghost use Rattle.uss_law_supplier.specs.Flown.{ticket_round};
ghost use Rattle.uss_law_supplier.specs.Twice.{twice_book, second_put, alike_book, alike_put, second_reference, second_recorded};
ghost use Rattle.uss_law_supplier.specs.Twice.{planned_at_last, twice_held_book, at, in_progress, both_book, upper_query, first_waits};
ghost use Rattle.uss_law_supplier.specs.Twice.{second_waits, both_wait, upper_first, upper_first_put, newer_pair, newer_keyed};
ghost use Rattle.uss_law_supplier.specs.Twice.{newer_keyed_put, taken, taken_pair, details_of_taken, taken_asked, taken_keyed, taken_keyed_put, claimed};
ghost use Rattle.uss_law_supplier.specs.Twice.{details_elsewhere, details_for_second, second_asks, not_its_own, missing_two};
ghost use Rattle.uss_law_supplier.specs.Values.{no_round, round_with, leaving_out};
ghost use Rattle.uss_law_supplier.specs.Worked.{Does, Answers, nothing, waiting, waits, and_heard, found_other, asked_round, asked_other};
ghost use Rattle.uss_law_supplier.specs.Turns.{dss_call};

/// A supplier opens a job for a request and asks for its ticket; it enters that the ticket is there, now or before, and asks what is
/// recorded in its area; it makes an attempt where nothing is there, and enters what landed.
pub fn a_flight_is_planned()
    ensures asking { Does new_book nothing (Comes.Ask ask) (Some opened) (calls 1 ticket_put) Nothing (waits 1 ticket_put) }
    ensures ticket_made { Does asked_book (waits 1 ticket_put) (replies_to 1 ticket_put (Replies.TicketMade the_ticket)) (Some heard_open)
        (calls 1 query) Nothing (waits 1 query) }
    ensures ticket_there { Does asked_book (waits 1 ticket_put) (replies_to 1 ticket_put exists) (Some heard_open) (calls 1 query) Nothing
        (waits 1 query) }
    ensures nothing_found { Does ticket_book (waits 1 query) (replies_to 1 query (Replies.Found [])) (Some pending) (calls 1 put) Nothing
        (waits 1 put) }
    ensures landed { Does tried_book (waits 1 put) (replies_to 1 put (Replies.Landed the_reference [])) (Some recorded) [] planned nothing }
    ensures landed_owing { Does tried_book (waits 1 put) (replies_to 1 put (Replies.Landed the_reference (subscriber ∷ [])))
        (Some (Enters.Held (record { job = 1; tag = 1; ovn = ovn; version = 1; owed = subscriber ∷ [] }))) [] planned nothing }
{}

/// A held flight is changed from what is held of it: the Put names that OVN. The flight's own reference is found and doesn't count.
pub fn a_flight_is_changed()
    ensures asking { Does held_book nothing (Comes.Ask flown_ask) (Some flown_opened) (calls 2 flown_ticket_put) Nothing
        (waits 2 flown_ticket_put) }
    ensures itself_found { Does flown_ticket_book (waits 2 query) (replies_to 2 query (Replies.Found (the_reference ∷ [])))
        (Some flown_pending) (calls 2 flown_put) Nothing (waits 2 flown_put) }
    ensures landed { Does flown_tried_book (waits 2 flown_put) (replies_to 2 flown_put (Replies.Landed flown_reference []))
        (Some flown_held) [] changed nothing }
    ensures got { Does flown_tried_book (waits 2 get) (replies_to 2 get (Replies.Got flown_reference)) (Some flown_held) [] changed
        nothing }
{}

/// A flight that strays isn't held against others: whatever is found, it makes its attempt with an empty key, and stops where that is
/// said to lack something.
pub fn a_flight_strays_whatever_is_there()
    ensures found { Does strayed_book (waits 3 strayed_query) (replies_to 3 strayed_query (Replies.Found (other_reference ∷ [])))
        (Some strayed_pending) (calls 3 strayed_put) Nothing (waiting 3 (dss_call 3 strayed_put) found_other) }
    ensures lacked { Does strayed_tried_book (waits 3 strayed_put) (replies_to 3 strayed_put missing) None []
        (Answer (Says.DssRefused 209)) nothing }
{}

/// A supplier asks others for the details of what is there, one after another, and puts their OVNs into the key of its attempt. A flight
/// of which its manager holds nothing is left out; one that was heard at this version isn't asked for; and one that the supplier manages
/// itself is taken from its book, if it is held there. What stands against the flight ends the job, or, after an attempt, makes it decide;
/// a flown flight that was there before isn't overruled. A status of another supplier stops the job. A new query begins a new round: what
/// the one before had asked for is asked for again.
pub fn a_flight_is_kept_apart()
    ensures found { Does ticket_book (waits 1 query) (replies_to 1 query (Replies.Found (other_reference ∷ []))) None
        (Goes.Peer details_of_other ∷ []) Nothing asked_other }
    ensures served { Does ticket_book asked_other (Comes.Peer details_of_other (Peers.Served other_pair)) (Some keyed) (calls 1 keyed_put)
        Nothing (and_heard other_pair (waiting 1 (dss_call 1 keyed_put) asked_round)) }
    ensures gone { Does ticket_book asked_other (Comes.Peer details_of_other Peers.Gone) (Some pending) (calls 1 put) Nothing
        (waiting 1 (dss_call 1 put) (leaving_out other_reference.flight asked_round)) }
    ensures heard_and_gone { Does ticket_book (and_heard other_pair asked_newer) (Comes.Peer details_of_other Peers.Gone) (Some pending)
        (calls 1 put) Nothing (and_heard other_pair (waiting 1 (dss_call 1 put) (leaving_out other_reference.flight newer_round))) }
    ensures status { Does ticket_book asked_other (Comes.Peer details_of_other (Peers.Status 500)) None []
        (Answer (Says.PeerRefused other_reference.manager 500)) nothing }
    ensures heard_before { Does ticket_book (and_heard other_pair (waits 1 query))
        (replies_to 1 query (Replies.Found (other_reference ∷ []))) (Some keyed) (calls 1 keyed_put) Nothing
        (and_heard other_pair (waiting 1 (dss_call 1 keyed_put) found_other)) }
    ensures heard_older { Does ticket_book (and_heard other_pair (waits 1 query))
        (replies_to 1 query (Replies.Found (newer_reference ∷ []))) None (Goes.Peer details_of_other ∷ []) Nothing
        (and_heard other_pair asked_newer) }
    ensures own_held { Does upper_book (waits 2 (Asks.Query above)) (replies_to 2 (Asks.Query above) (Replies.Found (the_reference ∷ [])))
        (Some upper_pending) (calls 2 upper_put) Nothing (waiting 2 (dss_call 2 upper_put) (round_with (the_reference ∷ []))) }
    ensures own_unknown { Does ticket_book (waits 1 query) (replies_to 1 query (Replies.Found (unknown_own ∷ []))) (Some pending)
        (calls 1 put) Nothing (waiting 1 (dss_call 1 put) (round_with (unknown_own ∷ []))) }
    ensures next { Does ticket_book (waiting 1 (Goes.Peer details_of_other) first_of_both)
        (Comes.Peer details_of_other (Peers.Served other_pair)) None (Goes.Peer details_of_third ∷ []) Nothing
        (and_heard other_pair (waiting 1 (Goes.Peer details_of_third) both_asked)) }
    ensures next_though_gone { Does ticket_book (waiting 1 (Goes.Peer details_of_other) first_of_both)
        (Comes.Peer details_of_other Peers.Gone) None (Goes.Peer details_of_third ∷ []) Nothing
        (waiting 1 (Goes.Peer details_of_third) (leaving_out other_reference.flight both_asked)) }
    ensures both_served { Does ticket_book (and_heard other_pair (waiting 1 (Goes.Peer details_of_third) both_asked))
        (Comes.Peer details_of_third (Peers.Served third_pair)) (Some both_keyed) (calls 1 both_keyed_put) Nothing
        (and_heard other_pair (and_heard third_pair (waiting 1 (dss_call 1 both_keyed_put) both_asked))) }
    ensures found_again { Does ticket_book (waiting 1 (dss_call 1 query) (leaving_out other_reference.flight asked_round))
        (replies_to 1 query (Replies.Found (other_reference ∷ []))) None (Goes.Peer details_of_other ∷ []) Nothing asked_other }
    ensures blocked { Does ticket_book asked_other (Comes.Peer details_of_other (Peers.Served in_the_way)) (Some (Enters.Done (record { job = 1; end = conflict })))
        [] (Answer (Says.Conflict other_reference.flight other_reference.manager EqualForbidden)) (and_heard in_the_way nothing) }
    ensures overruled { Does ticket_book asked_other (Comes.Peer details_of_other (Peers.Served urgent_pair))
        (Some (Enters.Done (record { job = 1; end = Ends.Conflict other_reference.flight other_reference.manager HigherStands }))) []
        (Answer (Says.Conflict other_reference.flight other_reference.manager HigherStands)) (and_heard urgent_pair nothing) }
    ensures excepted { Does staying_book (waiting 3 (Goes.Peer details_of_urgent) asked_round)
        (Comes.Peer details_of_urgent (Peers.Served urgent_pair)) (Some staying) (calls 3 staying_put) Nothing
        (and_heard urgent_pair (waiting 3 (dss_call 3 staying_put) asked_round)) }
    ensures blocked_after_an_attempt { Does tried_book asked_other (Comes.Peer details_of_other (Peers.Served in_the_way))
        (Some (Enters.Deciding (record { job = 1; end = conflict }))) (calls 1 ticket_remove) Nothing
        (and_heard in_the_way (waiting 1 (dss_call 1 ticket_remove) asked_round)) }
{}

/// A job goes on in its next round where its key lacked something, and makes no further attempt where no round is left. Where its Put was
/// refused as there, or as from a stale OVN, it asks for its own flight, and holds it where it has a tag of the job. It stops at any other
/// refusal, and where its flight has another tag, or none, or shows no OVN.
pub fn a_job_goes_on()
    ensures lacked { Does tried_book (waits 1 put) (replies_to 1 put missing) None (calls 1 query) Nothing (waits 1 query) }
    ensures last_round { Does last_try_book (waits 1 put) (replies_to 1 put missing) (Some (Enters.Deciding (record { job = 1; end = stale })))
        (calls 1 ticket_remove) Nothing (waits 1 ticket_remove) }
    ensures last_round_lacking_two { Does last_try_book (waits 1 put) (replies_to 1 put missing_two)
        (Some (Enters.Deciding (record { job = 1; end = Ends.Stale (2 ∷ 3 ∷ []) }))) (calls 1 ticket_remove) Nothing (waits 1 ticket_remove) }
    ensures there { Does tried_book (waits 1 put) (replies_to 1 put exists) None (calls 1 get) Nothing (waits 1 get) }
    ensures stale_ovn { Does tried_book (waits 1 put) (replies_to 1 put (refused Refusals.StaleOvn)) None (calls 1 get) Nothing
        (waits 1 get) }
    ensures got { Does tried_book (waits 1 get) (replies_to 1 get (Replies.Got the_reference)) (Some recorded) [] planned nothing }
    ensures of_another_job { Does tried_book (waits 1 get) (replies_to 1 get (Replies.Got of_another_job)) None []
        (Answer (Says.Unsettled 7)) nothing }
    ensures untagged { Does tried_book (waits 1 get) (replies_to 1 get (Replies.Got untagged)) None [] (Answer (Says.Unsettled 0)) nothing }
    ensures unshown { Does tried_book (waits 1 get) (replies_to 1 get (Replies.Got unshown)) None [] (Answer (Says.Unsettled 0)) nothing }
    ensures ticket_refused { Does asked_book (waits 1 ticket_put) (replies_to 1 ticket_put (refused (Refusals.Full 8192))) None []
        (Answer (Says.DssRefused 211)) nothing }
    ensures put_refused { Does tried_book (waits 1 put) (replies_to 1 put (refused (Refusals.Full 4096))) None []
        (Answer (Says.DssRefused 211)) nothing }
    ensures get_refused { Does tried_book (waits 1 get) (replies_to 1 get (refused Refusals.Absent)) None []
        (Answer (Says.DssRefused 205)) nothing }
{}

/// A job that waits for nothing, as after a restart, goes on by its book when its request comes again; one that waits for a call makes
/// that call again, when its request comes again and when any other reply comes.
pub fn a_job_is_resumed()
    ensures without_ticket { Does asked_book nothing (Comes.Ask ask) None (calls 1 ticket_put) Nothing (waits 1 ticket_put) }
    ensures with_ticket { Does ticket_book nothing (Comes.Ask ask) None (calls 1 query) Nothing (waits 1 query) }
    ensures after_an_attempt { Does tried_book nothing (Comes.Ask ask) None (calls 1 put) Nothing (waits 1 put) }
    ensures deciding { Does cancelled_book nothing (Comes.Ask ask) None (calls 1 ticket_remove) Nothing (waits 1 ticket_remove) }
    ensures ending { Does ending_book nothing (Comes.Ask end_ask) None (calls 2 remove) Nothing (waits 2 remove) }
    ensures awaiting { Does tried_book asked_other (Comes.Ask ask) None (Goes.Peer details_of_other ∷ []) Nothing asked_other }
    ensures not_awaited { Does cancelled_book (waits 1 ticket_remove) (replies_to 1 put (refused (Refusals.Full 4096))) None
        (calls 1 ticket_remove) Nothing (waits 1 ticket_remove) }
    ensures not_awaited_details { Does ticket_book asked_other (Comes.Peer details_of_third Peers.Gone) None
        (Goes.Peer details_of_other ∷ []) Nothing asked_other }
    ensures not_awaited_by_book { Does tried_book nothing (replies_to 1 query (Replies.Found [])) None (calls 1 put) Nothing (waits 1 put) }
    ensures unfitting { Does tried_book (waits 1 put) (replies_to 1 put (Replies.Landed of_another_job [])) None (calls 1 put) Nothing
        (waits 1 put) }
    ensures of_another_kind { Does tried_book (waits 1 get) (replies_to 1 get (Replies.Found [])) None (calls 1 get) Nothing (waits 1 get) }
    ensures unfitting_pair { Does ticket_book asked_other (Comes.Peer details_of_other (Peers.Served of_no_manager)) None
        (Goes.Peer details_of_other ∷ []) Nothing asked_other }
{}

/// A job that makes no further attempt ends once its ticket is gone, now or before; where an attempt's reference cites the ticket, it asks
/// for that. Any other refusal stops it.
pub fn a_job_gives_up()
    ensures gone { Does cancelled_book (waits 1 ticket_remove) (replies_to 1 ticket_remove (Replies.TicketRemoved the_ticket)) (Some done)
        [] (Answer Says.Cancelled) nothing }
    ensures gone_before { Does stale_book (waits 1 ticket_remove) (replies_to 1 ticket_remove (refused Refusals.Retired))
        (Some (Enters.Done (record { job = 1; end = stale }))) [] (Answer (Says.Stale (2 ∷ []))) nothing }
    ensures in_use { Does stale_book (waits 1 ticket_remove) (replies_to 1 ticket_remove (refused Refusals.TicketInUse)) None
        (calls 1 get) Nothing (waits 1 get) }
    ensures landed_after_all { Does stale_book (waits 1 get) (replies_to 1 get (Replies.Got the_reference)) (Some recorded) [] planned
        nothing }
    ensures ticket_refused { Does stale_book (waits 1 ticket_remove) (replies_to 1 ticket_remove (refused Refusals.Absent)) None []
        (Answer (Says.DssRefused 205)) nothing }
{}

/// A request is cancelled at once where its job made no attempt, and else once the attempt's ticket is gone. An End, and a job that makes
/// no further attempt, are resumed; a closed job gives its answer.
pub fn a_request_is_cancelled()
    ensures untried { Does asked_book (waits 1 ticket_put) (Comes.Cancel 1 1) (Some done) [] (Answer Says.Cancelled) nothing }
    ensures untried_with_ticket { Does ticket_book (waits 1 query) (Comes.Cancel 1 1) (Some done) [] (Answer Says.Cancelled) nothing }
    ensures untried_in_a_round { Does ticket_book asked_other (Comes.Cancel 1 1) (Some done) [] (Answer Says.Cancelled) nothing }
    ensures tried { Does tried_book (waits 1 put) (Comes.Cancel 1 1) (Some cancelling) (calls 1 ticket_remove) Nothing
        (waits 1 ticket_remove) }
    ensures end { Does ending_book nothing (Comes.Cancel 1 2) None (calls 2 remove) Nothing (waits 2 remove) }
    ensures deciding { Does cancelled_book nothing (Comes.Cancel 1 1) None (calls 1 ticket_remove) Nothing (waits 1 ticket_remove) }
    ensures deciding_and_waiting { Does cancelled_book (waits 1 get) (Comes.Cancel 1 1) None (calls 1 get) Nothing (waits 1 get) }
    ensures held { Answers held_book nothing (Comes.Cancel 1 1) planned }
{}

/// A flight ends once its reference is gone, now or before; whoever subscribed to it is to be notified.
pub fn a_flight_ends()
    ensures asking { Does held_book nothing (Comes.Ask end_ask) (Some end_opened) (calls 2 remove) Nothing (waits 2 remove) }
    ensures gone { Does ending_book (waits 2 remove) (replies_to 2 remove (Replies.Removed the_reference [])) (Some end_done) []
        (Answer (Says.Ended flight)) nothing }
    ensures gone_owing { Does ending_book (waits 2 remove) (replies_to 2 remove (Replies.Removed the_reference (subscriber ∷ [])))
        (Some (Enters.Done (record { job = 2; end = Ends.Ended (subscriber ∷ []) }))) [] (Answer (Says.Ended flight)) nothing }
    ensures gone_before { Does ending_book (waits 2 remove) (replies_to 2 remove (refused Refusals.Retired)) (Some end_done) []
        (Answer (Says.Ended flight)) nothing }
    ensures remove_refused { Does ending_book (waits 2 remove) (replies_to 2 remove (refused Refusals.StaleOvn)) None []
        (Answer (Says.DssRefused 206)) nothing }
{}

/// A closed job gives the answer again that its book keeps, to its request and to a late reply. A reply to a job that was never opened
/// comes to nothing. Where a call fails, the job waits for it no longer, and whoever asked is left with the tags of its attempts.
pub fn a_closed_job_answers_again()
    ensures repeated { Answers held_book nothing (Comes.Ask ask) planned }
    ensures landed_twice { Answers held_book nothing (replies_to 1 put (Replies.Landed the_reference [])) planned }
    ensures never_opened { Answers new_book nothing (replies_to 1 query (Replies.Found [])) Nothing }
    ensures left { Does tried_book (waits 1 put) (Comes.Failed 1) None [] (Left (1 ∷ []))
        (record nothing { jobs = record { job = 1; awaited = None; round = no_round } ∷ [] }) }
    ensures left_with_none { Answers tried_book nothing (Comes.Failed 9) (Left []) }
{}

/// A job acts on a reply to the very call that it waits for: while it waits for the Put of its second attempt, a late reply to that of its
/// first makes the second go out again, even where the two differ in their tags alone. Either attempt is held where it turns out to have
/// been recorded.
pub fn a_job_waits_for_its_last_attempt()
    ensures landed_late { Does twice_book (waits 1 second_put) (replies_to 1 put (Replies.Landed the_reference [])) None
        (calls 1 second_put) Nothing (waits 1 second_put) }
    ensures lacked_late { Does twice_book (waits 1 second_put) (replies_to 1 put missing) None (calls 1 second_put) Nothing
        (waits 1 second_put) }
    ensures landed_late_alike { Does alike_book (waits 1 alike_put) (replies_to 1 put (Replies.Landed the_reference [])) None
        (calls 1 alike_put) Nothing (waits 1 alike_put) }
    ensures lacked_late_alike { Does alike_book (waits 1 alike_put) (replies_to 1 put missing) None (calls 1 alike_put) Nothing
        (waits 1 alike_put) }
    ensures landed { Does twice_book (waits 1 second_put) (replies_to 1 second_put (Replies.Landed second_reference []))
        (Some second_recorded) [] planned_at_last nothing }
    ensures lacked { Does twice_book (waits 1 second_put) (replies_to 1 second_put missing) None (calls 1 query) Nothing (waits 1 query) }
    ensures got_the_first { Does twice_book (waits 1 get) (replies_to 1 get (Replies.Got the_reference)) (Some recorded) [] planned
        nothing }
    ensures got_the_second { Does twice_book (waits 1 get) (replies_to 1 get (Replies.Got second_reference)) (Some second_recorded) []
        planned_at_last nothing }
    ensures resumed { Does twice_book nothing (Comes.Ask ask) None (calls 1 second_put) Nothing (waits 1 second_put) }
{}

/// Where a call fails, the tags of all attempts are said, in their order; the job's round is kept. A closed job's tags are said too, and
/// nothing changes.
pub fn a_failed_call_leaves_tags()
    ensures of_two_attempts { Does twice_book (in_progress (at 1 (Some (dss_call 1 second_put)) asked_round ∷ [])) (Comes.Failed 1) None []
        (Left (1 ∷ 2 ∷ [])) (in_progress (at 1 None asked_round ∷ [])) }
    ensures of_none { Does ticket_book asked_other (Comes.Failed 1) None [] (Left []) (in_progress (at 1 None asked_round ∷ [])) }
    ensures closed { Answers twice_held_book (and_heard other_pair nothing) (Comes.Failed 1) (Left (1 ∷ 2 ∷ [])) }
    ensures closed_beside_an_open_job { Answers upper_book (waits 2 upper_query) (Comes.Failed 1) (Left (1 ∷ [])) }
{}

/// Of two open jobs, each has what it waits for and its round: what comes to one leaves the other.
pub fn jobs_go_on_apart()
    ensures second_failed { Does both_book both_wait (Comes.Failed 2) None [] (Left [])
        (in_progress (first_waits ∷ at 2 None found_other ∷ [])) }
    ensures first_failed { Does both_book both_wait (Comes.Failed 1) None [] (Left (1 ∷ []))
        (in_progress (at 1 None asked_round ∷ second_waits ∷ [])) }
    ensures second_found { Does both_book both_wait (replies_to 2 upper_query (Replies.Found [])) (Some upper_first)
        (calls 2 upper_first_put) Nothing (in_progress (at 2 (Some (dss_call 2 upper_first_put)) no_round ∷ first_waits ∷ [])) }
    ensures first_landed { Does both_book both_wait (replies_to 1 put (Replies.Landed the_reference [])) (Some recorded) [] planned
        (in_progress (second_waits ∷ [])) }
    ensures second_gone { Does both_book (in_progress (first_waits ∷ second_asks ∷ [])) (Comes.Peer details_for_second Peers.Gone)
        (Some upper_first) (calls 2 upper_first_put) Nothing
        (in_progress (at 2 (Some (dss_call 2 upper_first_put)) (leaving_out other_reference.flight asked_round) ∷ first_waits ∷ [])) }
    ensures repeated { Does both_book both_wait (Comes.Ask ask) None (calls 1 put) Nothing both_wait }
    ensures repeated_after_a_failure { Does both_book (in_progress (first_waits ∷ at 2 None found_other ∷ [])) (Comes.Ask upper_ask) None
        (calls 2 upper_query) Nothing (in_progress (at 2 (Some (dss_call 2 upper_query)) found_other ∷ first_waits ∷ [])) }
    ensures call_of_the_other { Does both_book both_wait (replies_to 1 upper_query (Replies.Found [])) None (calls 1 put) Nothing
        both_wait }
    ensures second_cancelled { Does both_book both_wait (Comes.Cancel 2 1) (Some (Enters.Done (record { job = 2; end = Ends.Cancelled }))) [] (Answer Says.Cancelled)
        (in_progress (first_waits ∷ [])) }
{}

/// A reference is asked for where no pair of exactly its version is kept, even where that is newer; what is served then doesn't take its
/// place. Whose a flight is, its reference's manager says and not its identifier.
pub fn references_are_asked_for()
    ensures kept_newer { Does ticket_book (and_heard newer_pair (waits 1 query)) (replies_to 1 query (Replies.Found (other_reference ∷ [])))
        None (Goes.Peer details_of_other ∷ []) Nothing (and_heard newer_pair asked_other) }
    ensures served_older { Does ticket_book (and_heard newer_pair asked_other) (Comes.Peer details_of_other (Peers.Served other_pair))
        (Some newer_keyed) (calls 1 newer_keyed_put) Nothing
        (and_heard newer_pair (and_heard other_pair (waiting 1 (dss_call 1 newer_keyed_put) asked_round))) }
    ensures taken { Does upper_book (waits 2 upper_query) (replies_to 2 upper_query (Replies.Found (taken ∷ []))) None
        (Goes.Peer details_of_taken ∷ []) Nothing (waiting 2 (Goes.Peer details_of_taken) taken_asked) }
    ensures taken_served { Does upper_book (waiting 2 (Goes.Peer details_of_taken) taken_asked)
        (Comes.Peer details_of_taken (Peers.Served taken_pair)) (Some taken_keyed) (calls 2 taken_keyed_put) Nothing
        (and_heard taken_pair (waiting 2 (dss_call 2 taken_keyed_put) taken_asked)) }
    ensures claimed { Does ticket_book (and_heard other_pair (waits 1 query)) (replies_to 1 query (Replies.Found (claimed ∷ [])))
        (Some pending) (calls 1 put) Nothing (and_heard other_pair (waiting 1 (dss_call 1 put) (round_with (claimed ∷ [])))) }
{}

/// A job with two alternatives looks round both, and tries the second where only the first is stood against; its Put has that one's
/// volumes, also when it goes out again.
pub fn a_job_chooses_its_alternative()
    ensures asking { Does new_book nothing (asks 1 either) (Some (opens_first now either)) (calls 1 (ticket_round 1 round_both)) Nothing
        (waits 1 (ticket_round 1 round_both)) }
    ensures chosen { Does either_book asked_other (Comes.Peer details_of_other (Peers.Served in_the_way)) (Some second_chosen)
        (calls 1 second_chosen_put) Nothing (and_heard in_the_way (waiting 1 (dss_call 1 second_chosen_put) asked_round)) }
    ensures again { Does either_tried_book nothing (asks 1 either) None (calls 1 second_chosen_put) Nothing (waits 1 second_chosen_put) }
    ensures landed { Does either_tried_book (waits 1 second_chosen_put) (replies_to 1 second_chosen_put (Replies.Landed the_reference []))
        (Some recorded) [] (Answer (Says.Planned flight 1 1 ovn 1)) nothing }
    ensures blocked_by_the_second_pair { Does ticket_book (and_heard other_pair (waiting 1 (Goes.Peer details_of_third) both_asked))
        (Comes.Peer details_of_third (Peers.Served third_in_the_way))
        (Some (Enters.Done (record { job = 1; end = Ends.Conflict third_reference.flight third_reference.manager EqualForbidden }))) []
        (Answer (Says.Conflict third_reference.flight third_reference.manager EqualForbidden))
        (and_heard other_pair (and_heard third_in_the_way nothing)) }
{}

/// A reply to a call of the same kind that asks something else isn't acted on, though a pair that it serves is heard.
pub fn a_job_waits_for_its_very_call()
    ensures found_elsewhere { Does ticket_book (waits 1 query) (replies_to 1 upper_query (Replies.Found [])) None (calls 1 query) Nothing
        (waits 1 query) }
    ensures got_another { Does tried_book (waits 1 get) (replies_to 1 (Asks.Get not_its_own.flight) (Replies.Got not_its_own)) None
        (calls 1 get) Nothing (waits 1 get) }
    ensures gone_elsewhere { Does ticket_book asked_other (Comes.Peer details_elsewhere Peers.Gone) None (Goes.Peer details_of_other ∷ [])
        Nothing asked_other }
    ensures served_elsewhere { Does ticket_book asked_other (Comes.Peer details_elsewhere (Peers.Served other_pair)) None
        (Goes.Peer details_of_other ∷ []) Nothing (and_heard other_pair asked_other) }
{}
