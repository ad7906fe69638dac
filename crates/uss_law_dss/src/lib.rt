//! What the discovery service (the DSS of ASTM F3548-21) is to answer: definitions and laws, and no code that runs.
//!
//! `specs/Service.antt` has the state, `specs/Refusals.antt` when a call is refused, `specs/Step.antt` what a call does, and
//! `specs/Fits.antt` which replies fit a call. In the service's own words, apart from how these compute, `specs/Causes.antt` says why a
//! call is refused, `specs/Carried.antt` what it does where it isn't, and `specs/Notified.antt` who is notified. The functions below do nothing:
//! their contracts carry the laws.
#![tactic(auto)]

ghost use Rattle.std.specs.Prelude.{◌≡◌, ◌≢◌, ◌↔◌, ◌<◌, ◌^◌, ◌+◌, ◌≤◌, ℕ, List, length, Any, IsTrue, true, Some, None, is_some};
ghost use Rattle.uss_vol4.specs.Volume.{Volume4D, Shares, ListsShare};
ghost use Rattle.uss_intent.specs.declared.calls.DssAsk.{DssAsk};
ghost use Rattle.uss_intent.specs.declared.calls.DssReply.{DssReply};
ghost use Rattle.uss_intent.specs.declared.calls.DssReply.TheVariants.{Landed, Removed, Refused};
ghost use Rattle.uss_intent.specs.declared.calls.DssRefusal.{DssRefusal};
ghost use Rattle.uss_intent.specs.declared.records.Landing.{Landing};
ghost use Rattle.uss_intent.specs.declared.records.Ticket.{Ticket};
ghost use Rattle.uss_intent.specs.declared.records.Recorded.{Recorded};
ghost use Rattle.uss_intent.specs.declared.records.Reference.{Reference};
ghost use Rattle.uss_intent.specs.declared.records.Subscriber.{Subscriber};
ghost use Rattle.uss_intent.specs.Texts.{IsOvn};
ghost use Rattle.uss_intent.specs.Refusals.{refusal_number};
ghost use Rattle.uss_law_dss.specs.Lists.{Has};
ghost use Rattle.uss_law_dss.specs.Refusals.{refusal_of, tests_of, does_not_fall};
ghost use Rattle.uss_law_dss.specs.Service.{Service, empty, ovn_of, relevant};
ghost use Rattle.uss_law_dss.specs.Step.{service_step, replies_to, state_after, found_in, is_notified};
ghost use Rattle.uss_law_dss.specs.Effects.{Effect};
ghost use Rattle.uss_law_dss.specs.Orderly.{IsOrderly};
ghost use Rattle.uss_law_dss.specs.Notified.{IsNotifiedOf, Notifies, NotifiesNobody, Keeps};
ghost use Rattle.uss_law_dss.specs.Carried.{NoneHolds, CarriedOut};
ghost use Rattle.uss_law_dss.specs.Causes.{Cause};
ghost use Rattle.uss_law_dss.specs.Answered.{Answers, SameAnswers};
ghost use Rattle.uss_law_dss.specs.Shown.{shown_in};
ghost use Rattle.uss_law_dss.specs.Grows.{Grows, IsOvnOf};
ghost use Rattle.uss_law_dss.specs.Fits.{fits};
ghost use Rattle.uss_law_dss.specs.Transcript.{calls, the_replies, contested, the_contested_replies};
ghost use Rattle.uss_law_dss.specs.Telling.{telling, the_telling_replies};
ghost use Rattle.uss_law_dss.specs.Keyed.{keyed, the_keyed_replies};
ghost use Rattle.uss_law_dss.specs.Refusing.{refusing, the_refusing_replies};
ghost use Rattle.uss_law_dss.specs.Filling.{many_references, filling_references, the_references_replies, many_tickets, filling_tickets, the_tickets_replies, late_version, last_changes, the_last_replies};

/// The worked calls, and the replies to them in order.
pub fn worked_calls()
    ensures { replies_to empty calls ≡ the_replies }
{}

/// Two clients over one area: the key, the references that it lacks, who is notified, and what is shown to whom.
pub fn contested_calls()
    ensures { replies_to empty contested ≡ the_contested_replies }
{}

/// A change notifies the tickets near the extents that were left, too; a removal those near the extents that are removed.
pub fn telling_calls()
    ensures { replies_to empty telling ≡ the_telling_replies }
{}

/// What a key has to have, and what a refusal for want of it lists.
pub fn keyed_calls()
    ensures { replies_to empty keyed ≡ the_keyed_replies }
{}

/// Calls that are refused, each kind for each of its reasons, and calls at a limit that are not.
pub fn refused_calls()
    ensures { replies_to empty refusing ≡ the_refusing_replies }
{}

/// A service that is full of references or tickets, and a reference in its last version.
pub fn last_calls()
    ensures references { replies_to many_references filling_references ≡ the_references_replies }
    ensures tickets { replies_to many_tickets filling_tickets ≡ the_tickets_replies }
    ensures versions { replies_to late_version last_changes ≡ the_last_replies }
{}

/// Which references are relevant to a change, which of them a query finds, and which tickets are notified: those that have
/// a point in common, of airspace and time.
pub fn sharing_is_of_points()
    ensures relevant { (s : Service) (flight : ℕ) (extents : List Volume4D) (r : Recorded)
        → Has (relevant flight extents s) r ↔ (Has s.references r × (r.reference.flight ≢ flight) × ListsShare r.extents extents) }
    ensures found { (area : Volume4D) (rs : List Recorded) (r : Recorded)
        → Has (found_in area rs) r ↔ (Has rs r × Any (λ v. Shares v area) r.extents) }
    ensures notified { (client : List ℕ) (extents : List Volume4D) (t : Ticket)
        → IsTrue (is_notified client extents t) ↔ ((t.manager ≢ client) × Any (λ v. Shares v t.area) extents) }
{}

/// What a call may do: it lands, removes, makes a ticket, takes a ticket out, or leaves all as it is; each with what
/// the call's tests said.
pub fn effects()
    ensures { (s : Service) (client : List ℕ) (ask : DssAsk) → Effect s client ask (service_step s client ask) }
{}

/// Who is notified: the subscribers of a reply to a Put that lands are exactly the tickets of other clients whose area shares a point with
/// old or new extents, those of a reply to a Remove the ones whose area shares with the extents that are taken out; their indexes rise by
/// one, and no other ticket changes, nor any ticket at another call.
pub fn who_is_notified()
    ensures landing { (s : Service) (client : List ℕ) (ask : DssAsk) (r : Reference) (notified : List Subscriber)
        → IsOrderly s → (service_step s client ask).0 ≡ Landed r notified → Notifies (IsNotifiedOf s client ask) s.tickets (service_step s client ask).1.tickets notified }
    ensures removal { (s : Service) (client : List ℕ) (ask : DssAsk) (r : Reference) (notified : List Subscriber)
        → IsOrderly s → (service_step s client ask).0 ≡ Removed r notified → Notifies (IsNotifiedOf s client ask) s.tickets (service_step s client ask).1.tickets notified }
    ensures other_calls { (s : Service) (client : List ℕ) (ask : DssAsk)
        → IsOrderly s → NotifiesNobody (service_step s client ask).0 → Keeps s.tickets (service_step s client ask).1.tickets (service_step s client ask).0 }
{}

/// A call of which no test holds is carried out: its reply is no refusal, and the state afterwards has what the call is for.
pub fn calls_are_carried_out()
    ensures { (s : Service) (client : List ℕ) (ask : DssAsk)
        → IsOrderly s → NoneHolds (tests_of s client ask) → CarriedOut s client ask (service_step s client ask) }
{}

/// The tests of a call stand in the order of the refusals' numbers, so the refusal with the least number is given.
pub fn refusals_come_in_order()
    ensures { (s : Service) (client : List ℕ) (ask : DssAsk) → does_not_fall 201 (tests_of s client ask) ≡ true }
{}

/// A call is refused exactly where one of its tests holds, and by the first of these.
pub fn refused_by_the_first_test()
    ensures { (s : Service) (client : List ℕ) (ask : DssAsk) (refusal : DssRefusal)
        → ((service_step s client ask).0 ≡ Refused refusal) ↔ (refusal_of s client ask ≡ Some refusal) }
{}

/// The tests mean the causes: a refusal has its cause, no cause has a lesser number than the refusal that is given, a call with a cause
/// is refused, and a call without any is carried out.
pub fn refusals_have_causes()
    ensures caused { (s : Service) (client : List ℕ) (ask : DssAsk) (refusal : DssRefusal)
        → IsOrderly s → (service_step s client ask).0 ≡ Refused refusal → Cause s client ask refusal }
    ensures least { (s : Service) (client : List ℕ) (ask : DssAsk) (refusal other : DssRefusal)
        → IsOrderly s → (service_step s client ask).0 ≡ Refused refusal → Cause s client ask other → refusal_number refusal ≤ refusal_number other }
    ensures refused { (s : Service) (client : List ℕ) (ask : DssAsk) (other : DssRefusal)
        → IsOrderly s → Cause s client ask other → (refusal : DssRefusal) × ((service_step s client ask).0 ≡ Refused refusal) }
    ensures carried_out { (s : Service) (client : List ℕ) (ask : DssAsk)
        → IsOrderly s → ((refusal : DssRefusal) → Cause s client ask refusal → ⊥) → CarriedOut s client ask (service_step s client ask) }
{}

/// The words of an answer are whole: the service keeps them, and whatever keeps them at an orderly state gives the same reply and the same
/// state. They leave open only which limit is named where a Put meets two.
pub fn no_other_service()
    ensures answers { (s : Service) (client : List ℕ) (ask : DssAsk) → IsOrderly s → Answers s client ask (service_step s client ask) }
    ensures only { (s : Service) (client : List ℕ) (ask : DssAsk) (a b : DssReply × Service)
        → IsOrderly s → Answers s client ask a → Answers s client ask b → SameAnswers s client ask a b }
{}

/// A refused call changes nothing.
pub fn refusals_change_nothing()
    ensures { (s : Service) (client : List ℕ) (ask : DssAsk) (refusal : DssRefusal)
        → refusal_of s client ask ≡ Some refusal → service_step s client ask ≡ (Refused refusal, s) }
{}

/// What holds of a new service, and after each call where it held before it: so it holds after all calls.
pub fn states_are_orderly()
    ensures new { IsOrderly empty }
    ensures step { (s : Service) (client : List ℕ) (ask : DssAsk) → IsOrderly s → IsOrderly (service_step s client ask).1 }
    ensures all { (calls : List (List ℕ × DssAsk)) → IsOrderly (state_after empty calls) }
{}

/// A reply shows the OVN of a reference to the client that manages it, and to no other; so does a refusal that lists what a key lacks.
pub fn ovns_are_shown_to_their_managers()
    ensures own { (s : Service) (client : List ℕ) (ask : DssAsk) (r : Reference)
        → IsOrderly s → Has (shown_in (service_step s client ask).0) r → r.manager ≡ client → is_some r.ovn ≡ true }
    ensures others { (s : Service) (client : List ℕ) (ask : DssAsk) (r : Reference)
        → IsOrderly s → Has (shown_in (service_step s client ask).0) r → r.manager ≢ client → r.ovn ≡ None }
{}

/// An OVN belongs to one landing.
pub fn ovns_belong_to_one_landing()
    ensures { (s : Service) → IsOrderly s → (l m : Landing) → Has s.landings l → Has s.landings m → l.ovn ≡ m.ovn → l ≡ m }
{}

/// No call takes anything out of the history, and an identifier that was removed is never there again.
pub fn what_was_removed_stays_removed()
    ensures grows { (s : Service) (calls : List (List ℕ × DssAsk)) → Grows s (state_after s calls) }
    ensures flights { (s : Service) (calls : List (List ℕ × DssAsk)) (flight : ℕ)
        → IsOrderly s → Has s.retired_flights flight → (r : Recorded) → Has (state_after s calls).references r → r.reference.flight ≢ flight }
    ensures tickets { (s : Service) (calls : List (List ℕ × DssAsk)) (ticket : ℕ)
        → IsOrderly s → Has s.retired_tickets ticket → (t : Ticket) → Has (state_after s calls).tickets t → t.id ≢ ticket }
{}

/// The OVNs of the first 9,999,999,999,999,999 landings write their numbers, they are OVNs, and they differ.
pub fn ovns_of_landings()
    ensures written { (n : ℕ) → n < 10 ^ 16 → IsOvnOf n (ovn_of n) }
    ensures valid { (n : ℕ) → IsOvn (ovn_of n) }
    ensures differ { (m n : ℕ) → m < 10 ^ 16 → n < 10 ^ 16 → ovn_of m ≡ ovn_of n → m ≡ n }
{}

/// The index of a ticket stays within 64 bits, and so does the number of a landing.
pub fn indexes_fit()
    ensures tickets { (s : Service) → IsOrderly s → (t : Ticket) → Has s.tickets t → t.index + 1 < 2 ^ 64 }
    ensures landings { (s : Service) → IsOrderly s → length s.landings + 1 < 2 ^ 64 }
{}

/// Each reply of an orderly service fits its call.
pub fn replies_fit()
    ensures { (s : Service) (client : List ℕ) (ask : DssAsk) → IsOrderly s → fits ask (service_step s client ask).0 ≡ true }
{}
