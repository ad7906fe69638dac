//! The world of many suppliers and one discovery service, and what is true of it whatever happens: definitions and laws, and no code
//! that runs.
//!
//! `specs/World.antt` has the world, `specs/Moves.antt` what may happen in it and what comes of that, `specs/Free.antt` which lists of
//! moves are free, `specs/Refused.antt` which steps of a script the world refuses, `specs/Parties.antt` that the suppliers of a message
//! are there, `specs/Claims.antt` what is claimed, `specs/Invariants.antt` what holds beside that, of books, calls, landings, replies,
//! keys and jobs, and `specs/Worked.antt`, `specs/Contested.antt`, `specs/WorkedEnds.antt`, `specs/WorkedStops.antt` and
//! `specs/WorkedSweeps.antt` worked runs. In a free list of moves each step of a supplier is any that its duties allow (`MayStep` of
//! `uss_law_duty`), and each step of the discovery service is that of its definition (`service_step` of `uss_law_dss`); messages are
//! lost, come late or come again, and suppliers stop and restart at any moment. The functions below do nothing: their contracts carry
//! the laws. `proofs/Facts.antt` has what is kept by every move that is allowed, and `proofs/Parties.antt` what is kept by any; the
//! proofs of the laws stand on nothing else.
//!
//! Which clauses of `MayStep` the laws need, besides `legal` and `records`, which all of them need:
//!
//! | Law | Clauses |
//! |---|---|
//! | intents stay apart, landings are clear, pairs are made | `keys`, `hears`, `pair`, `notes`, `held` |
//! | final answers are true | `held`, `removals`, `final` |
//! | refusals are settled, an open job's landing stays recorded | `held`, `removals`; for whose ticket it is, `ticket_removals` |
//! | books agree with the service, open jobs do, which jobs have a landing | `held`, `removals` |
//!
//! No law here needs `tickets`, `cause` and `goes_on`, or that a Held comes of a fitting reply to the very call. And only the law that calls were due says
//! that a Put is of an open job, a Remove of an open one, and when a ticket may be asked for and taken out (`ticket_calls`): those duties
//! keep a supplier from getting in its own way.
#![tactic(auto)]

ghost use Rattle.std.specs.Prelude.{◌≡◌, ◌≤◌, ◌++◌, [], ◌∷◌, List, ℕ, Some, None};
ghost use Rattle.uss_event.specs.declared.entries.Owner.{Owner};
ghost use Rattle.uss_event.specs.declared.events.Answer.TheVariants as Answers;
ghost use Rattle.uss_event.specs.declared.events.Said.TheVariants as Says;
ghost use Rattle.uss_event.specs.Rules.{IsTable};
ghost use Rattle.uss_law_world.specs.Suppliers.{numbered_owners};
ghost use Rattle.uss_law_duty.specs.Worked.{owner, planned};
ghost use Rattle.uss_law_world.specs.World.{Post, World, start};
ghost use Rattle.uss_law_dss.specs.Lists.{Has};
ghost use Rattle.uss_law_world.specs.Moves.{Move, Arrival, step_of, arrival_of, fault_of, happens, run};
ghost use Rattle.uss_event.specs.declared.steps.Step.{Step};
ghost use Rattle.uss_event.specs.declared.steps.Step.TheVariants as Steps;
ghost use Rattle.uss_event.specs.declared.steps.Stopped.{Stopped};
ghost use Rattle.uss_law_world.specs.Free.{AreSuppliers, IsAllowed, IsFree};
ghost use Rattle.uss_law_world.specs.Refused.{stop_refusal, step_refusal};
ghost use Rattle.uss_law_world.specs.Parties.{HasParties};
ghost use Rattle.uss_law_world.specs.Worked.{said_in, replies_in, saying, found_again, found_again_replies, cancelled_early, cancelled_early_replies, second, both_put, both_put_replies};
ghost use Rattle.uss_law_world.specs.Contested.{given_up, given_up_replies, given_up_sayings};
ghost use Rattle.uss_law_world.specs.WorkedEnds.{planned_replies, watched, watched_sayings, ended, ended_replies, ended_sayings};
ghost use Rattle.uss_law_world.specs.WorkedStops.{failed, failed_sayings, stopped_twice, answered_twice, answered_twice_sayings};
ghost use Rattle.uss_law_world.specs.WorkedSweeps.{notifying, notifying_replies, notifying_sayings};
ghost use Rattle.uss_law_dss.specs.Orderly.{IsOrderly};
ghost use Rattle.uss_law_world.specs.Invariants.{BooksAreLegal, EachCallWasDue, EachLandingIsTried, RepliesAreSo, KeysAreClear, OpenJobsAgree, JobsLandWhatTheyHold};
ghost use Rattle.uss_law_world.specs.Claims.{EachIsIntended, NoneForbidden, EachAtMostOnce, FinalAnswersAreTrue, LandingsAreClear, RefusalsAreSettled, EachPairIsMade, OpenLandingsStay, OpenLandingsAreGot, BooksAgree};

/// The headline, first part: after every free list of moves no two recorded intents, both Accepted or Activated, of one priority at which
/// conflict is forbidden, share a point of airspace and time; and each recorded reference has exactly one intent, with its flight, state,
/// extents, base URL and ticket.
pub fn intents_stay_apart()
    ensures intended { (table : List ℕ) (owners : List Owner) (moves : List Move) → AreSuppliers table owners → IsFree (start owners) moves → EachIsIntended (run (start owners) moves) }
    ensures apart { (table : List ℕ) (owners : List Owner) (moves : List Move) → AreSuppliers table owners → IsFree (start owners) moves → NoneForbidden table (run (start owners) moves) }
{}

/// The headline, second part: each request opened at most one job, and a job has at most one landing.
pub fn requests_are_recorded_at_most_once()
    ensures { (table : List ℕ) (owners : List Owner) (moves : List Move) → AreSuppliers table owners → IsFree (start owners) moves → EachAtMostOnce (run (start owners) moves) }
{}

/// The headline, third part: each final answer is true when it was said, and after every further list of moves. What it calls planned or
/// changed was recorded so, what it calls ended is retired, and what it calls refused never is recorded.
pub fn final_answers_are_true()
    ensures now { (table : List ℕ) (owners : List Owner) (moves : List Move) → AreSuppliers table owners → IsFree (start owners) moves
        → FinalAnswersAreTrue (run (start owners) moves) (run (start owners) moves) }
    ensures later { (table : List ℕ) (owners : List Owner) (moves more : List Move) → AreSuppliers table owners → IsFree (start owners) (moves ++ more)
        → FinalAnswersAreTrue (run (start owners) moves) (run (start owners) (moves ++ more)) }
{}

/// Where a call lands, nothing that is recorded stands against its attempt, which takes the place of what is recorded of its flight.
pub fn landings_are_clear()
    ensures { (table : List ℕ) (owners : List Owner) (moves : List Move) → AreSuppliers table owners → IsFree (start owners) moves → LandingsAreClear table (run (start owners) moves) }
{}

/// A Put of an open job is refused as 203 or 206, and the removal of its ticket as 210, only where the job has its landing, which is
/// recorded.
pub fn refusals_of_an_open_job_are_settled()
    ensures { (table : List ℕ) (owners : List Owner) (moves : List Move) → AreSuppliers table owners → IsFree (start owners) moves → RefusalsAreSettled (run (start owners) moves) }
{}

/// While a job is open, its landing stays recorded, and the supplier that asks the discovery service for the flight gets it.
pub fn an_open_jobs_landing_stays_recorded()
    ensures recorded { (table : List ℕ) (owners : List Owner) (moves : List Move) → AreSuppliers table owners → IsFree (start owners) moves → OpenLandingsStay (run (start owners) moves) }
    ensures got { (table : List ℕ) (owners : List Owner) (moves : List Move) → AreSuppliers table owners → IsFree (start owners) moves → OpenLandingsAreGot (run (start owners) moves) }
{}

/// While a flight has no open job and hasn't ended, what its supplier holds of it is what is recorded: the same reference over the same
/// extents, or nothing. A flight that has ended is retired.
pub fn books_agree_with_the_service()
    ensures { (table : List ℕ) (owners : List Owner) (moves : List Move) → AreSuppliers table owners → IsFree (start owners) moves → BooksAgree (run (start owners) moves) }
{}

/// Each pair that a supplier holds, heard, says, serves or notes is an attempt of some supplier as it landed.
pub fn pairs_are_made()
    ensures { (table : List ℕ) (owners : List Owner) (moves : List Move) → AreSuppliers table owners → IsFree (start owners) moves → EachPairIsMade (run (start owners) moves) }
{}

/// Each supplier's book is legal, and each call of the discovery service that was ever sent was due: at a beginning of its sender's book
/// the duties allow it.
pub fn books_are_legal_and_calls_were_due()
    ensures legal { (table : List ℕ) (owners : List Owner) (moves : List Move) → AreSuppliers table owners → IsFree (start owners) moves
        → BooksAreLegal owners (run (start owners) moves) }
    ensures due { (table : List ℕ) (owners : List Owner) (moves : List Move) → AreSuppliers table owners → IsFree (start owners) moves
        → EachCallWasDue (run (start owners) moves) }
{}

/// The discovery service's state is orderly: a recorded reference is its flight's last landing, and its ticket is there and its manager's.
/// And each landing has exactly one attempt, and has its flight, previous OVN and ticket.
pub fn landings_are_of_attempts()
    ensures orderly { (table : List ℕ) (owners : List Owner) (moves : List Move) → AreSuppliers table owners → IsFree (start owners) moves
        → IsOrderly (run (start owners) moves).service }
    ensures tried { (table : List ℕ) (owners : List Owner) (moves : List Move) → AreSuppliers table owners → IsFree (start owners) moves
        → EachLandingIsTried (run (start owners) moves) }
{}

/// What a reply of the discovery service showed is so, and stays so after every further list of moves: a reference that is shown with its
/// OVN is an attempt as it landed, a ticket that was made or is refused as there is there or was removed, and what was removed or is
/// refused as retired is retired.
pub fn what_replies_showed_stays_so()
    ensures now { (table : List ℕ) (owners : List Owner) (moves : List Move) → AreSuppliers table owners → IsFree (start owners) moves
        → RepliesAreSo (run (start owners) moves) (run (start owners) moves) }
    ensures later { (table : List ℕ) (owners : List Owner) (moves more : List Move) → AreSuppliers table owners → IsFree (start owners) (moves ++ more)
        → RepliesAreSo (run (start owners) moves) (run (start owners) (moves ++ more)) }
{}

/// Each OVN of the key of an attempt into Accepted or Activated is that of a landing, and nothing of that landing's attempt stands against
/// this one, which takes the place of the landing that its previous OVN names.
pub fn keys_are_clear()
    ensures { (table : List ℕ) (owners : List Owner) (moves : List Move) → AreSuppliers table owners → IsFree (start owners) moves
        → KeysAreClear table (run (start owners) moves) }
{}

/// While a job is open that is to record something, its flight isn't retired, and what is recorded of that is what its supplier holds, or the
/// job's landing. While one is open that is to end its flight, what is recorded is what is held, or the flight is retired.
pub fn open_jobs_agree_with_the_service()
    ensures { (table : List ℕ) (owners : List Owner) (moves : List Move) → AreSuppliers table owners → IsFree (start owners) moves
        → OpenJobsAgree (run (start owners) moves) }
{}

/// What a closed job recorded is its one landing. A job that ended without a record has no landing, and its ticket is retired where it made
/// an attempt; and an open job whose ticket is retired has no landing.
pub fn jobs_land_what_they_hold()
    ensures { (table : List ℕ) (owners : List Owner) (moves : List Move) → AreSuppliers table owners → IsFree (start owners) moves
        → JobsLandWhatTheyHold (run (start owners) moves) }
{}

/// A worked run: the supplier stops before its Put leaves, and the reply that the Put landed is lost; the supplier finds its landing
/// again, and says that the flight is planned.
pub fn a_lost_landing_is_found_again()
    ensures free { IsFree (start (owner ∷ [])) found_again }
    ensures replies { replies_in (run (start (owner ∷ [])) found_again) ≡ found_again_replies }
    ensures said { said_in (run (start (owner ∷ [])) found_again) ≡ saying planned ∷ [] }
{}

/// A worked run: a request is cancelled while its Put is on the way; the Put comes late, twice, and lands nothing.
pub fn a_late_put_lands_nothing()
    ensures free { IsFree (start (owner ∷ [])) cancelled_early }
    ensures replies { replies_in (run (start (owner ∷ [])) cancelled_early) ≡ cancelled_early_replies }
    ensures said { said_in (run (start (owner ∷ [])) cancelled_early) ≡ saying (Says.Answer Answers.Cancelled) ∷ [] }
{}

/// A worked run: two suppliers find nothing and put at once over one volume; one lands, and the other's key lacks its OVN.
pub fn one_of_two_puts_lands()
    ensures free { IsFree (start (owner ∷ second ∷ [])) both_put }
    ensures replies { replies_in (run (start (owner ∷ second ∷ [])) both_put) ≡ both_put_replies }
{}

/// The same run goes on: the second supplier asks the first for the details of its intent, hears that it stands against the plan, lets
/// its ticket go and says that the request is in conflict.
pub fn the_second_of_two_gives_up()
    ensures free { IsFree (start (owner ∷ second ∷ [])) given_up }
    ensures replies { replies_in (run (start (owner ∷ second ∷ [])) given_up) ≡ given_up_replies }
    ensures said { said_in (run (start (owner ∷ second ∷ [])) given_up) ≡ given_up_sayings }
{}

/// A worked run: a planned flight is where its plan says, and then above that; a position from before these is refused as old.
pub fn a_planned_flight_is_watched()
    ensures free { IsFree (start (owner ∷ [])) watched }
    ensures replies { replies_in (run (start (owner ∷ [])) watched) ≡ planned_replies }
    ensures said { said_in (run (start (owner ∷ [])) watched) ≡ watched_sayings }
{}

/// A worked run: a planned flight is ended; what was recorded is removed, a sweep takes the ticket out, and the next sweep has nothing to
/// do.
pub fn a_planned_flight_is_ended()
    ensures free { IsFree (start (owner ∷ [])) ended }
    ensures replies { replies_in (run (start (owner ∷ [])) ended) ≡ ended_replies }
    ensures said { said_in (run (start (owner ∷ [])) ended) ≡ ended_sayings }
{}

/// A worked run: the supplier is told that its Put failed, says that its attempt may still be recorded, and finds that it is when it is
/// asked again.
pub fn a_call_that_failed_may_have_landed()
    ensures free { IsFree (start (owner ∷ [])) failed }
    ensures replies { replies_in (run (start (owner ∷ [])) failed) ≡ found_again_replies }
    ensures said { said_in (run (start (owner ∷ [])) failed) ≡ failed_sayings }
{}

/// A worked run: the supplier stops once its Put has left, and again at the reply that it landed, before anything of that is kept; asked
/// again, it finds its landing.
pub fn a_put_that_left_before_a_stop_lands()
    ensures free { IsFree (start (owner ∷ [])) stopped_twice }
    ensures replies { replies_in (run (start (owner ∷ [])) stopped_twice) ≡ found_again_replies }
    ensures said { said_in (run (start (owner ∷ [])) stopped_twice) ≡ saying planned ∷ [] }
{}

/// A worked run: the supplier stops once it has entered its landing and answered; asked again, it gives the same answer.
pub fn an_answer_before_a_stop_is_kept()
    ensures free { IsFree (start (owner ∷ [])) answered_twice }
    ensures replies { replies_in (run (start (owner ∷ [])) answered_twice) ≡ planned_replies }
    ensures said { said_in (run (start (owner ∷ [])) answered_twice) ≡ answered_twice_sayings }
{}

/// A worked run of two suppliers: a sweep notifies the second of the first's landing, which the second notes; the next sweep has nothing to
/// do.
pub fn a_landing_is_notified_once()
    ensures free { IsFree (start (owner ∷ second ∷ [])) notifying }
    ensures replies { replies_in (run (start (owner ∷ second ∷ [])) notifying) ≡ notifying_replies }
    ensures said { said_in (run (start (owner ∷ second ∷ [])) notifying) ≡ notifying_sayings }
{}

/// Up to 64 suppliers that are numbered from 1 on and named so, with one table of rules, are suppliers with names of their own: what is
/// proved of suppliers is true of them.
pub fn numbered_suppliers_have_their_own_names()
    ensures { (table : List ℕ) (n : ℕ) → n ≤ 64 → IsTable table → AreSuppliers table (numbered_owners n table) }
{}

/// In every reached world each step of a script is a move that is allowed: suppliers always may do something, also in each delivery of a
/// drain.
pub fn each_step_of_a_script_is_a_move()
    ensures { (table : List ℕ) (owners : List Owner) (moves : List Move) → AreSuppliers table owners → IsFree (start owners) moves
        → (step : Step) → (move : Move) × (step_of move ≡ step) × IsAllowed (run (start owners) moves) move }
{}

/// A step that the world refuses changes nothing, whatever a supplier would have chosen, and so every choice is allowed in it.
pub fn a_refused_step_changes_nothing()
    ensures unchanged { (w : World) (move : Move) (number : ℕ) → step_refusal w (step_of move) ≡ Some number → happens w move ≡ w }
    ensures allowed { (w : World) (move : Move) (number : ℕ) → step_refusal w (step_of move) ≡ Some number → IsAllowed w move }
{}

/// Whatever happened, each supplier that sent a message or is to get it is there.
pub fn messages_have_their_suppliers()
    ensures { (owners : List Owner) (moves : List Move) (post : Post) → Has (run (start owners) moves).posts post → HasParties (run (start owners) moves).suppliers post }
{}

/// A step that the world doesn't refuse is one that comes to a supplier: a step within which a supplier could stop, and in every world
/// that is reached the fault of a call.
pub fn what_is_not_refused_comes_to_a_supplier()
    ensures step { (w : World) (step : Stopped) → stop_refusal w step ≡ None → (arrival : Arrival) × (arrival_of w step ≡ Some arrival) }
    ensures fault { (owners : List Owner) (moves : List Move) (k : ℕ) → step_refusal (run (start owners) moves) (Steps.Fault k) ≡ None
        → (arrival : Arrival) × (fault_of (run (start owners) moves) k ≡ Some arrival) }
{}
