//! Worked runs of exact suppliers.
#![tactic(auto, unfolding(crate::proofs::Computed::computed))]

ghost use Rattle.std.specs.Prelude.{◌≡◌, [], ◌∷◌};
ghost use Rattle.uss_law_duty.specs.Worked.{owner, flight};
ghost use Rattle.uss_law_world.specs.World.{book_of};
ghost use Rattle.uss_law_world.specs.Free.{AreSuppliers};
ghost use Rattle.uss_law_world.specs.Worked.{said_in, found_again, cancelled_early, second, both_put};
ghost use Rattle.uss_law_world.specs.WorkedEnds.{watched, ended};
ghost use Rattle.uss_law_world.specs.WorkedStops.{failed, stopped_twice, answered_twice};
ghost use Rattle.uss_law_world.specs.WorkedSweeps.{notifying};
ghost use Rattle.uss_law_world.specs.Contested.{given_up, given_up_sayings};
ghost use Rattle.uss_law_exact.specs.Exact.{script_of, AreTyped};
ghost use Rattle.uss_law_exact.specs.Worked.{IsExact, both_asked, both_asked_world, both_asked_posts, both_asked_records, both_asked_landings};
ghost use Rattle.uss_law_exact.specs.WorkedFlight.{whole_life, whole_life_world, whole_life_sayings, whole_life_book, whole_life_landings};

/// The worked runs of the world are runs of exact suppliers: by their scripts the suppliers choose what was chosen there. One supplier
/// finds a lost landing again, and gives up a request that is cancelled early.
pub fn worked_runs_are_exact()
    ensures found_again { IsExact (owner ∷ []) found_again }
    ensures cancelled_early { IsExact (owner ∷ []) cancelled_early }
{}

/// One supplier watches its flight, and ends it, with a sweep.
pub fn watched_and_ended_flights_are_exact()
    ensures watched { IsExact (owner ∷ []) watched }
    ensures ended { IsExact (owner ∷ []) ended }
{}

/// One supplier's call fails; it stops once its Put has left, and again before anything is kept; it stops once its answer is kept.
pub fn failed_calls_and_stops_are_exact()
    ensures failed { IsExact (owner ∷ []) failed }
    ensures stopped_twice { IsExact (owner ∷ []) stopped_twice }
    ensures answered_twice { IsExact (owner ∷ []) answered_twice }
{}

/// Two suppliers put at once; the second gives up; a sweep of the first notifies the second.
pub fn runs_of_two_are_exact()
    ensures both_put { IsExact (owner ∷ second ∷ []) both_put }
    ensures given_up { IsExact (owner ∷ second ∷ []) given_up }
    ensures notifying { IsExact (owner ∷ second ∷ []) notifying }
{}

/// A whole run of two suppliers by a script that drains: its messages, sayings, and what is recorded in the end.
pub fn the_second_of_two_is_in_conflict()
    ensures messages { both_asked_world.posts ≡ both_asked_posts }
    ensures sayings { said_in both_asked_world ≡ given_up_sayings }
    ensures records { both_asked_world.service.references ≡ both_asked_records }
    ensures history { both_asked_world.service.landings ≡ both_asked_landings }
{}

/// The whole life of a flight: what its supplier says, what its book tells in the end, and that nothing is recorded any more.
pub fn a_flight_is_flown_strays_and_ends()
    ensures sayings { said_in whole_life_world ≡ whole_life_sayings }
    ensures book { book_of 1 whole_life_world ≡ whole_life_book }
    ensures records { whole_life_world.service.references ≡ [] }
    ensures retired { whole_life_world.service.retired_flights ≡ flight ∷ [] }
    ensures history { whole_life_world.service.landings ≡ whole_life_landings }
{}

/// What is proved of exact runs says something of the worked ones: their suppliers are suppliers, and their scripts are typed.
pub fn worked_scripts_are_typed()
    ensures one { AreSuppliers (0 ∷ []) (owner ∷ []) }
    ensures two { AreSuppliers (0 ∷ []) (owner ∷ second ∷ []) }
    ensures found_again { AreTyped (script_of found_again) }
    ensures cancelled_early { AreTyped (script_of cancelled_early) }
    ensures watched { AreTyped (script_of watched) }
    ensures ended { AreTyped (script_of ended) }
    ensures failed { AreTyped (script_of failed) }
    ensures stopped_twice { AreTyped (script_of stopped_twice) }
    ensures answered_twice { AreTyped (script_of answered_twice) }
    ensures both_put { AreTyped (script_of both_put) }
    ensures given_up { AreTyped (script_of given_up) }
    ensures notifying { AreTyped (script_of notifying) }
    ensures both_asked { AreTyped both_asked }
    ensures whole_life { AreTyped whole_life }
{}
