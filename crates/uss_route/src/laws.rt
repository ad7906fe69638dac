ghost use Rattle.std.specs.Prelude.{◌≡◌, ◌↔◌, ◌==◌, ◌||◌, ◌++◌, ◌∷◌, ◌<◌, ℕ, List, [], codes, length, get_or, true, All, AllPairs, Ok, Err};
ghost use Rattle.std.specs.Str.{is_utf8};
ghost use Rattle.percent_encoding.specs.Percent.{percent_decode};
ghost use Rattle.uss_http.specs.declared.refusal.HttpRefusal.{HttpRefusal};
ghost use Rattle.uss_http.specs.declared.refusal.HttpRefusal.TheVariants as refusal;
ghost use Rattle.uss_intent.specs.Texts.{IsOvn};
ghost use Rattle.uss_route.specs.declared.found.Route.{Route};
ghost use Rattle.uss_route.specs.declared.rows.RouteRow.{RouteRow};
ghost use Rattle.uss_route.specs.Rows.{method_of, is_of_a_supplier};
ghost use Rattle.uss_route.specs.Routes.{fits, first_of, second_of, without_query, joined, route_of};
ghost use Rattle.uss_route.specs.Ovns.{segment_of, is_plain, is_ovn_segment};
ghost use Rattle.uss_route.specs.Spelling.{IsParameter, IsPathOf};
ghost use Rattle.uss_route.specs.Served.{HasNoQuery, IsServed, IsWrittenOut, IsMeant, AreRowsOf, route_with};

/// A row has exactly the paths that are its text followed by as many parameters as it has, each after a slash, not empty and
/// without a slash; and its parameters are these. The function does nothing: its contract carries the law.
pub fn paths_are_texts_and_parameters()
    ensures fits { (row : RouteRow) (path : List ℕ) → (fits row path ≡ true) ↔ ((parameters : List (List ℕ)) × IsPathOf row parameters path) }
    ensures parameters { (row : RouteRow) (path : List ℕ) (parameters : List (List ℕ)) → IsPathOf row parameters path → (first_of row path ≡ get_or parameters 0 []) × (second_of row path ≡ get_or parameters 1 []) }
{}

/// What is written of an OVN is read again as that OVN. It is a parameter of a path, and has no bytes but letters, digits, `-`,
/// `.`, `_`, `~` and `%`, so that no query begins in it. The function does nothing: its contract carries the law.
pub fn ovns_are_read_again()
    ensures again { (ovn : List ℕ) → IsOvn ovn → (is_ovn_segment (segment_of ovn) ≡ true) × (percent_decode (segment_of ovn) ≡ ovn) }
    ensures parameter { (ovn : List ℕ) → IsOvn ovn → IsParameter (segment_of ovn) }
    ensures bytes { (ovn : List ℕ) → IsOvn ovn → All (λ b. (is_plain b || (b == 37)) ≡ true) (segment_of ovn) }
{}

/// What is written as a path of a row is routed to that row, with the parameters that were written: the text of the row,
/// its parameters after it, UTF-8 and without a `?`. Where a row without parameters has the same path, it is the one that is
/// meant. A query changes nothing. The function does nothing: its contract carries the law.
pub fn written_paths_are_routed()
    ensures route { (row : RouteRow) (parameters : List (List ℕ)) (path : List ℕ) → IsPathOf row parameters path → (IsWrittenOut path → parameters ≡ []) → is_utf8 path ≡ true → HasNoQuery path → route_of (method_of row) path ≡ Ok (route_with row parameters) }
    ensures query { (method path query : List ℕ) → HasNoQuery path → route_of method (path ++ 63 ∷ query) ≡ route_of method path }
{}

/// The tag is dropped: what is written as `/a/`, a tag and a path of an event of a supplier is routed to that row, with the
/// parameters that were written. A tag isn't empty and has no slash. The function does nothing: its contract carries the law.
pub fn tags_are_dropped()
    ensures { (row : RouteRow) (parameters : List (List ℕ)) (tag path : List ℕ) → is_of_a_supplier row ≡ true → IsParameter tag → IsPathOf row parameters path → is_utf8 (codes "/a/" ++ (tag ++ path)) ≡ true → HasNoQuery (codes "/a/" ++ (tag ++ path)) → route_of (method_of row) (codes "/a/" ++ (tag ++ path)) ≡ Ok (route_with row parameters) }
{}

/// Only what is served is routed: the row of a route has the method that was asked, and the target up to its query is UTF-8 and
/// means that row, with the parameters of the route. The function does nothing: its contract carries the law.
pub fn only_served_paths()
    ensures method { (method target : List ℕ) (route : Route) → route_of method target ≡ Ok route → method_of route.row ≡ method }
    ensures path { (method target : List ℕ) (route : Route) → route_of method target ≡ Ok route → (parameters : List (List ℕ)) × IsMeant route.row parameters (without_query target) × (route ≡ route_with route.row parameters) }
    ensures text { (method target : List ℕ) (route : Route) → route_of method target ≡ Ok route → is_utf8 (without_query target) ≡ true }
{}

/// There is no route exactly where no row is served at the target up to its query, or it isn't UTF-8. The method is a wrong one
/// exactly where the target means rows and none of them has the method; the allowed ones are those of these rows, each once, in
/// the order of the table. The function does nothing: its contract carries the law.
pub fn refused_targets()
    ensures no_route { (method target : List ℕ) → (route_of method target ≡ Err refusal.NoRoute) ↔ (is_utf8 (without_query target) ≡ true → (row : RouteRow) (parameters : List (List ℕ)) → ¬ IsServed row parameters (without_query target)) }
    ensures wrong_method { (method target allowed : List ℕ) → (route_of method target ≡ Err (refusal.WrongMethod allowed)) ↔ ((is_utf8 (without_query target) ≡ true) × ((rows : List RouteRow) × AreRowsOf (without_query target) rows × (0 < length rows) × All (λ r. ¬ (method_of r ≡ method)) rows × (allowed ≡ joined rows))) }
    ensures once { (path : List ℕ) (rows : List RouteRow) → AreRowsOf path rows → AllPairs (λ a b. ¬ (method_of a ≡ method_of b)) rows }
{}
