ghost use Rattle.std.specs.Prelude.{◌≡◌, ◌<◌, ◌^◌, ℕ, List, [], ◌∷◌, Option, Some, None, codes, Ok, Err, true};
ghost use Rattle.uss_intent.specs.Limits.{most_ovns, most_references, most_tickets};
ghost use Rattle.serde_json.specs.Data.{Data, Items, item, Members, array, object, boolean};
ghost use Rattle.serde_json.specs.Find.{get};
ghost use Rattle.uss_vol4.specs.Volume.{Volume4D};
ghost use Rattle.uss_event.specs.Pairs.{OperationalIntent};
ghost use Rattle.uss_wire_base.specs.declared.refusal.Member.{Member};
ghost use Rattle.uss_wire_base.specs.declared.refusal.Member.TheVariants as Member;
ghost use Rattle.uss_wire_base.specs.declared.refusal.WireRefusal.TheVariants.{NotThisProfile, TooMany};
ghost use Rattle.uss_wire_base.specs.Reading.{data_of, message_of, field, optional, list_at, natural_below, text_at, items_length};
ghost use Rattle.uss_wire_base.specs.Writing.{AllOf};
ghost use Rattle.uss_wire_words.specs.Volumes.{vertex_at, altitude_at, space_at, volume_at};
ghost use Rattle.uss_wire_words.specs.Texts.{identifier_at};
ghost use Rattle.uss_wire_dss.specs.ChangesAndErrors.{change_answer_at, error_at};
ghost use Rattle.uss_wire_dss.specs.Calls as call;
ghost use Rattle.uss_wire_dss.specs.Replies as reply;
ghost use Rattle.uss_wire_uss.specs.Intents.{intent_at, notification_at};
ghost use Rattle.uss_wire_uss.specs.Asks.{positions_at};

/// A member that this profile refuses decides, whatever the other members of its object are, and whether they are there: the message
/// that holds it is answered so. Here `d` is the value of the bytes; but a vertex, an altitude and a space may stand anywhere, and there
/// it is the value of that object. The function does nothing.
pub fn what_the_profile_refuses_comes_first()
    ensures new_subscription { (f : ℕ) (o : Option (List ℕ)) (b : List ℕ) (d x : Data) → data_of b ≡ Some d
        → get (codes "new_subscription") d ≡ Some x → message_of (call.put_reference_at f o) b ≡ Err (NotThisProfile Member.NewSubscription) }
    ensures constraints { (t : ℕ) (b : List ℕ) (d : Data) → data_of b ≡ Some d → get (codes "notify_for_constraints") d ≡ Some (boolean true)
        → message_of (call.put_subscription_at t) b ≡ Err (NotThisProfile Member.NotifyForConstraints) }
    ensures circle { (b : List ℕ) (d area space x : Data) → data_of b ≡ Some d → get (codes "area_of_interest") d ≡ Some area
        → get (codes "volume") area ≡ Some space → get (codes "outline_circle") space ≡ Some x
        → message_of call.query_at b ≡ Err (NotThisProfile Member.OutlineCircle) }
    ensures circle_of_a_space { (m : Member) (d x : Data) → get (codes "outline_circle") d ≡ Some x → space_at m d ≡ Err (NotThisProfile Member.OutlineCircle) }
    ensures altitude_in_metres { (m : Member) (d x : Data) → get (codes "value") d ≡ Some x → altitude_at m d ≡ Err (NotThisProfile Member.Value) }
    ensures latitude_in_degrees { (m : Member) (d x : Data) → get (codes "lat") d ≡ Some x → vertex_at m d ≡ Err (NotThisProfile Member.Lat) }
    ensures longitude_in_degrees { (m : Member) (d x : Data) → get (codes "lat") d ≡ None → get (codes "lng") d ≡ Some x
        → vertex_at m d ≡ Err (NotThisProfile Member.Lng) }
{}

/// A list that is too long is refused whatever its items are, once what stands before it in the format was read. Nothing that stands
/// after it is looked at. A polygon's vertices and the volumes of details are counted after their items, and aren't spoken of here.
/// The function does nothing.
pub fn long_lists_are_refused_before_their_items()
    ensures key { (f : ℕ) (o : Option (List ℕ)) (b : List ℕ) (d : Data) (extents : List Volume4D) (items : Items) → data_of b ≡ Some d
        → get (codes "new_subscription") d ≡ None → field Member.Extents (list_at volume_at) d ≡ Ok extents
        → get (codes "key") d ≡ Some (array items) → most_ovns < items_length items
        → message_of (call.put_reference_at f o) b ≡ Err (TooMany Member.Key) }
    ensures references { (client b : List ℕ) (d : Data) (items : Items) → data_of b ≡ Some d
        → get (codes "operational_intent_references") d ≡ Some (array items) → most_references < items_length items
        → message_of (reply.query_answer_at client) b ≡ Err (TooMany Member.OperationalIntentReferences) }
    ensures subscribers { (client b : List ℕ) (d : Data) (items : Items) → data_of b ≡ Some d
        → get (codes "subscribers") d ≡ Some (array items) → most_tickets < items_length items
        → message_of (change_answer_at client) b ≡ Err (TooMany Member.Subscribers) }
    ensures missing { (client b text : List ℕ) (d : Data) (items : Items) → data_of b ≡ Some d
        → field Member.Message text_at d ≡ Ok text → field Member.Refusal (natural_below (2 ^ 16)) d ≡ Ok 209
        → get (codes "missing_operational_intents") d ≡ Some (array items) → most_references < items_length items
        → message_of (error_at client) b ≡ Err (TooMany Member.MissingOperationalIntents) }
    ensures subscriptions { (b : List ℕ) (d x y : Data) (flight : ℕ) (intent : Option OperationalIntent) (items : Items) → data_of b ≡ Some d
        → field Member.OperationalIntentId identifier_at d ≡ Ok flight → optional Member.OperationalIntent intent_at d ≡ Ok intent
        → get (codes "subscriptions") d ≡ Some (array (item x (item y items)))
        → message_of notification_at b ≡ Err (TooMany Member.Subscriptions) }
{}

/// Members that a format doesn't name are ignored: two objects that have the same values at the named members, or none, are read as the
/// same, or refused with the same. The function does nothing.
pub fn members_without_a_name_here_are_ignored()
    ensures put_reference { (f : ℕ) (o : Option (List ℕ)) (a b : List ℕ) (ms ns : Members) → data_of a ≡ Some (object ms) → data_of b ≡ Some (object ns)
        → AllOf (λ k. get k (object ms) ≡ get k (object ns)) (codes "new_subscription" ∷ codes "extents" ∷ codes "key" ∷ codes "state"
        ∷ codes "uss_base_url" ∷ codes "subscription_id" ∷ [])
        → message_of (call.put_reference_at f o) a ≡ message_of (call.put_reference_at f o) b }
    ensures notification { (a b : List ℕ) (ms ns : Members) → data_of a ≡ Some (object ms) → data_of b ≡ Some (object ns)
        → AllOf (λ k. get k (object ms) ≡ get k (object ns)) (codes "operational_intent_id" ∷ codes "operational_intent" ∷ codes "subscriptions" ∷ [])
        → message_of notification_at a ≡ message_of notification_at b }
    ensures positions { (a b : List ℕ) (ms ns : Members) → data_of a ≡ Some (object ms) → data_of b ≡ Some (object ns)
        → AllOf (λ k. get k (object ms) ≡ get k (object ns)) (codes "flight" ∷ codes "number" ∷ codes "lat_e7" ∷ codes "lng_e7" ∷ codes "altitude_mm"
        ∷ codes "off_nominal_volumes" ∷ [])
        → message_of positions_at a ≡ message_of positions_at b }
{}
