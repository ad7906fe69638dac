ghost use Rattle.std.specs.Prelude.{◌≡◌, ◌≤◌, ℕ, List, Option, length, Ok};
ghost use Rattle.uss_intent.specs.Limits.{most_references};
ghost use Rattle.uss_vol4.specs.Volume.{Volume4D, IsVolume};
ghost use Rattle.uss_intent.specs.declared.records.State.{State};
ghost use Rattle.uss_intent.specs.declared.records.Reference.{Reference};
ghost use Rattle.uss_intent.specs.declared.records.Subscriber.{Subscriber};
ghost use Rattle.uss_intent.specs.declared.records.Ticket.{Ticket};
ghost use Rattle.uss_intent.specs.declared.calls.DssAsk.TheVariants as Ask;
ghost use Rattle.uss_event.specs.declared.asks.FlightAsk.{FlightAsk};
ghost use Rattle.uss_event.specs.declared.asks.PositionAsk.{PositionAsk};
ghost use Rattle.uss_event.specs.declared.calls.Note.{Note};
ghost use Rattle.uss_event.specs.Pairs.{OperationalIntent};
ghost use Rattle.uss_wire_base.specs.Reading.{message_of};
ghost use Rattle.uss_wire_base.specs.Writing.{IsTextOf, IsSigned64, AllOf};
ghost use Rattle.uss_wire_dss.specs.declared.errors.ErrorBody.{ErrorBody};
ghost use Rattle.uss_wire_dss.specs.ChangesAndErrors.{change_answer_at, error_at};
ghost use Rattle.uss_wire_dss.specs.ReplyWriting.{query_answer_json, get_answer_json, change_answer_json, subscription_answer_json, error_json, IsReadable, IsReadableError};
ghost use Rattle.uss_wire_dss.specs.Calls as call;
ghost use Rattle.uss_wire_dss.specs.Replies as reply;
ghost use Rattle.uss_wire_dss.specs.CallWriting as call_text;
ghost use Rattle.uss_wire_uss.specs.Intents.{details_answer_at, notification_at};
ghost use Rattle.uss_wire_uss.specs.Asks.{asks_at, positions_at};
ghost use Rattle.uss_wire_uss.specs.Writing.{details_answer_json, notification_json, asks_json, positions_json};

/// What is written of the references that a query found, and of the one reference that was asked for, is read again as the same by
/// the client that they were shown to: the bytes of `write_query_answer` and `write_get_answer`. The function does nothing.
pub fn answers_are_read_again()
    ensures query_answer { (client : List ℕ) (rs : List Reference) (b : List ℕ) → AllOf (IsReadable client) rs → length rs ≤ most_references
        → IsTextOf (query_answer_json rs) b → message_of (reply.query_answer_at client) b ≡ Ok rs }
    ensures get_answer { (client : List ℕ) (r : Reference) (b : List ℕ) → IsReadable client r → IsTextOf (get_answer_json r) b
        → message_of (reply.get_answer_at client) b ≡ Ok r }
{}

/// A call that was read from the bytes `a`, whatever they are, and then written as the bytes `b`, is read again as the same. The
/// function does nothing.
pub fn calls_that_were_read_are_read_again()
    ensures query { (area : Volume4D) (a b : List ℕ) → message_of call.query_at a ≡ Ok (Ask.Query area) → IsTextOf (call_text.query_json area) b
        → message_of call.query_at b ≡ Ok (Ask.Query area) }
    ensures put_reference { (f : ℕ) (o : Option (List ℕ)) (e : List Volume4D) (k : List (List ℕ)) (s : State) (u : List ℕ) (t : ℕ) (a b : List ℕ)
        → message_of (call.put_reference_at f o) a ≡ Ok (Ask.Put f o e k s u t) → IsTextOf (call_text.put_reference_json e k s u t) b
        → message_of (call.put_reference_at f o) b ≡ Ok (Ask.Put f o e k s u t) }
    ensures put_subscription { (t : ℕ) (area : Volume4D) (u a b : List ℕ) → message_of (call.put_subscription_at t) a ≡ Ok (Ask.TicketPut t area u)
        → IsTextOf (call_text.put_subscription_json area u) b → message_of (call.put_subscription_at t) b ≡ Ok (Ask.TicketPut t area u) }
{}

/// The same of an answer of the discovery service, read by one client. The area over which a ticket is read is one of a volume.
pub fn answers_that_were_read_are_read_again()
    ensures query_answer { (client : List ℕ) (rs : List Reference) (a b : List ℕ) → message_of (reply.query_answer_at client) a ≡ Ok rs
        → IsTextOf (query_answer_json rs) b → message_of (reply.query_answer_at client) b ≡ Ok rs }
    ensures get_answer { (client : List ℕ) (r : Reference) (a b : List ℕ) → message_of (reply.get_answer_at client) a ≡ Ok r
        → IsTextOf (get_answer_json r) b → message_of (reply.get_answer_at client) b ≡ Ok r }
    ensures change_answer { (client : List ℕ) (r : Reference) (ss : List Subscriber) (a b : List ℕ) → message_of (change_answer_at client) a ≡ Ok (r, ss)
        → IsTextOf (change_answer_json r ss) b → message_of (change_answer_at client) b ≡ Ok (r, ss) }
    ensures subscription_answer { (client : List ℕ) (area : Volume4D) (t : Ticket) (a b : List ℕ) → IsVolume area
        → message_of (reply.subscription_answer_at client area) a ≡ Ok t → IsTextOf (subscription_answer_json t) b
        → message_of (reply.subscription_answer_at client area) b ≡ Ok t }
    ensures error { (client : List ℕ) (e : ErrorBody) (a b : List ℕ) → message_of (error_at client) a ≡ Ok e → IsTextOf (error_json e) b
        → message_of (error_at client) b ≡ Ok e }
{}

/// The same of what suppliers tell each other, and of an operator's requests and positions; the numbers of a position are those of 64
/// bits. For cancels and sweeps it holds of all numbers, by `messages_are_read_again`. The function does nothing.
pub fn events_that_were_read_are_read_again()
    ensures details_answer { (p : OperationalIntent) (a b : List ℕ) → message_of details_answer_at a ≡ Ok p → IsTextOf (details_answer_json p) b
        → message_of details_answer_at b ≡ Ok p }
    ensures notification { (n : Note) (a b : List ℕ) → message_of notification_at a ≡ Ok n → IsTextOf (notification_json n) b
        → message_of notification_at b ≡ Ok n }
    ensures asks { (r : FlightAsk) (a b : List ℕ) → message_of asks_at a ≡ Ok r → IsTextOf (asks_json r) b → message_of asks_at b ≡ Ok r }
    ensures positions { (p : PositionAsk) (a b : List ℕ) → IsSigned64 p.place.x → IsSigned64 p.place.y → IsSigned64 p.altitude
        → message_of positions_at a ≡ Ok p → IsTextOf (positions_json p) b → message_of positions_at b ≡ Ok p }
{}

/// What a client reads of the discovery service's answers: a reference has an OVN only where the client is its manager, and what else it
/// has is of its type; a list has at most `MOST_REFERENCES`. The function does nothing.
pub fn answers_show_own_ovns_alone()
    ensures query_answer { (client b : List ℕ) (rs : List Reference) → message_of (reply.query_answer_at client) b ≡ Ok rs
        → AllOf (IsReadable client) rs × (length rs ≤ most_references) }
    ensures get_answer { (client b : List ℕ) (r : Reference) → message_of (reply.get_answer_at client) b ≡ Ok r → IsReadable client r }
    ensures change_answer { (client b : List ℕ) (r : Reference) (ss : List Subscriber) → message_of (change_answer_at client) b ≡ Ok (r, ss)
        → IsReadable client r }
    ensures error { (client b : List ℕ) (e : ErrorBody) → message_of (error_at client) b ≡ Ok e → IsReadableError client e }
{}
