ghost use Rattle.std.specs.Prelude.{◌≡◌, ℕ, true, List, [], Some, None, codes};
ghost use Rattle.uss_intent.specs.Refusals.{refusal_number};
ghost use Rattle.uss_intent.specs.declared.calls.DssRefusal.{DssRefusal};
ghost use Rattle.uss_intent.specs.declared.calls.DssRefusal.TheVariants.{MissingKey, Full};
ghost use Rattle.uss_intent.specs.declared.records.Reference.{Reference};
ghost use Rattle.uss_http_response.specs.declared.response.Response.{Response};
ghost use Rattle.uss_rest.specs.DssRefusals.{status_of, name_of, error_of, missing_of, refusal_from, refusal_in, as_sent, IsResponseOf};
ghost use Rattle.uss_vol4.specs.Volume.{Volume4D};
ghost use Rattle.uss_intent.specs.declared.calls.DssAsk.{DssAsk};
ghost use Rattle.uss_intent.specs.declared.calls.DssReply.{DssReply};
ghost use Rattle.uss_law_dss.specs.Fits.{fits};
ghost use Rattle.uss_rest.specs.Replies.{reply_in, reply_sent, IsShown, IsResponseTo};
ghost use Rattle.uss_rest.specs.Errors.{error_with};
ghost use Rattle.uss_wire_dss.specs.declared.errors.ErrorBody.{ErrorBody};
ghost use Rattle.uss_wire_dss.specs.ReplyWriting.{IsReadableError};

/// A refusal of the discovery service is known by its status and its error body, but for the limit of 211; only a status that is the
/// refusal's and its number stand for it, and 209 has the references that the body has. So the response that is written of a refusal
/// is read as that refusal by the client that it was shown to. The function does nothing: its contract carries the law.
pub fn refusals_are_read_again()
    ensures pair { (r : DssRefusal) → refusal_from (status_of r) (error_of r) ≡ Some (as_sent r) }
    ensures only { (status : ℕ) (e : ErrorBody) (r : DssRefusal) → refusal_from status e ≡ Some r → (status_of r ≡ status) × (refusal_number r ≡ e.refusal) }
    ensures missing { (status : ℕ) (e : ErrorBody) (references : List Reference) → refusal_from status e ≡ Some (MissingKey references) → references ≡ e.missing }
    ensures again { (client : List ℕ) (r : DssRefusal) (response : Response) → IsReadableError client (error_of r) → IsResponseOf r response → refusal_in client response.status response.body ≡ Some (as_sent r) }
    ensures other_status { refusal_from 404 (error_of (Full 4096)) ≡ None }
    ensures other_number { refusal_from 400 (error_with (codes "BadCall") 212) ≡ None }
    ensures readable { (client : List ℕ) (r : DssRefusal) → missing_of r ≡ [] → IsReadableError client (error_of r) }
{}

/// The error of a refusal without references is the plain error of its name and number. The function does nothing: its contract
/// carries the law.
pub fn errors_without_references()
    ensures { (r : DssRefusal) → missing_of r ≡ [] → error_of r ≡ error_with (name_of r) (refusal_number r) }
{}

/// What is written of a reply that fits its call is read again as that reply by the client that it was shown to, but for the limit of
/// 211; and whatever is read fits the call. The function does nothing: its contract carries the law.
pub fn replies_are_read_again()
    ensures again { (client : List ℕ) (given : Volume4D) (ask : DssAsk) (reply : DssReply) (response : Response) → fits ask reply ≡ true → IsShown client given ask reply → IsResponseTo ask reply response
        → reply_in client given ask response.status response.body ≡ Some (reply_sent reply) }
    ensures fits { (client : List ℕ) (given : Volume4D) (ask : DssAsk) (status : ℕ) (body : List ℕ) (reply : DssReply) → reply_in client given ask status body ≡ Some reply → fits ask reply ≡ true }
{}
