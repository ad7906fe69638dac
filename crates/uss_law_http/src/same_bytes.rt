ghost use Rattle.std.specs.Prelude.{◌≡◌, ℕ, List, Result};
ghost use Rattle.uss_http.specs.declared.refusal.HttpRefusal.{HttpRefusal};
ghost use Rattle.uss_http.specs.Refusals.{IsReadFrom};
ghost use Rattle.uss_http.specs.Responses.{IsReadOf};
ghost use Rattle.uss_http_request.specs.declared.fields.Framing.{Framing};
ghost use Rattle.uss_http_request.specs.declared.heads.Head.{Head};
ghost use Rattle.uss_http_request.specs.declared.refusal.ReadRefusal.{ReadRefusal};
ghost use Rattle.uss_http_request.specs.declared.request.Request.{Request};
ghost use Rattle.uss_http_request.specs.HeadAnswers.{HasHead, IsRefusedHead};
ghost use Rattle.uss_http_request.specs.Bodies.{IsBody, IsRefusedBody};
ghost use Rattle.uss_http_request.specs.Requests.{IsAnswerOf};
ghost use Rattle.uss_http_response.specs.declared.response.Response.{Response};
ghost use Rattle.uss_http_response.specs.Responses as response;
ghost use Rattle.uss_law_http.specs.Again.{IsDecided};
ghost use Rattle.uss_law_http.specs.Found.{IsByTheBytes, IsResponseByTheBytes};

/// The same bytes have one answer: one request at their start, or one reason why there is none, and not both. The
/// function does nothing: its contract carries the law.
pub fn one_answer()
    ensures { (bytes : List ℕ) (a b : Result Request ReadRefusal) → IsByTheBytes a → IsByTheBytes b → IsAnswerOf bytes a → IsAnswerOf bytes b → a ≡ b }
{}

/// Bytes begin with one accepted head, and the same bytes follow it; or they are refused for one reason, and not both.
pub fn one_head()
    ensures heads { (bytes : List ℕ) (h k : Head) (r q : List ℕ) → HasHead bytes h r → HasHead bytes k q → (h ≡ k) × (r ≡ q) }
    ensures accepted { (bytes : List ℕ) (h : Head) (r : List ℕ) (e : ReadRefusal) → HasHead bytes h r → IsRefusedHead bytes e → ⊥ }
    ensures reasons { (bytes : List ℕ) (d e : ReadRefusal) → IsRefusedHead bytes d → IsRefusedHead bytes e → d ≡ e }
{}

/// Bytes begin with one body of a framing, or are refused for one reason, and not both.
pub fn one_body()
    ensures bodies { (framing : Framing) (bytes b c : List ℕ) → IsBody framing bytes b → IsBody framing bytes c → b ≡ c }
    ensures accepted { (framing : Framing) (bytes b : List ℕ) (e : ReadRefusal) → IsBody framing bytes b → IsRefusedBody framing bytes e → ⊥ }
    ensures reasons { (framing : Framing) (bytes : List ℕ) (d e : ReadRefusal) → IsRefusedBody framing bytes d → IsRefusedBody framing bytes e → d ≡ e }
{}

/// The same bytes up to the end of a stream have one answer as a response: one response at their start, or one reason why
/// there is none, and not both.
pub fn one_response()
    ensures { (bytes : List ℕ) (a b : Result Response ReadRefusal) → IsResponseByTheBytes a → IsResponseByTheBytes b → response.IsAnswerOf bytes a → response.IsAnswerOf bytes b → a ≡ b }
{}

/// The same bytes have one answer of reading a request, and one of reading a response: the message at their start, or one
/// reason why there is none, and not both.
pub fn one_answer_of_a_read()
    ensures requests { (bytes : List ℕ) (a b : Result Request HttpRefusal) → IsDecided a → IsDecided b → IsReadFrom bytes a → IsReadFrom bytes b → a ≡ b }
    ensures responses { (bytes : List ℕ) (a b : Result Response HttpRefusal) → IsDecided a → IsDecided b → IsReadOf bytes a → IsReadOf bytes b → a ≡ b }
{}
