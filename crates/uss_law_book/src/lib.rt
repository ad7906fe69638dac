//! What a supplier's book is to be: definitions and laws, and no code that runs.
//!
//! `specs/Lists.antt` has what the entries say, `specs/Contents.antt` and `specs/Attempts.antt` what a book tells of jobs, flights,
//! tickets and attempts, `specs/Coding.antt` which entries have a coding and how long it is, `specs/Reserve.antt` the room that a
//! book keeps free, `specs/Changes.antt` how a further entry changes it, `specs/Legal.antt` when a book is legal, and `specs/Room.antt`
//! what an entry has to keep to follow a legal book. The functions below do nothing: their contracts carry the laws.
#![tactic(auto)]

ghost use Rattle.std.specs.Prelude.{◌≡◌, ◌≤◌, ◌↔◌, ◌+◌, ◌++◌, ◌∷◌, [], ℕ, ℤ, List, Some, false};
ghost use Rattle.std.specs.Option.{option_and_then};
ghost use Rattle.uss_event.specs.declared.asks.FlightAsk.{FlightAsk};
ghost use Rattle.uss_event.specs.declared.entries.Entry.{Entry};
ghost use Rattle.uss_event.specs.declared.entries.Entry.TheVariants.{Opened};
ghost use Rattle.uss_law_dss.specs.Lists.{Has};
ghost use Rattle.uss_event.specs.declared.entries.Opening.{Opening};
ghost use Rattle.uss_event.specs.declared.entries.Trial.{Trial};
ghost use Rattle.uss_event.specs.declared.entries.Holding.{Holding};
ghost use Rattle.uss_law_book.specs.Lists.{openings, trials};
ghost use Rattle.uss_law_book.specs.Contents.{opening_of, trial_of, is_closed, open_job_of, holding, current_ovn_of};
ghost use Rattle.uss_law_book.specs.Attempts.{Attempted, attempt_of, held};
ghost use Rattle.uss_law_book.specs.Coding.{record_length, journal_length};
ghost use Rattle.uss_law_book.specs.Reserve.{journal_limit, job_room, need, ReserveCovers};
ghost use Rattle.uss_law_book.specs.Legal.{IsLegal, MayFollow};
ghost use Rattle.uss_law_book.specs.Room.{IsSpared, IsNext, LegalBooksKeepRoom};
ghost use Rattle.uss_law_book.specs.Orderly.{IsOrderly, IsHeldOf};

/// A book is legal where each of its entries may follow those before it: so every beginning of a legal book is legal, and a legal
/// book goes on with an entry that may follow it, and with no other.
pub fn legal_books_go_on()
    ensures beginning { (book more : List Entry) → IsLegal (book ++ more) → IsLegal book }
    ensures longer { (book : List Entry) (e : Entry) → IsLegal book → MayFollow book e → IsLegal (book ++ e ∷ []) }
    ensures only { (book : List Entry) (e : Entry) → IsLegal (book ++ e ∷ []) → MayFollow book e }
{}

/// What holds of every legal book: jobs and tags are each one's own, a flight has one open job at most, a job is closed once, and all
/// attempts of a job change the reference that was recorded of its flight.
pub fn legal_books_are_orderly()
    ensures { (book : List Entry) → IsLegal book → IsOrderly book }
{}

/// Jobs are found by their numbers, attempts by their tags, and a flight's open job by the flight.
pub fn jobs_and_attempts_are_found()
    ensures job { (book : List Entry) (o : Opening) → IsLegal book → Has (openings book) o → opening_of o.job book ≡ Some o }
    ensures attempt { (book : List Entry) (t : Trial) → IsLegal book → Has (trials book) t → trial_of t.tag book ≡ Some t }
    ensures open_job { (book : List Entry) (o : Opening) → IsLegal book → Has (openings book) o → is_closed o.job book ≡ false → open_job_of o.ask.flight book ≡ Some o }
{}

/// An attempt stays what it is, whatever is entered later.
pub fn attempts_stay()
    ensures { (book more : List Entry) (tag : ℕ) (a : Attempted) → attempt_of tag book ≡ Some a → attempt_of tag (book ++ more) ≡ Some a }
{}

/// A request, which is a flight and a number, opens one job.
pub fn a_request_opens_one_job()
    ensures { (book : List Entry) (o p : Opening) → IsLegal book → Has (openings book) o → Has (openings book) p → o.ask.flight ≡ p.ask.flight → o.ask.number ≡ p.ask.number → o ≡ p }
{}

/// All attempts of one job are made to change one reference, or all to create one.
pub fn attempts_of_a_job_have_one_previous()
    ensures { (book : List Entry) (t u : Trial) → IsLegal book → Has (trials book) t → Has (trials book) u → t.job ≡ u.job → t.previous ≡ u.previous }
{}

/// What a legal book holds of a flight is one of the attempts of a job of the flight, as it was recorded; its OVN is the flight's current one.
pub fn what_is_held_was_recorded()
    ensures held { (book : List Entry) (flight : ℕ) (h : Holding) → IsLegal book → holding flight book ≡ Some h → IsHeldOf book flight h }
    ensures current_ovn { (book : List Entry) (flight : ℕ) → IsLegal book → current_ovn_of flight book ≡ option_and_then (λ p. p.reference.ovn) (held flight book) }
{}

/// A legal book keeps its room, and fits its journal. Once a job is open, each entry that is due and has its coding leaves the book with
/// room for all that is open: what the job enters, to its end, has room within the 8,388,608 bytes that are kept free for it. So an entry
/// may follow a legal book exactly where it is in its place, has its coding, is due, and, if it opens a job, leaves room for the job; and
/// there is that room where the whole of the journal, what is kept free, the record and the job's bytes fit together.
pub fn legal_books_keep_room()
    ensures covered { (book : List Entry) → IsLegal book → ReserveCovers book }
    ensures fits { (book : List Entry) → IsLegal book → journal_length book ≤ journal_limit }
    ensures room { LegalBooksKeepRoom }
    ensures exact { (book : List Entry) (e : Entry) → IsLegal book → (MayFollow book e ↔ IsNext book e) }
    ensures beside_all { (book : List Entry) (job : ℕ) (moment : ℤ) (ask : FlightAsk)
        → journal_length book + need book + job_room + record_length (Opened (record { job = job; moment = moment; ask = ask })) ≤ journal_limit → IsSpared book (Opened (record { job = job; moment = moment; ask = ask })) }
{}
