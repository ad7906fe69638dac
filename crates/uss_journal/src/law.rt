// The law that ties the definition of a journal's file to how one is written.
ghost use Rattle.std.specs.Prelude.{◌≡◌, ◌<◌, ◌^◌, ℕ, List, length, All, Ok};
ghost use Rattle.uss_journal.specs.Format.{stands_for, journal_of};

/// A file that was written record by record, each after its open gate, with a closed gate after the last, stands for
/// those records, whatever stands after that gate. The function does nothing: its contract carries the law.
pub fn written_records_are_found()
    ensures { (records : List (List ℕ)) (rest : List ℕ) → All (λ r. length r < 2 ^ 32) records → stands_for (journal_of records rest) ≡ Ok records }
{}
