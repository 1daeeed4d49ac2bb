//! Worked examples: the files that the definitions give for histories that are written out, and the history that they
//! give for a file.
//!
//! The functions here do nothing. Their contracts are the examples, and the check computes them.

ghost use Rattle.std.specs.Prelude.{◌≡◌, ◌∷◌, [], codes, Err, Ok};
ghost use Rattle.sw_query.specs.declared.refusal.Refusal.TheVariants.{BadLine};
ghost use Rattle.sw_query.specs.declared.refusal.Why.TheVariants as why;
ghost use Rattle.sw_histories.specs.FileExamples.{counted, counted_under, deleted, deleted_under, visited, visited_file, visited_once};
ghost use Rattle.sw_histories.specs.ReadBack.{IsOfRun, KnowsInOrder};
ghost use Rattle.sw_histories.specs.RecordReading.{record_at};
ghost use Rattle.sw_histories.specs.RecordText.{record_text};

use sw_rows::Reply;
use sw_spine::State;

/// One count over the table of the examples: its reply is written as a line, and read as one. Its file has format 1, and
/// is read under format 3 as well.
pub fn one_count()
    ensures written { record_text (counted (State.Answered (Reply.Count 4))) ≡ counted_under (codes "1") }
    ensures again { record_text (counted (State.Lines (codes "4" ∷ []))) ≡ counted_under (codes "1") }
    ensures of_run { IsOfRun (counted (State.Answered (Reply.Count 4))) }
    ensures in_order { KnowsInOrder (counted (State.Answered (Reply.Count 4))) }
    ensures read { record_at (counted_under (codes "1")) ≡ Ok (counted (State.Lines (codes "4" ∷ []))) }
    ensures newer { record_at (counted_under (codes "3")) ≡ Ok (counted (State.Lines (codes "4" ∷ []))) }
    ensures unknown { record_at (counted_under (codes "4")) ≡ Err (BadLine 0 why.History) }
{}

/// One delete of the rows under conditions: its file has format 3. Under an older one its call is refused.
pub fn one_delete_where()
    ensures written { record_text (deleted (State.Answered (Reply.RemovedMany 2))) ≡ deleted_under (codes "3") }
    ensures again { record_text (deleted (State.Lines (codes "(2 removed)" ∷ []))) ≡ deleted_under (codes "3") }
    ensures of_run { IsOfRun (deleted (State.Answered (Reply.RemovedMany 2))) }
    ensures in_order { KnowsInOrder (deleted (State.Answered (Reply.RemovedMany 2))) }
    ensures read { record_at (deleted_under (codes "3")) ≡ Ok (deleted (State.Lines (codes "(2 removed)" ∷ []))) }
    ensures first { record_at (deleted_under (codes "1")) ≡ Err (BadLine 1 why.History) }
    ensures second { record_at (deleted_under (codes "2")) ≡ Err (BadLine 1 why.History) }
{}

/// Two calls on a table of texts: its file has format 2, and shows cells and calls with their texts, which get the same
/// codes when it is read.
pub fn two_calls_on_cities()
    ensures written { record_text visited_once ≡ visited_file }
    ensures again { record_text (visited (State.Lines (codes "2" ∷ [])) (State.Lines (codes "key 4" ∷ [])))
        ≡ visited_file }
    ensures of_run { IsOfRun visited_once }
    ensures in_order { KnowsInOrder visited_once }
    ensures read { record_at visited_file
        ≡ Ok (visited (State.Lines (codes "2" ∷ [])) (State.Lines (codes "key 4" ∷ []))) }
{}
