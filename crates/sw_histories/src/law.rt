//! Laws of history files. Each function has no body to speak of: its contract is the law.

ghost use Rattle.std.specs.Prelude.{◌≡◌, ℕ, List, All, Ok};
ghost use Rattle.sw_rows.specs.Header.{kinds_of};
ghost use Rattle.sw_rows.specs.Tables.{Table, table_of};
ghost use Rattle.sw_spine.specs.History.{History, IsLegal};
ghost use Rattle.sw_histories.specs.FoundLegal.{FilesAreFoundLegal};
ghost use Rattle.sw_histories.specs.ReadBack.{HasCells, RecordsAreReadBack, TextsAreJson, with_lines};
ghost use Rattle.sw_histories.specs.RecordReading.{record_at};
ghost use Rattle.sw_histories.specs.RecordRelation.{IsRecord};
ghost use Rattle.sw_histories.specs.RecordText.{record_text};

/// Reading a file in the order in which faults are looked for finds just the record that the relation relates to its
/// bytes.
pub fn histories_are_read_as_related()
    ensures found { (bytes : List ℕ) (h : History) → record_at bytes ≡ Ok h → IsRecord bytes h }
    ensures only { (bytes : List ℕ) (h : History) → IsRecord bytes h → record_at bytes ≡ Ok h }
{}

/// The text of a record is JSON: reading it as such gives the value that it is the text of, where its numbers have 64
/// bits.
pub fn texts_are_read_as_values()
    ensures { TextsAreJson }
{}

/// The rows of a table that is read have the cells that rows of a run's record have: one of each attribute's kind, and
/// 0 after the last attribute.
pub fn tables_have_cells()
    ensures { (bytes : List ℕ) (t : Table) → table_of bytes ≡ Ok t → All (HasCells (kinds_of t.columns)) t.rows }
{}

/// The text of a run's record (`IsOfRun`) is read back as that record: the attributes, the opening rows, the limit, and
/// each entry with its session, its call and what has become of it, where a reply stands as the lines that are printed
/// for it; of attributes of texts where these have their codes in the order in which the file shows them
/// (`KnowsInOrder`). Written again, that record has the same text, of every history.
pub fn records_are_read_back()
    ensures read { RecordsAreReadBack }
    ensures again { (h : History) → record_text (with_lines h) ≡ record_text h }
{}

/// A legal history stays legal where lines stand for its replies. So the check of the text of a run's record (`IsOfRun`),
/// where that is legal, answers status 0 and writes `legal: N entries`, N being their number, unless memory is wanting or
/// the sink fails; and so whatever codes its texts have.
pub fn legal_files_are_found_legal()
    ensures lines { (h : History) → IsLegal h → IsLegal (with_lines h) }
    ensures checked { FilesAreFoundLegal }
{}
