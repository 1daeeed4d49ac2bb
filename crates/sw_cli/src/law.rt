//! Laws of runs: what they start from, and what they reply, is over texts.

ghost use Rattle.std.specs.Prelude.{All};
ghost use Rattle.sw_cli.specs.RunRecords.{RecordsAreFoundLegal, RecordsAreOfRuns};
ghost use Rattle.sw_cli.specs.TextCalls.{IsOverTexts};
ghost use Rattle.sw_cli.specs.TextLaws.{CallsKeepCodes, ClosedIsOverTexts, OfStarts, RecordIsOverTexts, RepliesAreOverTexts, RepliesOfOneBlock};
ghost use Rattle.sw_rows.specs.Header.{IsSchema, kinds_of};
ghost use Rattle.sw_rows.specs.TextRows.{AreCoded};

/// A run starts from a schema and from rows whose cells are codes of its texts, where they are of texts. Its calls
/// insert such rows, and what selects and deletes under conditions ask of texts is equality.
///
/// So over such rows the answer to a select is the answer over texts, and the rows that meet the conditions of a delete
/// are those whose texts meet them (`sw_rows::text_answers`). The function does nothing.
pub fn runs_are_over_texts()
    ensures schema { OfStarts (λ limit s. IsSchema s.columns) }
    ensures rows { OfStarts (λ limit s. AreCoded (kinds_of s.columns) s.rows) }
    ensures calls { OfStarts (λ limit s. All (All (IsOverTexts s.columns)) s.blocks) }
{}

/// Rows stay coded as such calls come. So each reply to a select is, with codes seen as their texts, the answer over
/// rows of texts, and each reply to a delete under conditions how many rows of texts meet them: the plain table's to such
/// calls and to those of a script of one block, and each that the record of a run gives, or the record of an engine that was
/// opened over such rows, took such calls from whomever, and was closed (`sw_engine::Engine::close`).
///
/// The function does nothing.
pub fn replies_are_over_texts()
    ensures kept { CallsKeepCodes }
    ensures replies { RepliesAreOverTexts }
    ensures runs { OfStarts RepliesOfOneBlock }
    ensures records { OfStarts RecordIsOverTexts }
    ensures closed { ClosedIsOverTexts }
{}

/// The record that a run leaves is one of which history files tell (`IsOfRun`). So the check finds the file of that record
/// legal: status 0 and `legal: N entries`, unless memory is wanting or the sink fails.
///
/// The function does nothing.
pub fn files_of_runs_are_legal()
    ensures of_runs { RecordsAreOfRuns }
    ensures found { RecordsAreFoundLegal }
{}
