//! Laws of the grammar of lines. Each function has no body to speak of: its contract is the law.

ghost use Rattle.std.specs.Prelude.{ℤ, IsUtf8, ◌≡◌, ◌≤◌, ◌+◌, ◌*◌, ◌==◌, ℕ, false, List, [], length, codes, slice_index, fold, map};
ghost use Rattle.sw_lang.specs.declared.reading.term.Term.{Term};
ghost use Rattle.sw_rows.specs.Header.{kinds_of};
ghost use Rattle.sw_rows.specs.TextRows.{AsksOfTexts};
ghost use Rattle.sw_query.specs.declared.query.Query.{Query};
ghost use Rattle.sw_lang.specs.Fits.{FitsQuery};
ghost use Rattle.sw_lang.specs.Terms.{add_term, conditions};
ghost use Rattle.sw_lang.specs.Agreement.{FindsAllRelated, FindsRelated};
ghost use Rattle.sw_lang.specs.Grammar.{IsLine};
ghost use Rattle.sw_lang.specs.Cuts.{IsCuts};
ghost use Rattle.sw_lang.specs.CutsReading.{cuts_at};
ghost use Rattle.sw_rows.specs.Header.{Column};
ghost use Rattle.sw_lang.specs.ReadBack.{PrintedCallsAreLines, PrintedCallsAreRead, MakesCodedRow, IsOneToken, KeepsItsCall};
ghost use Rattle.sw_lang.specs.Reading.{line_at};
ghost use Rattle.sw_lang.specs.Replies.{doubled, quoted_text};
ghost use Rattle.sw_lang.specs.Tokens.{undoubled};
ghost use Rattle.sw_lang.specs.Examples.{calls, cities, cut_texts, mixed, mixed_cuts, printed_lines, printed_of, refusals, text_lines, text_printed, three};

pub mod printed_examples;

/// The format's examples are read as the format says.
pub fn examples_of_lines()
    ensures calls { map (λ e. line_at mixed e.0) calls ≡ map (λ e. e.1) calls }
    ensures refusals { map (λ e. line_at three e.0) refusals ≡ map (λ e. e.1) refusals }
{}

/// The calls of some lines are printed as the format says.
pub fn examples_of_printed_lines()
    ensures { map (λ e. printed_of mixed (line_at mixed e.0)) printed_lines ≡ map (λ e. e.1) printed_lines }
{}

/// Lines over a table with an attribute of texts, and calls of some printed.
pub fn examples_of_texts()
    ensures lines { map (λ e. line_at cities e.0) text_lines ≡ map (λ e. e.1) text_lines }
    ensures printed { map (λ e. printed_of cities (line_at cities e.0)) text_printed ≡ map (λ e. e.1) text_printed }
{}

/// The same for texts of cuts.
pub fn examples_of_cuts()
    ensures whole_numbers { map (λ e. cuts_at three e.0) cut_texts ≡ map (λ e. e.1) cut_texts }
    ensures kinds { map (λ e. cuts_at mixed e.0) mixed_cuts ≡ map (λ e. e.1) mixed_cuts }
{}

/// Terms that are met one after another, each narrowing the condition on its attribute or adding one, make the
/// conditions that all of them make at once.
pub fn terms_make_conditions()
    ensures { (terms : List Term) → fold add_term [] terms ≡ conditions terms }
{}

/// Reading a line from left to right finds just what the grammar relates to the line.
pub fn lines_are_read_as_related()
    ensures found { FindsRelated line_at IsLine }
    ensures only { FindsAllRelated line_at IsLine }
{}

/// What is read of a line under a schema is read of it under the schema that knows more texts, as that which has
/// learned further lines.
pub fn lines_keep_their_calls()
    ensures { (schema : List Column) (more : List (List ℕ)) (text : List ℕ) → KeepsItsCall schema more text }
{}

/// Where a line is a call, what `write_call` prints of the call is a line too, of at most 4,096 bytes, and is the same
/// call; so `parse_line` reads it as that call.
pub fn printed_calls_are_read()
    ensures lines { PrintedCallsAreLines }
    ensures read { PrintedCallsAreRead }
{}

/// What `write_quoted` writes of a text is one token of a line, a quoted text of just these bytes, whatever follows but
/// a quote. It is at most twice as long as the text, its two quotes aside.
pub fn quoted_texts_are_read_back()
    ensures read { (text rest : List ℕ) → (slice_index rest 0 == 39) ≡ false → IsOneToken text rest }
    ensures same { (text : List ℕ) → undoubled (doubled text) ≡ text }
    ensures few_bytes { (text : List ℕ) → length (quoted_text text) ≤ 2 + 2 * length text }
    ensures utf8 { (text : List ℕ) → IsUtf8 text → IsUtf8 (quoted_text text) }
    ensures example { quoted_text (codes "it's") ≡ codes "'it''s'" }
{}

/// What a line asks of texts is equality, and the cells of a row that it inserts are codes of texts, where they are of
/// texts: so that answers to it are answers over texts (`sw_rows::text_answers`).
pub fn lines_ask_of_texts()
    ensures queries { (schema : List Column) (q : Query) → FitsQuery schema q → AsksOfTexts (kinds_of schema) q }
    ensures rows { (schema : List Column) (key : ℕ) (cells : List ℤ) → MakesCodedRow schema key cells }
{}

/// Reading a text of cuts from left to right finds just what the relation of cuts relates to the text.
pub fn cuts_are_read_as_related()
    ensures found { FindsRelated cuts_at IsCuts }
    ensures only { FindsAllRelated cuts_at IsCuts }
{}
