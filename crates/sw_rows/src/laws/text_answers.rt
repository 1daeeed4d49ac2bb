//! Laws of answers: over codes they are what they are over the texts themselves.
//!
//! Each function here does nothing. Its contract is the law, or a worked example, which the check computes.

ghost use Rattle.std.specs.Prelude.{◌≡◌, ◌<◌, ◌∷◌, [], ℕ, List, codes, length, pos};
ghost use Rattle.sw_rows.specs.Domains as kind;
ghost use Rattle.sw_rows.specs.Examples.{asking, city_bytes, city_columns, city_rows, city_rows_seen, coded, in_city, two_cities, coded_from_two, counted_in, seen_city, seen_from_two, showing};
ghost use Rattle.sw_rows.specs.Header.{Column, IsSchema, kinds_of};
ghost use Rattle.sw_query.specs.Scan.{answer};
ghost use Rattle.sw_rows.specs.Tables.{Table, table_of};
ghost use Rattle.sw_rows.specs.TextRows as seen;
ghost use Rattle.sw_rows.specs.TextRows.{AreCoded, cell_seen, cond_seen, rows_seen, AnswerOverTexts, MatchingOverTexts, MeetsOverTexts, StayCoded, StaySeen};
ghost use Rattle.sw_query.specs.declared.query.Cond.{Cond};
ghost use Rattle.sw_query.specs.declared.query.Query.{Query};
ghost use Rattle.sw_table.specs.declared.row.Row.{Row};

use sw_query::{Reply, Want};

/// A row of codes meets a condition just where the row of its texts meets the condition on texts.
///
/// So the same rows match, and the answer over codes, with its cells seen as their texts, is the answer over texts.
pub fn answers_are_over_texts()
    ensures meets { (cs : List Column) (r : Row) (c : Cond) → IsSchema cs → c.attr < length cs → MeetsOverTexts cs r c }
    ensures matching { (cs : List Column) (rs : List Row) (q : Query) → IsSchema cs → MatchingOverTexts cs rs q }
    ensures answer { (cs : List Column) (rs : List Row) (q : Query) → IsSchema cs → AnswerOverTexts cs rs q }
{}

/// The cells of a table that is read are codes, where they are of texts.
pub fn tables_have_coded_cells()
    ensures { (bytes : List ℕ) (t : Table) → table_of bytes ≡ Ok t → AreCoded (kinds_of t.columns) t.rows }
{}

/// Rows stay what they are as the attributes get to know more texts: their cells are codes still, of the same texts.
pub fn rows_keep_their_texts()
    ensures coded { (cs : List Column) (more : List (List ℕ)) (rs : List Row) → IsSchema cs → StayCoded cs more rs }
    ensures seen { (cs : List Column) (more : List (List ℕ)) (rs : List Row) → IsSchema cs → StaySeen cs more rs }
{}

/// The bytes of a table with an attribute of texts, and its rows as they are seen.
pub fn table_of_cities()
    ensures whole { table_of city_bytes ≡ Ok (record { columns = city_columns; rows = city_rows }) }
    ensures seen { rows_seen (kinds_of city_columns) city_rows ≡ city_rows_seen }
    ensures no_code { cell_seen (kind.Text two_cities) (pos 3) ≡ seen.number (pos 3) }
{}

/// How many rows are in cities that are named, over codes.
pub fn counts_of_cities()
    ensures oslo { answer city_rows (asking (coded 1 1 ∷ []) Want.Count) ≡ Reply.Count 2 }
    ensures both { answer city_rows (asking (coded 2 1 ∷ []) Want.Count) ≡ Reply.Count 0 }
    ensures one_after_another { answer city_rows (asking (coded 1 1 ∷ coded 2 2 ∷ []) Want.Count) ≡ Reply.Count 0 }
{}

/// The same over texts.
pub fn counts_of_cities_seen()
    ensures named { cond_seen (kinds_of city_columns) (coded 2 1) ≡ in_city (codes "Bergen, N" ∷ codes "Oslo" ∷ []) }
    ensures oslo { counted_in (codes "Oslo" ∷ []) ≡ seen.plain (Reply.Count 2) }
    ensures both { counted_in (codes "Bergen, N" ∷ codes "Oslo" ∷ []) ≡ seen.plain (Reply.Count 0) }
    ensures unknown { counted_in (codes "Moss" ∷ []) ≡ seen.plain (Reply.Count 0) }
{}

/// The cities of rows with a number from 2 on: over codes, and over texts.
pub fn cities_from_two()
    ensures over_codes { coded_from_two ≡ showing ((2, (2 ∷ [])) ∷ (3, (1 ∷ [])) ∷ []) }
    ensures over_texts { seen_from_two ≡ seen.rows (seen_city 2 (codes "Bergen, N") ∷ seen_city 3 (codes "Oslo") ∷ []) }
{}
