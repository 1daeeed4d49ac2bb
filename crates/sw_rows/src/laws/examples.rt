//! Worked examples: what the definitions give for texts, tables and queries that are written out.
//!
//! Each function here does nothing. Its contract is the example, and the check computes it.

ghost use Rattle.std.specs.Prelude.{◌≡◌, ◌++◌, ◌∷◌, ◌^◌, ◌-◌, [], pos, neg_ℤ, codes, replicate, take, true, false};
ghost use Rattle.sw_query.specs.Bounds.{bound_below, greater, is_left, lesser};
ghost use Rattle.sw_rows.specs.Cells.{cell_value};
ghost use Rattle.sw_rows.specs.Domains as kind;
ghost use Rattle.sw_rows.specs.Examples.{abc, asking, at_least, at_most, eight_columns, eight_names, four_rows, four_rows_bytes, four_rows_table, from_10_and_below_6, greatest_rows, less_than, lines_of, more_than, on, on_any_cell, row_comes, row_of_one, seven, two_cities, under_abc, abc_of_kinds, four_rows_on, in_10_to_15, showing};
ghost use Rattle.sw_rows.specs.Header.{bad_table, column_of, header_of, is_name, too_many};
ghost use Rattle.sw_query.specs.Scan.{answer};
ghost use Rattle.sw_rows.specs.Tables.{table_in, table_of};
ghost use Rattle.sw_rows.specs.Texts.{code_given, code_of, is_text, text_of, with_texts};
ghost use Rattle.sw_table.specs.Updates.{has_key, rows_of};

use sw_query::{Bound, Reply, Want};
use sw_table::Update;

/// Numbers of two decimals: decimals that are missing are zeros.
pub fn decimals_are_filled()
    ensures signed { cell_value (kind.Fix 2) (codes "+007.5") ≡ Some (pos 750) }
    ensures negative { cell_value (kind.Fix 2) (codes "-0.25") ≡ Some (neg_ℤ (pos 25)) }
    ensures whole { cell_value (kind.Fix 2) (codes "3") ≡ Some (pos 300) }
    ensures zero { cell_value (kind.Fix 2) (codes "-0") ≡ Some (pos 0) }
{}

/// Texts that are no numbers of two decimals.
pub fn decimals_are_refused()
    ensures many { cell_value (kind.Fix 2) (codes "9.999") ≡ None }
    ensures missing { cell_value (kind.Fix 2) (codes "5.") ≡ None }
    ensures no_whole { cell_value (kind.Fix 2) (codes ".5") ≡ None }
    ensures empty { cell_value (kind.Fix 2) [] ≡ None }
    ensures blank { cell_value (kind.Fix 2) (codes " 1") ≡ None }
    ensures two_dots { cell_value (kind.Fix 2) (codes "1.2.3") ≡ None }
    ensures two_signs { cell_value (kind.Fix 2) (codes "+-1") ≡ None }
    ensures sign_alone { cell_value (kind.Fix 2) (codes "-") ≡ None }
    ensures past_64_bits { cell_value (kind.Fix 2) (codes "92233720368547758.08") ≡ None }
{}

/// Whole numbers, at the ends of 64 signed bits.
pub fn whole_numbers()
    ensures least { cell_value kind.Int (codes "-9223372036854775808") ≡ Some (neg_ℤ (pos (2 ^ 63))) }
    ensures greatest { cell_value kind.Int (codes "9223372036854775807") ≡ Some (pos (2 ^ 63 - 1)) }
    ensures above { cell_value kind.Int (codes "9223372036854775808") ≡ None }
    ensures wrapping { cell_value kind.Int (codes "18446744073709551617") ≡ None }
    ensures below { cell_value kind.Int (codes "-9223372036854775809") ≡ None }
    ensures dotted { cell_value kind.Int (codes "5.0") ≡ None }
    ensures zeros { cell_value kind.Int (replicate 64 48) ≡ Some (pos 0) }
    ensures long { cell_value kind.Int (replicate 65 48) ≡ None }
{}

/// Flags are these two words alone.
pub fn flags()
    ensures yes { cell_value kind.Flag (codes "true") ≡ Some (pos 1) }
    ensures no { cell_value kind.Flag (codes "false") ≡ Some (pos 0) }
    ensures number { cell_value kind.Flag (codes "1") ≡ None }
    ensures upper_case { cell_value kind.Flag (codes "True") ≡ None }
{}

/// Fields of a header.
pub fn header_fields()
    ensures bare { column_of (codes "a") ≡ Some (codes "a", kind.Int) }
    ensures typed { column_of (codes "b:fix2") ≡ Some (codes "b", kind.Fix 2) }
    ensures underscore { column_of (codes "_x:flag") ≡ Some (codes "_x", kind.Flag) }
    ensures of_texts { column_of (codes "c:text") ≡ Some (codes "c", kind.Text []) }
    ensures digit_first { column_of (codes "1a") ≡ None }
    ensures blank { column_of (codes "a b") ≡ None }
    ensures reserved { column_of (codes "count") ≡ None }
    ensures no_type { column_of (codes "a:") ≡ None }
    ensures no_name { column_of (codes ":int") ≡ None }
    ensures no_decimals { column_of (codes "a:fix0") ≡ None }
    ensures many_decimals { column_of (codes "a:fix7") ≡ None }
    ensures second_colon { column_of (codes "a:int:int") ≡ None }
    ensures longest { is_name (replicate 32 97) ≡ true }
    ensures too_long { is_name (replicate 33 97) ≡ false }
{}

/// Headers.
pub fn headers()
    ensures kinds { header_of (codes "a:int" ∷ codes "b:fix2" ∷ codes "c:flag" ∷ []) ≡ Ok abc_of_kinds }
    ensures bad_name { header_of (codes "a" ∷ codes "1b" ∷ []) ≡ Err (bad_table 0 2) }
    ensures reserved { header_of (codes "a" ∷ codes "b" ∷ codes "where" ∷ []) ≡ Err (bad_table 0 3) }
    ensures name_twice { header_of (codes "a" ∷ codes "b" ∷ codes "a:flag" ∷ []) ≡ Err (bad_table 0 3) }
    ensures eight { header_of eight_names ≡ Ok eight_columns }
    ensures nine { header_of (replicate 9 (codes "1")) ≡ Err (too_many 8) }
    ensures none { header_of [] ≡ Err (bad_table 0 0) }
{}

/// The order of bounds, and which cells lie left of them.
pub fn bounds()
    ensures before { is_left (Bound.Before (pos 5)) (pos 5) ≡ false }
    ensures after { is_left (Bound.After (pos 5)) (pos 5) ≡ true }
    ensures same_value { bound_below (Bound.Before (pos 5)) (Bound.After (pos 5)) ≡ true }
    ensures not_itself { bound_below (Bound.After (pos 5)) (Bound.After (pos 5)) ≡ false }
    ensures by_value { bound_below (Bound.After (pos 5)) (Bound.Before (pos 6)) ≡ true }
    ensures greater_of { greater (at_least 5) (more_than 5) ≡ more_than 5 }
    ensures greater_alone { greater None (at_least 5) ≡ at_least 5 }
    ensures lesser_of { lesser (less_than 5) (at_most 5) ≡ less_than 5 }
    ensures lesser_alone { lesser (at_most 5) None ≡ at_most 5 }
{}

/// The bytes of four rows.
pub fn table_of_four_rows()
    ensures split { table_in four_rows_bytes ≡ Ok four_rows_table }
    ensures whole { table_of four_rows_bytes ≡ Ok four_rows_table }
{}

/// The bytes of four rows, cut after so many of them.
pub fn cut_tables()
    ensures at_6 { table_of (take 6 four_rows_bytes) ≡ Err (bad_table 0 2) }
    ensures at_7 { table_of (take 7 four_rows_bytes) ≡ Ok (record { columns = take 2 abc; rows = [] }) }
    ensures at_31 { table_of (take 31 four_rows_bytes) ≡ Ok (record { columns = abc; rows = take 2 four_rows }) }
    ensures at_40 { table_of (take 40 four_rows_bytes) ≡ Err (bad_table 4 2) }
    ensures at_42 { table_of (take 42 four_rows_bytes) ≡ Err (bad_table 4 3) }
    ensures at_43 { table_of (take 43 four_rows_bytes) ≡ Err (bad_table 4 3) }
    ensures at_44 { table_of (take 44 four_rows_bytes) ≡ Ok four_rows_table }
{}

/// The first fault of a table.
pub fn faults_of_tables()
    ensures empty { table_in [] ≡ Err (bad_table 0 0) }
    ensures short_record { table_in (under_abc (codes "1,2,3" ∷ codes "4,5" ∷ [])) ≡ Err (bad_table 2 3) }
    ensures long_record { table_in (under_abc (codes "1,2,3,4" ∷ [])) ≡ Err (bad_table 1 4) }
    ensures no_cell { table_in (under_abc (codes "1,1x,3" ∷ [])) ≡ Err (bad_table 1 2) }
    ensures length_first { table_in (under_abc (codes "x,2" ∷ [])) ≡ Err (bad_table 1 3) }
    ensures header_first { table_in (lines_of (codes "a,a" ∷ codes "1" ∷ [])) ≡ Err (bad_table 0 2) }
    ensures no_text { table_in (lines_of (codes "a,b:text" ∷ (codes "1," ++ 127 ∷ []) ∷ [])) ≡ Err (bad_table 1 2) }
{}

/// What lines, quotes and blanks make of a table.
pub fn lines_and_quotes()
    ensures carriage_returns { table_in (codes "a" ++ 13 ∷ 10 ∷ codes "7" ++ 13 ∷ 10 ∷ []) ≡ Ok seven }
    ensures empty_lines { table_in (10 ∷ codes "a" ++ 10 ∷ 10 ∷ codes "7" ++ []) ≡ Ok seven }
    ensures quoted { table_in (codes "a" ++ 10 ∷ 34 ∷ codes "7" ++ 34 ∷ []) ≡ Ok seven }
    ensures empty_field { table_in (codes "a" ++ 10 ∷ 34 ∷ 34 ∷ []) ≡ Err (bad_table 1 1) }
    ensures blanks { table_in (codes "a,b" ++ 10 ∷ codes "  ") ≡ Err (bad_table 1 2) }
{}

/// Rows that meet a range, and no others.
pub fn rows_in_a_range()
    ensures one_attribute { four_rows_on in_10_to_15 (1 ∷ []) ≡ showing ((1, (7 ∷ [])) ∷ (3, (5 ∷ [])) ∷ []) }
    ensures two_attributes { four_rows_on in_10_to_15 (1 ∷ 2 ∷ []) ≡ showing ((1, (7 ∷ 1 ∷ [])) ∷ (3, (5 ∷ 1 ∷ [])) ∷ []) }
    ensures nothing { four_rows_on (on 0 (at_least 15) (at_most 10) ∷ []) (1 ∷ []) ≡ showing [] }
    ensures two_conditions { four_rows_on from_10_and_below_6 (0 ∷ []) ≡ showing ((3, (12 ∷ [])) ∷ (4, (20 ∷ [])) ∷ []) }
    ensures all { answer four_rows (asking (on_any_cell 0 ∷ []) Want.Count) ≡ Reply.Count 4 }
{}

/// What the ends of a range take in: the value itself or not.
pub fn ends_of_ranges()
    ensures from { answer four_rows (asking (on 0 (at_least 12) None ∷ []) Want.Count) ≡ Reply.Count 3 }
    ensures above { answer four_rows (asking (on 0 (more_than 12) None ∷ []) Want.Count) ≡ Reply.Count 1 }
    ensures below { answer four_rows (asking (on 0 None (less_than 12) ∷ []) Want.Count) ≡ Reply.Count 1 }
    ensures up_to { answer four_rows (asking (on 0 None (at_most 12) ∷ []) Want.Count) ≡ Reply.Count 3 }
    ensures equal { answer four_rows (asking (on 0 (at_least 12) (at_most 12) ∷ []) Want.Count) ≡ Reply.Count 2 }
{}

/// Aggregates over no rows.
pub fn aggregates_of_nothing()
    ensures count { answer [] (asking [] Want.Count) ≡ Reply.Count 0 }
    ensures least { answer [] (asking [] (Want.Min 1)) ≡ Reply.Least None }
    ensures sum { answer [] (asking [] (Want.Sum 1)) ≡ Reply.Sum (pos 0) }
    ensures rows { answer [] (asking [] (Want.Rows (0 ∷ []))) ≡ Reply.Rows [] }
{}

/// Aggregates over rows; a sum may need more than 64 bits.
pub fn aggregates_of_rows()
    ensures large_sum { answer greatest_rows (asking [] (Want.Sum 0)) ≡ Reply.Sum (pos 36893488147419103228) }
    ensures sum { answer four_rows (asking [] (Want.Sum 1)) ≡ Reply.Sum (pos 22) }
    ensures least { answer four_rows (asking [] (Want.Min 1)) ≡ Reply.Least (Some (pos 2)) }
    ensures greatest { answer four_rows (asking [] (Want.Max 1)) ≡ Reply.Least (Some (pos 8)) }
{}

/// Rows after updates: an insertion comes last, a removal takes the row of its key away.
pub fn rows_after_updates()
    ensures inserted { rows_of (row_comes 1 5 ∷ row_comes 2 4 ∷ []) ≡ row_of_one 1 (pos 5) ∷ row_of_one 2 (pos 4) ∷ [] }
    ensures removed { rows_of (row_comes 1 5 ∷ row_comes 2 4 ∷ Update.Remove 1 ∷ []) ≡ row_of_one 2 (pos 4) ∷ [] }
    ensures absent { rows_of (row_comes 1 5 ∷ Update.Remove 2 ∷ []) ≡ row_of_one 1 (pos 5) ∷ [] }
    ensures known { has_key 1 (row_of_one 1 (pos 5) ∷ []) ≡ true }
    ensures unknown { has_key 2 (row_of_one 1 (pos 5) ∷ []) ≡ false }
{}

/// Bytes that may be the text of a cell, and others that may not.
pub fn texts_of_cells()
    ensures plain { is_text (codes "Bergen, N") ≡ true }
    ensures empty { is_text [] ≡ true }
    ensures two_bytes { is_text (195 ∷ 184 ∷ []) ≡ true }
    ensures half_a_character { is_text (195 ∷ []) ≡ false }
    ensures line_end { is_text (codes "Oslo" ++ 10 ∷ []) ≡ false }
    ensures delete { is_text (127 ∷ []) ≡ false }
    ensures longest { is_text (replicate 64 97) ≡ true }
    ensures too_long { is_text (replicate 65 97) ≡ false }
{}

/// Texts in the order in which they are first seen, each once.
pub fn texts_in_order()
    ensures once { with_texts [] (codes "Oslo" ∷ codes "Bergen, N" ∷ codes "Oslo" ∷ []) ≡ two_cities }
    ensures first { code_of two_cities (codes "Oslo") ≡ Some 1 }
    ensures second { code_of two_cities (codes "Bergen, N") ≡ Some 2 }
    ensures other_case { code_of two_cities (codes "oslo") ≡ None }
    ensures text { text_of two_cities 2 ≡ Some (codes "Bergen, N") }
    ensures below { text_of two_cities 0 ≡ None }
    ensures above { text_of two_cities 3 ≡ None }
{}

/// The codes that texts are given as they are added.
pub fn codes_given()
    ensures first { code_given [] (codes "Oslo") ≡ Ok 1 }
    ensures known { code_given two_cities (codes "Oslo") ≡ Ok 1 }
    ensures new { code_given two_cities (codes "Moss") ≡ Ok 3 }
    ensures empty { code_given two_cities [] ≡ Ok 3 }
    ensures taken_back { take 2 (with_texts two_cities (codes "Moss" ∷ codes "Oslo" ∷ [])) ≡ two_cities }
{}
