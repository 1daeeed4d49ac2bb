//! Worked examples: the text that the definitions give for cells, calls and replies that are written out.
//!
//! Each function here does nothing. Its contract is the example, and the check computes it.

ghost use Rattle.std.specs.Prelude.{◌≡◌, ◌∷◌, [], codes, negsuc, pos};
ghost use Rattle.sw_lang.specs.PrintedCalls.{call_text};
ghost use Rattle.sw_lang.specs.PrintedExamples.{abc, asking, asking_where, cond, priced, row, between, cheap_sum, deleting_by_two, equal_to, inserting, rows_by_two, short_rows, rows_bytes, two_rows};
ghost use Rattle.sw_rows.specs.Domains as kind;
ghost use Rattle.sw_lang.specs.Replies.{cell_text, extreme_text, fixed_text, reply_bytes, sum_text};

use sw_rows::{Call, Reply, Want};

/// Numbers of two decimals have just two.
pub fn two_decimals()
    ensures one_zero { fixed_text 2 (pos 750) ≡ codes "7.50" }
    ensures two_zeros { fixed_text 2 (pos 300) ≡ codes "3.00" }
    ensures below_zero { fixed_text 2 (negsuc 24) ≡ codes "-0.25" }
    ensures one_digit { fixed_text 2 (negsuc 4) ≡ codes "-0.05" }
    ensures none { fixed_text 2 (pos 0) ≡ codes "0.00" }
    ensures least { fixed_text 2 (negsuc 9223372036854775807) ≡ codes "-92233720368547758.08" }
{}

/// A flag is a word, its sum a number.
pub fn flags_and_sums()
    ensures yes { cell_text kind.Flag (pos 1) ≡ codes "true" }
    ensures no { cell_text kind.Flag (pos 0) ≡ codes "false" }
    ensures flags { sum_text kind.Flag (pos 2) ≡ codes "2" }
    ensures prices { sum_text (kind.Fix 2) (pos 1025) ≡ codes "10.25" }
    ensures past_64_bits { sum_text kind.Int (pos 36893488147419103228) ≡ codes "36893488147419103228" }
    ensures least_price { extreme_text (kind.Fix 2) (Some (negsuc 24)) ≡ codes "-0.25" }
    ensures no_rows { extreme_text kind.Int None ≡ codes "none" }
{}

/// Rows are lines of their key and their cells, and then how many there are.
pub fn rows_as_lines()
    ensures one_cell { rows_bytes abc (1 ∷ []) short_rows ≡ codes "1: 7\n3: 5\n(2 rows)\n" }
    ensures two_cells { rows_bytes abc (1 ∷ 2 ∷ []) two_rows ≡ codes "1: 7, 1\n3: 5, 1\n(2 rows)\n" }
    ensures one_row { rows_bytes priced (0 ∷ []) (row 2 (negsuc 24 ∷ []) ∷ []) ≡ codes "2: -0.25\n(1 rows)\n" }
    ensures no_rows { rows_bytes abc (0 ∷ []) [] ≡ codes "(0 rows)\n" }
{}

/// Other replies are a line each.
pub fn single_lines()
    ensures count { reply_bytes abc (asking Want.Count) (Reply.Count 2) ≡ codes "2\n" }
    ensures sum { reply_bytes priced (asking (Want.Sum 0)) (Reply.Sum (pos 0)) ≡ codes "0.00\n" }
    ensures greatest { reply_bytes priced (asking (Want.Max 1)) (Reply.Least (Some (pos 1))) ≡ codes "true\n" }
    ensures least { reply_bytes abc (asking (Want.Min 1)) (Reply.Least None) ≡ codes "none\n" }
    ensures inserted { reply_bytes abc (Call.Insert []) (Reply.Inserted 5) ≡ codes "key 5\n" }
    ensures full { reply_bytes abc (Call.Insert []) Reply.Full ≡ codes "full\n" }
    ensures removed { reply_bytes abc (Call.Delete 2) Reply.Removed ≡ codes "removed\n" }
    ensures no_such_key { reply_bytes abc (Call.Delete 0) Reply.NoSuchKey ≡ codes "no such key\n" }
    ensures many { reply_bytes abc (Call.DeleteWhere []) (Reply.RemovedMany 2) ≡ codes "(2 removed)\n" }
{}

/// A condition is printed by its bounds, the lower one first.
pub fn conditions_as_comparisons()
    ensures equal { call_text abc (asking_where Want.Count (equal_to 0 5 ∷ [])) ≡ codes "count where a >= 5 and a <= 5" }
    ensures open_ends { call_text abc (asking_where Want.Count (between 0 5 9 ∷ [])) ≡ codes "count where a > 5 and a < 9" }
    ensures two { call_text abc rows_by_two ≡ codes "select a, c where b < 6 and a >= -10" }
    ensures without_bounds { call_text abc (asking_where (Want.Max 2) (cond 0 None None ∷ [])) ≡ codes "max c" }
    ensures kinds { call_text priced cheap_sum ≡ codes "sum price where ok >= true and ok <= true and price < 0.20" }
{}

/// Inserts have a cell for each attribute, deletes a key or conditions.
pub fn updates_as_words()
    ensures insert { call_text abc (inserting (1 ∷ 9 ∷ 0 ∷ [])) ≡ codes "insert 1, 9, 0" }
    ensures kinds { call_text priced (inserting (750 ∷ 1 ∷ [])) ≡ codes "insert 7.50, true" }
    ensures delete { call_text abc (Call.Delete 18446744073709551615) ≡ codes "delete 18446744073709551615" }
    ensures conditions { call_text abc deleting_by_two ≡ codes "delete where a >= 12 and a <= 12 and b < 6" }
{}
