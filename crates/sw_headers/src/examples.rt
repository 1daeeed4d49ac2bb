//! Worked examples: what the definitions give for records that are written out.
//!
//! Each function here does nothing. Its contract is the example, and the check computes it.

ghost use Rattle.std.specs.Prelude.{◌≡◌, ◌∷◌, [], codes, true, false};
ghost use Rattle.sw_headers.specs.Under.{is_plain, record_under, records_under, without_second, words};

/// The header stands in place of the first record, whatever that is, and of the others the second field is passed by.
pub fn columns_are_passed_by()
    ensures words { words (codes "a:int,b") ≡ codes "a:int" ∷ codes "b" ∷ [] }
    ensures empty { words [] ≡ [] ∷ [] }
    ensures none { records_under (codes "a,b") without_second [] ≡ [] }
    ensures title { records_under (codes "a,b") without_second ((codes "x" ∷ []) ∷ [])
        ≡ (codes "a" ∷ codes "b" ∷ []) ∷ [] }
    ensures record { record_under without_second (codes "1" ∷ codes "2" ∷ codes "3" ∷ [])
        ≡ codes "1" ∷ codes "3" ∷ [] }
    ensures all { record_under (true ∷ true ∷ []) (codes "1" ∷ codes "2" ∷ []) ≡ codes "1" ∷ codes "2" ∷ [] }
{}

/// A record with another number of fields than the text has columns has another number than are kept.
pub fn other_numbers_stay_other()
    ensures long { record_under (true ∷ false ∷ []) (codes "1" ∷ codes "2" ∷ codes "3" ∷ [])
        ≡ codes "1" ∷ codes "3" ∷ [] }
    ensures short { record_under without_second (codes "1" ∷ codes "2" ∷ []) ≡ codes "1" ∷ [] }
    ensures spoiled { record_under (true ∷ false ∷ []) (codes "1" ∷ []) ≡ codes "1" ∷ [] ∷ [] }
    ensures none { record_under (false ∷ true ∷ true ∷ []) (codes "1" ∷ []) ≡ [] ∷ [] ∷ [] ∷ [] }
    ensures passed { record_under (false ∷ false ∷ []) (codes "1" ∷ codes "2" ∷ []) ≡ [] ∷ [] }
{}

/// A header is plain without quotes and line ends.
pub fn plain_headers()
    ensures plain { is_plain (codes "a:fix2,b:text") ≡ true }
    ensures empty { is_plain [] ≡ true }
    ensures quote { is_plain (codes "\"a\"") ≡ false }
    ensures line { is_plain (codes "a\nb") ≡ false }
    ensures mark { is_plain (239 ∷ 187 ∷ 191 ∷ codes "a") ≡ false }
{}
