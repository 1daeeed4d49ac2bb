//! Worked examples: what the definitions of areas give for tapes, bounds and queries that are written out.
//!
//! Each function here does nothing. Its contract is the example, and the check computes it.

ghost use Rattle.std.specs.Prelude.{◌≡◌, ◌∷◌, [], pos, false, true};
ghost use Rattle.sw_rows.specs.Examples.{four_rows};
ghost use Rattle.sw_query.specs.declared.bound.Bound.TheVariants.{Before, After};
ghost use Rattle.sw_table.specs.declared.row.Update.TheVariants.{Insert, Remove};
ghost use Rattle.sw_kernel.specs.Tapes.{peak_from};
ghost use Rattle.sw_map.specs.declared.tail.Tail.TheVariants.{Key, Cell};
ghost use Rattle.sw_map.specs.Held.{place_of};
ghost use Rattle.sw_map.specs.Lawful.{IsLawful, rows_by};
ghost use Rattle.sw_set.specs.Needs.{edge, head_in, lower_from, needed, touches, upper_upto};
ghost use Rattle.sw_set.specs.Prepared.{cells_for, stands_if};
ghost use Rattle.sw_set.specs.Merged.{IsMerged};
ghost use Rattle.sw_set.specs.Shelf.{AreReceivable, logged_rows, rows_in};
ghost use Rattle.test_areas.specs.Examples.{after, before, begun_area, begun_tape, cleared_area, count_all, cracked_pieces, cracked_tape, fifth_row, fives_tape, greatest_bound, keys_by, lagging_area, least_bound, longer_tape, mapped_area, mixed_tape, none_refused, old_row, places_by, second_map, select_a_by_b, select_b, select_b_and_c, shorter_tape, some_refused, strayed_tape, sum_b_by_c, three_rows, waiting_area, whole_tape};

/// Which intervals a range touches: the ends are those of bounds, and a range whose ends are turned touches none.
pub(crate) fn intervals_that_are_touched()
    ensures turned { touches None None (before 15) (after 10) ≡ false }
    ensures empty { touches None None (before 5) (before 5) ≡ false }
    ensures whole { touches None None (Some least_bound) (Some greatest_bound) ≡ true }
    ensures none { touches (edge (Some (pos 3))) (edge (Some (pos 4))) None None ≡ true }
    ensures below_a_cut { touches None (edge (Some (pos 12))) None (before 12) ≡ true }
    ensures not_above_it { touches (edge (Some (pos 12))) None None (before 12) ≡ false }
    ensures below_with_the_cut { touches None (edge (Some (pos 12))) None (after 12) ≡ true }
    ensures above_with_the_cut { touches (edge (Some (pos 12))) None None (after 12) ≡ true }
    ensures from_the_cut { touches None (edge (Some (pos 12))) (before 12) None ≡ false }
    ensures from_before_it { touches None (edge (Some (pos 12))) (after 11) None ≡ true }
{}

/// Bounds at the ends of an interval, or beyond them, count as absent.
pub(crate) fn bounds_in_an_interval()
    ensures at_the_end { upper_upto (edge (Some (pos 12))) (before 12) ≡ None }
    ensures past_the_end { upper_upto (edge (Some (pos 12))) (after 12) ≡ None }
    ensures inside { upper_upto (edge (Some (pos 12))) (after 11) ≡ after 11 }
    ensures no_end { upper_upto None (after 12) ≡ after 12 }
    ensures at_the_start { lower_from (edge (Some (pos 12))) (before 12) ≡ None }
    ensures past_the_start { lower_from (edge (Some (pos 12))) (after 12) ≡ after 12 }
    ensures no_start { lower_from None (before 12) ≡ before 12 }
    ensures absent { lower_from (edge (Some (pos 12))) None ≡ None }
{}

/// The head of a query, and the maps that it needs.
pub(crate) fn maps_that_are_needed()
    ensures one_tail { needed 0 select_b ≡ Key ∷ Cell 1 ∷ [] }
    ensures two_tails { needed 0 select_b_and_c ≡ Key ∷ Cell 1 ∷ Cell 2 ∷ [] }
    ensures head_shown { needed 0 select_a_by_b ≡ Key ∷ Cell 1 ∷ [] }
    ensures another_head { needed 2 sum_b_by_c ≡ Key ∷ Cell 0 ∷ Cell 1 ∷ [] }
    ensures its_head { head_in sum_b_by_c.conds ≡ 2 }
    ensures no_condition { needed 0 count_all ≡ Key ∷ [] }
    ensures its_head_too { head_in count_all.conds ≡ 0 }
{}

/// Cells come in blocks of 64.
pub(crate) fn cells_of_a_map()
    ensures none { cells_for 0 ≡ 64 }
    ensures one { cells_for 1 ≡ 64 }
    ensures a_block { cells_for 64 ≡ 64 }
    ensures one_more { cells_for 65 ≡ 128 }
    ensures many { cells_for 1000 ≡ 1024 }
    ensures four_rows { cells_for (peak_from 0 cracked_tape) ≡ 64 }
{}

/// Which bounds stand in a tape.
pub(crate) fn bounds_that_stand()
    ensures lower { stands_if (before 5) fives_tape ≡ true }
    ensures upper { stands_if (after 5) fives_tape ≡ true }
    ensures absent { stands_if None fives_tape ≡ true }
    ensures another { stands_if (before 6) fives_tape ≡ false }
    ensures as_upper { stands_if (after 10) cracked_tape ≡ false }
{}

/// Four rows that a range has cracked: their order, the places of its bounds, and a map of their second cells.
#[tactic(auto, using(crate::proofs::Computed::cracked, crate::proofs::Computed::mapped))]
pub(crate) fn a_range_cracks_the_rows()
    ensures pieces { rows_by 0 cracked_tape ≡ cracked_pieces }
    ensures order { keys_by cracked_tape ≡ 2 ∷ 1 ∷ 3 ∷ 4 ∷ [] }
    ensures first { place_of (Before (pos 10)) (rows_by 0 cracked_tape) ≡ Some 1 }
    ensures second { place_of (After (pos 15)) (rows_by 0 cracked_tape) ≡ Some 3 }
    ensures no_other { place_of (After (pos 10)) (rows_by 0 cracked_tape) ≡ None }
    ensures rows { logged_rows 0 cracked_tape ≡ four_rows }
    ensures map { IsLawful 0 cracked_tape second_map }
{}

/// The same rows when one more comes, when one goes, and when the tape begins anew without it.
#[tactic(auto, using(crate::proofs::Computed::lengthened, crate::proofs::Computed::lengthened_places, crate::proofs::Computed::shortened, crate::proofs::Computed::shortened_places, crate::proofs::Computed::shortened_rows, crate::proofs::Computed::begun_anew))]
pub(crate) fn rows_come_and_go()
    ensures comes { keys_by longer_tape ≡ 2 ∷ 5 ∷ 3 ∷ 1 ∷ 4 ∷ [] }
    ensures its_places { places_by longer_tape (Before (pos 10)) (After (pos 15)) ≡ (Some 2, Some 4) }
    ensures goes { keys_by shorter_tape ≡ 3 ∷ 1 ∷ 4 ∷ [] }
    ensures places_without_it { places_by shorter_tape (Before (pos 10)) (After (pos 15)) ≡ (Some 0, Some 2) }
    ensures rows_without_it { logged_rows 0 shorter_tape ≡ three_rows }
    ensures begun { keys_by begun_tape ≡ 1 ∷ 3 ∷ 4 ∷ [] }
    ensures waiting { rows_in (waiting_area (Remove 2)) ≡ three_rows }
{}

/// What merging makes of an area: a row that comes is logged; a row that goes is logged at the place of its pair, and at no
/// other, where the key map stands at the tape's end; without a key map the area is begun anew, and with one it is not, also
/// where it lags, unless a step of it was refused.
#[tactic(auto, using(crate::proofs::Merging::comes_merged, crate::proofs::Merging::goes_merged, crate::proofs::Merging::another_place_refused, crate::proofs::Merging::restarts_merged, crate::proofs::Merging::restart_refused, crate::proofs::Merging::restart_refused_lagging, crate::proofs::Merging::restarts_refused_step))]
pub(crate) fn updates_that_are_merged()
    ensures comes { IsMerged none_refused (Insert fifth_row) mapped_area (record mapped_area { tape = longer_tape }) }
    ensures goes { IsMerged none_refused (Remove 2) mapped_area (record mapped_area { tape = shorter_tape }) }
    ensures at_its_place { IsMerged some_refused (Remove 2) mapped_area (record mapped_area { tape = strayed_tape }) → ⊥ }
    ensures restarts { IsMerged none_refused (Remove 2) cleared_area begun_area }
    ensures only_then { IsMerged some_refused (Remove 2) mapped_area begun_area → ⊥ }
    ensures not_for_lagging { IsMerged none_refused (Remove 2) lagging_area begun_area → ⊥ }
    ensures for_a_refused_step { IsMerged some_refused (Remove 2) lagging_area begun_area }
{}

/// Which updates an area of four rows may receive: a removed key is that of a live row, and an inserted one exceeds all that came.
#[tactic(auto, using(crate::proofs::Merging::removal_received, crate::proofs::Merging::removed_twice, crate::proofs::Merging::insertion_received, crate::proofs::Merging::old_key_refused))]
pub(crate) fn updates_that_may_be_received()
    ensures removal { AreReceivable 0 None None four_rows four_rows (Remove 2 ∷ []) }
    ensures twice { AreReceivable 0 None None four_rows four_rows (Remove 2 ∷ Remove 2 ∷ []) → ⊥ }
    ensures insertion { AreReceivable 0 None None four_rows four_rows (Insert fifth_row ∷ Remove 5 ∷ []) }
    ensures old_key { AreReceivable 0 None None four_rows three_rows (Insert old_row ∷ []) → ⊥ }
{}

/// A range at the ends of all values, and rows of one value.
#[tactic(auto, using(crate::proofs::Computed::wholly, crate::proofs::Computed::wholly_places, crate::proofs::Computed::fived, crate::proofs::Computed::fived_places, crate::proofs::Computed::mixed, crate::proofs::Computed::mixed_places))]
pub(crate) fn ends_and_equal_cells()
    ensures whole { keys_by whole_tape ≡ 1 ∷ 2 ∷ 3 ∷ 4 ∷ [] }
    ensures its_places { places_by whole_tape least_bound greatest_bound ≡ (Some 0, Some 4) }
    ensures equal { keys_by fives_tape ≡ 1 ∷ 2 ∷ 3 ∷ [] }
    ensures their_places { places_by fives_tape (Before (pos 5)) (After (pos 5)) ≡ (Some 0, Some 3) }
    ensures mixed { keys_by mixed_tape ≡ 5 ∷ 2 ∷ 3 ∷ 1 ∷ 4 ∷ [] }
    ensures places_then { places_by mixed_tape (Before (pos 5)) (After (pos 5)) ≡ (Some 1, Some 4) }
{}
