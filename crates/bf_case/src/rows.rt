//! Worked rows of the model. Each function does nothing, and its contract is the row.

ghost use Rattle.std.specs.Prelude.{◌≡◌, ℕ, [], ◌∷◌, ◌++◌, Some, filter, length, map, option_map};
ghost use Rattle.std.specs.List.{range_with_len};
ghost use Rattle.bf_id.specs.Id.{root_id, child_of, children_of};
ghost use Rattle.bf_cells.specs.Grid.{spread_of};
ghost use Rattle.bf_case.specs.Case.{IsValid};
ghost use Rattle.bf_case.specs.Map.{ids_of, cells_at, IsBalancedMap};
ghost use Rattle.bf_case.specs.MapText.{map_text};
ghost use Rattle.bf_case.specs.Model.{model};
ghost use Rattle.bf_case.specs.Refinement.{refined_ids};
ghost use Rattle.bf_case.specs.Regrid.{regrid};
ghost use Rattle.bf_case.specs.Rows.{brim_full, brim_full_text, eight_merge, eight_merge_text};
ghost use Rattle.bf_case.specs.Rows.{forced, forced_ids, full_block, full_block_text, odd_children};
ghost use Rattle.bf_case.specs.Rows.{one_drop, one_drop_text, other_roots, seven_wish};
ghost use Rattle.bf_case.specs.Rows.{seven_wish_text, spotted, three_levels, three_levels_merged};
ghost use Rattle.bf_case.specs.Rows.{two_levels, two_levels_text, two_roots, wishing};
ghost use Rattle.bf_case.specs.Rows.{first_child, forced_child, low_limit, peak_of_level_1};
ghost use Rattle.bf_case.specs.Rows.{peak_of_level_1_ids, peak_of_level_2, peak_of_level_2_ids};
ghost use Rattle.bf_case.specs.Rows.{chain_from_level_2, chain_from_level_3, deep_child, deep_root};
ghost use Rattle.bf_case.specs.Rows.{second_child};
ghost use Rattle.bf_case.specs.Wishes.{wishes_of};

/// A fill sets each of its cells.
pub fn a_block_is_filled()
    ensures { map_text (model full_block 0) ≡ full_block_text }
{}

/// One step carries a part of a cell's value to its neighbours.
pub fn a_drop_spreads()
    ensures { map_text (model one_drop 1) ≡ one_drop_text }
{}

/// The mean of cells that all have the greatest value is that value.
pub fn the_greatest_value_stays()
    ensures { (time : ℕ) → map_text (model brim_full time) ≡ brim_full_text }
{}

/// Leaves of two levels see each other: a fine cell the greater cell beside it, and a great cell the
/// mean of the eight beside it. A spread that is equal to the limit refines nothing.
pub fn two_levels_meet()
    ensures equal_spread { let second = root_id 1 in
        option_map spread_of (cells_at (model two_levels 0) second) ≡ Some two_levels.refine }
    ensures text { map_text (model two_levels 1) ≡ two_levels_text }
{}

/// Eight leaves that wish it merge. A spread that is equal to the limit is a wish.
pub fn eight_leaves_merge()
    ensures equal_spread { let first = child_of (root_id 0) 0 in
        option_map spread_of (cells_at (model eight_merge 1) first) ≡ Some eight_merge.coarsen }
    ensures text { map_text (model eight_merge 2) ≡ eight_merge_text }
{}

/// Where one of eight leaves doesn't wish it, none of them merges.
pub fn seven_leaves_stay()
    ensures { map_text (model seven_wish 2) ≡ seven_wish_text }
{}

/// A leaf with no wish of its own is refined where a refined leaf one level finer touches it, be it
/// at a corner alone.
pub fn a_corner_forces_refinement()
    ensures first { ids_of (model forced 1) ≡ children_of (root_id 0) ++ other_roots }
    ensures wishes { let leaves = model forced 1 in
        filter (wishes_of forced leaves).finer (ids_of leaves) ≡ wishing }
    ensures refined { let leaves = model forced 1 in
        refined_ids forced.roots (ids_of leaves) (wishes_of forced leaves)
        ≡ odd_children ++ other_roots }
    ensures ids { ids_of (model forced 2) ≡ forced_ids }
    ensures count { length (model forced 2) ≡ 92 }
{}

/// The maps of three levels are balanced maps, of a valid case.
pub fn the_maps_of_three_levels_are_balanced()
    ensures valid { IsValid two_roots }
    ensures blank { IsBalancedMap two_roots three_levels }
    ensures spotted { (place : ℕ) → IsBalancedMap two_roots (spotted place) }
{}

/// A map of three levels whose cells are all 0 loses its finest and its middle octet at once.
pub fn octets_of_two_levels_merge_at_once()
    ensures { regrid two_roots three_levels ≡ three_levels_merged }
{}

/// Where one cell keeps the finest octet, it keeps the middle one that touches it, and the map
/// comes back unchanged.
pub fn an_octet_waits_for_finer_leaves()
    ensures { let places = range_with_len 0 8 in
        map (λ place. regrid two_roots (spotted place)) places ≡ map spotted places }
{}

/// An octet whose leaves all wish to merge stays where a refined leaf of their level touches it.
pub fn an_octet_beside_a_refined_leaf_stays()
    ensures wishes { let octet = children_of (root_id 0) in
        filter (wishes_of (low_limit 2) peak_of_level_1).coarser octet ≡ octet }
    ensures refined { let wishes = wishes_of (low_limit 2) peak_of_level_1 in
        refined_ids two_roots.roots (ids_of peak_of_level_1) wishes ≡ first_child ∷ [] }
    ensures ids { ids_of (regrid (low_limit 2) peak_of_level_1) ≡ peak_of_level_1_ids }
{}

/// A leaf that wishes to merge is refined all the same where balance forces it, and the other seven
/// stay.
pub fn an_octet_with_a_forced_leaf_stays()
    ensures wishes { let octet = children_of (root_id 0) in
        filter (wishes_of (low_limit 3) peak_of_level_2).coarser octet ≡ octet }
    ensures refined { let wishes = wishes_of (low_limit 3) peak_of_level_2 in
        refined_ids two_roots.roots (ids_of peak_of_level_2) wishes
        ≡ forced_child ∷ child_of first_child 0 ∷ [] }
    ensures ids { ids_of (regrid (low_limit 3) peak_of_level_2) ≡ peak_of_level_2_ids }
{}

/// A leaf that wishes to be refined forces the greater leaf beside it, and that one a still greater one
/// that the first doesn't touch.
pub fn refinement_goes_along_a_chain()
    ensures from_level_2 { let wishes = wishes_of (low_limit 3) chain_from_level_2 in
        refined_ids two_roots.roots (ids_of chain_from_level_2) wishes
        ≡ root_id 0 ∷ first_child ∷ child_of second_child 0 ∷ [] }
    ensures from_level_3 { let wishes = wishes_of deep_root chain_from_level_3 in
        refined_ids deep_root.roots (ids_of chain_from_level_3) wishes
        ≡ child_of (root_id 0) 0 ∷ child_of (child_of (root_id 0) 1) 0 ∷ child_of deep_child 0 ∷ [] }
{}
