//! Laws of blocks on their way, each the contract of a call that does nothing.
ghost use Rattle.std.specs.Prelude.{◌≡◌, ◌≤◌, ℕ, All, Bool, List, map};
ghost use Rattle.std.specs.List.{count_by};
ghost use Rattle.bf_id.specs.declared.shape.Shape.{Shape};
ghost use Rattle.bf_id.specs.Cube.{holds, Voxel};
ghost use Rattle.bf_id.specs.Id.{box_of, level_of, BlockId};
ghost use Rattle.bf_case.specs.declared.case.Case.{Case};
ghost use Rattle.bf_block.specs.declared.cargo.Cargo.{Cargo};
ghost use Rattle.bf_block.specs.Block.{BlockValue, IsModels};
ghost use Rattle.bf_proxy.specs.declared.proxy.Proxy.{Proxy};
ghost use Rattle.bf_migrate.specs.Boxes.{boxes_in, boxes_of, IsHalved};
ghost use Rattle.bf_migrate.specs.Giving.{all_sent, StandBefore};
ghost use Rattle.bf_migrate.specs.Lots.{cargo_id, AreBlocksOf, Makes};

/// Each box of blocks is in one piece in what they give: what is counted of a box is to be counted of its eight children
/// together, as whether it holds a unit of the domain.
pub fn blocks_and_what_they_give_have_the_same_boxes()
    ensures boxes { (c : Case) (time : ℕ) (rank : BlockId → ℕ) (blocks : List BlockValue) (test : BlockId → Bool)
        → StandBefore c time blocks → All IsModels blocks → IsHalved test
        → count_by test (boxes_in (map (λ (sent : ℕ × Cargo). sent.1) (all_sent rank blocks))) ≡ count_by test (boxes_of blocks) }
    ensures units { (shape : Shape) (unit : Voxel) → IsHalved (λ i. holds (box_of shape i) unit) }
{}

/// Each box of cargo is in one piece in the blocks that it makes. No id has more than four levels.
pub fn cargo_and_what_it_makes_have_the_same_boxes()
    ensures { (c : Case) (time : ℕ) (proxies : List Proxy) (cargo : List Cargo) (blocks : List BlockValue) (test : BlockId → Bool)
        → Makes c time proxies cargo → AreBlocksOf c time proxies blocks → All (λ x. level_of (cargo_id x) ≤ 4) cargo → IsHalved test
        → count_by test (boxes_in cargo) ≡ count_by test (boxes_of blocks) }
{}

/// There is one block for each proxy, with its id, and no other.
pub fn each_proxy_has_one_block()
    ensures { (c : Case) (time : ℕ) (proxies : List Proxy) (blocks : List BlockValue) → AreBlocksOf c time proxies blocks
        → boxes_of blocks ≡ map (λ (proxy : Proxy). proxy.id) proxies }
{}
