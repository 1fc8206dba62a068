//! Cargo becomes blocks.
ghost use Rattle.std.specs.Prelude.{◌≡◌, ◌++◌, ◌∷◌, ℕ, List, length, map, IfOk, OnOk, IsPermutation};
ghost use Rattle.std.specs.List.Sorted.{IsSortedByKey};
ghost use Rattle.std.specs.Vec.Iter.{into_iter_items};
ghost use Rattle.bf_id.specs.Id.{id_cmp, BlockId};
ghost use Rattle.bf_case.specs.declared.case.Case.{Case};
ghost use Rattle.bf_block.specs.declared.cargo.Cargo.{Cargo};
ghost use Rattle.bf_block.specs.declared.cargo.Cargo.TheVariants.{Piece};
ghost use Rattle.bf_block.specs.Eighth.{EighthValue};
ghost use Rattle.bf_migrate.specs.Lots.{cargo_id, cargo_in, AreBlocksOf, IsBlockAt, IsLotOf, Lot, Makes};

use bf_block::{Block, Cargo, Eighth, Memory};
use bf_id::Id;
use bf_proxy::Proxy;
use std::alloc::Global;
use std::vec::IntoIter;

// The id of the block that has the cargo's box.
fn id_of(part: &Cargo) -> Id
    ensures { result ≡ cargo_id part.now }
{
    match part {
        Cargo::Whole(block) => block.id(),
        Cargo::Piece(eighth) => eighth.id(),
    }
}

// Puts cargo in rising order of its ids.
fn sort(cargo: &mut [Cargo])
    ensures same { IsPermutation cargo.old cargo.new }
    ensures len { length cargo.new ≡ length cargo.old }
    ensures rising { IsSortedByKey cargo_id id_cmp cargo.new }
{
    cargo.sort_unstable_by_key(|part| id_of(part));
}

// The eighth at the front of cargo.
fn next_eighth(cargo: &mut IntoIter<Cargo>) -> Eighth
    requires { (e : EighthValue) × ((rest : List Cargo) × (into_iter_items cargo.old ≡ Piece e ∷ rest)) }
    ensures { (e : EighthValue) (rest : List Cargo) → into_iter_items cargo.old ≡ Piece e ∷ rest
        → (result ≡ e) × (into_iter_items cargo.new ≡ rest) }
{
    match cargo.next() {
        Some(Cargo::Piece(eighth)) => eighth,
        Some(Cargo::Whole(_)) => unreachable!(),
        None => unreachable!(),
    }
}

// An eighth with the seven at the front of cargo.
fn octet(alloc: Global, first: Eighth, cargo: &mut IntoIter<Cargo>) -> Result<Vec<Eighth>, Memory>
    requires { (more : List EighthValue) × ((rest : List Cargo) × ((length more ≡ 7) × (into_iter_items cargo.old ≡ map Piece more ++ rest))) }
    ensures { (more : List EighthValue) (rest : List Cargo) → length more ≡ 7 → into_iter_items cargo.old ≡ map Piece more ++ rest
        → IfOk result (λ parts. (parts.items ≡ first ∷ more) × (into_iter_items cargo.new ≡ rest)) }
{
    let mut parts = Vec::with_capacity(alloc, 8)?;
    parts.push(first)?;
    for _ in 0..7u32 {
        parts.push(next_eighth(cargo))?;
    }
    Ok(parts)
}

// The block that the lot at the front of cargo makes.
fn next_block(alloc: Global, cargo: &mut IntoIter<Cargo>) -> Result<Block, Memory>
    requires { (c : Case) × ((time : ℕ) × ((q : BlockId) × ((lot : Lot) × ((rest : List Cargo) × (IsLotOf c time q lot × (into_iter_items cargo.old ≡ cargo_in lot ++ rest)))))) }
    ensures { (c : Case) (time : ℕ) (q : BlockId) (lot : Lot) (rest : List Cargo) → IsLotOf c time q lot → into_iter_items cargo.old ≡ cargo_in lot ++ rest
        → IfOk result (λ block. IsBlockAt c time q block × (into_iter_items cargo.new ≡ rest)) }
{
    match cargo.next() {
        Some(Cargo::Whole(block)) => Ok(block),
        Some(Cargo::Piece(eighth)) => {
            let parts = octet(alloc, eighth, cargo)?;
            match Block::merged(alloc, parts) {
                Ok(block) => Ok(block),
                Err(_) => Err(Memory),
            }
        }
        None => unreachable!(),
    }
}

/// The blocks of proxies, in the proxies' order, of what their sources gave. Blocks are moved, not copied.
///
/// The cargo is in any order. By rising id it is for each proxy in turn one whole block, or the eighths of the eight leaves
/// that merge into it, and nothing else.
pub fn assemble(alloc: Global, cargo: Vec<Cargo>, proxies: &[Proxy]) -> Result<Vec<Block>, Memory>
    requires { (c : Case) × ((time : ℕ) × Makes c time proxies.now cargo.items) }
    ensures { (c : Case) (time : ℕ) → Makes c time proxies.now cargo.items
        → IfOk result (λ blocks. AreBlocksOf c time proxies.now blocks.items) }
{
    let mut cargo = cargo;
    sort(cargo.as_mut_slice());
    let mut cargo = cargo.into_iter();
    let mut blocks = Vec::with_capacity(alloc, proxies.len())?;
    for _ in proxies {
        blocks.push(next_block(alloc, &mut cargo)?)?;
    }
    Ok(blocks)
}
