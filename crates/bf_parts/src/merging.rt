//! Two lists of items made one: one behind the other, or in their common order.
ghost use Rattle.std.specs.Prelude.{◌≡◌, ◌++◌, take, drop, IfOk, OnOk};
ghost use Rattle.bf_parts.specs.Merges.{merged, passed};

use crate::{Items, Linked};
use bf_program::Memory;
use std::alloc::Global;
use std::collections::VecDeque;

/// Moves items to the end of others.
pub fn append<T: Drop>(items: &mut Items<T>, more: Items<T>) -> Result<(), Memory>
    ensures { OnOk result (items.new ≡ items.old ++ more) }
{
    let mut all = items.moved().into_vec();
    all.append(&mut more.into_vec())?;
    *items = Items::of(all);
    Ok(())
}

// Moves those of others that don't come after an item to the end of a list.
fn pass<T: Linked + Drop>(
    all: &mut Vec<T>,
    item: &T,
    others: &mut VecDeque<T>,
) -> Result<(), Memory>
    ensures all { OnOk result (all.new.items ≡ all.old.items ++ take (passed T.kind.first item.now others.old.items) others.old.items) }
    ensures others { OnOk result (others.new.items ≡ drop (passed T.kind.first item.now others.old.items) others.old.items) }
{
    while let Some(other) = others.front() {
        if item.comes_first(other) {
            return Ok(());
        }
        if let Some(other) = others.pop_front() {
            all.push(other)?;
        }
    }
    Ok(())
}

// Items that are some, among others.
fn merged<T: Linked + Drop>(
    alloc: Global,
    own: Vec<T>,
    mut others: VecDeque<T>,
) -> Result<Vec<T>, Memory>
    ensures { IfOk result (λ all. all.items ≡ merged T.kind.first own.items others.items) }
{
    let mut all = Vec::new(alloc);
    for item in own {
        pass(&mut all, &item, &mut others)?;
        all.push(item)?;
    }
    all.append(&mut Vec::from(others))?;
    Ok(all)
}

/// Two lists made one in their common order, where each is in rising order. Nothing is copied.
#[tactic(auto, using(crate::proofs::MergeSteps::merged_none))]
pub fn merge<T: Linked + Drop>(
    alloc: Global,
    own: Items<T>,
    other: Items<T>,
) -> Result<Items<T>, Memory>
    ensures { IfOk result (λ items. items ≡ merged T.kind.first own other) }
{
    if other.is_empty() {
        return Ok(own);
    }
    Ok(Items::of(merged(alloc, own.into_vec(), VecDeque::from(other.into_vec()))?))
}
