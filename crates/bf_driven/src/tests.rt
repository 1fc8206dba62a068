//! Small cases of one row of roots, each run by its ranks: without deaths, with deaths that are survived, and with a loss.
//! One is told event by event, as in the rules' story of a death.
//!
//! Of two roots with cells of 80 and 0, one step makes 80 70 and 10 0 of each row of cells, and two make 78 63 and 16 1.
use crate::{leaves, run};
use bf_block::{Block, Memory};
use bf_case::{Case, Fill};
use bf_core::{Event, How, Outcome};
use bf_forest::Forest;
use bf_id::Shape;
use bf_items::Items;
use bf_world::World;
use std::alloc::Global;
use std::process::Abort;
use std::test::Fail;

/// A row of roots with two cells along each edge, of which the first is full of 80.
#[derive(Clone, Copy)]
struct Row {
    roots: u32,
    ranks: u32,
    steps: u32,
}

impl Row {
    fn case(self, alloc: Global, dies: Vec<(u32, u32)>, order: Vec<u32>) -> Result<Case, Memory> {
        let full = Fill {
            low: [0, 0, 0],
            high: [1, 1, 1],
            value: 80,
        };
        Ok(Case {
            roots: Shape {
                nx: self.roots,
                ny: 1,
                nz: 1,
            },
            side: 2,
            levels: 0,
            ranks: self.ranks,
            steps: self.steps,
            snapshot: 1,
            regrid: 0,
            refine: 4294967295,
            coarsen: 0,
            flow: 0,
            turns: 0,
            shift: 0,
            fills: Items::of(vec![in alloc; full]?),
            dies: Items::of(dies),
            order: Items::of(order),
        })
    }
}

fn driven(rt: &impl Abort, alloc: Global, case: Case) -> Result<World<Forest>, Memory> {
    assert!(rt; case.valid());
    assert_eq!(rt; case.regrid, 0);
    run(alloc, case)
}

fn expect_block(rt: &impl Abort, block: &Block, root: u32, low: u32, high: u32) {
    assert_eq!(rt; block.id().root(), root);
    assert_eq!(rt;
        block.cells().values(),
        [low, high, low, high, low, high, low, high].as_slice()
    );
}

// The world has finished with so many leaves, of which the first two have these cells in each row.
fn expect_leaves(
    rt: &impl Abort,
    alloc: Global,
    world: &World<Forest>,
    roots: usize,
    cells: [u32; 4],
) -> Result<(), Memory> {
    assert_eq!(rt; world.outcome(), Some(Outcome::Finished));
    let blocks = leaves(alloc, world.parcels())?;
    assert_eq!(rt; blocks.len(), roots);
    assert!(rt; 2 <= blocks.len());
    let [first_low, first_high, second_low, second_high] = cells;
    expect_block(rt, blocks[0], 0, first_low, first_high);
    expect_block(rt, blocks[1], 1, second_low, second_high);
    Ok(())
}

// Of three roots the last has got nothing within two steps.
fn expect_three_leaves(
    rt: &impl Abort,
    alloc: Global,
    world: &World<Forest>,
) -> Result<(), Memory> {
    expect_leaves(rt, alloc, world, 3, [78, 63, 16, 1])?;
    let blocks = leaves(alloc, world.parcels())?;
    assert!(rt; 2 < blocks.len());
    expect_block(rt, blocks[2], 2, 0, 0);
    Ok(())
}

// The run has had so many restores and events, and its last epoch this number and these times.
fn expect_course(
    rt: &impl Abort,
    world: &World<Forest>,
    restores: u32,
    events: usize,
    last: [u32; 3],
) {
    let epoch = world.epoch();
    assert_eq!(rt; world.restores(), restores);
    assert_eq!(rt; world.journal().len(), events);
    assert_eq!(rt; [epoch.number, epoch.time, epoch.target], last);
    assert!(rt; !epoch.restored);
}

// Messages of one block.
fn copy(rank: u32, to: u32, sum: u64) -> Event {
    Event::Send {
        rank,
        to,
        blocks: 1,
        sum,
    }
}

// Messages without a block: strips, or nothing at all.
fn tell(rank: u32, to: u32, sum: u64) -> Event {
    Event::Send {
        rank,
        to,
        blocks: 0,
        sum,
    }
}

fn recv(rank: u32, peer: u32) -> Event {
    Event::Recv { rank, peer }
}

fn done(rank: u32) -> Event {
    Event::Arrive {
        rank,
        how: How::Done,
    }
}

const TWO: Row = Row {
    roots: 2,
    ranks: 2,
    steps: 2,
};

const THREE: Row = Row {
    roots: 3,
    ranks: 3,
    steps: 2,
};

#[test]
fn passes_alone_finish(rt: HostRuntime) -> Result<(), Fail> {
    let alloc = rt.alloc();
    let world = driven(
        &rt,
        alloc,
        TWO.case(alloc, Vec::new(alloc), Vec::new(alloc))?,
    )?;
    assert_eq!(rt; world.restores(), 0);
    expect_leaves(&rt, alloc, &world, 2, [78, 63, 16, 1])?;
    Ok(())
}

// Any regrid would refine each root, but none comes.
#[test]
fn the_finest_level_changes_nothing_without_regrids(rt: HostRuntime) -> Result<(), Fail> {
    let alloc = rt.alloc();
    let case = Case {
        levels: 2,
        refine: 0,
        ..TWO.case(alloc, Vec::new(alloc), Vec::new(alloc))?
    };
    let world = driven(&rt, alloc, case)?;
    expect_leaves(&rt, alloc, &world, 2, [78, 63, 16, 1])?;
    Ok(())
}

#[test]
fn an_order_changes_no_cell(rt: HostRuntime) -> Result<(), Fail> {
    let alloc = rt.alloc();
    let order = vec![in alloc; 1, 1, 1, 0, 0, 1, 0]?;
    let world = driven(&rt, alloc, TWO.case(alloc, Vec::new(alloc), order)?)?;
    expect_leaves(&rt, alloc, &world, 2, [78, 63, 16, 1])?;
    Ok(())
}

#[test]
fn more_ranks_than_roots(rt: HostRuntime) -> Result<(), Fail> {
    let alloc = rt.alloc();
    let row = Row { ranks: 16, ..TWO };
    let world = driven(
        &rt,
        alloc,
        row.case(alloc, Vec::new(alloc), Vec::new(alloc))?,
    )?;
    assert_eq!(rt; world.parcels().len(), 16);
    expect_leaves(&rt, alloc, &world, 2, [78, 63, 16, 1])?;
    Ok(())
}

#[test]
fn a_death_at_the_opening_is_survived(rt: HostRuntime) -> Result<(), Fail> {
    let alloc = rt.alloc();
    let dies = vec![in alloc; (1, 0)]?;
    let world = driven(&rt, alloc, TWO.case(alloc, dies, Vec::new(alloc))?)?;
    assert_eq!(rt; world.restores(), 1);
    expect_leaves(&rt, alloc, &world, 2, [78, 63, 16, 1])?;
    Ok(())
}

// Of three roots in a row, one cell of the first is 8. Ranks 0 and 2 are no neighbours, so they are no peers in the step's
// round; in the snapshot's all are. A step leaves 7 in the first root and brings 1 into the second.
#[test]
fn ranks_talk_to_neighbours_alone(rt: HostRuntime) -> Result<(), Fail> {
    let alloc = rt.alloc();
    let drop = Fill {
        low: [1, 0, 0],
        high: [1, 0, 0],
        value: 8,
    };
    let row = Row { steps: 1, ..THREE };
    let case = Case {
        fills: Items::of(vec![in alloc; drop]?),
        ..row.case(alloc, Vec::new(alloc), Vec::new(alloc))?
    };
    let world = driven(&rt, alloc, case)?;
    let told = [
        tell(0, 1, 8),
        tell(1, 0, 0),
        tell(2, 1, 0),
        recv(0, 1),
        tell(1, 2, 0),
        recv(2, 1),
        copy(0, 1, 7),
        recv(1, 0),
        copy(2, 0, 0),
        tell(0, 2, 0),
        recv(1, 2),
        tell(2, 1, 0),
        tell(1, 0, 0),
        recv(2, 0),
        recv(0, 1),
        copy(1, 2, 1),
        recv(2, 1),
        recv(0, 2),
        recv(1, 0),
        done(2),
        done(0),
        recv(1, 2),
        done(1),
        Event::Leave { rank: 2 },
        Event::Leave { rank: 0 },
        Event::Leave { rank: 1 },
    ];
    assert_eq!(rt; world.journal(), told.as_slice());
    Ok(())
}

// Rank 1 dies once it has arrived. Each root tells the other the four cells at their common face, 80 of the first. A step
// makes 80 70 of four rows of 80 80, with a sum of 600, and 10 0 of four rows of 0 0, with a sum of 40.
#[test]
fn a_death_its_restore_and_its_repair(rt: HostRuntime) -> Result<(), Fail> {
    let alloc = rt.alloc();
    let dies = vec![in alloc; (1, 5)]?;
    let order = vec![in alloc; 0, 1, 0, 1, 0, 1, 0, 1, 1, 1]?;
    let row = Row { steps: 1, ..TWO };
    let world = driven(&rt, alloc, row.case(alloc, dies, order)?)?;
    let told = [
        tell(0, 1, 320),
        tell(1, 0, 0),
        recv(0, 1),
        recv(1, 0),
        copy(0, 1, 600),
        copy(1, 0, 40),
        recv(0, 1),
        recv(1, 0),
        done(1),
        Event::Die { rank: 1 },
        done(0),
        Event::Leave { rank: 0 },
        done(0),
        Event::Leave { rank: 0 },
        done(0),
        Event::Leave { rank: 0 },
    ];
    assert_eq!(rt; world.journal(), told.as_slice());
    expect_course(&rt, &world, 1, 16, [2, 0, 1]);
    assert_eq!(rt; world.epoch().homes.at(0), Some(0));
    assert_eq!(rt; world.epoch().homes.count(), 1);
    expect_leaves(&rt, alloc, &world, 2, [80, 70, 10, 0])?;
    Ok(())
}

// Each rank gives its copy to the other, with eight cells of 80 or of 0.
#[test]
fn a_run_without_steps_has_a_snapshot_alone(rt: HostRuntime) -> Result<(), Fail> {
    let alloc = rt.alloc();
    let row = Row { steps: 0, ..TWO };
    let world = driven(
        &rt,
        alloc,
        row.case(alloc, Vec::new(alloc), Vec::new(alloc))?,
    )?;
    let told = [
        copy(0, 1, 640),
        copy(1, 0, 0),
        recv(0, 1),
        recv(1, 0),
        done(0),
        done(1),
        Event::Leave { rank: 0 },
        Event::Leave { rank: 1 },
    ];
    assert_eq!(rt; world.journal(), told.as_slice());
    expect_leaves(&rt, alloc, &world, 2, [80, 80, 0, 0])?;
    Ok(())
}

// At the last step there is nothing to go on to.
#[test]
fn a_repair_at_the_last_step_ends_the_run(rt: HostRuntime) -> Result<(), Fail> {
    let alloc = rt.alloc();
    let dies = vec![in alloc; (1, 0)]?;
    let row = Row { steps: 0, ..TWO };
    let world = driven(&rt, alloc, row.case(alloc, dies, Vec::new(alloc))?)?;
    assert!(rt; world.epoch().restored);
    assert_eq!(rt; world.epoch().number, 1);
    assert_eq!(rt; world.journal().len(), 6);
    expect_leaves(&rt, alloc, &world, 2, [80, 80, 0, 0])?;
    Ok(())
}

#[test]
fn a_death_after_a_commit_goes_back_to_it(rt: HostRuntime) -> Result<(), Fail> {
    let alloc = rt.alloc();
    let dies = vec![in alloc; (1, 5)]?;
    let order = vec![in alloc; 0, 1, 0, 1, 0, 1, 0, 1, 1, 0]?;
    let world = driven(&rt, alloc, TWO.case(alloc, dies, order)?)?;
    expect_course(&rt, &world, 1, 19, [3, 1, 2]);
    expect_leaves(&rt, alloc, &world, 2, [78, 63, 16, 1])?;
    Ok(())
}

#[test]
fn two_holders_die(rt: HostRuntime) -> Result<(), Fail> {
    let alloc = rt.alloc();
    let dies = vec![in alloc; (0, 0), (1, 0)]?;
    let world = driven(&rt, alloc, THREE.case(alloc, dies, Vec::new(alloc))?)?;
    assert_eq!(rt;
        world.outcome(),
        Some(Outcome::Lost {
            time: 0,
            home: 0,
            buddy: 1
        })
    );
    Ok(())
}

// Rank 1 has 8 events until it leaves the epoch in which rank 2 and it make the copies again, and dies 2 events later.
#[test]
fn a_repair_between_two_deaths_saves_the_run(rt: HostRuntime) -> Result<(), Fail> {
    let alloc = rt.alloc();
    let dies = vec![in alloc; (0, 0), (1, 10)]?;
    let world = driven(&rt, alloc, THREE.case(alloc, dies, Vec::new(alloc))?)?;
    expect_course(&rt, &world, 2, 33, [5, 1, 2]);
    expect_three_leaves(&rt, alloc, &world)?;
    Ok(())
}

// The copies that are made again come before any step, so they save the run although no other snapshot comes between.
#[test]
fn a_repair_comes_before_the_steps(rt: HostRuntime) -> Result<(), Fail> {
    let alloc = rt.alloc();
    let dies = vec![in alloc; (0, 0), (1, 8)]?;
    let case = Case {
        snapshot: 2,
        ..THREE.case(alloc, dies, Vec::new(alloc))?
    };
    let world = driven(&rt, alloc, case)?;
    expect_course(&rt, &world, 2, 26, [4, 0, 2]);
    expect_three_leaves(&rt, alloc, &world)?;
    Ok(())
}

// Rank 1 has 6 more events until it leaves the epoch whose commit agrees on time 1.
#[test]
fn a_commit_after_the_repair_is_gone_back_to(rt: HostRuntime) -> Result<(), Fail> {
    let alloc = rt.alloc();
    let dies = vec![in alloc; (0, 0), (1, 14)]?;
    let world = driven(&rt, alloc, THREE.case(alloc, dies, Vec::new(alloc))?)?;
    expect_course(&rt, &world, 2, 39, [5, 1, 2]);
    expect_three_leaves(&rt, alloc, &world)?;
    Ok(())
}

#[test]
fn empty_homes_are_no_loss(rt: HostRuntime) -> Result<(), Fail> {
    let alloc = rt.alloc();
    let dies = vec![in alloc; (3, 0), (4, 0)]?;
    let row = Row { ranks: 16, ..TWO };
    let world = driven(&rt, alloc, row.case(alloc, dies, Vec::new(alloc))?)?;
    expect_leaves(&rt, alloc, &world, 2, [78, 63, 16, 1])?;
    Ok(())
}

#[test]
fn a_lone_rank_that_dies_loses_its_blocks(rt: HostRuntime) -> Result<(), Fail> {
    let alloc = rt.alloc();
    let dies = vec![in alloc; (0, 0)]?;
    let row = Row { ranks: 1, ..TWO };
    let world = driven(&rt, alloc, row.case(alloc, dies, Vec::new(alloc))?)?;
    assert_eq!(rt;
        world.outcome(),
        Some(Outcome::Lost {
            time: 0,
            home: 0,
            buddy: 0
        })
    );
    Ok(())
}
