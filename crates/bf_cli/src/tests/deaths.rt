//! Ranks die: `drive` prints what `one` prints, or says that a part of the agreed snapshot is lost.
//!
//! With two roots on two ranks each rank has six events in an epoch of one step: a send and a receive for the step, the same for
//! the snapshot, its arrival and its leave.
use super::{Change, DROP, END, RANKS, ROOTS, SHIFT, SNAPSHOT, STEPS, TWO_ROOTS, text_with};
use crate::status::Status;
use crate::top::plain;
use bf_core::Outcome;
use bf_edge::{MemSink, MemSource};
use bf_forest::Forest;
use bf_world::World;
use std::alloc::Global;
use std::process::Abort;
use std::test::Fail;

const EMPTY: &str = "block 0\n0 0\n0 0\n0 0\n0 0\nend\n";

/// Two roots after one step.
const ONE_STEP: &str =
    "block 0\n80 70\n80 70\n80 70\n80 70\nblock 1\n10 0\n10 0\n10 0\n10 0\nend\n";

/// Three roots after two steps: the third has got nothing.
const THREE_ROOTS: &str = "block 0\n78 63\n78 63\n78 63\n78 63\nblock 1\n16 1\n16 1\n16 1\n16 1\n\
    block 2\n0 0\n0 0\n0 0\n0 0\nend\n";

const ON_TWO: Change = (ROOTS, "roots 2 1 1\n");

const ON_THREE: Change = (ROOTS, "roots 3 1 1\n");

const TWO: Change = (RANKS, "ranks 2\n");

const THREE: Change = (RANKS, "ranks 3\n");

const STEP: Change = (STEPS, "steps 1\n");

const TWO_STEPS: Change = (STEPS, "steps 2\n");

/// A case whose run goes on after its deaths: its map, how often it goes back to a snapshot, and how many events it has, where
/// that is told.
struct Survived {
    changes: &'static [Change],
    map: &'static str,
    restores: u32,
    events: Option<usize>,
}

const SURVIVED: [Survived; 9] = [
    // Home 3 and its buddy 4 die, but the one root is at rank 0.
    Survived {
        changes: &[
            (RANKS, "ranks 16\n"),
            STEP,
            (END, "fill 0 0 0 0 0 0 8\ndie 3 0\ndie 4 0\nend\n"),
        ],
        map: DROP,
        restores: 1,
        events: None,
    },
    Survived {
        changes: &[
            ON_TWO,
            TWO,
            TWO_STEPS,
            (END, "fill 0 0 0 1 1 1 80\ndie 1 0\nend\n"),
        ],
        map: TWO_ROOTS,
        restores: 1,
        events: None,
    },
    // Rank 1 arrives and dies, and the arrival of rank 0 restores time 0. Rank 0 makes its copies again, steps, and leaves.
    Survived {
        changes: &[
            ON_TWO,
            TWO,
            STEP,
            (
                END,
                "fill 0 0 0 1 1 1 80\ndie 1 5\norder 0 1 0 1 0 1 0 1 1 1\nend\n",
            ),
        ],
        map: ONE_STEP,
        restores: 1,
        events: Some(16),
    },
    // Time 1 is agreed, and rank 1 dies before it leaves.
    Survived {
        changes: &[
            ON_TWO,
            TWO,
            TWO_STEPS,
            (
                END,
                "fill 0 0 0 1 1 1 80\ndie 1 5\norder 0 1 0 1 0 1 0 1 1 0\nend\n",
            ),
        ],
        map: TWO_ROOTS,
        restores: 1,
        events: Some(19),
    },
    // The same where the run is finished then.
    Survived {
        changes: &[
            ON_TWO,
            TWO,
            STEP,
            (
                END,
                "fill 0 0 0 1 1 1 80\ndie 1 5\norder 0 1 0 1 0 1 0 1 1 0\nend\n",
            ),
        ],
        map: ONE_STEP,
        restores: 0,
        events: Some(12),
    },
    // Ranks 1 and 2 agree on time 0 again between the deaths.
    Survived {
        changes: &[
            ON_THREE,
            THREE,
            TWO_STEPS,
            (END, "fill 0 0 0 1 1 1 80\ndie 0 0\ndie 1 10\nend\n"),
        ],
        map: THREE_ROOTS,
        restores: 2,
        events: None,
    },
    // So they do where no other snapshot comes before the last step.
    Survived {
        changes: &[
            ON_THREE,
            THREE,
            TWO_STEPS,
            (SNAPSHOT, "snapshot 2\n"),
            (END, "fill 0 0 0 1 1 1 80\ndie 0 0\ndie 1 8\nend\n"),
        ],
        map: THREE_ROOTS,
        restores: 2,
        events: None,
    },
    // Time 1 is agreed too before rank 1 dies.
    Survived {
        changes: &[
            ON_THREE,
            THREE,
            TWO_STEPS,
            (END, "fill 0 0 0 1 1 1 80\ndie 0 0\ndie 1 14\nend\n"),
        ],
        map: THREE_ROOTS,
        restores: 2,
        events: None,
    },
    // Without a step the copies that are made again are the end.
    Survived {
        changes: &[TWO, (END, "die 1 0\nend\n")],
        map: EMPTY,
        restores: 1,
        events: Some(6),
    },
];

/// Runs a case by `drive`, and expects this status and this text, and a world.
fn drive(
    rt: &impl Abort,
    alloc: Global,
    changes: &[Change],
    status: Status,
    text: &str,
) -> Result<Option<World<Forest>>, Fail> {
    let mut source = MemSource::new(text_with(alloc, changes)?, 1000, Vec::new(alloc));
    let mut sink = MemSink::new(alloc, 1000, 1000, Vec::new(alloc))?;
    let ended = plain(alloc, &["drive"], &mut source, &mut sink);
    assert_eq!(rt; ended.status, status);
    assert_eq!(rt; sink.written(), text.as_bytes());
    assert!(rt; ended.world.is_some());
    Ok(ended.world)
}

#[test]
fn deaths_change_no_map(rt: HostRuntime) -> Result<(), Fail> {
    let alloc = rt.alloc();
    for row in &SURVIVED {
        let alone = text_with(alloc, row.changes)?;
        super::expect(&rt, alloc, alone, Status::Ok, row.map)?;
        if let Some(world) = drive(&rt, alloc, row.changes, Status::Ok, row.map)? {
            assert_eq!(rt; world.restores(), row.restores);
            let events = world.journal().len();
            assert_eq!(rt; row.events.unwrap_or(events), events);
        }
    }
    Ok(())
}

/// A case whose run is lost: the time of the snapshot, the home of the part and its buddy.
struct LostCase {
    changes: &'static [Change],
    time: u32,
    home: u32,
    buddy: u32,
}

const LOST: [LostCase; 7] = [
    LostCase {
        changes: &[
            ON_THREE,
            THREE,
            TWO_STEPS,
            (END, "fill 0 0 0 1 1 1 80\ndie 0 0\ndie 1 0\nend\n"),
        ],
        time: 0,
        home: 0,
        buddy: 1,
    },
    // The last rank dies.
    LostCase {
        changes: &[(END, "die 0 0\nend\n")],
        time: 0,
        home: 0,
        buddy: 0,
    },
    // Rank 0 lives, so its part is not lost.
    LostCase {
        changes: &[ON_THREE, THREE, TWO_STEPS, (END, "die 1 0\ndie 2 0\nend\n")],
        time: 0,
        home: 1,
        buddy: 2,
    },
    // All parts are lost, and the first is named.
    LostCase {
        changes: &[
            ON_THREE,
            THREE,
            TWO_STEPS,
            (END, "die 0 0\ndie 1 0\ndie 2 0\nend\n"),
        ],
        time: 0,
        home: 0,
        buddy: 1,
    },
    // With a shift of 1 the buddy of rank 0 is rank 2, which lives, and that of rank 1 is rank 0.
    LostCase {
        changes: &[
            ON_THREE,
            THREE,
            TWO_STEPS,
            (SHIFT, "shift 1\n"),
            (END, "die 0 0\ndie 1 0\nend\n"),
        ],
        time: 0,
        home: 1,
        buddy: 0,
    },
    // Both ranks have left the epoch whose commit agrees on time 1.
    LostCase {
        changes: &[ON_TWO, TWO, TWO_STEPS, (END, "die 0 6\ndie 1 6\nend\n")],
        time: 1,
        home: 0,
        buddy: 1,
    },
    // A restore comes between the deaths. Rank 1 has four events until it leaves into the epoch that makes the copies again, and
    // dies within it.
    LostCase {
        changes: &[ON_THREE, THREE, TWO_STEPS, (END, "die 0 0\ndie 1 5\nend\n")],
        time: 0,
        home: 0,
        buddy: 1,
    },
];

#[test]
fn a_loss_is_told(rt: HostRuntime) -> Result<(), Fail> {
    let alloc = rt.alloc();
    for row in &LOST {
        let LostCase {
            time,
            home,
            buddy,
            ..
        } = *row;
        let line = format!(in alloc; "lost time {time} home {home} buddy {buddy}\n")?;
        let status = Status::Lost { time, home, buddy };
        assert_eq!(rt; status.number(), 4);
        if let Some(world) = drive(&rt, alloc, row.changes, status, line.as_str())? {
            assert_eq!(rt; world.outcome(), Some(Outcome::Lost { time, home, buddy }));
        }
    }
    Ok(())
}
