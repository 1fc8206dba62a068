//! Small cases in which one to four ranks die: `drive` prints what `one` prints, or the loss that the journal tells.
//!
//! The journal is read here by the rules alone: from the ranks at which the roots begin, who has died, and how the others arrive.
use crate::status::{Ended, Status};
use crate::top::plain;
use bf_core::{Event, How, Outcome};
use bf_edge::{MemSink, MemSource};
use std::alloc::Global;
use std::process::Abort;
use std::test::Fail;

/// Roots in a row, and the rank at which each begins.
struct Shape {
    first_homes: &'static [u32],
    ranks: u32,
    steps: u32,
    snapshot: u32,
    shift: u32,
}

const SHAPES: [Shape; 5] = [
    Shape {
        first_homes: &[0, 1],
        ranks: 2,
        steps: 3,
        snapshot: 1,
        shift: 0,
    },
    Shape {
        first_homes: &[0, 1, 2],
        ranks: 3,
        steps: 2,
        snapshot: 2,
        shift: 1,
    },
    Shape {
        first_homes: &[0, 2],
        ranks: 4,
        steps: 3,
        snapshot: 1,
        shift: 0,
    },
    Shape {
        first_homes: &[0, 1, 2, 3],
        ranks: 4,
        steps: 3,
        snapshot: 2,
        shift: 2,
    },
    Shape {
        first_homes: &[0, 0, 1, 2, 2, 3, 4],
        ranks: 5,
        steps: 2,
        snapshot: 1,
        shift: 7,
    },
];

/// Whose turns come first: nobody's before the others', the last rank's, or the first rank's.
const ORDERS: [&str; 3] = ["", "order 1 1 1 1 1 1 0 1 1\n", "order 0 0 0 0 0 1 0 1 0\n"];

/// What a journal has told so far. The members, the homes and the dead are ranks.
#[derive(Drop)]
struct Told {
    members: Vec<u32>,
    homes: Vec<u32>,
    /// By root, the home of its copy in the agreed snapshot, and the rank that has it.
    copies: Vec<u32>,
    owners: Vec<u32>,
    dead: Vec<u32>,
    arrived: Vec<(u32, How)>,
    time: u32,
    target: u32,
    outcome: Option<Outcome>,
}

/// The member after this one, in a ring.
fn next_of(members: &[u32], rank: u32) -> u32 {
    let greater = members.iter().find(|member| **member > rank);
    greater.or(members.first()).map_or(rank, |member| *member)
}

/// A lone member is its own buddy. Else the buddy is one step on, and more by the shift, without coming round.
fn buddy_of(homes: &[u32], home: u32, shift: u32) -> u32 {
    let others = homes.iter().filter(|other| **other != home).count();
    if others == 0 {
        return home;
    }
    let mut buddy = home;
    for _ in 0..=shift as usize % others {
        buddy = next_of(homes, buddy);
    }
    buddy
}

fn copied(alloc: Global, ranks: &[u32]) -> Result<Vec<u32>, Fail> {
    let mut copy = Vec::new(alloc);
    copy.extend_from_slice(ranks)?;
    Ok(copy)
}

impl Told {
    fn begin(alloc: Global, shape: &Shape) -> Result<Told, Fail> {
        let mut members = Vec::new(alloc);
        for rank in 0..shape.ranks {
            members.push(rank)?;
        }
        Ok(Told {
            homes: copied(alloc, members.as_slice())?,
            members,
            copies: copied(alloc, shape.first_homes)?,
            owners: copied(alloc, shape.first_homes)?,
            dead: Vec::new(alloc),
            arrived: Vec::new(alloc),
            time: 0,
            target: shape.snapshot.min(shape.steps),
            outcome: None,
        })
    }

    fn is_dead(&self, rank: u32) -> bool {
        self.dead.as_slice().contains(&rank)
    }

    fn has_arrived(&self, rank: u32) -> bool {
        self.arrived
            .as_slice()
            .iter()
            .any(|arrival| arrival.0 == rank)
    }

    fn somebody_died(&self) -> bool {
        self.members
            .as_slice()
            .iter()
            .any(|member| self.is_dead(*member))
    }

    /// Whether every member that lives has arrived.
    fn is_ripe(&self) -> bool {
        let mut members = self.members.as_slice().iter();
        members.all(|member| self.is_dead(*member) || self.has_arrived(*member))
    }

    /// The first home that has a root's copy and has died like its buddy.
    fn lost(&self, shift: u32) -> Option<(u32, u32)> {
        for home in self.homes.as_slice() {
            let buddy = buddy_of(self.homes.as_slice(), *home, shift);
            let has_copy = self.copies.as_slice().contains(home);
            if has_copy && self.is_dead(*home) && self.is_dead(buddy) {
                return Some((*home, buddy));
            }
        }
        None
    }

    /// Whether a member that lives has arrived so.
    fn somebody_came(&self, how: How) -> bool {
        let mut arrived = self.arrived.as_slice().iter();
        arrived.any(|arrival| arrival.1 == how && !self.is_dead(arrival.0))
    }

    fn commit(&mut self, alloc: Global, shape: &Shape) -> Result<(), Fail> {
        self.time = self.target;
        self.homes = copied(alloc, self.members.as_slice())?;
        self.copies = copied(alloc, self.owners.as_slice())?;
        self.target = self.time.saturating_add(shape.snapshot).min(shape.steps);
        if self.time == shape.steps {
            self.outcome = Some(Outcome::Finished);
        }
        Ok(())
    }

    fn live_members(&self, alloc: Global) -> Result<Vec<u32>, Fail> {
        let mut live = Vec::new(alloc);
        for member in self.members.as_slice() {
            if !self.is_dead(*member) {
                live.push(*member)?;
            }
        }
        Ok(live)
    }

    /// By root, who goes on with its copy.
    fn heirs(&self, alloc: Global, shift: u32) -> Result<Vec<u32>, Fail> {
        let mut heirs = Vec::new(alloc);
        for home in self.copies.as_slice() {
            let heir = if self.is_dead(*home) {
                buddy_of(self.homes.as_slice(), *home, shift)
            } else {
                *home
            };
            heirs.push(heir)?;
        }
        Ok(heirs)
    }

    fn restore(&mut self, alloc: Global, shape: &Shape) -> Result<(), Fail> {
        self.members = self.live_members(alloc)?;
        self.owners = self.heirs(alloc, shape.shift)?;
        self.target = self.time;
        Ok(())
    }

    fn decide(&mut self, alloc: Global, shape: &Shape) -> Result<(), Fail> {
        if self.outcome.is_some() || !self.is_ripe() {
            return Ok(());
        }
        if let Some((home, buddy)) = self.lost(shape.shift) {
            self.outcome = Some(Outcome::Lost {
                time: self.time,
                home,
                buddy,
            });
        } else if self.somebody_came(How::Memory) {
            self.outcome = Some(Outcome::Memory);
        } else if self.somebody_died() || self.somebody_came(How::Broken) {
            self.restore(alloc, shape)?;
        } else {
            self.commit(alloc, shape)?;
        }
        self.arrived.clear();
        Ok(())
    }

    fn hear(&mut self, alloc: Global, shape: &Shape, event: Event) -> Result<(), Fail> {
        match event {
            Event::Arrive { rank, how } => {
                self.arrived.push((rank, how))?;
                self.decide(alloc, shape)
            }
            Event::Die { rank } => {
                self.dead.push(rank)?;
                self.decide(alloc, shape)
            }
            Event::Send { .. } | Event::Recv { .. } | Event::Leave { .. } => Ok(()),
        }
    }
}

/// How a journal ends.
fn outcome_of(alloc: Global, shape: &Shape, journal: &[Event]) -> Result<Option<Outcome>, Fail> {
    let mut told = Told::begin(alloc, shape)?;
    for event in journal {
        told.hear(alloc, shape, *event)?;
    }
    Ok(told.outcome)
}

/// Who dies when: so many ranks one after the other in a ring, the first after so many events, and each next one after so many more.
#[derive(Clone, Copy)]
struct Dying {
    count: u32,
    first: u32,
    events: u32,
    apart: u32,
}

impl Dying {
    /// The lines that say so.
    fn lines(&self, alloc: Global, ranks: u32) -> Result<String, Fail> {
        let mut lines = String::new(alloc);
        for number in 0..self.count {
            let rank = self.first.wrapping_add(number) % ranks.max(1);
            let events = self.events.wrapping_add(number.wrapping_mul(self.apart));
            let line = format!(in alloc; "die {rank} {events}\n")?;
            lines.push_str(line.as_str())?;
        }
        Ok(lines)
    }
}

fn text_of(alloc: Global, shape: &Shape, end: &str) -> Result<String, Fail> {
    let roots = shape.first_homes.len();
    let Shape {
        ranks,
        steps,
        snapshot,
        shift,
        ..
    } = *shape;
    let text = format!(in alloc;
        "forest 1\nroots {roots} 1 1\nside 2\nlevels 0\nranks {ranks}\nsteps {steps}\nsnapshot {snapshot}\n\
        regrid 0\nrefine 4294967295\ncoarsen 0\nflow 0\nturns 0\nshift {shift}\nfill 0 0 0 1 1 1 80\n{end}end\n"
    )?;
    Ok(text)
}

fn run(alloc: Global, command: &str, text: &str) -> Result<(Ended, MemSink), Fail> {
    let mut bytes = Vec::new(alloc);
    bytes.extend_from_slice(text.as_bytes())?;
    let mut source = MemSource::new(bytes, 1000, Vec::new(alloc));
    let mut sink = MemSink::new(alloc, 1000, 1000, Vec::new(alloc))?;
    let ended = plain(alloc, &[command], &mut source, &mut sink);
    Ok((ended, sink))
}

/// Runs a case both ways, and compares what is printed with the journal. Whether it was lost.
fn expect_by_journal(
    rt: &impl Abort,
    alloc: Global,
    shape: &Shape,
    end: &str,
) -> Result<bool, Fail> {
    let text = text_of(alloc, shape, end)?;
    let (alone, map) = run(alloc, "one", text.as_str())?;
    assert_eq!(rt; alone.status, Status::Ok);
    let (Ended { status, world }, printed) = run(alloc, "drive", text.as_str())?;
    let Some(world) = world else {
        panic!(rt; "no world");
    };
    match outcome_of(alloc, shape, world.journal())? {
        Some(Outcome::Lost { time, home, buddy }) => {
            let line = format!(in alloc; "lost time {time} home {home} buddy {buddy}\n")?;
            assert_eq!(rt; status, Status::Lost { time, home, buddy });
            assert_eq!(rt; printed.written(), line.as_bytes());
            Ok(true)
        }
        outcome => {
            assert_eq!(rt; outcome, Some(Outcome::Finished));
            assert_eq!(rt; status, Status::Ok);
            assert_eq!(rt; printed.written(), map.written());
            Ok(false)
        }
    }
}

/// How many runs there were, and how many of them were lost.
#[derive(Clone, Copy)]
struct Tally {
    runs: u32,
    losses: u32,
}

/// Runs a shape with so many deaths, of which the first is that of each rank after each of its first events.
fn run_shape(
    rt: &impl Abort,
    alloc: Global,
    shape: &Shape,
    count: u32,
    tally: &mut Tally,
) -> Result<(), Fail> {
    for first in 0..shape.ranks {
        for events in 0..12u32 {
            let mix = first.wrapping_add(events).wrapping_add(count);
            let dying = Dying {
                count,
                first,
                events,
                apart: mix.wrapping_mul(7) % 23,
            };
            let lines = dying.lines(alloc, shape.ranks)?;
            let order = ORDERS.get(mix as usize % 3).map_or("", |order| *order);
            let end = format!(in alloc; "{lines}{order}")?;
            let lost = expect_by_journal(rt, alloc, shape, end.as_str())?;
            tally.runs = tally.runs.wrapping_add(1);
            tally.losses = tally.losses.wrapping_add(u32::from(lost));
        }
    }
    Ok(())
}

/// Both ends are common: a loss, and the map.
#[test]
fn deaths_at_every_early_event(rt: HostRuntime) -> Result<(), Fail> {
    let alloc = rt.alloc();
    let mut tally = Tally { runs: 0, losses: 0 };
    for shape in &SHAPES {
        for count in 1..=shape.ranks.min(4) {
            run_shape(&rt, alloc, shape, count, &mut tally)?;
        }
    }
    assert_eq!(rt; tally.runs, 780);
    assert!(rt; tally.losses > 150 && tally.losses < 600);
    Ok(())
}
