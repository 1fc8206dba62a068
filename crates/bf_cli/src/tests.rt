//! The top call over sources and sinks in memory.
mod deaths;
mod table;

use crate::status::Status;
use crate::top::plain;
use bf_edge::{MemSink, MemSource};
use std::alloc::Global;
use std::process::Abort;
use std::test::Fail;

/// The lines of a case: one root, no step.
const LINES: [&str; 14] = [
    "forest 1\n",
    "roots 1 1 1\n",
    "side 2\n",
    "levels 0\n",
    "ranks 1\n",
    "steps 0\n",
    "snapshot 1\n",
    "regrid 0\n",
    "refine 4294967295\n",
    "coarsen 0\n",
    "flow 0\n",
    "turns 0\n",
    "shift 0\n",
    "end\n",
];

/// The places of some lines.
const ROOTS: usize = 1;

const SIDE: usize = 2;

const LEVELS: usize = 3;

const RANKS: usize = 4;

const STEPS: usize = 5;

const SNAPSHOT: usize = 6;

const REGRID: usize = 7;

const REFINE: usize = 8;

const COARSEN: usize = 9;

const SHIFT: usize = 12;

const END: usize = 13;

/// A text in place of the line at a place.
type Change = (usize, &'static str);

/// The lines with these changes.
fn text_with(alloc: Global, changes: &[Change]) -> Result<Vec<u8>, Fail> {
    let mut text = Vec::new(alloc);
    for (place, line) in LINES.iter().enumerate() {
        let change = changes.iter().find(|change| change.0 == place);
        let line = change.map_or(*line, |change| change.1);
        text.extend_from_slice(line.as_bytes())?;
    }
    Ok(text)
}

const DROP: &str = "block 0\n5 1\n1 0\n1 0\n0 0\nend\n";

/// A cell of 8 in a corner, for one step.
const DROP_CASE: [Change; 2] = [(STEPS, "steps 1\n"), (END, "fill 0 0 0 0 0 0 8\nend\n")];

fn drop_text(alloc: Global) -> Result<Vec<u8>, Fail> {
    text_with(alloc, &DROP_CASE)
}

const TWO_ROOTS: &str =
    "block 0\n78 63\n78 63\n78 63\n78 63\nblock 1\n16 1\n16 1\n16 1\n16 1\nend\n";

/// Two roots beside each other, of which the first is filled, with these lines for the snapshots and after the fill.
fn two_roots_with(
    alloc: Global,
    snapshot: &'static str,
    end: &'static str,
) -> Result<Vec<u8>, Fail> {
    text_with(
        alloc,
        &[
            (ROOTS, "roots 2 1 1\n"),
            (RANKS, "ranks 2\n"),
            (STEPS, "steps 2\n"),
            (SNAPSHOT, snapshot),
            (END, end),
        ],
    )
}

/// Runs a command over these bytes, and expects this status and this text.
fn expect_of(
    rt: &impl Abort,
    alloc: Global,
    command: &str,
    bytes: Vec<u8>,
    status: Status,
    text: &str,
) -> Result<(), Fail> {
    let mut source = MemSource::new(bytes, 1000, Vec::new(alloc));
    let mut sink = MemSink::new(alloc, 1000, 1000, Vec::new(alloc))?;
    let ended = plain(alloc, &[command], &mut source, &mut sink);
    assert_eq!(rt; ended.status, status);
    assert_eq!(rt; sink.written(), text.as_bytes());
    assert_eq!(rt;
        ended.world.is_some(),
        command == "drive" && status == Status::Ok
    );
    Ok(())
}

/// The same of `one`.
fn expect(
    rt: &impl Abort,
    alloc: Global,
    bytes: Vec<u8>,
    status: Status,
    text: &str,
) -> Result<(), Fail> {
    expect_of(rt, alloc, "one", bytes, status, text)
}

#[test]
fn one_prints_the_map(rt: HostRuntime) -> Result<(), Fail> {
    let alloc = rt.alloc();
    let filled = text_with(alloc, &[(END, "fill 0 0 0 1 1 1 8\nend\n")])?;
    let text = "block 0\n8 8\n8 8\n8 8\n8 8\nend\n";
    expect(&rt, alloc, filled, Status::Ok, text)?;
    expect(&rt, alloc, drop_text(alloc)?, Status::Ok, DROP)?;
    let brim = [
        (STEPS, "steps 128\n"),
        (END, "fill 0 0 0 1 1 1 4294967295\nend\n"),
    ];
    let row = "4294967295 4294967295\n";
    let text = format!(in alloc; "block 0\n{row}{row}{row}{row}end\n")?;
    expect(
        &rt,
        alloc,
        text_with(alloc, &brim)?,
        Status::Ok,
        text.as_str(),
    )
}

/// What of a case is for ranks alone changes nothing for one process.
#[test]
fn a_value_flows_into_the_next_root(rt: HostRuntime) -> Result<(), Fail> {
    let alloc = rt.alloc();
    let end = "fill 0 0 0 1 1 1 80\ndie 1 0\norder 1 0\nend\n";
    let text = two_roots_with(alloc, "snapshot 1\n", end)?;
    expect(&rt, alloc, text, Status::Ok, TWO_ROOTS)
}

#[test]
fn ranks_print_the_same(rt: HostRuntime) -> Result<(), Fail> {
    let alloc = rt.alloc();
    expect_of(&rt, alloc, "drive", drop_text(alloc)?, Status::Ok, DROP)?;
    for snapshot in ["snapshot 1\n", "snapshot 2\n"] {
        let plain_order = two_roots_with(alloc, snapshot, "fill 0 0 0 1 1 1 80\nend\n")?;
        expect_of(&rt, alloc, "drive", plain_order, Status::Ok, TWO_ROOTS)?;
    }
    let end = "order 1 1 1 0\nfill 0 0 0 1 1 1 80\norder 0 1 0\nend\n";
    let ordered = two_roots_with(alloc, "snapshot 2\n", end)?;
    expect_of(&rt, alloc, "drive", ordered, Status::Ok, TWO_ROOTS)
}

/// Expects that a command refuses the lines with these changes by this line and code.
fn expect_refusal(
    rt: &impl Abort,
    alloc: Global,
    command: &str,
    bytes: Vec<u8>,
    line: u32,
    code: u32,
) -> Result<(), Fail> {
    let text = format!(in alloc; "refused line {line} code {code}\n")?;
    let status = Status::Refused { line, code };
    expect_of(rt, alloc, command, bytes, status, text.as_str())
}

/// What ranks don't serve is told last: what is no case has its own refusal.
#[test]
fn what_is_not_built_is_refused(rt: HostRuntime) -> Result<(), Fail> {
    let alloc = rt.alloc();
    let regrid = text_with(alloc, &[(REGRID, "regrid 1\n")])?;
    expect_refusal(&rt, alloc, "drive", regrid, 0, 99)?;
    let endless = text_with(alloc, &[(REGRID, "regrid 1\n"), (END, "")])?;
    expect_refusal(&rt, alloc, "drive", endless, 14, 16)?;
    let end = "fill 0 0 0 2 0 0 1\nend\n";
    let outside = text_with(alloc, &[(REGRID, "regrid 1\n"), (END, end)])?;
    expect_refusal(&rt, alloc, "drive", outside, 14, 11)
}

/// A root is refined at the beginning, and merged again after a step.
#[test]
fn leaves_are_refined_and_merged(rt: HostRuntime) -> Result<(), Fail> {
    let alloc = rt.alloc();
    let text = text_with(
        alloc,
        &[
            (LEVELS, "levels 1\n"),
            (STEPS, "steps 2\n"),
            (REGRID, "regrid 1\n"),
            (REFINE, "refine 14\n"),
            (COARSEN, "coarsen 6\n"),
            (END, "fill 0 0 0 0 0 0 15\nend\n"),
        ],
    )?;
    let map = "block 0\n7 1\n1 0\n1 0\n0 0\nend\n";
    expect(&rt, alloc, text, Status::Ok, map)
}

/// The leaves of a root that is refined, and of one that isn't.
const TWO_LEVELS: &str = "block 0.0\n800 700\n700 600\n700 600\n600 500\n\
    block 0.1\n100 0\n100 0\n100 0\n100 0\n\
    block 0.2\n100 100\n0 0\n100 100\n0 0\n\
    block 0.3\n0 0\n0 0\n0 0\n0 0\n\
    block 0.4\n100 100\n100 100\n0 0\n0 0\n\
    block 0.5\n0 0\n0 0\n0 0\n0 0\n\
    block 0.6\n0 0\n0 0\n0 0\n0 0\n\
    block 0.7\n0 0\n0 0\n0 0\n0 0\n\
    block 1\n0 0\n0 50\n0 50\n50 250\nend\n";

#[test]
fn leaves_of_two_levels_are_printed(rt: HostRuntime) -> Result<(), Fail> {
    let alloc = rt.alloc();
    let text = text_with(
        alloc,
        &[
            (ROOTS, "roots 2 1 1\n"),
            (LEVELS, "levels 1\n"),
            (STEPS, "steps 1\n"),
            (REGRID, "regrid 1\n"),
            (REFINE, "refine 400\n"),
            (END, "fill 0 0 0 0 0 0 800\nfill 3 1 1 3 1 1 400\nend\n"),
        ],
    )?;
    expect(&rt, alloc, text, Status::Ok, TWO_LEVELS)
}

#[test]
fn ranks_run_a_case_of_more_levels(rt: HostRuntime) -> Result<(), Fail> {
    let alloc = rt.alloc();
    let deep = text_with(
        alloc,
        &[
            (LEVELS, "levels 4\n"),
            (STEPS, "steps 1\n"),
            (END, "fill 0 0 0 0 0 0 8\nend\n"),
        ],
    )?;
    expect_of(&rt, alloc, "drive", deep, Status::Ok, DROP)
}

/// Changes, and the line and the code of their refusal.
const REFUSED: [(&[Change], u32, u32); 12] = [
    (
        &[(REFINE, "refine 10\n"), (COARSEN, "coarsen 11\n")],
        10,
        10,
    ),
    (&[(ROOTS, "roots 16 16 16\n"), (SIDE, "side 16\n")], 4, 9),
    (&[(END, "die 0 1\ndie 0 1\nend\n")], 15, 13),
    (&[(END, "")], 14, 16),
    (&[(SIDE, "side 3\n")], 3, 6),
    (&[(SIDE, "side 2x\n")], 3, 5),
    (&[(LEVELS, "")], 4, 7),
    (&[(END, "side 2\nend\n")], 14, 8),
    (&[(END, "fill 0 0 0 2 0 0 1\nend\n")], 14, 11),
    (&[(END, "die 1 0\nend\n")], 14, 12),
    (&[(END, "order 0 1\nend\n")], 14, 14),
    (&[(END, "end\nend\n")], 15, 15),
];

#[test]
fn what_is_no_case_is_refused(rt: HostRuntime) -> Result<(), Fail> {
    let alloc = rt.alloc();
    for (changes, line, code) in &REFUSED {
        let text = text_with(alloc, changes)?;
        expect_refusal(&rt, alloc, "one", text, *line, *code)?;
    }
    expect_refusal(&rt, alloc, "one", Vec::new(alloc), 1, 16)?;
    let long = vec![in alloc; b'\n'; 1_048_577]?;
    expect_refusal(&rt, alloc, "one", long, 0, 2)
}

/// A line that no case has, after so many blank lines behind a case's head.
fn expect_late_refusal(rt: &impl Abort, alloc: Global, blank: u16) -> Result<(), Fail> {
    let line = u32::from(blank) + 14;
    for command in ["one", "drive"] {
        let mut text = text_with(alloc, &[(END, "")])?;
        let blanks = vec![in alloc; b'\n'; usize::from(blank)]?;
        text.extend_from_slice(blanks.as_slice())?;
        text.extend_from_slice(b"fill 0 0 0 2 0 0 1\nend\n")?;
        expect_refusal(rt, alloc, command, text, line, 11)?;
    }
    Ok(())
}

#[test]
fn a_fault_is_told_however_late_it_comes(rt: HostRuntime) -> Result<(), Fail> {
    let alloc = rt.alloc();
    expect_late_refusal(&rt, alloc, 90)?;
    expect_late_refusal(&rt, alloc, 12_000)
}

/// CR before LF, a blank line, and comments.
const LOOSE: &str =
    "forest 1\r\nroots 1 1 1\r\nside 2\r\nlevels 0\r\n\r\n# a comment\r\nranks 1\r\nsteps 0 # none\r\n\
    snapshot 1\r\nregrid 0\r\nrefine 4294967295\r\ncoarsen 0\r\nflow 0\r\nturns 0\r\nshift 0\r\nend\r\n";

#[test]
fn other_layouts_are_read(rt: HostRuntime) -> Result<(), Fail> {
    let alloc = rt.alloc();
    let text = "block 0\n0 0\n0 0\n0 0\n0 0\nend\n";
    for command in ["one", "drive"] {
        let bytes = LOOSE.as_bytes().to_vec(alloc)?;
        expect_of(&rt, alloc, command, bytes, Status::Ok, text)?;
    }
    Ok(())
}

/// Calls the program with these words, and expects that they are no command.
fn expect_usage(rt: &impl Abort, alloc: Global, words: &[&str]) -> Result<(), Fail> {
    let mut source = MemSource::new(drop_text(alloc)?, 1000, Vec::new(alloc));
    let mut sink = MemSink::new(alloc, 1000, 1000, Vec::new(alloc))?;
    let ended = plain(alloc, words, &mut source, &mut sink);
    assert_eq!(rt; ended.status, Status::Usage);
    assert_eq!(rt; sink.written(), b"usage\n".as_slice());
    Ok(())
}

#[test]
fn other_words_are_usage(rt: HostRuntime) -> Result<(), Fail> {
    let alloc = rt.alloc();
    expect_usage(&rt, alloc, &[])?;
    expect_usage(&rt, alloc, &["run"])?;
    expect_usage(&rt, alloc, &["drive", "x"])?;
    expect_usage(&rt, alloc, &["one", "x"])
}

/// Each call of the source fails in turn. There are 10 calls for the text's 147 bytes, and one that finds the end.
#[test]
fn a_failing_source_is_told(rt: HostRuntime) -> Result<(), Fail> {
    let alloc = rt.alloc();
    for call in 1..20u32 {
        let failing = vec![in alloc; call; 1]?;
        let mut source = MemSource::new(drop_text(alloc)?, 16, failing);
        let mut sink = MemSink::new(alloc, 1000, 1000, Vec::new(alloc))?;
        let ended = plain(alloc, &["one"], &mut source, &mut sink);
        let (status, text) = if call <= 11 {
            (Status::ReadFault, "read fault\n")
        } else {
            (Status::Ok, DROP)
        };
        assert_eq!(rt; ended.status, status);
        assert_eq!(rt; sink.written(), text.as_bytes());
    }
    Ok(())
}

/// The sink takes one byte a call and fails at each call in turn: what it took is the front of the map's text.
#[test]
fn a_failing_sink_has_the_front(rt: HostRuntime) -> Result<(), Fail> {
    let alloc = rt.alloc();
    for call in 1..30u32 {
        let mut source = MemSource::new(drop_text(alloc)?, 1000, Vec::new(alloc));
        let mut sink = MemSink::new(alloc, 1, 1000, vec![in alloc; call; 1]?)?;
        let ended = plain(alloc, &["one"], &mut source, &mut sink);
        let taken = (call as usize - 1).min(DROP.len());
        let status = if taken < DROP.len() {
            Status::WriteFault
        } else {
            Status::Ok
        };
        assert_eq!(rt; ended.status, status);
        assert_eq!(rt; sink.written(), &DROP.as_bytes()[..taken]);
    }
    Ok(())
}

/// The line of a refusal is written in one call: a failure of the first leaves nothing of it, one of the second comes too
/// late.
#[test]
fn a_refusal_is_one_call(rt: HostRuntime) -> Result<(), Fail> {
    let alloc = rt.alloc();
    let line = "refused line 1 code 16\n";
    for (call, status, text) in [
        (1u32, Status::WriteFault, ""),
        (2, Status::Refused { line: 1, code: 16 }, line),
    ] {
        let mut source = MemSource::new(Vec::new(alloc), 1000, Vec::new(alloc));
        let mut sink = MemSink::new(alloc, 1000, 1000, vec![in alloc; call; 1]?)?;
        let ended = plain(alloc, &["one"], &mut source, &mut sink);
        assert_eq!(rt; ended.status, status);
        assert_eq!(rt; sink.written(), text.as_bytes());
    }
    Ok(())
}
