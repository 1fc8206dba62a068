use crate::{CaseFault, read_case, write_case};
use bf_edge::{MemSink, Memory};
use std::alloc::Global;
use std::test::Fail;

/// The lines of a case.
const LINES: [&str; 14] = [
    "forest 1\n",
    "roots 1 1 1\n",
    "side 2\n",
    "levels 0\n",
    "ranks 1\n",
    "steps 0\n",
    "snapshot 1\n",
    "regrid 0\n",
    "refine 4294967295\n",
    "coarsen 0\n",
    "flow 0\n",
    "turns 0\n",
    "shift 0\n",
    "end\n",
];

/// The lines with another text in place of one of them.
fn text_with(alloc: Global, index: usize, other: &str) -> Result<Vec<u8>, Memory> {
    let mut text = Vec::new(alloc);
    for (i, line) in LINES.iter().enumerate() {
        let line = if i == index { other } else { *line };
        text.extend_from_slice(line.as_bytes())?;
    }
    Ok(text)
}

/// The line and the code of a refusal; none where the bytes are a case.
fn refusal(alloc: Global, bytes: &[u8]) -> Result<Option<(u32, u32)>, Fail> {
    match read_case(alloc, bytes) {
        Ok(_case) => Ok(None),
        Err(CaseFault::Refused(refusal)) => Ok(Some((refusal.line, refusal.code.number()))),
        Err(CaseFault::Memory) => Err(Fail::from("memory")),
    }
}

/// The index of a line, and a text with which the whole is a case.
const ACCEPTED: [(usize, &str); 22] = [
    (0, "\n# first\nforest 1\r\n \t\r\n"),
    (1, "roots 16 1 1\n"),
    (1, "roots 01\t 1  1\n"),
    (2, "side 16\n"),
    (3, "levels 4\n"),
    (4, "ranks 16\n"),
    (5, "steps 128\n"),
    (5, "steps 00000000000000000128\n"),
    (5, "\tsteps  0 # none\u{7f}\u{e9}\r\n"),
    (6, "snapshot 128\n"),
    (7, "regrid 128\n"),
    (8, "refine 0\n"),
    (9, "coarsen 4294967295\n"),
    (10, "flow 8\n"),
    (11, "turns 8\n"),
    (12, "shift 1000\n"),
    (13, "end"),
    (13, "end# x"),
    (13, "fill 0 0 0 1 1 1 4294967295\nend\n"),
    (13, "die 0 4294967295\nend\n\n"),
    (13, "order 0 0\norder 0\nend\n#"),
    (13, "fill 1 1 1 1 1 1 0\nfill 0 0 0 0 0 0 0\nend\n"),
];

#[test]
fn cases_are_read(rt: HostRuntime) -> Result<(), Fail> {
    for (index, other) in &ACCEPTED {
        let text = text_with(rt.alloc(), *index, other)?;
        assert_eq!(rt; refusal(rt.alloc(), &text)?, None);
    }
    Ok(())
}

/// The index of a line, a text in its place, and where and why the whole is refused.
const HEADS: [(usize, &str, u32, u32); 32] = [
    (0, "forest 01\n", 1, 3),
    (0, "forest 2\n", 1, 3),
    (0, "", 1, 3),
    (0, "forest 1 1\n", 1, 3),
    (0, "forest \u{1}\n", 1, 1),
    (1, "roots 1 1 17\n", 2, 6),
    (1, "roots 0 1 1\n", 2, 6),
    (1, "roots 17 x 1\n", 2, 5),
    (1, "roots 17 1\n", 2, 4),
    (2, "side 0\n", 3, 6),
    (2, "side 3\n", 3, 6),
    (2, "side 18\n", 3, 6),
    (2, "side 2x\n", 3, 5),
    (2, "side x x\n", 3, 4),
    (3, "", 4, 7),
    (3, "ranks\n", 4, 7),
    (3, "side\n", 4, 8),
    (3, "levels 5\n", 4, 6),
    (4, "ranks 0\n", 5, 6),
    (4, "ranks 17\n", 5, 6),
    (5, "steps 129\n", 6, 6),
    (5, "steps 18446744073709551616\n", 6, 6),
    (5, "steps 000000000000000000000\n", 6, 5),
    (5, "steps x\nsnapshot\n", 6, 5),
    (6, "snapshot 0\n", 7, 6),
    (7, "regrid 129\n", 8, 6),
    (8, "refine 4294967296\n", 9, 6),
    (8, "refine 10\ncoarsen 11\n", 10, 10),
    (8, "refine 10\ncoarsen 11 1\n", 10, 4),
    (10, "flow 9\n", 11, 6),
    (11, "turns 9\n", 12, 6),
    (12, "shift 1001\n", 13, 6),
];

/// The same with texts in place of the end.
const BODIES: [(&str, u32, u32); 32] = [
    ("", 14, 16),
    ("en", 14, 4),
    ("end 1\n", 14, 4),
    ("nothing\nend\n", 14, 4),
    ("forest 1\nend\n", 14, 8),
    ("side 2\nend\n", 14, 8),
    ("side\nend\n", 14, 8),
    ("fill 0 0 0 1 1 1\nend\n", 14, 4),
    ("fill 0 0 0 2 0 0 1\nend\n", 14, 11),
    ("fill 0 0 0 0 0 2 1\nend\n", 14, 11),
    ("fill 1 0 0 0 0 0 1\nend\n", 14, 11),
    ("fill 2 0 0 0 0 0 4294967296\nend\n", 14, 6),
    ("die 1 0\nend\n", 14, 12),
    ("die 1 4294967296\nend\n", 14, 6),
    ("die 0 1\ndie 0 1\nend\n", 15, 13),
    ("die 0 1\ndie 0 x\nend\n", 15, 5),
    ("die 0 1\ndie 1 1\nend\n", 15, 12),
    ("die 0 1\norder 1\ndie 0 1\nend\n", 15, 14),
    ("order\nend\n", 14, 4),
    ("order 0 1\nend\n", 14, 14),
    ("order 1 x\nend\n", 14, 5),
    ("order 1 4294967296\nend\n", 14, 6),
    ("order 4294967296 x\nend\n", 14, 5),
    ("end\nend\n", 15, 15),
    ("end\nside 2\n", 15, 15),
    ("end\n\n# x\nx", 17, 15),
    ("end\nx\u{1}", 15, 1),
    ("\u{1} x\nend\n", 14, 1),
    ("end\r\r\n", 14, 1),
    ("end\r#\n", 14, 1),
    ("en\u{e9}d\n", 14, 1),
    ("\n\n#\n", 17, 16),
];

#[test]
fn other_texts_are_refused(rt: HostRuntime) -> Result<(), Fail> {
    for (index, other, line, code) in &HEADS {
        let text = text_with(rt.alloc(), *index, other)?;
        assert_eq!(rt; refusal(rt.alloc(), &text)?, Some((*line, *code)));
    }
    for (other, line, code) in &BODIES {
        let text = text_with(rt.alloc(), 13, other)?;
        assert_eq!(rt; refusal(rt.alloc(), &text)?, Some((*line, *code)));
    }
    Ok(())
}

#[test]
fn a_large_domain_is_refused(rt: HostRuntime) -> Result<(), Fail> {
    let large = text_with(rt.alloc(), 1, "roots 16 16 16\nside 16\nlevels 0\n")?;
    assert_eq!(rt; refusal(rt.alloc(), &large)?, Some((4, 9)));
    let full = text_with(rt.alloc(), 1, "roots 8 1 1\nside 4\nlevels 4\nside\n")?;
    assert_eq!(rt; refusal(rt.alloc(), &full)?, Some((5, 8)));
    let more = text_with(rt.alloc(), 1, "roots 9 1 1\nside 4\nlevels 4\nside\n")?;
    assert_eq!(rt; refusal(rt.alloc(), &more)?, Some((4, 9)));
    Ok(())
}

#[test]
fn the_whole_input_has_its_limit(rt: HostRuntime) -> Result<(), Fail> {
    assert_eq!(rt; refusal(rt.alloc(), &[])?, Some((1, 16)));
    assert_eq!(rt; refusal(rt.alloc(), b"forest")?, Some((1, 3)));
    assert_eq!(rt; refusal(rt.alloc(), b"forest 1")?, Some((2, 16)));
    assert_eq!(rt; refusal(rt.alloc(), b"forest 1\nsid")?, Some((2, 4)));
    let fit = vec![in rt.alloc(); b'\n'; 1_048_576]?;
    assert_eq!(rt; refusal(rt.alloc(), &fit)?, Some((1_048_577, 16)));
    let long = vec![in rt.alloc(); b'\n'; 1_048_577]?;
    assert_eq!(rt; refusal(rt.alloc(), &long)?, Some((0, 2)));
    Ok(())
}

const WRITTEN: &str =
    "order 2 1\nfill 0 0 0 1 1 1 8\ndie 2 7\nfill 1 0 0 1 0 0 05\ndie 0 9\norder 0\nend";

const CANONICAL: &str =
    "fill 0 0 0 1 1 1 8\nfill 1 0 0 1 0 0 5\ndie 0 9\ndie 2 7\norder 2 1 0\nend\n";

#[test]
fn a_case_is_written(rt: HostRuntime) -> Result<(), Fail> {
    let alloc = rt.alloc();
    let head = "forest 1\nroots 1 1 1\nside 2\nlevels 0\nranks 3\nsteps 0\nsnapshot 1\nregrid 0\n";
    let tail = "refine 4294967295\ncoarsen 0\nflow 0\nturns 0\nshift 0\n";
    let input = format!(in alloc; "{head}{tail}{WRITTEN}")?;
    let Ok(case) = read_case(alloc, input.as_bytes()) else {
        return Err(Fail::from("the text is a case"));
    };
    let mut sink = MemSink::new(alloc, 1, 1000, Vec::new(alloc))?;
    assert!(rt; write_case(&case, &mut sink).is_ok());
    let want = format!(in alloc; "{head}{tail}{CANONICAL}")?;
    assert_eq!(rt; sink.written(), want.as_bytes());
    // A short text is one page, and the sink's second call would fail.
    let mut once = MemSink::new(alloc, 1000, 1000, [2].to_vec(alloc)?)?;
    assert!(rt; write_case(&case, &mut once).is_ok());
    let mut failing = MemSink::new(alloc, 1, 10, Vec::new(alloc))?;
    assert!(rt; write_case(&case, &mut failing).is_err());
    assert_eq!(rt; failing.written(), b"forest 1\nr".as_slice());
    Ok(())
}
