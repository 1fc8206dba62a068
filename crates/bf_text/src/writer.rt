//! Writing a case.
ghost use Rattle.std.specs.Prelude.{◌≡◌, ◌≤◌, flat_map, OnOk, OnErr};
ghost use Rattle.bf_edge.specs.Faults.{Rose};
ghost use Rattle.bf_edge.specs.Sheet.{Prints};
ghost use Rattle.bf_edge.specs.Sink.{appended, AppendsPrefix};
ghost use Rattle.bf_case.specs.CaseText.{line, fill_text, death_text, order_text, head_text, case_text};
ghost use Rattle.bf_text.specs.HeadText.{sizes_text, times_text, limits_text};

use bf_case::{Case, Fill};
use bf_edge::{Failed, Sheet, Sink, finish, print, print_numbers};

// A line: its first word, its numbers, and the line feed.
fn print_line<W: Sink>(sink: &mut W, sheet: &mut Sheet, word: &[u8], numbers: &[u32])
    ensures { Prints W.written W.faults sink.old sink.new sheet.old sheet.new (line word.now numbers.now) }
{
    print(sink, sheet, word);
    print_numbers(sink, sheet, numbers);
    print(sink, sheet, b"\n");
}

// The header and the sizes.
fn print_sizes<W: Sink>(sink: &mut W, sheet: &mut Sheet, case: &Case)
    ensures { Prints W.written W.faults sink.old sink.new sheet.old sheet.new (sizes_text case.now) }
{
    let roots = case.roots;
    print_line(sink, sheet, b"forest", &[1]);
    print_line(sink, sheet, b"roots", &[roots.nx, roots.ny, roots.nz]);
    print_line(sink, sheet, b"side", &[case.side]);
    print_line(sink, sheet, b"levels", &[case.levels]);
}

// The ranks, and what they do when.
fn print_times<W: Sink>(sink: &mut W, sheet: &mut Sheet, case: &Case)
    ensures { Prints W.written W.faults sink.old sink.new sheet.old sheet.new (times_text case.now) }
{
    print_line(sink, sheet, b"ranks", &[case.ranks]);
    print_line(sink, sheet, b"steps", &[case.steps]);
    print_line(sink, sheet, b"snapshot", &[case.snapshot]);
    print_line(sink, sheet, b"regrid", &[case.regrid]);
}

// When blocks change, and how they move.
fn print_limits<W: Sink>(sink: &mut W, sheet: &mut Sheet, case: &Case)
    ensures { Prints W.written W.faults sink.old sink.new sheet.old sheet.new (limits_text case.now) }
{
    print_line(sink, sheet, b"refine", &[case.refine]);
    print_line(sink, sheet, b"coarsen", &[case.coarsen]);
    print_line(sink, sheet, b"flow", &[case.flow]);
    print_line(sink, sheet, b"turns", &[case.turns]);
    print_line(sink, sheet, b"shift", &[case.shift]);
}

// The lines that each case has.
fn print_head<W: Sink>(sink: &mut W, sheet: &mut Sheet, case: &Case)
    ensures { Prints W.written W.faults sink.old sink.new sheet.old sheet.new (head_text case.now) }
{
    print_sizes(sink, sheet, case);
    print_times(sink, sheet, case);
    print_limits(sink, sheet, case);
}

// A fill: its corners and its value.
fn print_fill<W: Sink>(sink: &mut W, sheet: &mut Sheet, fill: &Fill)
    ensures { Prints W.written W.faults sink.old sink.new sheet.old sheet.new (fill_text fill.now) }
{
    let [low_x, low_y, low_z] = fill.low;
    let [high_x, high_y, high_z] = fill.high;
    print_line(
        sink,
        sheet,
        b"fill",
        &[low_x, low_y, low_z, high_x, high_y, high_z, fill.value],
    );
}

// The fills in their order.
fn print_fill_lines<W: Sink>(sink: &mut W, sheet: &mut Sheet, fills: &[Fill])
    ensures { Prints W.written W.faults sink.old sink.new sheet.old sheet.new (flat_map fill_text fills.now) }
{
    for fill in fills {
        print_fill(sink, sheet, fill);
    }
}

// The deaths in their order.
fn print_death_lines<W: Sink>(sink: &mut W, sheet: &mut Sheet, deaths: &[(u32, u32)])
    ensures { Prints W.written W.faults sink.old sink.new sheet.old sheet.new (flat_map death_text deaths.now) }
{
    for (rank, events) in deaths {
        print_line(sink, sheet, b"die", &[*rank, *events]);
    }
}

// The order, if it has ranks.
fn print_order_line<W: Sink>(sink: &mut W, sheet: &mut Sheet, order: &[u32])
    ensures { Prints W.written W.faults sink.old sink.new sheet.old sheet.new (order_text order.now) }
{
    if order.is_empty() {
        return;
    }
    print_line(sink, sheet, b"order", order);
}

// The fills.
fn print_fills<W: Sink>(sink: &mut W, sheet: &mut Sheet, case: &Case)
    ensures { Prints W.written W.faults sink.old sink.new sheet.old sheet.new (flat_map fill_text case.now.fills) }
{
    print_fill_lines(sink, sheet, case.fills.as_slice());
}

// The deaths.
fn print_deaths<W: Sink>(sink: &mut W, sheet: &mut Sheet, case: &Case)
    ensures { Prints W.written W.faults sink.old sink.new sheet.old sheet.new (flat_map death_text case.now.dies) }
{
    print_death_lines(sink, sheet, case.dies.as_slice());
}

// The order.
fn print_order<W: Sink>(sink: &mut W, sheet: &mut Sheet, case: &Case)
    ensures { Prints W.written W.faults sink.old sink.new sheet.old sheet.new (order_text case.now.order) }
{
    print_order_line(sink, sheet, case.order.as_slice());
}

// All lines.
fn print_case<W: Sink>(sink: &mut W, sheet: &mut Sheet, case: &Case)
    ensures { Prints W.written W.faults sink.old sink.new sheet.old sheet.new (case_text case.now) }
{
    print_head(sink, sheet, case);
    print_fills(sink, sheet, case);
    print_deaths(sink, sheet, case);
    print_order(sink, sheet, case);
    print_line(sink, sheet, b"end", &[]);
}

/// Writes the canonical text of a case. Where the sink fails, a front of it was written.
pub fn write_case<W: Sink>(case: &Case, sink: &mut W) -> Result<(), Failed>
    ensures all { OnOk result (W.written sink.new ≡ appended (W.written sink.old) (case_text case.now)) }
    ensures steady { OnOk result (W.faults sink.new ≡ W.faults sink.old) }

    ensures rose { OnErr result (Rose (W.faults sink.old) (W.faults sink.new)) }
    ensures prefix { OnErr result (AppendsPrefix (W.written sink.old) (W.written sink.new) (case_text case.now)) }
    ensures never_falls { W.faults sink.old ≤ W.faults sink.new }
{
    let mut sheet = Sheet::new();
    print_case(sink, &mut sheet, case);
    finish(sink, &mut sheet)
}
