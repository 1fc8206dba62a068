ghost use Rattle.std.specs.Prelude.{◌≡◌, [], ◌∷◌, ◌*◌, ◌≤◌, ◌++◌, length, codes, decimal, flat_map, map, OnOk, OnErr};
ghost use Rattle.bf_edge.specs.Faults.{Rose};
ghost use Rattle.bf_edge.specs.Sheet.{Prints};
ghost use Rattle.bf_edge.specs.Sink.{appended, AppendsPrefix};
ghost use Rattle.bf_id.specs.IdText.{text_of};
ghost use Rattle.bf_case.specs.CaseText.{spaced};
ghost use Rattle.bf_case.specs.MapText.{row_text, grid_text, leaf_text, map_text};

use bf_case::AsLeaf;
use bf_cells::Cells;
use bf_edge::{Failed, Sheet, Sink, finish, print, print_number, print_numbers, write_all};
use bf_id::Id;

// A number, each of the rest after a blank, and the line feed.
fn print_line<W: Sink>(sink: &mut W, sheet: &mut Sheet, first: u32, rest: &[u32])
    ensures { Prints W.written W.faults sink.old sink.new sheet.old sheet.new (decimal first ++ (spaced rest.now ++ 10 ∷ [])) }
{
    print_number(sink, sheet, first);
    print_numbers(sink, sheet, rest);
    print(sink, sheet, b"\n");
}

// The numbers with one blank between, and the line feed.
fn print_row<W: Sink>(sink: &mut W, sheet: &mut Sheet, values: &[u32])
    ensures { Prints W.written W.faults sink.old sink.new sheet.old sheet.new (row_text values.now) }
{
    match values {
        [] => print(sink, sheet, b"\n"),
        [first, rest @ ..] => print_line(sink, sheet, *first, rest),
    }
}

// A cube of values, with one line for each row along x.
fn print_rows<W: Sink>(sink: &mut W, sheet: &mut Sheet, side: usize, values: &[u32])
    requires small { side ≤ 16 }
    requires full { length values.now ≡ side * side * side }
    ensures { Prints W.written W.faults sink.old sink.new sheet.old sheet.new (grid_text (record { side = side; values = values.now })) }
{
    for row in 0..side * side {
        let from = side * row;
        print_row(sink, sheet, &values[from..from + side]);
    }
}

// The cells, with one line for each row along x.
fn print_grid<W: Sink>(sink: &mut W, sheet: &mut Sheet, cells: &Cells)
    ensures { Prints W.written W.faults sink.old sink.new sheet.old sheet.new (grid_text cells.now) }
{
    print_rows(sink, sheet, cells.side() as usize, cells.values());
}

// The id's text.
fn print_id<W: Sink>(sink: &mut W, sheet: &mut Sheet, id: Id)
    ensures { Prints W.written W.faults sink.old sink.new sheet.old sheet.new (text_of id) }
{
    print(sink, sheet, id.text().bytes());
}

// The line with a leaf's id.
fn print_head<W: Sink>(sink: &mut W, sheet: &mut Sheet, id: Id)
    ensures { Prints W.written W.faults sink.old sink.new sheet.old sheet.new (codes "block " ++ (text_of id ++ 10 ∷ [])) }
{
    print(sink, sheet, b"block ");
    print_id(sink, sheet, id);
    print(sink, sheet, b"\n");
}

// The line with an id, and cells.
fn print_leaf<W: Sink>(sink: &mut W, sheet: &mut Sheet, id: Id, cells: &Cells)
    ensures { Prints W.written W.faults sink.old sink.new sheet.old sheet.new (leaf_text (id, cells.now)) }
{
    print_head(sink, sheet, id);
    print_grid(sink, sheet, cells);
}

// The same of whatever has an id and cells.
fn print_as_leaf<W: Sink, L: AsLeaf>(sink: &mut W, sheet: &mut Sheet, leaf: &L)
    ensures { Prints W.written W.faults sink.old sink.new sheet.old sheet.new (leaf_text (L.leaf leaf.now)) }
{
    print_leaf(sink, sheet, leaf.id(), leaf.cells());
}

// Every leaf in its order.
fn print_leaves<W: Sink, L: AsLeaf>(sink: &mut W, sheet: &mut Sheet, leaves: &[L])
    ensures { Prints W.written W.faults sink.old sink.new sheet.old sheet.new (flat_map leaf_text (map L.leaf leaves.now)) }
{
    for leaf in leaves {
        print_as_leaf(sink, sheet, leaf);
    }
}

// Every leaf in its order, and the last line.
fn print_map<W: Sink, L: AsLeaf>(sink: &mut W, sheet: &mut Sheet, leaves: &[L])
    ensures { Prints W.written W.faults sink.old sink.new sheet.old sheet.new (map_text (map L.leaf leaves.now)) }
{
    print_leaves(sink, sheet, leaves);
    print(sink, sheet, b"end\n");
}

/// Writes a leaf: the line with its id, and a line for each row of its cells along x. No byte of it waits afterwards. Where
/// the sink fails, a front of the text was written.
pub fn write_leaf<W: Sink>(sink: &mut W, id: Id, cells: &Cells) -> Result<(), Failed>
    ensures all { OnOk result (W.written sink.new ≡ appended (W.written sink.old) (leaf_text (id, cells.now))) }
    ensures steady { OnOk result (W.faults sink.new ≡ W.faults sink.old) }

    ensures rose { OnErr result (Rose (W.faults sink.old) (W.faults sink.new)) }
    ensures prefix { OnErr result (AppendsPrefix (W.written sink.old) (W.written sink.new) (leaf_text (id, cells.now))) }
    ensures never_falls { W.faults sink.old ≤ W.faults sink.new }
{
    let mut sheet = Sheet::new();
    print_leaf(sink, &mut sheet, id, cells);
    finish(sink, &mut sheet)
}

/// Writes the line that follows the last leaf of a map.
pub fn write_end<W: Sink>(sink: &mut W) -> Result<(), Failed>
    ensures all { OnOk result (W.written sink.new ≡ appended (W.written sink.old) (codes "end\n")) }
    ensures steady { OnOk result (W.faults sink.new ≡ W.faults sink.old) }

    ensures rose { OnErr result (Rose (W.faults sink.old) (W.faults sink.new)) }
    ensures prefix { OnErr result (AppendsPrefix (W.written sink.old) (W.written sink.new) (codes "end\n")) }
    ensures never_falls { W.faults sink.old ≤ W.faults sink.new }
{
    write_all(sink, b"end\n")
}

/// Writes every leaf in its order, as [`write_leaf`] does, and the last line, in as few calls of the sink as pages are
/// filled.
pub fn write_map<W: Sink, L: AsLeaf>(sink: &mut W, leaves: &[L]) -> Result<(), Failed>
    ensures all { OnOk result (W.written sink.new ≡ appended (W.written sink.old) (map_text (map L.leaf leaves.now))) }
    ensures steady { OnOk result (W.faults sink.new ≡ W.faults sink.old) }

    ensures rose { OnErr result (Rose (W.faults sink.old) (W.faults sink.new)) }
    ensures prefix { OnErr result (AppendsPrefix (W.written sink.old) (W.written sink.new) (map_text (map L.leaf leaves.now))) }
    ensures never_falls { W.faults sink.old ≤ W.faults sink.new }
{
    let mut sheet = Sheet::new();
    print_map(sink, &mut sheet, leaves);
    finish(sink, &mut sheet)
}

#[cfg(test)]
mod tests {
    use super::*;
    use bf_edge::{MemSink, Memory};
    use std::alloc::Global;
    use std::process::Abort;
    use std::test::Fail;

    // A cube of side 2: the low layer in rows, and the first cell of the high one.
    fn cube(rt: &impl Abort, alloc: Global, values: [u32; 5]) -> Result<Cells, Memory> {
        let mut cells = Cells::filled(alloc, 2, 0)?;
        assert_eq!(rt; cells.side(), 2);
        cells.put(0, 0, 0, values[0]);
        cells.put(1, 0, 0, values[1]);
        cells.put(0, 1, 0, values[2]);
        cells.put(1, 1, 0, values[3]);
        cells.put(0, 0, 1, values[4]);
        Ok(cells)
    }

    #[test]
    fn a_leaf_is_written_in_one_call(rt: HostRuntime) -> Result<(), Fail> {
        let cells = cube(&rt, rt.alloc(), [5, 1, 1, 0, 1])?;
        let mut sink = MemSink::new(rt.alloc(), 64, 64, [2].to_vec(rt.alloc())?)?;
        assert_eq!(rt; write_leaf(&mut sink, Id::root_of(0), &cells), Ok(()));
        assert_eq!(rt; write_end(&mut sink), Err(Failed));
        assert_eq!(rt; write_end(&mut sink), Ok(()));
        assert_eq!(rt;
            sink.written(),
            b"block 0\n5 1\n1 0\n1 0\n0 0\nend\n".as_slice()
        );
        Ok(())
    }

    #[test]
    fn leaves_are_written_byte_by_byte(rt: HostRuntime) -> Result<(), Fail> {
        let low = cube(&rt, rt.alloc(), [1, 2, 3, 4, 0])?;
        let high = cube(&rt, rt.alloc(), [10, 0, 0, 0, 4294967295])?;
        let leaves = vec![in rt.alloc(); (Id::root_of(0).child(3), low), (Id::root_of(1), high)]?;
        let mut sink = MemSink::new(rt.alloc(), 1, 128, Vec::new(rt.alloc()))?;
        assert_eq!(rt; write_map(&mut sink, &leaves), Ok(()));
        let want = b"block 0.3\n1 2\n3 4\n0 0\n0 0\nblock 1\n10 0\n0 0\n4294967295 0\n0 0\nend\n";
        assert_eq!(rt; sink.written(), want.as_slice());
        Ok(())
    }

    #[test]
    fn a_failure_ends_writing(rt: HostRuntime) -> Result<(), Fail> {
        let cells = cube(&rt, rt.alloc(), [5, 1, 1, 0, 1])?;
        let leaves = vec![in rt.alloc(); (Id::root_of(0), cells)]?;
        let mut sink = MemSink::new(rt.alloc(), 1, 64, [2].to_vec(rt.alloc())?)?;
        assert_eq!(rt; write_map(&mut sink, &leaves), Err(Failed));
        assert_eq!(rt; sink.written(), b"b".as_slice());
        assert_eq!(rt; sink.faults(), 1);
        Ok(())
    }
}
