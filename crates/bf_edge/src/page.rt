//! A page of bytes that wait to be written, so that a sink is called once for many small texts.
ghost use Rattle.std.specs.Prelude.{◌≡◌, ◌↔◌, [], ◌+◌, ◌≤◌, ◌++◌, length, OnOk, OnErr, IsTrue};
ghost use Rattle.bf_edge.specs.Faults.{Rose};
ghost use Rattle.bf_edge.specs.Page.{Puts};
ghost use Rattle.bf_edge.specs.Sink.{appended, AppendsPrefix};

use crate::counts::Failed;
use crate::sink::{Sink, write_all};
use std::marker::Model;

/// How many bytes a page holds.
pub const PAGE_SIZE: usize = 4096;

/// The bytes that wait, at most `PAGE_SIZE` of them. They stand in the page itself, so making one takes no memory.
#[derive(Drop)]
pub(crate) struct Page {
    bytes: [u8; PAGE_SIZE],
    count: usize,
}

impl Model for Page {
    ghost use Rattle.std.specs.Prelude.{ℕ, List, ◌≤◌, take};
    ghost use Rattle.bf_edge.specs.declared.page.TheConstants.{PAGE_SIZE};

    ghost Value = { List ℕ };

    ghost view = { λ p. take p.count p.bytes };

    ghost invariant = { λ p. p.count ≤ PAGE_SIZE };
}

impl Page {
    /// A page where nothing waits.
    pub(crate) fn new() -> Page
        ensures { result ≡ [] }
    {
        Page {
            bytes: [0; PAGE_SIZE],
            count: 0,
        }
    }

    // Whether so many more bytes can wait.
    fn has_room(&self, count: usize) -> bool
        ensures { IsTrue result ↔ (length self.now + count ≤ PAGE_SIZE) }
    {
        count <= PAGE_SIZE - self.count
    }

    fn push(&mut self, bytes: &[u8])
        requires { length self.old + length bytes.now ≤ PAGE_SIZE }
        ensures { self.new ≡ self.old ++ bytes.now }
    {
        let end = self.count + bytes.len();
        self.bytes[self.count..end].copy_from_slice(bytes);
        self.count = end;
    }

    fn waiting(&self) -> &[u8]
        ensures { result.now ≡ self.now }
    {
        &self.bytes[..self.count]
    }

    fn clear(&mut self)
        ensures { self.new ≡ [] }
    {
        self.count = 0;
    }
}

/// Writes all that waits. After a failure the page is not to be written again.
pub(crate) fn flush<W: Sink>(sink: &mut W, page: &mut Page) -> Result<(), Failed>
    ensures all { OnOk result (W.written sink.new ≡ appended (W.written sink.old) page.old) }
    ensures empty { OnOk result (page.new ≡ []) }
    ensures steady { OnOk result (W.faults sink.new ≡ W.faults sink.old) }

    ensures rose { OnErr result (Rose (W.faults sink.old) (W.faults sink.new)) }
    ensures prefix { OnErr result (AppendsPrefix (W.written sink.old) (W.written sink.new) page.old) }
    ensures never_falls { W.faults sink.old ≤ W.faults sink.new }
{
    write_all(sink, page.waiting())?;
    page.clear();
    Ok(())
}

/// Lets the bytes wait behind those that do, and writes the page where they find no room.
pub(crate) fn put<W: Sink>(sink: &mut W, page: &mut Page, bytes: &[u8]) -> Result<(), Failed>
    ensures puts { OnOk result (Puts (W.written sink.old) (W.written sink.new) page.old page.new bytes.now) }
    ensures steady { OnOk result (W.faults sink.new ≡ W.faults sink.old) }

    ensures rose { OnErr result (Rose (W.faults sink.old) (W.faults sink.new)) }
    ensures prefix { OnErr result (AppendsPrefix (W.written sink.old) (W.written sink.new) (page.old ++ bytes.now)) }
    ensures never_falls { W.faults sink.old ≤ W.faults sink.new }
{
    if page.has_room(bytes.len()) {
        page.push(bytes);
        return Ok(());
    }
    put_after_flush(sink, page, bytes)
}

// Bytes that no page could hold go to the sink as they are.
fn put_after_flush<W: Sink>(sink: &mut W, page: &mut Page, bytes: &[u8]) -> Result<(), Failed>
    ensures puts { OnOk result (Puts (W.written sink.old) (W.written sink.new) page.old page.new bytes.now) }
    ensures steady { OnOk result (W.faults sink.new ≡ W.faults sink.old) }

    ensures rose { OnErr result (Rose (W.faults sink.old) (W.faults sink.new)) }
    ensures prefix { OnErr result (AppendsPrefix (W.written sink.old) (W.written sink.new) (page.old ++ bytes.now)) }
    ensures never_falls { W.faults sink.old ≤ W.faults sink.new }
{
    flush(sink, page)?;
    if page.has_room(bytes.len()) {
        page.push(bytes);
        return Ok(());
    }
    write_all(sink, bytes)
}
