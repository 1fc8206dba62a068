//! A sheet: a page that remembers whether its sink has failed, so that what prints needs no answer.
ghost use Rattle.std.specs.Prelude.{◌≡◌, ◌∷◌, [], true, flat_map, decimal, OnOk, OnErr};
ghost use Rattle.bf_edge.specs.Sheet.{blank_sheet, Prints};

use crate::counts::Failed;
use crate::page::{Page, flush, put};
use crate::sink::Sink;
use itoa::Buffer;
use std::marker::Model;

/// The page of a text that is being printed. It takes no memory.
#[derive(Drop)]
pub struct Sheet {
    page: Page,
    failed: bool,
}

impl Model for Sheet {
    ghost use Rattle.bf_edge.specs.Sheet.{SheetValue};

    ghost Value = { SheetValue };

    ghost view = { λ s. record { waiting = s.page; failed = s.failed } };
}

impl Sheet {
    /// A sheet where nothing is printed.
    pub fn new() -> Sheet
        ensures { result ≡ blank_sheet }
    {
        Sheet {
            page: Page::new(),
            failed: false,
        }
    }
}

/// Prints the bytes. They wait on the page, which is written where they find no room. A sink that has failed is not called again.
pub fn print<W: Sink>(sink: &mut W, sheet: &mut Sheet, bytes: &[u8])
    ensures { Prints W.written W.faults sink.old sink.new sheet.old sheet.new bytes.now }
{
    if sheet.failed {
        return;
    }
    sheet.failed = put(sink, &mut sheet.page, bytes).is_err();
}

/// Prints the number in decimal.
pub fn print_number<W: Sink>(sink: &mut W, sheet: &mut Sheet, number: u32)
    ensures { Prints W.written W.faults sink.old sink.new sheet.old sheet.new (decimal number) }
{
    print(sink, sheet, Buffer::new().format(number).as_bytes());
}

// A blank and the number.
fn print_next<W: Sink>(sink: &mut W, sheet: &mut Sheet, number: u32)
    ensures { Prints W.written W.faults sink.old sink.new sheet.old sheet.new (32 ∷ decimal number) }
{
    print(sink, sheet, b" ");
    print_number(sink, sheet, number);
}

/// Prints each number in decimal, after a blank.
pub fn print_numbers<W: Sink>(sink: &mut W, sheet: &mut Sheet, numbers: &[u32])
    ensures { Prints W.written W.faults sink.old sink.new sheet.old sheet.new (flat_map (λ number. 32 ∷ decimal number) numbers.now) }
{
    for number in numbers {
        print_next(sink, sheet, *number);
    }
}

/// Writes all that waits, and says whether all that was printed is written.
pub fn finish<W: Sink>(sink: &mut W, sheet: &mut Sheet) -> Result<(), Failed>
    ensures printed { Prints W.written W.faults sink.old sink.new sheet.old sheet.new [] }
    ensures all { OnOk result (sheet.new ≡ blank_sheet) }
    ensures failed { OnErr result (sheet.new.failed ≡ true) }
{
    if sheet.failed {
        return Err(Failed);
    }
    let told = flush(sink, &mut sheet.page);
    sheet.failed = told.is_err();
    told
}
