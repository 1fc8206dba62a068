//! A case in the making: what the lines so far give.
ghost use Rattle.std.specs.Prelude.{◌≡◌, ◌<◌, [], ◌++◌, length, slice_index, IfErr, IfOk, IsTrue, OnOk};
ghost use Rattle.bf_text.specs.declared.form.Form.TheVariants as Form;
ghost use Rattle.bf_text.specs.declared.code.CaseFault.TheVariants as CaseFault;
ghost use Rattle.bf_text.specs.Forms.{takes};
ghost use Rattle.bf_text.specs.Reading.{refusal};
ghost use Rattle.bf_text.specs.Entries.{fill_of, listed};
ghost use Rattle.bf_text.specs.Drafts.{blank_outline, deaths_in, known_in, entry_in, IsBounded};

use crate::code::{CaseFault, Code, Refusal};
use crate::form::Form;
use crate::lines::{content_of, next_word};
use crate::numbers::read_numbers;
use crate::outline::{Outline, RANKS};
use bf_case::{Case, Fill, Items};
use bf_edge::Memory;
use std::alloc::Global;

/// What the lines so far give.
#[derive(Drop)]
pub struct Draft {
    pub outline: Outline,
    pub fills: Vec<Fill>,
    pub order: Vec<u32>,
}

pub fn refused(line: u32, code: Code) -> CaseFault
    ensures { result ≡ CaseFault.Refused (refusal line code) }
{
    CaseFault::Refused(Refusal { line, code })
}

fn fill_of(numbers: &[u32]) -> Fill
    requires { length numbers.now ≡ 7 }
    ensures { result ≡ fill_of numbers.now }
{
    Fill {
        low: [numbers[0], numbers[1], numbers[2]],
        high: [numbers[3], numbers[4], numbers[5]],
        value: numbers[6],
    }
}

/// Lists the death of a rank, if it dies.
fn list_death(list: &mut Vec<(u32, u32)>, rank: u32, death: Option<u32>) -> Result<(), Memory>
    ensures { OnOk result (list.new.items ≡ list.old.items ++ listed rank death) }
{
    match death {
        Some(events) => list.push((rank, events))?,
        None => {}
    }
    Ok(())
}

/// The deaths by rising rank.
fn deaths_of(alloc: Global, deaths: &[Option<u32>; RANKS]) -> Result<Vec<(u32, u32)>, Memory>
    ensures { IfOk result (λ list. list.items ≡ deaths_in deaths.now) }
{
    let mut list = Vec::new(alloc);
    for rank in 0..16u32 {
        list_death(&mut list, rank, deaths[rank as usize])?;
    }
    Ok(list)
}

impl Draft {
    ghost use Rattle.bf_text.specs.Drafts.{AddsLine, TakesEntry, TakesLine, IsFaultOf, IsFaultOfLine, IsFinished};

    /// Nothing has come.
    pub fn new(alloc: Global) -> Draft
        ensures outline { result.outline ≡ blank_outline }
        ensures fills { result.fills.items ≡ [] }
        ensures order { result.order.items ≡ [] }
    {
        Draft {
            outline: Outline::new(),
            fills: Vec::new(alloc),
            order: Vec::new(alloc),
        }
    }

    fn add(&mut self, form: Form, numbers: &[u32]) -> Result<(), Memory>
        requires count { IsTrue (takes form (length numbers.now)) }
        requires rank { form ≡ Form.Die → slice_index numbers.now 0 < 16 }
        ensures { OnOk result (AddsLine self.old self.new form numbers.now) }
    {
        match form {
            Form::Fill => self.fills.push(fill_of(numbers))?,
            Form::Order => self.order.extend_from_slice(numbers)?,
            _ => {}
        }
        self.outline = self.outline.with_line(form, numbers);
        Ok(())
    }

    fn take_entry(
        &mut self,
        alloc: Global,
        line: u32,
        content: &[u8],
        form: Form,
        arguments: &[u8],
    ) -> Result<(), CaseFault>
        requires { IsBounded self.old.outline }
        ensures ok { OnOk result (TakesEntry self.old self.new (entry_in line content.now form arguments.now)) }
        ensures err { IfErr result (IsFaultOf (known_in self.old.outline) (entry_in line content.now form arguments.now)) }
    {
        if let Some(code) = self.outline.word_cause(content, form, arguments) {
            return Err(refused(line, code));
        }
        let Ok(found) = read_numbers(alloc, arguments) else {
            return Err(CaseFault::Memory);
        };
        let Some(numbers) = found else {
            return Err(refused(line, Code::OutOfRange));
        };
        if let Some(code) = self.outline.number_cause(form, &numbers) {
            return Err(refused(line, code));
        }
        if self.add(form, &numbers).is_err() {
            return Err(CaseFault::Memory);
        }
        Ok(())
    }

    /// Takes a line, or tells its fault. After a fault the draft is not to be used again.
    pub fn take_line(&mut self, alloc: Global, number: u32, line: &[u8]) -> Result<(), CaseFault>
        requires { IsBounded self.old.outline }
        ensures ok { OnOk result (TakesLine self.old self.new number line.now) }
        ensures err { IfErr result (IsFaultOfLine (known_in self.old.outline) number line.now) }
    {
        let content = content_of(line);
        match next_word(content) {
            Some((word, arguments)) => {
                self.take_entry(alloc, number, content, Form::of(word), arguments)
            }
            None => Ok(()),
        }
    }

    /// The case once all lines are read; `last` is the line after the last.
    pub fn finish(self, alloc: Global, last: u32) -> Result<Case, CaseFault>
        ensures { IsFinished self last result }
    {
        let Draft {
            outline,
            fills,
            order,
        } = self;
        if !outline.ended {
            return Err(refused(last, Code::NoEnd));
        }
        let Ok(dies) = deaths_of(alloc, &outline.deaths) else {
            return Err(CaseFault::Memory);
        };
        let head = outline.head;
        Ok(Case {
            roots: head.roots,
            side: head.side,
            levels: head.levels,
            ranks: head.ranks,
            steps: head.steps,
            snapshot: head.snapshot,
            regrid: head.regrid,
            refine: head.refine,
            coarsen: head.coarsen,
            flow: head.flow,
            turns: head.turns,
            shift: head.shift,
            fills: Items::of(fills),
            dies: Items::of(dies),
            order: Items::of(order),
        })
    }
}
