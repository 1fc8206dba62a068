//! What is kept of the lines that were read, apart from lists of any length.
ghost use Rattle.std.specs.Prelude.{◌≡◌, ◌*◌, ◌^◌, ◌<◌, ◌≤◌, nat_lt, length, slice_index, IfNone, Some, None, if◌then◌else◌, IsTrue};
ghost use Rattle.std.specs.List.{list_all, find};
ghost use Rattle.bf_id.specs.Shape.{root_count};
ghost use Rattle.bf_case.specs.Case.{cell_limit};
ghost use Rattle.bf_text.specs.declared.form.Form.TheVariants as Form;
ghost use Rattle.bf_text.specs.Lines.{words_of};
ghost use Rattle.bf_text.specs.Forms.{takes, fits};
ghost use Rattle.bf_text.specs.Entries.{is_number};
ghost use Rattle.bf_text.specs.Codes.{word_codes, case_codes, number_codes};
ghost use Rattle.bf_text.specs.Faults.{is_header, is_missing, is_stretch, has_word_cause, has_number_cause};
ghost use Rattle.bf_text.specs.Faults.{holds_fill};
ghost use Rattle.bf_text.specs.Drafts.{came_below, dies_in, due_place, entry_in, head_with, deaths_with, next_after};
ghost use Rattle.bf_text.specs.Heads.{IsSmall};

use crate::code::Code;
use crate::form::{Form, is_word};
use crate::head::Head;
use crate::lines::{is_plain, next_word};
use crate::numbers::{are_numbers, count_words};
use bf_case::{CELL_LIMIT, cells_of};
use bf_id::Shape;

/// The most ranks that a case has.
pub const RANKS: usize = 16;

/// What the lines before a line tell of it.
#[derive(Clone, Copy)]
pub struct Outline {
    /// The place of the heading that is to come next; after the last heading, the place after it.
    pub next: u32,
    pub ended: bool,
    pub head: Head,
    /// How many events each rank has when it dies.
    pub deaths: [Option<u32>; RANKS],
}

/// Whether the words are those of the header.
fn is_header(form: Form, arguments: &[u8]) -> bool
    ensures { result ≡ is_header form (words_of arguments.now) }
{
    if form != Form::Forest {
        return false;
    }
    let Some((word, others)) = next_word(arguments) else {
        return false;
    };
    is_word(word, b"1") && next_word(others).is_none()
}

/// The place up to which all headings belong before a line of this form.
fn due_place(form: Form) -> u32
    ensures { result ≡ due_place form }
{
    match form {
        Form::Other => 0,
        _ => form.place().min(13),
    }
}

/// The cause where the test holds.
fn when(test: bool, cause: Code) -> Option<Code>
    ensures { result ≡ (if test then Some cause else None) }
{
    test.then_some(cause)
}

fn is_stretch(low: u32, high: u32, cells: u32) -> bool
    ensures { result ≡ is_stretch low high cells }
{
    low <= high && high < cells
}

/// The head with the numbers of one more line.
fn head_with(head: Head, form: Form, numbers: &[u32]) -> Head
    requires { IsTrue (takes form (length numbers.now)) }
    ensures { result ≡ head_with head form numbers.now }
{
    let mut head = head;
    match form {
        Form::Roots => {
            head.roots = Shape {
                nx: numbers[0],
                ny: numbers[1],
                nz: numbers[2],
            }
        }
        Form::Side => head.side = numbers[0],
        Form::Levels => head.levels = numbers[0],
        Form::Ranks => head.ranks = numbers[0],
        Form::Steps => head.steps = numbers[0],
        Form::Snapshot => head.snapshot = numbers[0],
        Form::Regrid => head.regrid = numbers[0],
        Form::Refine => head.refine = numbers[0],
        Form::Coarsen => head.coarsen = numbers[0],
        Form::Flow => head.flow = numbers[0],
        Form::Turns => head.turns = numbers[0],
        Form::Shift => head.shift = numbers[0],
        Form::Forest | Form::Fill | Form::Die | Form::Order | Form::End | Form::Other => {}
    }
    head
}

/// The deaths with that of one more line.
fn deaths_with(deaths: [Option<u32>; RANKS], form: Form, numbers: &[u32]) -> [Option<u32>; RANKS]
    requires count { IsTrue (takes form (length numbers.now)) }
    requires rank { form ≡ Form.Die → slice_index numbers.now 0 < 16 }
    ensures { result ≡ deaths_with deaths form numbers.now }
{
    let mut deaths = deaths;
    match form {
        Form::Die => deaths[numbers[0] as usize] = Some(numbers[1]),
        _ => {}
    }
    deaths
}

fn next_after(next: u32, form: Form) -> u32
    ensures { result ≡ next_after next form }
{
    if form.is_heading() {
        form.place() + 1
    } else {
        next
    }
}

impl Outline {
    ghost use Rattle.bf_text.specs.Drafts.{blank_outline, known_in, outline_with};

    /// Nothing has come.
    pub fn new() -> Outline
        ensures { result ≡ blank_outline }
    {
        Outline {
            next: 0,
            ended: false,
            head: Head::blank(),
            deaths: [None; RANKS],
        }
    }

    fn has_come(&self, form: Form) -> bool
        ensures { result ≡ came_below self.now.next form }
    {
        form.is_heading() && form.place() < self.next
    }

    fn is_missing(&self, form: Form) -> bool
        requires { self.now.next ≤ 13 }
        ensures { result ≡ is_missing (came_below self.now.next) form }
    {
        self.next < due_place(form)
    }

    /// The first cause that a line has, whatever its numbers are.
    pub fn word_cause(&self, content: &[u8], form: Form, arguments: &[u8]) -> Option<Code>
        requires { self.now.next ≤ 13 }
        ensures exact { result ≡ find (has_word_cause (known_in self.now) (entry_in 0 content.now form arguments.now)) word_codes }
        ensures count { IfNone result (IsTrue (takes form (length (words_of arguments.now)))) }
        ensures numbers { IfNone result (IsTrue (list_all is_number (words_of arguments.now))) }
    {
        if !is_plain(content) {
            return Some(Code::NotText);
        }
        if !self.has_come(Form::Forest) && !is_header(form, arguments) {
            return Some(Code::BadHeader);
        }
        if self.ended {
            return Some(Code::AfterEnd);
        }
        if self.is_missing(form) {
            return Some(Code::Missing);
        }
        if self.has_come(form) {
            return Some(Code::Repeated);
        }
        if !form.takes(count_words(arguments)) {
            return Some(Code::BadLine);
        }
        if !are_numbers(arguments) {
            return Some(Code::BadNumber);
        }
        None
    }

    fn has_too_many_cells(&self, levels: u32) -> bool
        requires small { IsSmall self.now.head }
        requires shallow { levels ≤ 4 }
        ensures { result ≡ nat_lt cell_limit (root_count self.now.head.roots * 8 ^ levels
            * (self.now.head.side * self.now.head.side * self.now.head.side)) }
    {
        cells_of(self.head.roots, self.head.side, levels) > CELL_LIMIT
    }

    fn holds_fill(&self, numbers: &[u32]) -> bool
        requires small { IsSmall self.now.head }
        requires count { length numbers.now ≡ 7 }
        ensures { result ≡ holds_fill self.now.head numbers.now }
    {
        let Head { roots, side, .. } = self.head;
        is_stretch(numbers[0], numbers[3], roots.nx * side)
            && is_stretch(numbers[1], numbers[4], roots.ny * side)
            && is_stretch(numbers[2], numbers[5], roots.nz * side)
    }

    fn dies(&self, rank: u32) -> bool
        ensures { result ≡ dies_in self.now.deaths rank }
    {
        match self.deaths.get(rank as usize) {
            Some(death) => death.is_some(),
            None => false,
        }
    }

    fn are_ranks(&self, numbers: &[u32]) -> bool
        ensures { result ≡ list_all (λ rank. nat_lt rank self.now.head.ranks) numbers.now }
    {
        let ranks = self.head.ranks;
        numbers.iter().all(|&rank| rank < ranks)
    }

    /// The first cause that numbers in their ranges have by the case so far.
    fn case_cause(&self, form: Form, numbers: &[u32]) -> Option<Code>
        requires small { IsSmall self.now.head }
        requires count { IsTrue (takes form (length numbers.now)) }
        requires ranges { IsTrue (fits form numbers.now) }
        ensures exact { result ≡ find (has_number_cause (known_in self.now) form numbers.now) case_codes }
        ensures rank { IfNone result (form ≡ Form.Die → slice_index numbers.now 0 < 16) }
    {
        match form {
            Form::Levels => when(self.has_too_many_cells(numbers[0]), Code::TooManyCells),
            Form::Coarsen => when(self.head.refine < numbers[0], Code::Crossed),
            Form::Fill => when(!self.holds_fill(numbers), Code::FillOutside),
            Form::Die if self.head.ranks <= numbers[0] => Some(Code::DieRank),
            Form::Die => when(self.dies(numbers[0]), Code::DieTwice),
            Form::Order => when(!self.are_ranks(numbers), Code::OrderRank),
            Form::Forest
            | Form::Roots
            | Form::Side
            | Form::Ranks
            | Form::Steps
            | Form::Snapshot
            | Form::Regrid
            | Form::Refine
            | Form::Flow
            | Form::Turns
            | Form::Shift
            | Form::End
            | Form::Other => None,
        }
    }

    /// The first cause that the numbers of a line have.
    pub fn number_cause(&self, form: Form, numbers: &[u32]) -> Option<Code>
        requires small { IsSmall self.now.head }
        requires count { IsTrue (takes form (length numbers.now)) }
        ensures exact { result ≡ find (has_number_cause (known_in self.now) form numbers.now) number_codes }
        ensures rank { IfNone result (form ≡ Form.Die → slice_index numbers.now 0 < 16) }
    {
        if !form.fits(numbers) {
            return Some(Code::OutOfRange);
        }
        self.case_cause(form, numbers)
    }

    /// The outline with one more line.
    pub fn with_line(&self, form: Form, numbers: &[u32]) -> Outline
        requires count { IsTrue (takes form (length numbers.now)) }
        requires rank { form ≡ Form.Die → slice_index numbers.now 0 < 16 }
        ensures { result ≡ outline_with self.now form numbers.now }
    {
        Outline {
            next: next_after(self.next, form),
            ended: form == Form::End || self.ended,
            head: head_with(self.head, form, numbers),
            deaths: deaths_with(self.deaths, form, numbers),
        }
    }
}
