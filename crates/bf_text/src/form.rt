//! What a line is for, by its first word.
ghost use Rattle.std.specs.Prelude.{◌≡◌, length, IsTrue};
ghost use Rattle.std.specs.List.{list_all};
ghost use Rattle.std.specs.Str.{bytes_eq};
ghost use Rattle.bf_text.specs.Forms.{word_range, is_within, are_within};

/// The least and the greatest number that may stand at a place.
#[derive(Clone, Copy)]
pub struct Range {
    pub least: u32,
    pub greatest: u32,
}

/// Any number of 32 bits.
const ANY: Range = Range {
    least: 0,
    greatest: 4294967295,
};

/// Roots along an axis, and ranks.
const FEW: Range = Range {
    least: 1,
    greatest: 16,
};

const SIDES: Range = Range {
    least: 2,
    greatest: 16,
};

const LEVELS: Range = Range {
    least: 0,
    greatest: 4,
};

const TIMES: Range = Range {
    least: 0,
    greatest: 128,
};

const SOME_TIME: Range = Range {
    least: 1,
    greatest: 128,
};

const FLOW_TURNS: Range = Range {
    least: 0,
    greatest: 8,
};

const SHIFTS: Range = Range {
    least: 0,
    greatest: 1000,
};

/// The form of a line. The header, the keys, what stands in the body, and the end; in this order.
#[derive(Clone, Copy, Debug, PartialEq, Eq)]
pub enum Form {
    Forest,
    Roots,
    Side,
    Levels,
    Ranks,
    Steps,
    Snapshot,
    Regrid,
    Refine,
    Coarsen,
    Flow,
    Turns,
    Shift,
    Fill,
    Die,
    Order,
    End,
    /// No word of the format.
    Other,
}

pub fn is_word(word: &[u8], text: &[u8]) -> bool
    ensures { result ≡ bytes_eq word.now text.now }
{
    word == text
}

fn is_within(range: Range, number: u32) -> bool
    ensures { result ≡ is_within range number }
{
    range.least <= number && number <= range.greatest
}

fn are_within(ranges: &[Range], numbers: &[u32]) -> bool
    ensures { result ≡ are_within ranges.now numbers.now }
{
    ranges
        .iter()
        .zip(numbers)
        .all(|(range, number)| is_within(*range, *number))
}

fn are_small(numbers: &[u32]) -> bool
    ensures { result ≡ list_all (is_within word_range) numbers.now }
{
    numbers.iter().all(|number| is_within(ANY, *number))
}

impl Form {
    ghost use Rattle.bf_text.specs.Forms.{form_of, place_of, ranges_of, takes, fits, is_heading};

    /// The form that a word asks for.
    pub fn of(word: &[u8]) -> Form
        ensures { result ≡ form_of word.now }
    {
        if is_word(word, b"forest") {
            Form::Forest
        } else if is_word(word, b"roots") {
            Form::Roots
        } else if is_word(word, b"side") {
            Form::Side
        } else if is_word(word, b"levels") {
            Form::Levels
        } else if is_word(word, b"ranks") {
            Form::Ranks
        } else if is_word(word, b"steps") {
            Form::Steps
        } else if is_word(word, b"snapshot") {
            Form::Snapshot
        } else if is_word(word, b"regrid") {
            Form::Regrid
        } else if is_word(word, b"refine") {
            Form::Refine
        } else if is_word(word, b"coarsen") {
            Form::Coarsen
        } else if is_word(word, b"flow") {
            Form::Flow
        } else if is_word(word, b"turns") {
            Form::Turns
        } else if is_word(word, b"shift") {
            Form::Shift
        } else if is_word(word, b"fill") {
            Form::Fill
        } else if is_word(word, b"die") {
            Form::Die
        } else if is_word(word, b"order") {
            Form::Order
        } else if is_word(word, b"end") {
            Form::End
        } else {
            Form::Other
        }
    }

    /// The place in the order of forms.
    pub fn place(self) -> u32
        ensures { result ≡ place_of self }
    {
        self as u32
    }

    /// Whether lines of this form stand in a case once, before the body.
    pub fn is_heading(self) -> bool
        ensures { result ≡ is_heading self }
    {
        self.place() <= 12
    }

    /// The ranges of the numbers that follow the word; an order has any number of ranks.
    fn ranges(self) -> &'static [Range]
        ensures { result.now ≡ ranges_of self }
    {
        match self {
            Form::Forest | Form::Refine | Form::Coarsen => &[ANY],
            Form::Roots => &[FEW, FEW, FEW],
            Form::Side => &[SIDES],
            Form::Levels => &[LEVELS],
            Form::Ranks => &[FEW],
            Form::Steps | Form::Regrid => &[TIMES],
            Form::Snapshot => &[SOME_TIME],
            Form::Flow | Form::Turns => &[FLOW_TURNS],
            Form::Shift => &[SHIFTS],
            Form::Fill => &[ANY, ANY, ANY, ANY, ANY, ANY, ANY],
            Form::Die => &[ANY, ANY],
            Form::Order | Form::End | Form::Other => &[],
        }
    }

    /// Whether so many words may follow the word.
    pub fn takes(self, count: usize) -> bool
        ensures { result ≡ takes self count }
    {
        match self {
            Form::Order => 1 <= count,
            Form::Other => false,
            _ => count == self.ranges().len(),
        }
    }

    /// Whether the numbers are in their ranges; a side is even too.
    pub fn fits(self, numbers: &[u32]) -> bool
        requires { IsTrue (takes self (length numbers.now)) }
        ensures { result ≡ fits self numbers.now }
    {
        match self {
            Form::Order => are_small(numbers),
            Form::Side => are_within(self.ranges(), numbers) && numbers[0] % 2 == 0,
            _ => are_within(self.ranges(), numbers),
        }
    }
}
