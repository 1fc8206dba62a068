//! Why an input is no case.
ghost use Rattle.std.specs.Prelude.{◌≡◌};

use thiserror::Error;

/// The cause for which an input is refused.
#[derive(Clone, Copy, Debug, PartialEq, Eq, Error)]
pub enum Code {
    /// The line has a byte that may stand in a comment alone.
    #[error("a byte that only a comment may have")]
    NotText,
    /// The input is longer than an input may be.
    #[error("longer than an input may be")]
    TooLong,
    /// The first line with words isn't `forest 1`.
    #[error("no `forest 1` before all else")]
    BadHeader,
    /// The first word is none of the format, or another number of words belongs to it.
    #[error("an unknown key, or another number of words than belong to it")]
    BadLine,
    /// A word isn't one to twenty decimal digits.
    #[error("a word that is not one to twenty decimal digits")]
    BadNumber,
    /// A number is outside its range, or a side is odd.
    #[error("a number outside its range, or an odd side")]
    OutOfRange,
    /// A key that belongs before this line hasn't come.
    #[error("a key that belongs before this line is missing")]
    Missing,
    /// The key has come before, or a second header stands here.
    #[error("a key or a header that has come before")]
    Repeated,
    /// The whole domain would have too many cells at its finest level.
    #[error("too many cells at the finest level")]
    TooManyCells,
    /// The limit to coarsen is above the limit to refine.
    #[error("`coarsen` above `refine`")]
    Crossed,
    /// The box of a fill isn't in the domain, or its corners are exchanged.
    #[error("a fill that is not in the domain, or whose corners are exchanged")]
    FillOutside,
    /// The rank that dies is none of the case.
    #[error("the death of a rank that the case does not have")]
    DieRank,
    /// The rank dies by an earlier line.
    #[error("a second death of a rank")]
    DieTwice,
    /// A rank of the order is none of the case.
    #[error("a turn of a rank that the case does not have")]
    OrderRank,
    /// Words stand after the end.
    #[error("words after the end")]
    AfterEnd,
    /// The end is missing.
    #[error("no end")]
    NoEnd,
}

impl Code {
    ghost use Rattle.bf_text.specs.Codes.{number_of};

    /// The number by which the cause is told.
    pub fn number(self) -> u32
        ensures { result ≡ number_of self }
    {
        match self {
            Code::NotText => 1,
            Code::TooLong => 2,
            Code::BadHeader => 3,
            Code::BadLine => 4,
            Code::BadNumber => 5,
            Code::OutOfRange => 6,
            Code::Missing => 7,
            Code::Repeated => 8,
            Code::TooManyCells => 9,
            Code::Crossed => 10,
            Code::FillOutside => 11,
            Code::DieRank => 12,
            Code::DieTwice => 13,
            Code::OrderRank => 14,
            Code::AfterEnd => 15,
            Code::NoEnd => 16,
        }
    }
}

/// Where an input is refused, and why.
#[derive(Clone, Copy, Debug, PartialEq, Eq, Error)]
#[error("line {line}: {code}")]
pub struct Refusal {
    /// Lines count from 1, blank ones and comments too. Line 0 is the whole input, and an end that is
    /// missing has the line after the last.
    pub line: u32,
    pub code: Code,
}

/// Why no case was read.
#[derive(Clone, Copy, Debug, PartialEq, Eq, Error)]
pub enum CaseFault {
    /// The bytes spell no case.
    #[error(transparent)]
    Refused(Refusal),
    /// Memory was refused, so the bytes may spell a case or none.
    #[error("no memory")]
    Memory,
}
