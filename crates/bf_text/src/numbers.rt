//! The numbers that words write.
ghost use Rattle.std.specs.Prelude.{◌≡◌, ◌^◌, ◌≤◌, false, min, map, length, IfOk, IsTrue, MatchOption};
ghost use Rattle.std.specs.Char.{is_ascii_digit};
ghost use Rattle.std.specs.List.{list_all};
ghost use Rattle.std.specs.Str.Parse.{digits_value};
ghost use Rattle.bf_text.specs.Lines.{words_of};
ghost use Rattle.bf_text.specs.Forms.{word_range, is_within};
ghost use Rattle.bf_text.specs.Entries.{is_number};

use crate::lines::next_word;
use bf_edge::Memory;
use std::alloc::Global;

/// The least number that has more than 32 bits.
const LARGE: u64 = 1 << 32;

/// How many words there are.
pub fn count_words(bytes: &[u8]) -> usize
    ensures { result ≡ length (words_of bytes.now) }
{
    let mut count = 0;
    let mut rest = bytes;
    while let Some((_word, others)) = next_word(rest) {
        count += 1;
        rest = others;
    }
    count
}

fn are_digits(word: &[u8]) -> bool
    ensures { result ≡ list_all is_ascii_digit word.now }
{
    word.iter().all(|b| b.is_ascii_digit())
}

fn is_number(word: &[u8]) -> bool
    ensures { result ≡ is_number word.now }
{
    1 <= word.len() && word.len() <= 20 && are_digits(word)
}

/// Whether each word is a number.
pub fn are_numbers(bytes: &[u8]) -> bool
    ensures { result ≡ list_all is_number (words_of bytes.now) }
{
    let mut rest = bytes;
    while let Some((word, others)) = next_word(rest) {
        if !is_number(word) {
            return false;
        }
        rest = others;
    }
    true
}

/// The number that digits write; all that is large counts as one number.
fn capped(digits: &[u8]) -> u64
    requires { IsTrue (list_all is_ascii_digit digits.now) }
    ensures { result ≡ min (2 ^ 32) (digits_value 10 digits.now) }
{
    let mut value = 0;
    for digit in digits {
        value = (value * 10 + u64::from(*digit - b'0')).min(LARGE);
    }
    value
}

/// The number of a word, if it has 32 bits.
fn value_of(word: &[u8]) -> Option<u32>
    requires { IsTrue (is_number word.now) }
    ensures { MatchOption result (2 ^ 32 ≤ digits_value 10 word.now) (λ value. value ≡ digits_value 10 word.now) }
{
    let value = capped(word);
    if value < LARGE {
        Some(value as u32)
    } else {
        None
    }
}

/// The numbers of all words, if each of them has 32 bits.
pub fn read_numbers(alloc: Global, bytes: &[u8]) -> Result<Option<Vec<u32>>, Memory>
    requires { IsTrue (list_all is_number (words_of bytes.now)) }
    ensures { IfOk result (λ found. MatchOption found
        (list_all (is_within word_range) (map (digits_value 10) (words_of bytes.now)) ≡ false)
        (λ numbers. numbers.items ≡ map (digits_value 10) (words_of bytes.now))) }
{
    let mut numbers = Vec::new(alloc);
    let mut rest = bytes;
    while let Some((word, others)) = next_word(rest) {
        let Some(number) = value_of(word) else {
            return Ok(None);
        };
        numbers.push(number)?;
        rest = others;
    }
    Ok(Some(numbers))
}
