//! Lines of a text, and the bytes that their digits spell.
ghost use Rattle.std.specs.Prelude.{◌≡◌, ℕ, ◌+◌, ◌*◌, ◌<◌, ◌≤◌, Bool, true, false, length, take, drop, MatchOption, ◌≢◌, slice_index, position, ◌==◌};
ghost use Rattle.frames.specs.Borrowed.{lined};
ghost use Rattle.frames.specs.Digits.{value};
ghost use Rattle.frames.specs.Lines.{all_digits, first_line, proper, spelt};

use crate::digits::{digit, value_of};
use crate::faults::LineFault;

// Where the first byte 0A of a text stands.
fn line_end(text: &[u8]) -> Option<usize>
    ensures { result ≡ position (λ b. b == 10) text.now }
{
    text.iter().position(|b| *b == b'\n')
}

// Whether every byte is a digit.
fn all_digits(bytes: &[u8]) -> bool
    ensures { result ≡ all_digits bytes.now }
{
    bytes.iter().all(|b| digit(*b).is_some())
}

// Whether a line has nothing but digits, an even number of them, at least two.
fn is_proper(line: &[u8]) -> bool
    ensures { result ≡ proper line.now }
{
    all_digits(line) && line.len() % 2 == 0 && !line.is_empty()
}

// The digits of the first line of a text, or what is wrong with that line, which is told as the line `number`.
fn first_line(text: &[u8], number: u32) -> Result<&[u8], LineFault>
    ensures { lined result ≡ first_line number text.now }
{
    let Some(end) = line_end(text) else {
        return Err(LineFault::Unclosed { line: number });
    };
    let line = &text[..end];
    if is_proper(line) {
        Ok(line)
    } else {
        Err(LineFault::Digits { line: number })
    }
}

// The digits of the line that begins at `at`, or what is wrong with that line, which is told as the line `number`.
pub fn line_at(text: &[u8], at: usize, number: u32) -> Result<&[u8], LineFault>
    ensures { lined result ≡ first_line number (drop at text.now) }
{
    first_line(&text[at.min(text.len())..], number)
}

// The byte that two digits spell, the higher first.
fn byte_of(high: u8, low: u8) -> u8
    ensures { result ≡ 16 * value high + value low }
{
    16 * value_of(high) + value_of(low)
}

// The first bytes that a line's digits spell: all of them where they are at most six, and else seven, one more than any frame has.
// A buffer with its length: a library has no heap, and the value is copied.
#[derive(Clone, Copy, Debug)]
pub struct Bytes {
    head: [u8; 7],
    len: usize,
    ghost few: { len ≤ 7 },
}

impl Bytes {
    pub fn of(digits: &[u8]) -> Bytes
        ensures { take result.len result.head ≡ take 7 (spelt digits.now) }
    {
        let mut head = [0; 7];
        let len = (digits.len() / 2).min(7);
        // By index: of what is written through `iter_mut` a proof keeps no element.
        for k in 0..len {
            head[k] = byte_of(digits[2 * k], digits[2 * k + 1]);
        }
        Bytes { head, len }
    }

    pub fn as_slice(&self) -> &[u8]
        ensures { result.now ≡ take self.now.len self.now.head }
    {
        &self.head[..self.len]
    }
}
