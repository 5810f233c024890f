//! Frames: what the lines of a property's text say, by kind.
ghost use Rattle.std.specs.Prelude.{◌≡◌, ℕ, ◌+◌, ◌<◌, ◌≤◌, length, take, drop};
ghost use Rattle.frames.specs.Borrowed.{framed, stepped};
ghost use Rattle.frames.specs.Frames.{first_frame, frame_of_bytes};
ghost use Rattle.frames.specs.Lines.{spelt};

use crate::faults::FrameFault;
use crate::lines::{Bytes, line_at};

// A line of a property. An operand is the number of an earlier node.
#[derive(Clone, Copy, Debug, PartialEq, Eq)]
pub enum Frame<'a> {
    Connective {
        states: u8,
        letters: u8,
        start: u8,
        finals: u8,
    },
    Transition {
        from: u8,
        letter: u8,
        to: u8,
    },
    Proposition(u8),
    Not(u8),
    Next(u8),
    And(u8, u8),
    Or(u8, u8),
    // the operands are the part of the line that spells them, two digits each
    Apply {
        connective: u8,
        operands: &'a [u8],
    },
    True,
    End,
}

// What the bytes of a line say, where `digits` spell them: the first byte is the kind, the rest are its fields.
fn frame_by_kind<'a>(bytes: &[u8], digits: &'a [u8], number: u32) -> Result<Frame<'a>, FrameFault>
    requires spelt { bytes.now ≡ take 7 (spelt digits.now) }
    ensures { framed result ≡ frame_of_bytes number bytes.now }
{
    match *bytes {
        [0x10, states, letters, start, finals] => Ok(Frame::Connective {
            states,
            letters,
            start,
            finals,
        }),
        [0x11, from, letter, to] => Ok(Frame::Transition { from, letter, to }),
        [0x20, p] => Ok(Frame::Proposition(p)),
        [0x21, i] => Ok(Frame::Not(i)),
        [0x22, i] => Ok(Frame::Next(i)),
        [0x23, i, j] => Ok(Frame::And(i, j)),
        [0x24, i, j] => Ok(Frame::Or(i, j)),
        [0x25, connective, _, ..] if bytes.len() < 7 => Ok(Frame::Apply {
            connective,
            operands: &digits[4..],
        }),
        [0x26] => Ok(Frame::True),
        [0x2f] => Ok(Frame::End),
        [0x10 | 0x11 | 0x20..=0x26 | 0x2f, ..] => Err(FrameFault::Count { line: number }),
        _ => Err(FrameFault::Kind { line: number }),
    }
}

// What a line's digits say, or what is wrong with the line, which is told as the line `number`.
pub fn frame_of<'a>(digits: &'a [u8], number: u32) -> Result<Frame<'a>, FrameFault>
    ensures { framed result ≡ frame_of_bytes number (spelt digits.now) }
{
    let bytes = Bytes::of(digits);
    frame_by_kind(bytes.as_slice(), digits, number)
}

// What the line says that begins at `at`, and how many bytes it has with the 0A that closes it.
pub fn frame_at<'a>(
    text: &'a [u8],
    at: usize,
    number: u32,
) -> Result<(Frame<'a>, usize), FrameFault>
    ensures { stepped result ≡ first_frame number (drop at text.now) }
{
    let digits = line_at(text, at, number)?;
    let frame = frame_of(digits, number)?;
    Ok((frame, digits.len() + 1))
}
