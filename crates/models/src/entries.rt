//! The lines of a table: what their bytes say, by kind.
ghost use Rattle.std.specs.Prelude.{◌≡◌, ℕ, List, Result};
ghost use Rattle.std.specs.Fn.{FnOnceReturnsAt};
ghost use Rattle.frames.specs.Lines.{first_line};
ghost use Rattle.frames.specs.declared.faults.FrameFault.{FrameFault};
ghost use Rattle.models.specs.Entries.{Reads, entry, framed, line_says, opening};

use frames::{Bytes, FrameFault, Refusal, line_at};

// A table's first line: how many states and fair sets it has.
#[derive(Clone, Copy)]
pub struct Opening {
    pub states: u16,
    pub sets: u8,
}

// A later line: a state with its label and its flags, or a pair of states, the second of which may come after the first.
#[derive(Clone, Copy)]
pub enum Entry {
    State { state: u16, label: u16, flags: u8 },
    Edge { from: u16, to: u16 },
}

// What the bytes of a table's first line say.
fn opening_of(bytes: &[u8]) -> Result<Opening, FrameFault>
    ensures { result ≡ opening bytes.now }
{
    match bytes {
        [0x01, a, b, sets] => Ok(Opening {
            states: u16::from_be_bytes([*a, *b]),
            sets: *sets,
        }),
        [0x01, ..] => Err(FrameFault::Count { line: 1 }),
        _ => Err(FrameFault::Kind { line: 1 }),
    }
}

// What the bytes of a later line say.
fn entry_of(bytes: &[u8]) -> Result<Entry, FrameFault>
    ensures { result ≡ entry bytes.now }
{
    match bytes {
        [0x02, a, b, c, d, flags] => Ok(Entry::State {
            state: u16::from_be_bytes([*a, *b]),
            label: u16::from_be_bytes([*c, *d]),
            flags: *flags,
        }),
        [0x03, a, b, c, d] => Ok(Entry::Edge {
            from: u16::from_be_bytes([*a, *b]),
            to: u16::from_be_bytes([*c, *d]),
        }),
        [0x02 | 0x03, ..] => Err(FrameFault::Count { line: 1 }),
        _ => Err(FrameFault::Kind { line: 1 }),
    }
}

// What a line says by a reading of its bytes, and how many bytes it has with its 0A.
fn said_in<T: Copy, F: FnOnce(&[u8]) -> Result<T, FrameFault>>(
    line: &[u8],
    reading: F,
) -> Result<(T, usize), FrameFault>
    requires { F.IsAlwaysCallable reading }
    ensures { (frame : List ℕ → Result T FrameFault) → Reads (FnOnceReturnsAt F.FnOnce reading) frame → result ≡ framed frame (first_line 1 line.now) }
{
    let digits = line_at(line, 0, 1)?;
    let bytes = Bytes::of(digits);
    let said = reading(bytes.as_slice())?;
    Ok((said, digits.len() + 1))
}

// What a line says that stands alone, by a reading of its bytes.
fn lone<T: Copy, F: FnOnce(&[u8]) -> Result<T, FrameFault>>(
    line: &[u8],
    reading: F,
) -> Result<T, Refusal>
    requires { F.IsAlwaysCallable reading }
    ensures { (frame : List ℕ → Result T FrameFault) → Reads (FnOnceReturnsAt F.FnOnce reading) frame → result ≡ line_says frame line.now }
{
    let (said, size) = said_in(line, reading)?;
    if size < line.len() {
        return Err(Refusal::Order { line: 1 });
    }
    Ok(said)
}

// What a table's first line says that stands alone.
pub fn lone_opening(line: &[u8]) -> Result<Opening, Refusal>
    ensures { result ≡ line_says opening line.now }
{
    lone(line, opening_of)
}

// What a later line says that stands alone.
pub fn lone_entry(line: &[u8]) -> Result<Entry, Refusal>
    ensures { result ≡ line_says entry line.now }
{
    lone(line, entry_of)
}
