//! Filling a table from its lines.
use frames::Refusal;
use models::{Sealed, begin};
use std::alloc::Global;

// The bytes of a line: `!` at its end leaves its 0A out, and `,` stands for a 0A inside it.
fn bytes_of(heap: Global, line: &str) -> anyhow::Result<Vec<u8>> {
    let mut bytes = Vec::new(heap);
    let mut closed = true;
    for b in line.bytes() {
        match b {
            b'!' => closed = false,
            b',' => bytes.push(b'\n')?,
            _ => bytes.push(b)?,
        }
    }
    if closed {
        bytes.push(b'\n')?;
    }
    Ok(bytes)
}

// The numbers of a text, parted by blanks.
pub(crate) fn words_of(heap: Global, text: &str) -> anyhow::Result<Vec<u32>> {
    let mut all = Vec::new(heap);
    for word in text.split(' ') {
        if !word.is_empty() {
            all.push(word.parse::<u32>()?)?;
        }
    }
    Ok(all)
}

// The table that its lines fill, sealed, or the refusal of the first line that is refused.
pub(crate) fn fill(
    heap: Global,
    lines: &str,
    store: &mut [u32],
) -> anyhow::Result<Result<Sealed, Refusal>> {
    let (first, rest) = lines.split_once('/').unwrap_or((lines, ""));
    let first = bytes_of(heap, first)?;
    let mut filling = match begin(first.as_slice(), store) {
        Ok(filling) => filling,
        Err(refusal) => return Ok(Err(refusal)),
    };
    for line in rest.split('/') {
        if !line.is_empty() {
            let bytes = bytes_of(heap, line)?;
            if let Err(refusal) = filling.feed(bytes.as_slice(), store) {
                return Ok(Err(refusal));
            }
        }
    }
    Ok(Ok(filling.seal()))
}
