//! Reads a property's text from standard input, and writes its canonical text, or the refusal as one line.
#![tactic(auto)]

use anyhow::anyhow;
use properties::normalise;
use std::io::{Read, Write};

// Room for every canonical text: the longest has fewer than 10,000 bytes.
const ROOM: usize = 16384;

// A text may have 65,536 bytes; one more is enough to see that it is too long.
const MOST: u64 = 65537;

fn run(rt: &HostRuntime) -> anyhow::Result<()> {
    let heap = rt.alloc();
    let mut text = Vec::new(heap);
    rt.stdin().take(MOST).read_to_end(&mut text)?;
    let mut area = vec![in heap; 0; ROOM]?;
    let length = normalise(&text, &mut area).map_err(|_| anyhow!("the text has no room"))?;
    if let Some(shown) = area.get(..length) {
        rt.stdout().write_all(shown)?;
    }
    Ok(())
}

fn main(rt: HostRuntime) -> anyhow::Result<()> {
    run(&rt)
}
