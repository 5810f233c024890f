//! Reads cases from standard input, one a line, and prints what comes of each: its canonical text, or its refusal.
//! In a case `/` stands for the byte 0A, a blank only parts pieces, and `N*` before a piece repeats it.
#![tactic(auto)]

use anyhow::anyhow;
use properties::normalise;
use std::io::Write;

// Room for every canonical text: the longest has fewer than 10,000 bytes.
const ROOM: usize = 16384;

// The bytes that a notation stands for.
fn push_text(text: &mut Vec<u8>, notation: &str) -> anyhow::Result<()> {
    for b in notation.bytes() {
        text.push(if b == b'/' { b'\n' } else { b })?;
    }
    Ok(())
}

fn push_piece(text: &mut Vec<u8>, piece: &str) -> anyhow::Result<()> {
    match piece.split_once('*') {
        Some((count, part)) => {
            for _ in 0..count.parse::<u32>()? {
                push_text(text, part)?;
            }
            Ok(())
        }
        None => push_text(text, piece),
    }
}

// The bytes in the notation of the cases.
fn noted(bytes: &mut [u8]) {
    for b in bytes {
        if *b == b'\n' {
            *b = b'/';
        }
    }
}

fn run_case(rt: &HostRuntime, case: &str) -> anyhow::Result<()> {
    let heap = rt.alloc();
    let mut text = Vec::new(heap);
    for piece in case.split(' ') {
        push_piece(&mut text, piece)?;
    }
    let mut area = vec![in heap; 0; ROOM]?;
    let length = normalise(&text, &mut area).map_err(|_| anyhow!("no room"))?;
    if let Some(shown) = area.as_mut_slice().get_mut(..length) {
        noted(shown);
        print!(rt; "{case} -> ")?;
        rt.stdout().write_all(shown)?;
        println!(rt; "")?;
    }
    Ok(())
}

fn main(rt: HostRuntime) -> anyhow::Result<()> {
    for line in rt.lines(rt.alloc()) {
        let case = line?;
        run_case(&rt, case.as_str())?;
    }
    Ok(())
}
