//! Questions about a table, and piles of it.
use crate::filling::words_of;
use crate::points::Point;
use graphs::{Graph, path};
use lassos::judge;
use models::{Clamp, Model, Pair, Table};
use properties::Property;

// The successors of a state, one question after the other.
fn successors<M: Model>(rt: &HostRuntime, model: &M, s: u32) -> anyhow::Result<()> {
    let mut from = 0;
    for _ in 0..model.states() {
        let Some(t) = model.next(s, from) else {
            break;
        };
        print!(rt; " {t}")?;
        from = t.saturating_add(1);
    }
    Ok(println!(rt; "")?)
}

// What every question about the first states answers, and one past the last.
fn describe<M: Model>(rt: &HostRuntime, model: &M) -> anyhow::Result<()> {
    let n = model.states();
    let sets = model.fair_sets();
    println!(rt; "states {n} sets {sets}")?;
    for s in 0..n.min(8) + 1 {
        print!(rt;
            "{s} label {} start {} fair",
            model.label(s),
            model.start(s)
        )?;
        for j in 0..sets.min(8) + 1 {
            print!(rt; " {}", model.fair(j, s))?;
        }
        print!(rt; " to")?;
        successors(rt, model, s)?;
    }
    Ok(())
}

// A walk of fewest steps, and whether the scratch is zero after it and the list untouched past it.
fn walk<M: Model>(rt: &HostRuntime, model: &M, from: u32, to: u32) -> anyhow::Result<()> {
    let heap = rt.alloc();
    let n = model.states() as usize;
    let mut scratch = vec![in heap; 7; 2 * n]?;
    let mut list = vec![in heap; 99; n + 1]?;
    match path(model, from, to, scratch.as_mut_slice(), list.as_mut_slice()) {
        Ok(Some(len)) => print!(rt; "walk of {len}:")?,
        Ok(None) => print!(rt; "no walk:")?,
        Err(refusal) => print!(rt; "refused {}:", refusal.number())?,
    }
    println!(rt; " {list:?} {scratch:?}")?;
    Ok(())
}

// What the judge says of the list with a stem of `a` words and a loop of `b`.
fn verdict<M: Model>(
    rt: &HostRuntime,
    model: &M,
    text: &str,
    a: u32,
    b: u32,
    list: &[u32],
) -> anyhow::Result<()> {
    let heap = rt.alloc();
    let bytes: Vec<u8> = text
        .bytes()
        .map(|byte| if byte == b'/' { b'\n' } else { byte })
        .collect(heap)?;
    let Ok(property) = Property::read(bytes.as_slice()) else {
        return Ok(println!(rt; "no property")?);
    };
    let mut scratch = vec![in heap; 5; 16]?;
    match judge(&property, model, list, a, b, scratch.as_mut_slice()) {
        Ok(says) => println!(rt; "{says} {scratch:?}")?,
        Err(refusal) => println!(rt; "refused {} {scratch:?}", refusal.number())?,
    }
    Ok(())
}

// The pair of the table, under a clamp that admits every state, with the table.
fn paired(rt: &HostRuntime, table: &Table<'_>) -> anyhow::Result<()> {
    let left = Clamp::new(table, 0, 0);
    describe(rt, &Pair::new(left, table))
}

// The table beside a model of one state and so many fair sets.
fn beside(rt: &HostRuntime, table: &Table<'_>, sets: u32) -> anyhow::Result<()> {
    describe(rt, &Pair::new(table, Point::new(sets)))
}

// A clamp over a pair over a clamp.
fn deep(rt: &HostRuntime, table: &Table<'_>, mask: u16, value: u16) -> anyhow::Result<()> {
    let inner = Clamp::new(table, mask, value);
    let both = Pair::new(inner, table);
    describe(rt, &Clamp::new(both, 256, 0))
}

// The lower half of a word.
fn low(word: u32) -> u16 {
    (word % 65536) as u16
}

fn pile(rt: &HostRuntime, table: &Table<'_>, kind: &str, args: &[u32]) -> anyhow::Result<()> {
    match (kind, args) {
        ("pair", []) => paired(rt, table),
        ("beside", [sets]) => beside(rt, table, *sets),
        ("clamp", [mask, value]) => describe(rt, &Clamp::new(table, low(*mask), low(*value))),
        ("deep", [mask, value]) => deep(rt, table, low(*mask), low(*value)),
        ("walk", [from, to]) => walk(rt, table, *from, *to),
        _ => describe(rt, table),
    }
}

// Answers a question: its kind, and then its numbers; a judge's property stands before them.
pub(crate) fn ask(rt: &HostRuntime, table: &Table<'_>, question: &str) -> anyhow::Result<()> {
    let (kind, rest) = question.split_once(' ').unwrap_or((question, ""));
    if kind == "judge" {
        let (text, words) = rest.split_once(' ').unwrap_or((rest, ""));
        let all = words_of(rt.alloc(), words)?;
        return match all.as_slice() {
            [a, b, list @ ..] => verdict(rt, table, text, *a, *b, list),
            _ => Ok(println!(rt; "too few numbers")?),
        };
    }
    let args = words_of(rt.alloc(), rest)?;
    pile(rt, table, kind, args.as_slice())
}
