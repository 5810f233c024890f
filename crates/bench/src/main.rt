//! Work of a chosen size, to be timed: `path N` and `table N` ask for the longest shortest walk of a ring of N states, as a ring and as
//! a table; `judge N` asks the judge about a loop of N words with a connective of eight states.
#![tactic(auto)]

mod rings;

use anyhow::anyhow;
use graphs::{Graph, path};
use lassos::judge;
use models::{Model, Table, begin};
use properties::Property;
use rings::Ring;
use std::alloc::Global;
use std::env;

// "Proposition 0 at every seventh time, from time 0 on": seven states go round on "true", and the eighth is reached where 0 is false.
const EVERY_SEVENTH: &[u8] =
    b"1008020080\n11000001\n11010002\n11020003\n11030004\n11040005\n11050006\n11060000\n11000107\n26\n2000\n2101\n25000002\n2103\n2F\n";

fn longest<M: Model>(rt: &HostRuntime, model: &M) -> anyhow::Result<()> {
    let heap = rt.alloc();
    let n = model.states();
    let mut scratch = vec![in heap; 0; 2 * n as usize]?;
    let mut list = vec![in heap; 0; n as usize]?;
    match path(
        model,
        0,
        n.saturating_sub(1),
        scratch.as_mut_slice(),
        list.as_mut_slice(),
    ) {
        Ok(Some(len)) => println!(rt; "a walk of {len} states")?,
        Ok(None) => println!(rt; "no walk")?,
        Err(_) => println!(rt; "refused")?,
    }
    Ok(())
}

// Hands a line to `begin` or `feed`, with its 0A.
fn tabled(rt: &HostRuntime, n: u32) -> anyhow::Result<()> {
    let heap = rt.alloc();
    let mut store = vec![in heap; 0; 16384]?;
    let first = format!(in heap; "01{n:04X}00\n")?;
    let mut filling = begin(first.as_bytes(), store.as_mut_slice()).map_err(|_| anyhow!(
        "no such table"
    ))?;
    for s in 0..n {
        let t = if s + 1 < n { s + 1 } else { 0 };
        let line = format!(in heap; "03{s:04X}{t:04X}\n")?;
        filling
            .feed(line.as_bytes(), store.as_mut_slice())
            .map_err(|_| anyhow!("no such line"))?;
    }
    let sealed = filling.seal();
    longest(rt, &Table::new(&sealed, store.as_slice()))
}

fn judged(rt: &HostRuntime, n: u32) -> anyhow::Result<()> {
    let heap = rt.alloc();
    let property = Property::read(EVERY_SEVENTH).map_err(|_| anyhow!("no property"))?;
    let ring = Ring::new(64);
    let list: Vec<u32> = (0..n).map(|i| i % 64).collect(heap)?;
    let mut scratch = vec![in heap; 0; 3 * n as usize]?;
    match judge(
        &property,
        &ring,
        list.as_slice(),
        0,
        n,
        scratch.as_mut_slice(),
    ) {
        Ok(says) => println!(rt; "the judge says {says}")?,
        Err(_) => println!(rt; "refused")?,
    }
    Ok(())
}

fn run(rt: &HostRuntime) -> anyhow::Result<()> {
    let mut args = env::args(rt)?;
    let _ = args.next();
    let (Some(kind), Some(size)) = (args.next(), args.next()) else {
        return Err(anyhow!("path, table or judge, and a size"));
    };
    let n = size.as_str().parse::<u32>()?;
    match kind.as_str() {
        "path" => longest(rt, &Ring::new(n.min(65536))),
        "table" => tabled(rt, n.min(4096)),
        _ => judged(rt, n),
    }
}

fn main(rt: HostRuntime) -> anyhow::Result<()> {
    run(&rt)
}
