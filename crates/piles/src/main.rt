//! Tables, piles, shortest walks and the judge at work. Each line of standard input has the lines of a table, a bar, and a question;
//! what comes of it is printed. In the table's lines `/` stands for the byte 0A. Numbers before a `%` in the question are the words of
//! another store that the table is laid over.
#![tactic(auto)]

mod asking;
mod filling;
mod points;

use filling::fill;
use models::Table;

// Words of store for a table.
const ROOM: usize = 320;

fn run_case(rt: &HostRuntime, case: &str) -> anyhow::Result<()> {
    let heap = rt.alloc();
    let Some((lines, question)) = case.split_once('|') else {
        return Ok(println!(rt; "{case}")?);
    };
    let mut store = vec![in heap; 0; ROOM]?;
    println!(rt; "{case}")?;
    match fill(heap, lines, store.as_mut_slice())? {
        Ok(sealed) => match question.split_once('%') {
            Some((words, question)) => {
                let other = filling::words_of(heap, words)?;
                asking::ask(rt, &Table::new(&sealed, other.as_slice()), question)
            }
            None => asking::ask(rt, &Table::new(&sealed, store.as_slice()), question),
        },
        Err(refusal) => Ok(println!(rt; "refused {} {}", refusal.number(), refusal.line())?),
    }
}

fn main(rt: HostRuntime) -> anyhow::Result<()> {
    for line in rt.lines(rt.alloc()) {
        let case = line?;
        run_case(&rt, case.as_str())?;
    }
    Ok(())
}
