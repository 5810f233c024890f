//! What a docket is asked for, and what it answers.
use decision::Verdict;

// A turn of any kind, as it is asked for.
#[derive(Clone, Copy, Debug, PartialEq, Eq)]
pub enum Request<'a> {
    Enter { number: u32, text: &'a [u8] },
    Strike { number: u32 },
    Show { number: u32 },
    Check { number: u32 },
    Tally,
}

// What it got, where it was not refused.
#[derive(Clone, Copy, Debug, PartialEq, Eq)]
pub enum Answer {
    // an enter or a strike was accepted
    Done,
    // so many bytes were written
    Shown { length: usize },
    Checked(Verdict),
    // so many enters and strikes were accepted
    Tallied(u32),
}
