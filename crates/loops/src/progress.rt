//! How far the writing of a lasso has come.

// How many words of the loop are written, and which obligations of the node in hand are still due.
#[derive(Clone, Copy)]
pub struct Progress {
    pub at: usize,
    pub due: u32,
}

// How many words of the loop are written, and the vertex at which it stands.
#[derive(Clone, Copy)]
pub struct Standing {
    pub at: usize,
    pub vertex: u32,
}

// How many stem words and how many loop words a lasso has.
#[derive(Clone, Copy)]
pub struct Lengths {
    pub stem: usize,
    pub turns: usize,
}
