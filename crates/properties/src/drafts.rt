//! What the lines of a text have said so far.
use crate::arrays::Rows;

#[derive(Clone, Copy)]
pub enum Draft {
    // more lines may follow
    Open(Rows),
    // the end line was read
    Ended(Rows),
}
