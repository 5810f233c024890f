//! What a check says.

// No fair lasso of the model from a start state falsifies the property; or one does, with so many stem and loop words.
#[derive(Clone, Copy, Debug, PartialEq, Eq)]
pub enum Verdict {
    Holds,
    Broken { stem: u32, turns: u32 },
}
