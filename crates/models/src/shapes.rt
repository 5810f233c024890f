//! Tables before and after their sealing: how many states, fair sets and pairs they have.
ghost use Rattle.std.specs.Prelude.{◌+◌, ◌^◌, ◌<◌, ◌≤◌};

// How many states, fair sets and pairs a table has.
#[derive(Clone, Copy)]
pub struct Sizes {
    pub(crate) states: u32,
    pub(crate) sets: u32,
    pub(crate) pairs: usize,
    ghost some: { 1 ≤ states },
    ghost most: { states ≤ 4096 },
    ghost few: { sets ≤ 4 },
    ghost held: { states + pairs < 2 ^ 64 },
}

// A table that is being filled: the words are in a store that is lent to each call.
#[derive(Drop)]
pub struct Filling {
    pub(crate) sizes: Sizes,
}

// A table that is filled no more.
#[derive(Drop)]
pub struct Sealed {
    pub(crate) sizes: Sizes,
}
