//! Tables as models: a sealed table laid over a store.
ghost use Rattle.std.specs.Prelude.{◌≡◌};
ghost use Rattle.models.specs.Fillings.{sealed_shape};
ghost use Rattle.models.specs.Markings.{marking_of};
ghost use Rattle.models.specs.Tables.{pair_words, table, word_of};

use crate::model::{Model, Model as KripkeModel};
use crate::shapes::Sealed;
use crate::words::{lowest, part, word_at};
use graphs::Graph;
use masks::has;

// A sealed table over the store that it is read from.
#[derive(Clone, Copy)]
pub struct Table<'a> {
    sealed: &'a Sealed,
    store: &'a [u32],
}

impl<'a> Table<'a> {
    pub fn new(sealed: &'a Sealed, store: &'a [u32]) -> Table<'a>
        ensures sealed { result.sealed.now ≡ sealed.now }
        ensures store { result.store.now ≡ store.now }
    {
        Table { sealed, store }
    }

    // The word of a state, and 0 where there is no such state or the store lacks the word.
    fn word(&self, s: u32) -> u32
        ensures { result ≡ word_of (sealed_shape self.now.sealed.now) self.now.store.now s }
    {
        if s < self.sealed.sizes.states {
            word_at(self.store, s)
        } else {
            0
        }
    }

    // The words of the pairs, as far as the store has them.
    fn pairs(&self) -> &[u32]
        ensures { result.now ≡ pair_words (sealed_shape self.now.sealed.now) self.now.store.now }
    {
        part(
            self.store,
            self.sealed.sizes.states as usize,
            self.sealed.sizes.pairs,
        )
    }
}

impl<'a> Graph for Table<'a> {
    ghost states = { λ t. (table (sealed_shape t.sealed.now) t.store.now).states };

    ghost edge = { λ t. (table (sealed_shape t.sealed.now) t.store.now).edge };

    fn states(&self) -> u32 {
        self.sealed.sizes.states
    }

    fn next(&self, s: u32, t: u32) -> Option<u32> {
        let n = self.sealed.sizes.states;
        if s < n {
            lowest(self.pairs(), s, t, n)
        } else {
            None
        }
    }
}

impl<'a> KripkeModel for Table<'a> {
    ghost marking = { λ t. marking_of (table (sealed_shape t.sealed.now) t.store.now) };

    fn label(&self, s: u32) -> u16 {
        (self.word(s) % 65536) as u16
    }

    fn start(&self, s: u32) -> bool {
        has(self.word(s), 16)
    }

    fn fair_sets(&self) -> u32 {
        self.sealed.sizes.sets
    }

    fn fair(&self, j: u32, s: u32) -> bool {
        j < self.sealed.sizes.sets && has(self.word(s), 17 + j)
    }
}
