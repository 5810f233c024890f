//! Rows that grow by a connective, a transition or a node.
ghost use Rattle.std.specs.Prelude.{◌≡◌, ℕ, ◌+◌, ◌-◌, ◌*◌, ◌<◌, ◌≤◌, true, [], ◌∷◌, ◌++◌, length, slice_index_or, slice_set};
ghost use Rattle.language.specs.Properties.{connective_at, node_width};
ghost use Rattle.language.specs.Reading.{moving};
ghost use Rattle.properties.specs.Meaning.{of_rows};
ghost use Rattle.properties.specs.Views.{connective_of, no_row, node_of};

use crate::arrays::Rows;
use crate::rows::{Connective, Node};

impl Connective {
    // The same connective, where state p on letter a may go to r too.
    fn with_bit(self, p: u8, a: u8, r: u8) -> Connective
        requires range { (p < self.states) × ((a < self.letters) × (r < self.states)) }
        ensures moves { connective_of result ≡ moving p a r (connective_of self) }
        ensures size { (result.states ≡ self.states) × (result.letters ≡ self.letters) }
    {
        let mut row = self;
        row.moves[4 * p as usize + a as usize] |= 1 << r;
        row
    }
}

impl Rows {
    // No connective and no node.
    pub(crate) fn new() -> Rows
        ensures { of_rows result ≡ record { connectives = []; nodes = [] } }
    {
        let none = Connective {
            states: 0,
            letters: 0,
            start: 0,
            finals: 0,
            moves: [0; 32],
        };
        Rows {
            connectives: [none; 4],
            used: 0,
            nodes: [Node::True; 32],
            count: 0,
            width: 0,
        }
    }

    // One connective more, before there is a node.
    pub(crate) fn add_connective(&mut self, row: Connective)
        requires room { (self.old.used < 4) × (self.old.count ≡ 0) }
        ensures { of_rows self.new ≡ record { connectives = (of_rows self.old).connectives ++ connective_of row ∷ []; nodes = (of_rows self.old).nodes } }
    {
        self.connectives[self.used as usize] = row;
        self.used += 1;
    }

    // One transition more of the latest connective, before there is a node.
    pub(crate) fn add_move(&mut self, p: u8, a: u8, r: u8)
        requires room { (0 < self.old.used) × (self.old.count ≡ 0) }
        requires range { (p < (slice_index_or self.old.connectives (self.old.used - 1) no_row).states) × ((a < (slice_index_or self.old.connectives (self.old.used - 1) no_row).letters) × (r < (slice_index_or self.old.connectives (self.old.used - 1) no_row).states)) }
        ensures { of_rows self.new ≡ record { connectives = slice_set (of_rows self.old).connectives (self.old.used - 1) (moving p a r (connective_at (of_rows self.old).connectives (self.old.used - 1))); nodes = (of_rows self.old).nodes } }
    {
        let latest = self.used as usize - 1;
        self.connectives[latest] = self.connectives[latest].with_bit(p, a, r);
    }

    // One node more, with the width that the nodes then have.
    pub(crate) fn add_node(&mut self, row: Node, width: u8)
        requires room { self.old.count < 32 }
        requires wide { (width ≡ self.old.width + node_width (of_rows self.old).connectives (node_of row)) × (width ≤ 12) }
        ensures { of_rows self.new ≡ record { connectives = (of_rows self.old).connectives; nodes = (of_rows self.old).nodes ++ node_of row ∷ [] } }
    {
        self.nodes[self.count as usize] = row;
        self.count += 1;
        self.width = width;
    }
}
