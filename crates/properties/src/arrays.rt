//! The rows of a property in fixed arrays.
ghost use Rattle.std.specs.Prelude.{◌≡◌, ◌≤◌, length};
ghost use Rattle.properties.specs.Views.{width_of};

use crate::rows::{Connective, Node};

// The first `used` connectives and the first `count` nodes, and the nodes' width: 1 for each next node, and for each connective node
// the states of its connective.
#[derive(Clone, Copy)]
pub struct Rows {
    pub connectives: [Connective; 4],
    pub used: u8,
    pub nodes: [Node; 32],
    pub count: u8,
    pub width: u8,
    ghost four: { length connectives ≡ 4 },
    ghost many: { length nodes ≡ 32 },
    ghost few_connectives: { used ≤ 4 },
    ghost few_nodes: { count ≤ 32 },
    ghost wide: { width ≡ width_of connectives used nodes count },
    ghost narrow: { width ≤ 12 },
}
