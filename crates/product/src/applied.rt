//! A connective node at a vertex.
ghost use Rattle.std.specs.Prelude.{◌+◌, ◌≤◌};

use properties::Connective;

// The connective, the operands of its letters, the number of the node's first bit, the nodes that are true at the vertex, and its mask.
#[derive(Clone, Copy)]
pub(crate) struct Applied {
    pub(crate) row: Connective,
    pub(crate) operands: [u8; 4],
    pub(crate) start: u8,
    pub(crate) truths: u32,
    pub(crate) mask: u32,
    ghost room: { start + row.states ≤ 12 },
}
