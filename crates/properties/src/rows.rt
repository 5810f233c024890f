//! The plain rows of a property: a connective and a node.
ghost use Rattle.std.specs.Prelude.{◌≤◌};

// A node. An operand is the number of an earlier node.
#[derive(Clone, Copy)]
pub enum Node {
    True,
    Proposition(u8),
    Not(u8),
    Next(u8),
    And(u8, u8),
    Or(u8, u8),
    // a connective, and as many operands as `arity` says, one for each letter
    Apply {
        connective: u8,
        arity: u8,
        operands: [u8; 4],
    },
}

// An automaton: `finals` has bit q for a final state q, and `moves[4 * p + a]` has bit r where state p on letter a may go to r.
#[derive(Clone, Copy)]
pub struct Connective {
    pub states: u8,
    pub letters: u8,
    pub start: u8,
    pub finals: u8,
    pub moves: [u8; 32],
    ghost few_states: { states ≤ 8 },
    ghost few_letters: { letters ≤ 4 },
}
