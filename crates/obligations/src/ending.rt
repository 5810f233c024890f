//! Whether a connective comes to a final state by one letter that is true.
ghost use Rattle.std.specs.Prelude.{◌≡◌, ◌<◌, ◌≤◌, ◌&&◌, slice_index};
ghost use Rattle.masks.specs.Masks.{bit};
ghost use Rattle.language.specs.Properties.{node_width};
ghost use Rattle.logic.specs.Truth.{node_at};
ghost use Rattle.properties.specs.Meaning.{meaning};
ghost use Rattle.properties.specs.Views.{connective_of};
ghost use Rattle.obligations.specs.Layers.{arrives, ends_node, finishes};

use masks::has;
use product::Plan;
use properties::{Connective, Node};

// A connective, the operands of its letters, and the nodes that are true.
#[derive(Clone, Copy)]
struct Letters {
    row: Connective,
    operands: [u8; 4],
    truths: u32,
}

impl Letters {
    // Whether letter a is true and leads from state q to r.
    fn lead(&self, a: u8, q: u8, r: u8) -> bool
        requires letter { a < self.now.row.letters }
        requires from { q < self.now.row.states }
        requires to { r < self.now.row.states }
        ensures { result ≡ bit self.now.truths (slice_index self.now.operands a) && (connective_of self.now.row).may q a r }
    {
        let states = self.row.moves[4 * q as usize + a as usize];
        has(self.truths, self.operands[a as usize] as u32) && has(states as u32, r as u32)
    }

    // Whether a true letter leads from state q to r.
    fn arrive(&self, q: u8, r: u8) -> bool
        requires from { q < self.now.row.states }
        requires to { r < self.now.row.states }
        ensures { result ≡ arrives (connective_of self.now.row) (λ a. bit self.now.truths (slice_index self.now.operands a)) q r }
    {
        (0..self.row.letters).any(|a| self.lead(a, q, r))
    }

    // Whether r is final and a true letter leads there from state q.
    fn end_at(&self, q: u8, r: u8) -> bool
        requires from { q < self.now.row.states }
        requires to { r < self.now.row.states }
        ensures { result ≡ bit self.now.row.finals r && arrives (connective_of self.now.row) (λ a. bit self.now.truths (slice_index self.now.operands a)) q r }
    {
        has(self.row.finals as u32, r as u32) && self.arrive(q, r)
    }

    // Whether a true letter leads from state q to a final state.
    fn finish(&self, q: u8) -> bool
        requires { q < self.now.row.states }
        ensures { result ≡ finishes (connective_of self.now.row) (λ a. bit self.now.truths (slice_index self.now.operands a)) q }
    {
        (0..self.row.states).any(|r| self.end_at(q, r))
    }
}

// Whether state q of node k comes to a final state by a true letter, where the bits of `truths` say which nodes are true.
pub(crate) fn ends(plan: &Plan, k: usize, q: u8, truths: u32) -> bool
    requires node { k < plan.now.property.rows.count }
    requires state { q < node_width (meaning plan.now.property).connectives (node_at (meaning plan.now.property) k) }
    ensures { result ≡ ends_node (meaning plan.now.property) (bit truths) (node_at (meaning plan.now.property) k) q }
{
    let row = plan.property.rows.nodes[k];
    match row {
        Node::Apply {
            connective,
            operands,
            ..
        } => {
            let letters = Letters {
                row: plan.property.rows.connectives[connective as usize],
                operands,
                truths,
            };
            letters.finish(q)
        }
        _ => false,
    }
}
