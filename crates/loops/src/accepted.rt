//! What a lasso is built from: a component that passed its test.
ghost use Rattle.std.specs.Prelude.{◌≤◌, length};
ghost use Rattle.graphs.specs.Words.{word};
ghost use Rattle.obligations.specs.Testing.{Stacked};

use models::Model;
use obligations::Obligations;

// A component of the product, with its obligation graph and the stack that it lies on, and the vertex x at which it passed its test.
// That it did is asked of each question: a walk that shows it is no fact that a type can carry.
#[derive(Drop)]
pub struct Accepted<'a, M: Model> {
    pub obligations: Obligations<'a, M>,
    pub stack: &'a [u32],
    pub x: u32,
    ghost long: { obligations.inside.segment.top ≤ length stack.now },
    ghost stacked: { Stacked (word stack.now) (word obligations.inside.segment.place.now) obligations.inside.segment.top },
}
