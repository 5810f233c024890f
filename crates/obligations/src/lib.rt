//! The obligation graph of a component of the product, and the test of a component.
#![tactic(auto)]

pub mod accepting;
pub mod dues;
mod ending;
pub mod inside;
mod layering;
pub mod moves;
pub mod obligations;
pub mod testing;
pub mod walking;

pub use dues::due;
pub use inside::{Inside, Segment};
pub use moves::Moves;
pub use obligations::Obligations;
pub use testing::{Component, leaves};
