//! The product of a model with a property: what is true and claimed at a vertex, its edges, and the index that answers for successors.
#![tactic(auto)]

mod applied;
mod chains;
mod claiming;
mod evaluating;
pub mod indexed;
pub mod indexing;
pub mod laws;
mod owning;
pub mod plan;

pub use indexed::Indexed;
pub use indexing::build;
pub use plan::Plan;
