//! The decision procedure: whether a property holds over a model.
#![tactic(auto)]

mod accepting;
pub mod deciding;
mod exploring;
mod granting;
mod searching;
mod sweeping;
pub mod verdict;

pub use deciding::decide;
pub use obligations::{
    Component, Inside, Moves, Obligations, Segment, inside, leaves, moves, testing,
};
pub use verdict::Verdict;
