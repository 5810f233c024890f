//! Graphs that are asked for the lowest successor, and the finder of a walk of fewest steps.
#![tactic(auto)]

mod cleaning;
mod exploring;
pub mod finding;
pub mod graph;
mod passing;
pub mod paths;
pub mod reaching;
pub mod steps;
mod tracing;

pub use cleaning::clear;
pub use finding::{Finder, find};
pub use graph::Graph;
pub use passing::next_that;
pub use paths::path;
pub use reaching::reaches;
pub use steps::{Plain, Steps};
