//! Models: tables that are fed line by line, pairs and clamps, each with the Kripke structure that it means.
#![tactic(auto)]

pub mod clamps;
mod entries;
pub mod filling;
pub mod laws;
pub mod model;
mod numbers;
pub mod pairs;
pub mod shapes;
pub mod tables;
mod words;

pub use clamps::Clamp;
pub use filling::begin;
pub use laws::{clamps_admit, clamps_walk, pairs_number, pairs_step};
pub use model::Model;
pub use pairs::Pair;
pub use shapes::{Filling, Sealed};
pub use tables::Table;
