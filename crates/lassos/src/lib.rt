//! The judge's core: whether a list of words is a counterexample of a model to a property.
#![tactic(auto)]

mod fairness;
pub mod judging;
mod shape;
mod sweeping;
mod truth;

pub use judging::judge;
