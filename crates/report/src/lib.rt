//! The report of what a check answered, as bytes.
#![tactic(auto)]

pub mod lines;
pub mod reporting;

pub use reporting::report;
