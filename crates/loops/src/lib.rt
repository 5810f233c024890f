//! The loop builder: from a component of the product that passed its test, a fair lasso on which the property is false.
#![tactic(auto)]

pub mod accepted;
mod building;
mod carrying;
mod closing;
mod copying;
pub mod lassos;
pub mod progress;
mod rounds;
mod routing;
mod visiting;

pub use accepted::Accepted;
pub use progress::{Lengths, Progress, Standing};
