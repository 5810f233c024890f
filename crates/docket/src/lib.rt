//! The docket: eight numbers, each with a property or nothing, and the calls that are made of it.
#![tactic(auto)]

pub mod agreeing;
pub mod docket;
pub mod requests;
pub mod responding;

pub use agreeing::check_twice;
pub use docket::Docket;
pub use requests::{Answer, Request};
