//! Properties as plain rows: read from a text, and written as their canonical text.
#![tactic(auto)]

pub mod arrays;
pub mod building;
pub mod drafts;
pub mod judging;
pub mod normal;
pub mod property;
pub mod reading;
pub mod rows;
pub mod writing;

pub use arrays::Rows;
pub use normal::normalise;
pub use property::Property;
pub use rows::{Connective, Node};
