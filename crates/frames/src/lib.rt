//! The bytes of texts: hexadecimal digits, lines, frames, the table of refusals, and the writing of numbers.
#![tactic(auto)]

pub mod digits;
pub mod faults;
pub mod kinds;
pub mod lines;
pub mod table;
pub mod writers;

pub use digits::{digit, put, put_number};
pub use faults::{FrameFault, LineFault, Refusal};
pub use kinds::{Frame, frame_at, frame_of};
pub use lines::{Bytes, line_at};
pub use writers::Writer;
