//! The docket's own fields. Its calls are in the module below, which sees them.
ghost use Rattle.std.specs.Prelude.{◌≡◌, length};
ghost use Rattle.docket.specs.Within.{RowsFit};

use properties::Property;

pub mod calls;
pub mod checking;
pub mod judging;

// A property or nothing under each of the numbers 0 to 7, and how many turns changed that. Every property is within the limits, with operands
// below their nodes: no call tests that again.
// Contracts write `view` and there is no `impl Model`: a `Copy` type's value would have to give its fields back, and the view forgets unused rows.
#[derive(Clone, Copy)]
pub struct Docket {
    rows: [Option<Property>; 8],
    tally: u32,
    ghost long: { length rows ≡ 8 },
    ghost fit: { RowsFit rows },
}
