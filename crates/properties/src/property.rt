//! A property that may be stored: rows within the limits, operands below their nodes.
ghost use Rattle.std.specs.Prelude.{◌≡◌, true};
ghost use Rattle.properties.specs.Views.{fits};

use crate::arrays::Rows;

#[derive(Clone, Copy)]
pub struct Property {
    pub rows: Rows,
    ghost fit: { fits rows.connectives rows.used rows.nodes rows.count ≡ true },
}
