//! The image of a mask by a table.
ghost use Rattle.std.specs.Prelude.{◌≡◌, ◌≤◌, length};
ghost use Rattle.tableau.specs.Images.{image_of};

use masks::{has, put};

// Where the members of a mask go by a table; those that leave have a number past its end.
pub fn image(mask: u32, to: &[u32]) -> u32
    requires { length to.now ≤ 31 }
    ensures { result ≡ image_of mask to.now }
{
    let mut out = 0;
    for (q, &r) in to.iter().enumerate() {
        if has(mask, q as u32) && (r as usize) < to.len() {
            out = put(out, r, true);
        }
    }
    out
}
