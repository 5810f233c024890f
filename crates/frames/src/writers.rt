//! Writing into an area from a place on, as far as the area goes.
ghost use Rattle.std.specs.Prelude.{◌≡◌, ℕ, ◌+◌, ◌^◌, ◌<◌, ◌≤◌, [], ◌∷◌};
ghost use Rattle.frames.specs.Digits.{hexadecimal};
ghost use Rattle.frames.specs.Writers.{Writes};

use crate::digits::{put, put_number};

// An area, and the place in it where the next byte goes; what goes past the area's end is not written.
#[derive(Drop)]
pub struct Writer<'a> {
    pub area: &'a mut [u8],
    pub at: usize,
}

impl Writer<'_> {
    // Writes one byte.
    pub fn put(&mut self, b: u8)
        requires { self.old.at < 2 ^ 63 }
        ensures { Writes self.old self.new (b ∷ []) }
    {
        self.at = put(self.area, self.at, b);
    }

    // Writes the last `digits` hexadecimal digits of a number.
    pub fn put_number(&mut self, number: u32, digits: u8)
        requires room { self.old.at < 2 ^ 62 }
        requires few { digits ≤ 8 }
        ensures { Writes self.old self.new (hexadecimal digits number) }
    {
        self.at = put_number(self.area, self.at, number, digits);
    }
}
