//! Hexadecimal digits, read and written.
ghost use Rattle.std.specs.Prelude.{◌≡◌, ℕ, ◌+◌, ◌^◌, ◌<◌, ◌≤◌, [], ◌∷◌, length};
ghost use Rattle.frames.specs.Areas.{written};
ghost use Rattle.frames.specs.Digits.{digit_of, digit_value, hexadecimal, value};

// The value of a digit, or None for any other byte.
pub fn digit(b: u8) -> Option<u8>
    ensures { result ≡ digit_value b }
{
    match b {
        b'0'..=b'9' => Some(b - b'0'),
        b'A'..=b'F' => Some(b - 55),
        _ => None,
    }
}

// The value of a digit, and 0 for any other byte.
pub(crate) fn value_of(b: u8) -> u8
    ensures is { result ≡ value b }
    ensures small { result < 16 }
{
    digit(b).unwrap_or(0)
}

// The digit of a value below 16.
fn digit_of(v: u8) -> u8
    requires { v < 16 }
    ensures { result ≡ digit_of v }
{
    if v < 10 { b'0' + v } else { 55 + v }
}

// Writes one byte at the place `at`, unless that lies past the area's end, and tells the next place.
pub fn put(area: &mut [u8], at: usize, b: u8) -> usize
    requires { at < 2 ^ 63 }
    ensures area { area.new ≡ written area.old at (b ∷ []) }
    ensures next { result ≡ at + 1 }
{
    if at < area.len() {
        area[at] = b;
    }
    at + 1
}

// Writes the last `digits` hexadecimal digits of a number from the place `at` on, as far as the area goes, and tells the next place.
pub fn put_number(area: &mut [u8], at: usize, number: u32, digits: u8) -> usize
    requires { (at < 2 ^ 62) × (digits ≤ 8) }
    ensures area { area.new ≡ written area.old at (hexadecimal digits number) }
    ensures next { result ≡ at + digits }
{
    let mut place = at;
    for k in (0..digits).rev() {
        let d = (number >> (4 * k)) & 15;
        place = put(area, place, digit_of(d as u8));
    }
    place
}
