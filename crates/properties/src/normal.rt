//! A text's canonical form: the canonical text of the property that it spells, or its refusal as a line.
ghost use Rattle.std.specs.Prelude.{◌≡◌};
ghost use Rattle.frames.specs.Areas.{filled, told};
ghost use Rattle.properties.specs.Normal.{normal};

use crate::property::Property;
use frames::Refusal;

// Writes the canonical form of a text, and tells its length; an area that is too short is refused and left as it was.
pub fn normalise(text: &[u8], area: &mut [u8]) -> Result<usize, Refusal>
    ensures answer { result ≡ told (normal text.now) area.old }
    ensures area { area.new ≡ filled (normal text.now) area.old }
{
    match Property::read(text) {
        Ok(property) => property.show(area),
        Err(refusal) => refusal.show(area),
    }
}
