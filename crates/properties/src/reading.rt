//! Reading a property: the text is judged line by line, and the first line at fault decides.
ghost use Rattle.std.specs.Prelude.{◌≡◌};
ghost use Rattle.language.specs.Laws.{Decided};
ghost use Rattle.language.specs.Reading.{read};
ghost use Rattle.properties.specs.Meaning.{meant};

use crate::drafts::Draft;
use crate::property::Property;
use frames::{Refusal, frame_at};

impl Property {
    // The property that a text spells, or the refusal of its first line at fault.
    pub fn read(text: &[u8]) -> Result<Property, Refusal>
        ensures spells { meant result ≡ read text.now }
        ensures decided { Decided text.now (meant result) }
    {
        if text.len() > 65536 {
            return Err(Refusal::Limit { line: 0 });
        }
        let mut draft = Draft::new();
        let mut at = 0;
        let mut number = 1;
        while at < text.len() {
            let (frame, size) = frame_at(text, at, number)?;
            draft.take(frame, number)?;
            at += size;
            number += 1;
        }
        match draft {
            Draft::Ended(rows) => Ok(Property { rows }),
            Draft::Open(_) => Err(Refusal::Order { line: number }),
        }
    }
}
