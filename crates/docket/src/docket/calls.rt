//! The calls that are made of a docket, each with its exact contract.
ghost use Rattle.std.specs.Prelude.{◌≡◌, ◌<◌};
ghost use Rattle.ledger.specs.Runs.{Changed, Entered, Fresh, Struck};
ghost use Rattle.ledger.specs.Table.{found};
ghost use Rattle.docket.specs.Calls.{Shown, WithinLimits, numbered};
ghost use Rattle.docket.specs.Views.{entry, view};
ghost use Rattle.properties.specs.Meaning.{meant};

use super::Docket;
use frames::Refusal;
use properties::Property;

// A number above 7 is refused.
fn numbered(number: u32) -> Result<(), Refusal>
    ensures { result ≡ numbered number }
{
    if number > 7 {
        Err(Refusal::Number)
    } else {
        Ok(())
    }
}

impl Docket {
    // A new docket: nothing is under any number.
    pub fn new() -> Docket
        ensures { Fresh (view result) }
    {
        Docket {
            rows: [None; 8],
            tally: 0,
        }
    }

    // The property under a number.
    pub(crate) fn found(&self, number: u32) -> Result<Property, Refusal>
        ensures { meant result ≡ found (view self.now).rows number }
    {
        numbered(number)?;
        self.rows[number as usize].ok_or(Refusal::Vacant)
    }

    // The docket with a row under a number in the place of what was there, counted once more.
    fn with_row(&self, number: u32, row: Option<Property>) -> Docket
        requires { number < 8 }
        ensures { Changed (view self.now) number (entry row) (view result) }
    {
        let mut rows = self.rows;
        rows[number as usize] = row;
        Docket {
            rows,
            tally: self.tally.saturating_add(1),
        }
    }

    // Puts the property that a text spells under a number, in the place of what was there.
    pub fn enter(&mut self, number: u32, text: &[u8]) -> Result<(), Refusal>
        ensures { Entered (view self.old) number text.now result (view self.new) }
    {
        numbered(number)?;
        let property = Property::read(text)?;
        *self = self.with_row(number, Some(property));
        Ok(())
    }

    // Takes out what is under a number.
    pub fn strike(&mut self, number: u32) -> Result<(), Refusal>
        ensures { Struck (view self.old) number result (view self.new) }
    {
        self.found(number)?;
        *self = self.with_row(number, None);
        Ok(())
    }

    // Writes the canonical text of what is under a number, and tells its length.
    pub fn show(&self, number: u32, area: &mut [u8]) -> Result<usize, Refusal>
        ensures { Shown (view self.now) number area.old area.new result }
    {
        let property = self.found(number)?;
        property.show(area)
    }

    // Every property in a docket is within the limits, with operands below their nodes, whatever calls were made of it.
    pub fn keeps_limits(&self)
        ensures { WithinLimits (view self.now) }
    {}

    // How many enters and strikes were accepted, or 4294967295 where there were more.
    pub fn tally(&self) -> u32
        ensures { result ≡ (view self.now).tally }
    {
        self.tally
    }
}
