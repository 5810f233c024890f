//! The check of what is under a number over a model.
ghost use Rattle.ledger.specs.Table.{found};
ghost use Rattle.models.specs.Markings.{structure_of};
ghost use Rattle.docket.specs.Calls.{CheckedAs};
ghost use Rattle.docket.specs.Views.{view};

use super::Docket;
use decision::{Verdict, decide};
use frames::Refusal;
use models::Model;

impl Docket {
    // Whether the property under a number is true of every fair lasso of the model from a start state; where it is not, such a lasso in the trace.
    pub fn check<M: Model>(
        &self,
        number: u32,
        model: &M,
        scratch: &mut [u32],
        trace: &mut [u32],
    ) -> Result<Verdict, Refusal>
        ensures { CheckedAs (structure_of M.Model model.now) (found (view self.now).rows number) scratch.old scratch.new trace.old trace.new result }
    {
        let property = self.found(number)?;
        decide(model, &property, scratch, trace)
    }
}
