//! The judge of a list of words, by what is under a number.
ghost use Rattle.ledger.specs.Table.{found};
ghost use Rattle.models.specs.Markings.{structure_of};
ghost use Rattle.docket.specs.Calls.{JudgedAs};
ghost use Rattle.docket.specs.Views.{view};

use super::Docket;
use frames::Refusal;
use lassos::judge;
use models::Model;

impl Docket {
    // Whether the words of `list`, a stem of `a` and a loop of `b`, are a fair lasso of the model from a start state on which the property under a
    // number is false; `scratch` takes three words for each word of the list, and is left at zero.
    pub fn judge<M: Model>(
        &self,
        number: u32,
        model: &M,
        list: &[u32],
        a: u32,
        b: u32,
        scratch: &mut [u32],
    ) -> Result<bool, Refusal>
        ensures { JudgedAs (structure_of M.Model model.now) (found (view self.now).rows number) (record { list = list.entry.now; stem = a; loop = b }) scratch.old scratch.new result }
    {
        let property = self.found(number)?;
        judge(&property, model, list, a, b, scratch)
    }
}
