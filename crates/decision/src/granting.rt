//! What a check is refused for, before any area is written.
ghost use Rattle.models.specs.Markings.{structure_of};
ghost use Rattle.properties.specs.Meaning.{meaning};
ghost use Rattle.decision.specs.States.{Granted};

use frames::Refusal;
use graphs::Graph;
use models::Model;
use product::Plan;

// How many vertices the product has, where nothing speaks against the check.
pub(crate) fn grant<M: Model>(
    model: &M,
    plan: &Plan,
    scratch: usize,
    trace: usize,
) -> Result<usize, Refusal>
    ensures { Granted (structure_of M.Model model.now) (meaning plan.now.property) scratch trace result }
{
    let width = plan.property.rows.width as usize;
    let size = model.states() as usize * plan.size() as usize;
    let sets = model.fair_sets() as usize;
    if size == 0 || size > 1048576 {
        return Err(Refusal::Model);
    }
    if scratch < size * (2 * width + 8) {
        return Err(Refusal::Scratch);
    }
    if trace < size * (width * width + sets + 2) {
        return Err(Refusal::Trace);
    }
    Ok(size)
}
