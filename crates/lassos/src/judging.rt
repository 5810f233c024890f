//! The judge: is a list of words a fair lasso of the model, from a start state, on which the property is false?
ghost use Rattle.std.specs.Prelude.{◌≡◌, ◌*◌, ◌≤◌, length, Decides};
ghost use Rattle.logic.specs.OnLassos.{Counterexample};
ghost use Rattle.models.specs.Markings.{structure_of};
ghost use Rattle.properties.specs.Meaning.{meaning};
ghost use Rattle.lassos.specs.Judging.{Judged};
ghost use Rattle.lassos.specs.Lists.{lasso_of};

use crate::fairness::is_fair_round;
use crate::shape::Rounds;
use crate::truth::holds;
use frames::Refusal;
use graphs::Graph;
use models::Model;
use properties::Property;

// Whether the words are a counterexample; whatever `scratch` holds, its first two parts of a word for each of them are written over.
fn is_counterexample<M: Model>(
    property: &Property,
    model: &M,
    rounds: &Rounds,
    scratch: &mut [u32],
) -> bool
    requires { 2 * length rounds.now.list.now ≤ length scratch.old }
    ensures { Decides result (Counterexample (structure_of M.Model model.now) (meaning property.now) (lasso_of rounds.now)) }
{
    if !rounds.is_lasso(model) || !is_fair_round(model, rounds) {
        return false;
    }
    let (bits, rest) = scratch.split_at_mut(rounds.list.len());
    let (sets, _) = rest.split_at_mut(rounds.list.len());
    !holds(property, model, rounds, bits, sets)
}

// Whether the words of `list`, a stem of `a` and a loop of `b`, are a counterexample; `scratch` takes three words for each word of the list, and is left at zero.
pub fn judge<M: Model>(
    property: &Property,
    model: &M,
    list: &[u32],
    a: u32,
    b: u32,
    scratch: &mut [u32],
) -> Result<bool, Refusal>
    ensures { Judged (structure_of M.Model model.now) (meaning property.now) (record { list = list.entry.now; stem = a; loop = b }) scratch.old scratch.new result }
{
    if model.states() == 0 || list.len() > 268435456 {
        return Err(Refusal::Model);
    }
    if scratch.len() < 3 * list.len() {
        return Err(Refusal::Scratch);
    }
    let rounds = Rounds::new(list, a, b);
    let answer = rounds.is_some_and(|rounds| is_counterexample(property, model, &rounds, scratch));
    scratch.fill(0);
    Ok(answer)
}
