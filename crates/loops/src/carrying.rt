//! Obligations of a node at a vertex, and where they are carried on leaving it.
ghost use Rattle.std.specs.Prelude.{◌≡◌, ℕ, ◌<◌, ◌≤◌, false, List, MatchOption, IsTrue};
ghost use Rattle.frames.specs.Frames.Node.{apply};
ghost use Rattle.masks.specs.Masks.{bit};
ghost use Rattle.language.specs.Properties.{node_width};
ghost use Rattle.logic.specs.Product.{some_below};
ghost use Rattle.logic.specs.Truth.{node_at};
ghost use Rattle.models.specs.Markings.{structure_of};
ghost use Rattle.properties.specs.Meaning.{meaning};
ghost use Rattle.tableau.specs.Masked.{carried_along};
ghost use Rattle.tableau.specs.Numbers.{vertices};
ghost use Rattle.tableau.specs.Rounds.{lowest};
ghost use Rattle.loops.specs.Carrying.{CarriedOf, PendingOf, vertices_from};

use graphs::Graph;
use masks::has;
use models::Model;
use obligations::due;
use product::Plan;
use product::plan::node_width;
use tableau::image::image;

// The obligations of node k at a vertex with this label and mask.
pub(crate) fn pending(plan: &Plan, label: u16, mask: u32, k: usize) -> u32
    requires { k < plan.now.property.rows.count }
    ensures { PendingOf (meaning plan.now.property) label mask k result }
{
    masks::mask(
        node_width(&plan.property, k),
        |q| due(plan, label, mask, k, q),
    )
}

// The lowest bit of a mask below n.
pub(crate) fn lowest(mask: u32, n: u32) -> Option<u32>
    requires { n ≤ 32 }
    ensures { MatchOption result (some_below n (bit mask) ≡ false) (λ r. (r < n) × (r ≡ lowest n (bit mask)) × IsTrue (bit mask r)) }
{
    (0..n).find(|&r| has(mask, r))
}

// Where the obligations `due` of node k are carried on leaving a vertex with this label and mask.
fn carried(plan: &Plan, label: u16, mask: u32, k: usize, due: u32) -> u32
    requires { k < plan.now.property.rows.count }
    ensures { CarriedOf (meaning plan.now.property) label mask k due result }
{
    let states = node_width(&plan.property, k);
    let finals = plan.finals(k);
    let mut to = [0u32; 8];
    for q in 0..states {
        let onward = plan.onward(label, mask, k, q);
        // Where no state follows, the definition that the table is proved against takes the last one.
        let r = lowest(onward, states as u32).unwrap_or(states as u32 - 1);
        // A number past the end says that the state leaves: `image` promises its callers tables of plain numbers.
        to[q as usize] = if has(finals as u32, r) {
            states as u32
        } else {
            r
        };
    }
    image(due, &to[0..states as usize])
}

// Where they are carried along the vertices of a walk.
pub(crate) fn carry_along<M: Model>(
    model: &M,
    plan: &Plan,
    size: u32,
    k: usize,
    walk: &[u32],
    due: u32,
) -> u32
    requires node { k < plan.now.property.rows.count }
    requires sizes { (size ≡ vertices (structure_of M.Model model.now) (meaning plan.now.property)) × (0 < size) }
    ensures { (c : ℕ) (is : List ℕ) → node_at (meaning plan.now.property) k ≡ apply c is → result ≡ carried_along (structure_of M.Model model.now) (meaning plan.now.property) k c is (vertices_from (structure_of M.Model model.now) (meaning plan.now.property) walk.now) due }
{
    let masks = plan.size();
    let mut due = due;
    for n in walk {
        let v = *n % size;
        let label = model.label(v / masks);
        due = carried(plan, label, v % masks, k, due);
    }
    due
}
