//! Which obligations stand at a vertex.
ghost use Rattle.std.specs.Prelude.{◌≡◌, ◌<◌, not, ◌&&◌};
ghost use Rattle.masks.specs.Masks.{bit};
ghost use Rattle.language.specs.Properties.{node_width};
ghost use Rattle.logic.specs.Truth.{node_at};
ghost use Rattle.properties.specs.Meaning.{meaning};
ghost use Rattle.obligations.specs.Dues.{DueOf};

use masks::has;
use product::Plan;
use properties::Node;

// Whether a state is claimed and is not one of the final ones.
fn open(claimed: bool, finals: u8, q: u8) -> bool
    requires { q < 32 }
    ensures { result ≡ claimed && not (bit finals q) }
{
    claimed && !has(finals as u32, q as u32)
}

// Whether state q of node k is an obligation at a vertex with this label and mask.
pub fn due(plan: &Plan, label: u16, mask: u32, k: usize, q: u8) -> bool
    requires node { k < plan.now.property.rows.count }
    requires state { q < node_width (meaning plan.now.property).connectives (node_at (meaning plan.now.property) k) }
    ensures { DueOf (meaning plan.now.property) label mask k q result }
{
    let claimed = plan.claims(label, mask, k, q);
    let finals = plan.finals(k);
    let row = plan.property.rows.nodes[k];
    match row {
        Node::Apply { .. } => open(claimed, finals, q),
        _ => false,
    }
}
