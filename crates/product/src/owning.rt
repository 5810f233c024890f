//! Whose a bit of a mask is, and which states of a node are final.
ghost use Rattle.std.specs.Prelude.{◌≡◌, ◌<◌};
ghost use Rattle.logic.specs.Product.{mask_width};
ghost use Rattle.logic.specs.Truth.{node_at};
ghost use Rattle.properties.specs.Meaning.{meaning};
ghost use Rattle.product.specs.Owners.{Owner, finals_of};

use crate::plan::Plan;
use properties::Node;

impl Plan {
    // The node that bit i of a mask is one of.
    pub fn owner(&self, i: u8) -> usize
        requires { i < mask_width (meaning self.now.property) }
        ensures { Owner (meaning self.now.property) i result }
    {
        for k in (1..self.property.rows.count as usize).rev() {
            if self.starts[k] <= i {
                return k;
            }
        }
        0
    }

    // The final states of node k, if it is a connective node.
    pub fn finals(&self, k: usize) -> u8
        requires { k < self.now.property.rows.count }
        ensures { result ≡ finals_of (meaning self.now.property) (node_at (meaning self.now.property) k) }
    {
        match self.property.rows.nodes[k] {
            Node::Apply { connective, .. } => {
                self.property.rows.connectives[connective as usize].finals
            }
            _ => 0,
        }
    }
}
