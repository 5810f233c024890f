//! A property with the number of the first bit of each node, made once.
ghost use Rattle.std.specs.Prelude.{◌≡◌, ◌<◌, ◌≤◌, length};
ghost use Rattle.language.specs.Properties.{node_width};
ghost use Rattle.logic.specs.Truth.{node_at};
ghost use Rattle.properties.specs.Meaning.{meaning};
ghost use Rattle.product.specs.Starts.{Starts};

use properties::{Node, Property};

// A plan means what its property means.
#[derive(Clone, Copy)]
pub struct Plan {
    pub property: Property,
    pub starts: [u8; 32],
    ghost long: { length starts ≡ 32 },
    ghost begins: { Starts property starts },
}

// How many bits node k has.
pub fn node_width(property: &Property, k: usize) -> u8
    requires { k < property.now.rows.count }
    ensures is { result ≡ node_width (meaning property.now).connectives (node_at (meaning property.now) k) }
    ensures small { result ≤ 8 }
{
    match property.rows.nodes[k] {
        Node::Next(_) => 1,
        Node::Apply { connective, .. } => property.rows.connectives[connective as usize].states,
        _ => 0,
    }
}

impl Plan {
    // The plan of a property: each node's bits begin where those of the node before end.
    pub fn new(property: &Property) -> Plan
        ensures { result.property ≡ property.now }
    {
        let mut starts = [0u8; 32];
        let mut at: u8 = 0;
        // By places: once the loan of iter_mut is over, a proof knows how many numbers there are and not what they are.
        for k in 0..property.rows.count as usize {
            starts[k] = at;
            at += node_width(property, k);
        }
        Plan {
            property: *property,
            starts,
        }
    }
}
