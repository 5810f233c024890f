//! The laws of the product.
ghost use Rattle.product.specs.Laws.{EdgesAreSteps, OnwardGoes, VerticesArePairs};

// The vertices are numbered: each pair of a state and a mask by one number.
pub fn vertices_are_pairs()
    ensures { VerticesArePairs }
{}

// The edges are steps of the model, along which the masks ask for each other.
pub fn edges_are_steps()
    ensures { EdgesAreSteps }
{}

// A state goes on to those states to which a letter leads whose operand is true.
pub fn onward_goes()
    ensures { OnwardGoes }
{}
