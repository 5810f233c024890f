//! The mathematics of the decision procedure: accepting components of the product, the obligation graph and the loop builder.
#![tactic(auto)]

ghost use Rattle.tableau.specs.Budget.{Budget};
ghost use Rattle.tableau.specs.Built.{Builds};
ghost use Rattle.tableau.specs.Criterion.{Criterion};
ghost use Rattle.tableau.specs.Exhausted.{Exhaustion};
ghost use Rattle.tableau.specs.Images.{CarriedByTable};
ghost use Rattle.tableau.specs.Masked.{Masked};
ghost use Rattle.tableau.specs.Numbers.{Numbered, ObligationGraph};
ghost use Rattle.tableau.specs.Placed.{Placed};
ghost use Rattle.tableau.specs.Rounds.{Begins, Extends, Finishes, NextNode, Round};
ghost use Rattle.tableau.specs.Verdicts.{Verdicts};
ghost use Rattle.tableau.specs.Walks.{LoopsAccept};

pub mod image;

// A strongly connected set that holds the loop of the shadow of a fair lasso is accepting.
pub fn loops_accept()
    ensures { LoopsAccept }
{}

// The empty loop is a beginning.
pub fn begins()
    ensures { Begins }
{}

// A closed walk that discharges an obligation that is due makes the obligations due fewer.
pub fn round()
    ensures { Round }
{}

// With no obligation due the next node's turn comes.
pub fn next_node()
    ensures { NextNode }
{}

// With no obligation due any closed walk can be appended.
pub fn extends()
    ensures { Extends }
{}

// With all nodes done and all fair sets visited, the stem and the loop are a counterexample.
pub fn finishes()
    ensures { Finishes }
{}

// The property is broken exactly where the product has an accepting component.
pub fn criterion()
    ensures { Criterion }
{}

// Exhausted sets grow by bottom components that are not accepting, until no counterexample is left.
pub fn exhaustion()
    ensures { Exhaustion }
{}

// The vertices and edges of the product by number.
pub fn numbered()
    ensures { Numbered }
{}

// Walks of the obligation graph are walks of the product that discharge an obligation.
pub fn obligation_graph()
    ensures { ObligationGraph }
{}

// The criterion and the exhausted sets by numbers.
pub fn verdicts()
    ensures { Verdicts }
{}

// The verdicts by the places that a depth-first exploration keeps.
pub fn placed()
    ensures { Placed }
{}

// The rounds with the set of due obligations as a mask.
pub fn masked()
    ensures { Masked }
{}

// The loop builder by numbers.
pub fn builds()
    ensures { Builds }
{}

// How many rounds there are, and how many words they write.
pub fn budget()
    ensures { Budget }
{}

// With the right table, the image of a mask is the mask to which its obligations are carried.
pub fn carried_by_table()
    ensures { CarriedByTable }
{}
