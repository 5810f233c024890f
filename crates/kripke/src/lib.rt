//! Kripke structures: what a model means, its lassos, and which of them are fair.
#![tactic(auto)]

ghost use Rattle.kripke.specs.Laws.{OneMeaningIsEquality};

// Models of one meaning have exactly the same lassos, and the same fair ones.
pub fn one_meaning_is_equality()
    ensures { OneMeaningIsEquality }
{}
