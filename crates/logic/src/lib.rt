//! Truth of properties on words and lassos, and the product that decides it.
#![tactic(auto)]

ghost use Rattle.logic.specs.Laws.{BackMasks, ConnectivesUnfold, FinalStartIsTrue, LassosUnroll, MayDecide, MeaningDecides, NoneInProduct, OneTime, Persists, PersistsAlong, ProductFalsifies, ShadowLemma, TruthLemma};

// Truth on a lasso is truth of the infinite word that it unrolls to, and that word repeats its loop.
pub fn lassos_unroll()
    ensures { LassosUnroll }
{}

// A connective node whose connective starts at a final state is true everywhere.
pub fn final_start_is_true()
    ensures { FinalStartIsTrue }
{}

// A connective is fulfilled from a final state, or by a letter whose operand is true and a state that it leads to.
pub fn connectives_unfold()
    ensures { ConnectivesUnfold }
{}

// A model's meaning decides which of its lassos falsify a property, and which are counterexamples.
pub fn meaning_decides()
    ensures { MeaningDecides }
{}

// A claimed state of a connective is final, or goes on to a state that is claimed one step later.
pub fn persists()
    ensures { Persists }
{}

// On a fulfilled path of the product a vertex has those nodes true that are true on the line.
pub fn truth_lemma()
    ensures { TruthLemma }
{}

// A line on which the bits are decided has a shadow in the product.
pub fn shadow_lemma()
    ensures { ShadowLemma }
{}

// The masks of a path are back masks, of as many bits as the property is wide.
pub fn back_masks()
    ensures { BackMasks }
{}

// A claim is carried along a path until it is fulfilled.
pub fn persists_along()
    ensures { PersistsAlong }
{}

// It is enough to see fulfilment at one time that each time comes to.
pub fn one_time()
    ensures { OneTime }
{}

// The bits of a lasso are not undecided.
pub fn may_decide()
    ensures { MayDecide }
{}

// A fulfilled lasso of the product with a false root is a lasso that falsifies.
pub fn product_falsifies()
    ensures { ProductFalsifies }
{}

// No lasso falsifies over which the product has no shadow with a false root.
pub fn none_in_product()
    ensures { NoneInProduct }
{}
