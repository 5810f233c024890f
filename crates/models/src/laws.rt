//! Laws of clamps and pairs, each the contract of a function that does nothing.
ghost use Rattle.models.specs.Laws.{ClampsAdmit, ClampsWalk, PairsNumber, PairsStep};

// A clamp's edges and start states are exactly those below that it admits.
pub fn clamps_admit()
    ensures { ClampsAdmit }
{}

// A walk of a clamp from an admitted state is a walk of the model below, through admitted states.
pub fn clamps_walk()
    ensures { ClampsWalk }
{}

// The states of a pair are numbered one to one.
pub fn pairs_number()
    ensures { PairsNumber }
{}

// A pair steps exactly where both sides do.
pub fn pairs_step()
    ensures { PairsStep }
{}
