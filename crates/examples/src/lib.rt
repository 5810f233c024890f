//! Small models, with what is true of them.
#![tactic(auto)]

ghost use Rattle.examples.specs.Small.{SmallModels};

// What the definitions of the calls' contracts say of nine small models.
pub fn small_models()
    ensures { SmallModels }
{}
