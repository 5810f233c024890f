//! The turns made of a docket, the ledger that they are read into, and the law that they keep together: mathematics, no code.
#![tactic(auto)]

ghost use Rattle.ledger.specs.Runs.{DocketKeepsLedger, TurnsAreLawful, TurnsGoByLaw};

// Nothing but turns changes a docket: it has what the ledger of the turns that led to it says.
pub fn docket_keeps_ledger()
    ensures { DocketKeepsLedger }
{}

// Whatever turns lead a new docket somewhere, they are lawful.
pub fn turns_are_lawful()
    ensures { TurnsAreLawful }
{}

// Every turn that takes a docket onward does so by law.
pub fn turns_go_by_law()
    ensures { TurnsGoByLaw }
{}
