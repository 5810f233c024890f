//! What can be wrong, from a line outward: a line's form, a frame's kind and fields, and the table of refusals that every call answers from.
ghost use Rattle.std.specs.Prelude.{◌≡◌};
ghost use Rattle.frames.specs.declared.faults.FrameFault.{FrameFault};
ghost use Rattle.frames.specs.declared.faults.Refusal.{Refusal};

// A line that is not a line's form.
#[derive(Clone, Copy, Debug, PartialEq, Eq)]
pub enum LineFault {
    // other bytes than digits, an odd number of them, or none
    Digits { line: u32 },
    // no byte 0A closes it
    Unclosed { line: u32 },
}

// A line that is no frame of the call's kinds.
#[derive(Clone, Copy, Debug, PartialEq, Eq)]
pub enum FrameFault {
    Line(LineFault),
    // a kind that the call does not take
    Kind { line: u32 },
    // a number of fields that is not the kind's
    Count { line: u32 },
}

// Why a call was refused.
#[derive(Clone, Copy, Debug, PartialEq, Eq)]
pub enum Refusal {
    Frame(FrameFault),
    // a line out of order, or a missing end
    Order { line: u32 },
    // a field or a number outside its values
    Value { line: u32 },
    // too few words of store
    Store { line: u32 },
    // no such number of the docket
    Number,
    // nothing entered under the number
    Vacant,
    // more than a property or a text may have
    Limit { line: u32 },
    // a model that is void or too large
    Model,
    // too few words of scratch
    Scratch,
    // too few words for a trace or a path's list
    Trace,
    // too few bytes for what is written
    Room,
}

impl From<LineFault> for FrameFault {
    ghost from_gives = { λ f r. r ≡ FrameFault.Line f };

    fn from(fault: LineFault) -> FrameFault {
        FrameFault::Line(fault)
    }
}

impl From<FrameFault> for Refusal {
    ghost from_gives = { λ f r. r ≡ Refusal.Frame f };

    fn from(fault: FrameFault) -> Refusal {
        Refusal::Frame(fault)
    }
}
