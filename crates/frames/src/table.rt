//! The table of refusals: each has a number and tells a line.
ghost use Rattle.std.specs.Prelude.{◌≡◌, ◌+◌, ◌^◌, ◌<◌};
ghost use Rattle.frames.specs.Areas.{filled, told};
ghost use Rattle.frames.specs.Writers.{Writes};
ghost use Rattle.frames.specs.Refusals.{frame_fault_line, frame_fault_number, line, number, refusal_text};

use crate::digits::{put, put_number};
use crate::faults::{FrameFault, LineFault, Refusal};
use crate::writers::Writer;

impl FrameFault {
    fn row(&self) -> u8
        ensures { result ≡ frame_fault_number self.now }
    {
        match *self {
            FrameFault::Line(_) => 1,
            FrameFault::Kind { .. } => 2,
            FrameFault::Count { .. } => 3,
        }
    }

    fn place(&self) -> u32
        ensures { result ≡ frame_fault_line self.now }
    {
        match *self {
            FrameFault::Line(LineFault::Digits { line } | LineFault::Unclosed { line })
            | FrameFault::Kind { line }
            | FrameFault::Count { line } => line,
        }
    }
}

impl Refusal {
    // The refusal's number in the table.
    pub fn number(&self) -> u8
        ensures { result ≡ number self.now }
    {
        match *self {
            Refusal::Frame(fault) => fault.row(),
            Refusal::Order { .. } => 4,
            Refusal::Value { .. } => 5,
            Refusal::Store { .. } => 6,
            Refusal::Number => 7,
            Refusal::Vacant => 8,
            Refusal::Limit { .. } => 9,
            Refusal::Model => 10,
            Refusal::Scratch => 11,
            Refusal::Trace => 12,
            Refusal::Room => 13,
        }
    }

    // The line that the refusal tells, counted from 1, or 0.
    pub fn line(&self) -> u32
        ensures { result ≡ line self.now }
    {
        match *self {
            Refusal::Frame(fault) => fault.place(),
            Refusal::Order { line }
            | Refusal::Value { line }
            | Refusal::Store { line }
            | Refusal::Limit { line } => line,
            Refusal::Number
            | Refusal::Vacant
            | Refusal::Model
            | Refusal::Scratch
            | Refusal::Trace
            | Refusal::Room => 0,
        }
    }

    // Writes the refusal as a line of text.
    pub fn put(&self, to: &mut Writer<'_>)
        requires { to.old.at < 2 ^ 32 }
        ensures { Writes to.old to.new (refusal_text self.now) }
    {
        let area = &mut *to.area;
        let kind = put_number(area, to.at, 0x43, 2);
        let number = put_number(area, kind, self.number() as u32, 2);
        let line = put_number(area, number, self.line(), 8);
        to.at = put(area, line, b'\n');
    }

    // Writes the refusal as a line of text, and tells its length; an area that is too short is refused and left as it was.
    pub fn show(&self, area: &mut [u8]) -> Result<usize, Refusal>
        ensures answer { result ≡ told (refusal_text self.now) area.old }
        ensures area { area.new ≡ filled (refusal_text self.now) area.old }
    {
        if area.len() < 13 {
            return Err(Refusal::Room);
        }
        let mut writer = Writer { area, at: 0 };
        self.put(&mut writer);
        Ok(writer.at)
    }
}
