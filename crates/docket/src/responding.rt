//! One call for a turn of any kind, which keeps the law that all turns keep together.
ghost use Rattle.models.specs.Markings.{structure_of};
ghost use Rattle.docket.specs.Answers.{AreasLeft, WentByLaw, lent, turn_of};
ghost use Rattle.docket.specs.Views.{view};

use crate::docket::Docket;
use crate::requests::{Answer, Request};
use frames::Refusal;
use models::Model;

impl Docket {
    // Takes one turn of any kind and answers it. Whatever history of turns, over models of any make, led a new docket to this one: with this
    // turn it is lawful, and leads to the docket as left.
    // Bytes, scratch and trace stay three slices: they are lent for this one call, and a struct of them would be made anew for each.
    pub fn respond<M: Model>(
        &mut self,
        request: Request,
        model: &M,
        area: &mut [u8],
        scratch: &mut [u32],
        trace: &mut [u32],
    ) -> Result<Answer, Refusal>
        ensures law { WentByLaw (view self.old) (turn_of request.entry (structure_of M.Model model.now) (lent area.old scratch.old trace.old) (lent area.new scratch.new trace.new) result) (view self.new) }
        ensures areas { AreasLeft (view self.old) request.entry (structure_of M.Model model.now) (lent area.old scratch.old trace.old) (lent area.new scratch.new trace.new) result }
    {
        match request {
            Request::Enter { number, text } => self.enter(number, text).map(|()| Answer::Done),
            Request::Strike { number } => self.strike(number).map(|()| Answer::Done),
            Request::Show { number } => self
                .show(number, area)
                .map(|length| Answer::Shown { length }),
            Request::Check { number } => self
                .check(number, model, scratch, trace)
                .map(Answer::Checked),
            Request::Tally => Ok(Answer::Tallied(self.tally())),
        }
    }
}
