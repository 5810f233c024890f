//! What the law gives those who make turns: over two models of one meaning, of any make, what holds over one is not broken over the other.
ghost use Rattle.kripke.specs.Models.{OneMeaning};
ghost use Rattle.models.specs.Markings.{structure_of};
ghost use Rattle.docket.specs.Answers.{Agree};

use crate::docket::Docket;
use crate::requests::{Answer, Request};
use frames::Refusal;
use models::Model;

// Enters a text in a new docket, and checks what it spells over two models of one meaning.
pub fn check_twice<M: Model, N: Model>(
    text: &[u8],
    one: &M,
    other: &N,
    area: &mut [u8],
    scratch: &mut [u32],
    trace: &mut [u32],
) -> (Result<Answer, Refusal>, Result<Answer, Refusal>)
    requires { OneMeaning (structure_of M.Model one.now) (structure_of N.Model other.now) }
    ensures { Agree result.0 result.1 }
{
    let mut docket = Docket::new();
    let _ = docket.respond(
        Request::Enter { number: 0, text },
        one,
        area,
        scratch,
        trace,
    );
    let first = docket.respond(Request::Check { number: 0 }, one, area, scratch, trace);
    let second = docket.respond(Request::Check { number: 0 }, other, area, scratch, trace);
    (first, second)
}
