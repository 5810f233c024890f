//! Whether a list of words is a lasso of a model.
ghost use Rattle.std.specs.Prelude.{◌≡◌, ◌+◌, ◌<◌, ◌≤◌, length, Decides, MatchOption};
ghost use Rattle.kripke.specs.Lassos.{LassoOf};
ghost use Rattle.models.specs.Markings.{structure_of};
ghost use Rattle.lassos.specs.Rounds.{AllStates, GoesRound, after};

use graphs::Graph;
use models::Model;

// Words that go round: after the last one comes the word at `stem`.
#[derive(Clone, Copy)]
pub(crate) struct Rounds<'a> {
    pub(crate) list: &'a [u32],
    pub(crate) stem: usize,
    ghost inside: { stem < length list.now },
}

// Whether every word is a state.
fn are_states<G: Graph>(graph: &G, list: &[u32]) -> bool
    ensures { Decides result (AllStates (G.Graph.states graph.now) list.now) }
{
    let states = graph.states();
    list.iter().all(|s| *s < states)
}

impl<'a> Rounds<'a> {
    ghost use Rattle.lassos.specs.Lists.{lasso_of};

    // A stem of `a` words and a loop of `b` words, at least one, if that is as many as there are words.
    pub(crate) fn new(list: &'a [u32], a: u32, b: u32) -> Option<Rounds<'a>>
        ensures { MatchOption result (¬ ((1 ≤ b) × (length list.now ≡ a + b))) (λ rounds. lasso_of rounds ≡ record { list = list.entry.now; stem = a; loop = b }) }
    {
        let stem = a as usize;
        if b > 0 && stem + b as usize == list.len() {
            Some(Rounds { list, stem })
        } else {
            None
        }
    }

    // The position that comes after position `i`.
    pub(crate) fn follower(&self, i: usize) -> usize
        requires { i < length self.now.list.now }
        ensures { result ≡ after (length self.now.list.now) self.now.stem i }
    {
        if i + 1 == self.list.len() {
            self.stem
        } else {
            i + 1
        }
    }

    // Whether each word steps to that of its follower.
    fn goes_round<G: Graph>(&self, graph: &G) -> bool
        ensures { Decides result (GoesRound (G.Graph.edge graph.now) self.now.list.now self.now.stem) }
    {
        (0..self.list.len()).all(|i| graph.has_edge(self.list[i], self.list[self.follower(i)]))
    }

    // Whether the words are a lasso of the model from a start state.
    pub(crate) fn is_lasso<M: Model>(&self, model: &M) -> bool
        ensures { Decides result (LassoOf (structure_of M.Model model.now) (lasso_of self.now)) }
    {
        are_states(model, self.list) && model.start(self.list[0]) && self.goes_round(model)
    }
}
