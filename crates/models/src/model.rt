//! Models: graphs whose states have labels, start states and fair sets.
ghost use Rattle.std.specs.Prelude.{◌≡◌, ◌≤◌, false};
ghost use Rattle.models.specs.Markings.{Marking};

use graphs::Graph;

// What a model means is `structure` of its graph's states and edges, and of its marking.
pub trait Model: Graph {
    ghost marking: { Self → Marking };

    // The propositions that are true at a state, as a mask; none at a state that does not exist.
    fn label(&self, s: u32) -> u16
        ensures is { result ≡ (marking self.now).label s }
        ensures out { Self.Graph.states self.now ≤ s → result ≡ 0 };

    // Whether a state is a start state.
    fn start(&self, s: u32) -> bool
        ensures is { result ≡ (marking self.now).start s }
        ensures out { Self.Graph.states self.now ≤ s → result ≡ false };

    // How many fair sets there are, at most 8, of a model that has at most 65536 states.
    fn fair_sets(&self) -> u32
        ensures is { result ≡ (marking self.now).sets }
        ensures few { result ≤ 8 }
        ensures small { Self.Graph.states self.now ≤ 65536 }
        ensures void { Self.Graph.states self.now ≡ 0 → result ≡ 0 };

    // Whether the fair set `j` holds a state.
    fn fair(&self, j: u32, s: u32) -> bool
        ensures is { result ≡ (marking self.now).fair j s }
        ensures out { Self.Graph.states self.now ≤ s → result ≡ false }
        ensures no_set { (marking self.now).sets ≤ j → result ≡ false };
}

// A model that is lent is a model.
impl<'a, M: Model> Model for &'a M {
    ghost marking = { λ m. M.Model.marking m.now };

    fn label(&self, s: u32) -> u16 {
        (**self).label(s)
    }

    fn start(&self, s: u32) -> bool {
        (**self).start(s)
    }

    fn fair_sets(&self) -> u32 {
        (**self).fair_sets()
    }

    fn fair(&self, j: u32, s: u32) -> bool {
        (**self).fair(j, s)
    }
}
