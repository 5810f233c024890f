//! A walk that is known to exist, written at a place of lent words.
ghost use Rattle.std.specs.Prelude.{◌≡◌, ◌+◌, ◌<◌, ◌≤◌, length};
ghost use Rattle.graphs.specs.Finders.{SameWords, room as room_in};
ghost use Rattle.graphs.specs.Walks.{Reaches};
ghost use Rattle.loops.specs.Words.{Routed};

use graphs::{Finder, Graph};

// Writes a walk of fewest steps into the words from `at` on, of which `room` may be written, and tells how many vertices it has.
pub(crate) fn route<G: Graph>(
    g: &G,
    from: u32,
    to: u32,
    finder: &mut Finder<'_>,
    words: &mut [u32],
    at: usize,
    room: usize,
) -> usize
    requires ends { (from < G.Graph.states g.now) × (to < G.Graph.states g.now) }
    requires finder { G.Graph.states g.now ≤ room_in finder.old }
    requires room { (G.Graph.states g.now ≤ room) × (at + room ≤ length words.old) }
    requires reached { Reaches (G.Graph.edge g.now) from to }
    ensures routed { Routed (G.Graph.edge g.now) from to at room words.old words.new result }
    ensures finder { SameWords finder.old finder.new }
{
    finder.find(g, from, to, &mut words[at..at + room]).unwrap()
}
