//! A model of one state and so many fair sets.
ghost use Rattle.std.specs.Prelude.{◌≡◌, ℕ, ◌≤◌, min, ◌&&◌, ◌==◌};
ghost use Rattle.piles.specs.Points.{point_marking};

use graphs::Graph;
use models::Model as KripkeModel;

#[derive(Clone, Copy)]
pub struct Point {
    sets: u32,
    ghost few: { sets ≤ 8 },
}

impl Point {
    pub fn new(sets: u32) -> Point
        ensures { result.sets ≡ min sets 8 }
    {
        Point { sets: sets.min(8) }
    }
}

impl Graph for Point {
    ghost states = { λ p. 1 };

    ghost edge = { λ p s t. (s == 0) && t == 0 };

    fn states(&self) -> u32 {
        1
    }

    fn next(&self, s: u32, t: u32) -> Option<u32> {
        if s == 0 && t == 0 { Some(0) } else { None }
    }
}

impl KripkeModel for Point {
    ghost marking = { λ p. point_marking p.sets };

    fn label(&self, _s: u32) -> u16 {
        0
    }

    fn start(&self, s: u32) -> bool {
        s == 0
    }

    fn fair_sets(&self) -> u32 {
        self.sets
    }

    fn fair(&self, j: u32, s: u32) -> bool {
        j < self.sets && s == 0
    }
}
