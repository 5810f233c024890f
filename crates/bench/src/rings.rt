//! A ring of states, each of which leads to the next: a model that is cheap to ask.
ghost use Rattle.std.specs.Prelude.{◌≡◌, ℕ, ◌+◌, ◌≤◌, min, false, ◌&&◌, ◌==◌, nat_lt};
ghost use Rattle.bench.specs.Rings.{after, ring_marking};

use graphs::Graph;
use models::Model as KripkeModel;

#[derive(Clone, Copy)]
pub struct Ring {
    states: u32,
    ghost few: { states ≤ 65536 },
}

impl Ring {
    pub fn new(states: u32) -> Ring
        ensures { result.states ≡ min states 65536 }
    {
        Ring {
            states: states.min(65536),
        }
    }

    // The state after one.
    fn after(&self, s: u32) -> u32
        ensures { result ≡ after self.now.states s }
    {
        if s < 65536 && s + 1 < self.states {
            s + 1
        } else {
            0
        }
    }
}

impl Graph for Ring {
    ghost states = { λ r. r.states };

    ghost edge = { λ r s t. nat_lt s r.states && t == after r.states s };

    fn states(&self) -> u32 {
        self.states
    }

    fn next(&self, s: u32, t: u32) -> Option<u32> {
        if s >= self.states {
            return None;
        }
        let u = self.after(s);
        if t <= u { Some(u) } else { None }
    }
}

impl KripkeModel for Ring {
    ghost marking = { λ r. ring_marking r.states };

    fn label(&self, s: u32) -> u16 {
        if s < self.states && s != 1 { 1 } else { 0 }
    }

    fn start(&self, s: u32) -> bool {
        s == 0 && s < self.states
    }

    fn fair_sets(&self) -> u32 {
        0
    }

    fn fair(&self, _j: u32, _s: u32) -> bool {
        false
    }
}
