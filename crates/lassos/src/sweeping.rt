//! From which states a connective is fulfilled at each position.
ghost use Rattle.std.specs.Prelude.{◌≡◌, ◌^◌, ◌<◌, not, length, ◌==◌, slice_index, slice_set};
ghost use Rattle.lassos.specs.Sweeps.{Filled, Partial, Swept, joined, joined_at, leads, letter_leads};

use crate::shape::Rounds;
use masks::has;
use properties::Connective;

// A connective at a node: its row, and the operand of each letter.
#[derive(Clone, Copy)]
pub(crate) struct Applied {
    pub(crate) row: Connective,
    pub(crate) operands: [u8; 4],
    ghost final_states: { row.finals < 2 ^ row.states },
}

impl Applied {
    // Whether letter `a`, whose operand's bit is in `here`, leads from `q` to a state in `there`.
    fn letter_leads(&self, here: u32, there: u32, q: u8, a: u8) -> bool
        requires state { q < self.now.row.states }
        requires letter { a < self.now.row.letters }
        ensures { result ≡ letter_leads self.now.row self.now.operands here there q a }
    {
        let to = self.row.moves[4 * q as usize + a as usize];
        has(here, self.operands[a as usize] as u32) && to as u32 & there != 0
    }

    // Whether some letter leads from `q` to a state in `there`.
    fn leads_on(&self, here: u32, there: u32, q: u8) -> bool
        requires { q < self.now.row.states }
        ensures { result ≡ leads self.now.row self.now.operands here there q }
    {
        // A loop, since `any` over the letters costs the judge two fifths more instructions.
        for a in 0..self.row.letters {
            if self.letter_leads(here, there, q, a) {
                return true;
            }
        }
        false
    }

    // The set of a position, with each state that leads on to the set of its follower.
    fn join(&self, here: u32, there: u32, was: u32) -> u32
        ensures { result ≡ joined self.now.row self.now.operands here there was self.now.row.states }
    {
        let mut states = was;
        for q in 0..self.row.states {
            if self.leads_on(here, there, q) {
                states |= 1 << q;
            }
        }
        states
    }

    // Lets the states join that lead on from position `i`, and says whether some did.
    fn join_at(&self, bits: &Rounds, sets: &mut [u32], i: usize) -> bool
        requires sized { length sets.old ≡ length bits.now.list.now }
        requires place { i < length bits.now.list.now }
        ensures becomes { sets.new ≡ slice_set sets.old i (joined_at self.now.row self.now.operands bits.now.list.now bits.now.stem sets.old i) }
        ensures more { result ≡ not (joined_at self.now.row self.now.operands bits.now.list.now bits.now.stem sets.old i == slice_index sets.old i) }
    {
        let was = sets[i];
        let there = sets[bits.follower(i)];
        let states = self.join(bits.list[i], there, was);
        sets[i] = states;
        states != was
    }

    // Goes through the positions from last to first, and says whether some state joined.
    fn sweep(&self, bits: &Rounds, sets: &mut [u32]) -> bool
        requires sized { length sets.old ≡ length bits.now.list.now }
        requires partial { Partial self.now.row self.now.operands bits.now.list.now bits.now.stem sets.old }
        ensures { Swept self.now.row self.now.operands bits.now.list.now bits.now.stem sets.old sets.new 0 result }
    {
        let mut more = false;
        for i in (0..bits.list.len()).rev() {
            if self.join_at(bits, sets, i) {
                more = true;
            }
        }
        more
    }

    // The states from which the connective is fulfilled at each position: the final ones, and sweeps until one adds nothing.
    pub(crate) fn fulfil(&self, bits: &Rounds, sets: &mut [u32])
        requires { length sets.old ≡ length bits.now.list.now }
        ensures { Filled self.now.row self.now.operands bits.now.list.now bits.now.stem sets.new }
    {
        sets.fill(self.row.finals as u32);
        'sweeps: while self.sweep(bits, sets) {}
    }
}
