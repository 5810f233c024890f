//! One line more: its order is judged first, then its values, then the limits.
ghost use Rattle.std.specs.Prelude.{◌≡◌, ℕ, ◌+◌, ◌<◌, ◌≤◌, Bool, true, false, ◌&&◌, [], ◌∷◌, ◌++◌, length, take, MatchOption, OnErr, nat_le, nat_lt};
ghost use Rattle.frames.specs.Borrowed.{meant};
ghost use Rattle.frames.specs.Frames.Frame.{connective, end, node, transition};
ghost use Rattle.frames.specs.Frames.Node.{apply};
ghost use Rattle.frames.specs.Lines.{spelt};
ghost use Rattle.language.specs.Properties.{all_below, connective_fits, idle, node_fits, node_width};
ghost use Rattle.language.specs.Reading.{blank, taken};
ghost use Rattle.properties.specs.Meaning.{drafted, led, of_draft, of_rows};
ghost use Rattle.properties.specs.Views.{node_of};

use crate::arrays::Rows;
use crate::drafts::Draft;
use crate::rows::{Connective, Node};
use frames::{Bytes, Frame, Refusal};

// Whether the numbers of a connective are in range.
fn in_range(m: u8, n: u8, q: u8, f: u8) -> bool
    ensures { result ≡ connective_fits (idle m n q f) }
{
    1 <= m && m <= 8 && 1 <= n && n <= 4 && q < m && (f as u32) < 1 << m
}

// Whether all operands are lower than k.
fn lower(operands: &[u8], k: u8) -> bool
    ensures { result ≡ all_below k operands.now }
{
    operands.iter().all(|i| *i < k)
}

impl Rows {
    // Whether a connective node may stand as the next one: it has an operand for each letter, and all are lower.
    fn applies(&self, c: u8, operands: &[u8]) -> bool
        ensures { result ≡ node_fits (of_rows self.now).connectives self.now.count (apply c operands.now) }
    {
        c < self.used
            && operands.len() == self.connectives[c as usize].letters as usize
            && lower(operands, self.count)
    }

    // Whether a node may stand as the next one.
    fn fits(&self, row: Node) -> bool
        ensures { result ≡ node_fits (of_rows self.now).connectives self.now.count (node_of row) }
    {
        let k = self.count;
        match row {
            Node::True => true,
            Node::Proposition(p) => p < 16,
            Node::Not(i) | Node::Next(i) => i < k,
            Node::And(i, j) | Node::Or(i, j) => i < k && j < k,
            Node::Apply {
                connective: c,
                arity,
                operands,
            } => self.applies(c, &operands[..arity.min(4) as usize]),
        }
    }

    // How much a node adds to the width.
    fn width_of(&self, row: Node) -> u8
        ensures is { result ≡ node_width (of_rows self.now).connectives (node_of row) }
        ensures small { result ≤ 8 }
    {
        match row {
            Node::Next(_) => 1,
            Node::Apply { connective: c, .. } if c < self.used => {
                self.connectives[c as usize].states
            }
            _ => 0,
        }
    }
}

// Whether a node may be the next one of so many, with the width that all then have.
fn within_limits(count: u8, width: u8) -> bool
    ensures { result ≡ (nat_lt count 32 && nat_le width 12) }
{
    count < 32 && width <= 12
}

// A connective node with the operands that digits spell, or None where they are more than four.
fn applied(c: u8, digits: &[u8]) -> Option<Node>
    ensures { MatchOption result (4 < length (spelt digits.now)) (λ x. node_of x ≡ apply c (spelt digits.now)) }
{
    let bytes = Bytes::of(digits);
    let found = bytes.as_slice();
    if found.len() > 4 {
        return None;
    }
    let mut operands = [0; 4];
    operands[..found.len()].copy_from_slice(found);
    Some(Node::Apply {
        connective: c,
        arity: found.len() as u8,
        operands,
    })
}

impl Rows {
    fn connective(&mut self, m: u8, n: u8, q: u8, f: u8, line: u32) -> Result<(), Refusal>
        ensures takes { drafted (led result (Draft.Open self.new)) ≡ taken line (of_draft (Draft.Open self.old)) (connective m n q f) }
        ensures err { OnErr result (self.new ≡ self.old) }
    {
        if self.count > 0 {
            return Err(Refusal::Order { line });
        }
        if !in_range(m, n, q, f) {
            return Err(Refusal::Value { line });
        }
        if self.used >= 4 {
            return Err(Refusal::Limit { line });
        }
        self.add_connective(Connective {
            states: m,
            letters: n,
            start: q,
            finals: f,
            moves: [0; 32],
        });
        Ok(())
    }

    fn transition(&mut self, p: u8, a: u8, r: u8, line: u32) -> Result<(), Refusal>
        ensures takes { drafted (led result (Draft.Open self.new)) ≡ taken line (of_draft (Draft.Open self.old)) (transition p a r) }
        ensures err { OnErr result (self.new ≡ self.old) }
    {
        if self.count > 0 || self.used == 0 {
            return Err(Refusal::Order { line });
        }
        let latest = self.connectives[self.used as usize - 1];
        if p >= latest.states || a >= latest.letters || r >= latest.states {
            return Err(Refusal::Value { line });
        }
        self.add_move(p, a, r);
        Ok(())
    }

    fn node(&mut self, row: Node, line: u32) -> Result<(), Refusal>
        ensures takes { drafted (led result (Draft.Open self.new)) ≡ taken line (of_draft (Draft.Open self.old)) (node (node_of row)) }
        ensures err { OnErr result (self.new ≡ self.old) }
    {
        if !self.fits(row) {
            return Err(Refusal::Value { line });
        }
        let width = self.width + self.width_of(row);
        if !within_limits(self.count, width) {
            return Err(Refusal::Limit { line });
        }
        self.add_node(row, width);
        Ok(())
    }

    fn apply(&mut self, c: u8, digits: &[u8], line: u32) -> Result<(), Refusal>
        ensures takes { drafted (led result (Draft.Open self.new)) ≡ taken line (of_draft (Draft.Open self.old)) (node (apply c (spelt digits.now))) }
        ensures err { OnErr result (self.new ≡ self.old) }
    {
        match applied(c, digits) {
            Some(row) => self.node(row, line),
            None => Err(Refusal::Value { line }),
        }
    }

    fn end(&self, line: u32) -> Result<Draft, Refusal>
        ensures { drafted result ≡ taken line (of_draft (Draft.Open self.now)) end }
    {
        if self.count == 0 {
            return Err(Refusal::Order { line });
        }
        Ok(Draft::Ended(*self))
    }
}

impl Draft {
    // Nothing read yet.
    pub(crate) fn new() -> Draft
        ensures { of_draft result ≡ blank }
    {
        Draft::Open(Rows::new())
    }

    // Takes what a frame at a line says, or refuses the line and stays as it was: nothing stands after the end.
    pub(crate) fn take(&mut self, frame: Frame<'_>, line: u32) -> Result<(), Refusal>
        ensures takes { drafted (led result self.new) ≡ taken line (of_draft self.old) (meant frame.entry) }
        ensures err { OnErr result (self.new ≡ self.old) }
    {
        match self {
            Draft::Open(rows) => match frame {
                Frame::Connective {
                    states,
                    letters,
                    start,
                    finals,
                } => rows.connective(states, letters, start, finals, line),
                Frame::Transition { from, letter, to } => rows.transition(from, letter, to, line),
                Frame::Proposition(p) => rows.node(Node::Proposition(p), line),
                Frame::Not(i) => rows.node(Node::Not(i), line),
                Frame::Next(i) => rows.node(Node::Next(i), line),
                Frame::And(i, j) => rows.node(Node::And(i, j), line),
                Frame::Or(i, j) => rows.node(Node::Or(i, j), line),
                Frame::Apply {
                    connective: c,
                    operands,
                } => rows.apply(c, operands, line),
                Frame::True => rows.node(Node::True, line),
                Frame::End => {
                    *self = rows.end(line)?;
                    Ok(())
                }
            },
            Draft::Ended(_) => Err(Refusal::Order { line }),
        }
    }
}
