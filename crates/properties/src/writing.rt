//! The canonical text of a property, written into an area as far as that goes.
ghost use Rattle.std.specs.Prelude.{◌≡◌, ℕ, ◌+◌, ◌<◌, ◌≤◌, [], ◌∷◌, map, length, take, Ok};
ghost use Rattle.std.specs.List.{flat_map};
ghost use Rattle.frames.specs.Areas.{filled, told};
ghost use Rattle.frames.specs.Writers.{Writes};
ghost use Rattle.language.specs.Canonical.{canonical, connective_lines, each, node_line, text_of, transition_line, transition_lines};
ghost use Rattle.language.specs.Reading.{read};
ghost use Rattle.properties.specs.Meaning.{meaning, of_rows};
ghost use Rattle.properties.specs.Views.{connective_of, node_of};

use crate::arrays::Rows;
use crate::property::Property;
use crate::rows::{Connective, Node};
use frames::{Refusal, Writer, put, put_number};

// Writes the line of some bytes.
fn put_line(to: &mut Writer<'_>, bytes: &[u8])
    requires room { to.old.at ≤ 32000 }
    requires short { length bytes.now ≤ 6 }
    ensures line { Writes to.old to.new (text_of (bytes.now ∷ [])) }
    ensures near { to.new.at ≤ to.old.at + 13 }
{
    let area = &mut *to.area;
    let mut at = to.at;
    for b in bytes {
        at = put_number(area, at, *b as u32, 2);
    }
    to.at = put(area, at, b'\n');
}

// Writes the lines of state p on letter a, one for each state that it may go to.
fn put_targets(to: &mut Writer<'_>, row: Connective, p: u8, a: u8)
    requires room { to.old.at ≤ 30000 }
    requires range { (p < row.states) × (a < row.letters) }
    ensures lines { Writes to.old to.new (text_of (each row.states (λ r. transition_line (connective_of row) p a r))) }
    ensures near { to.new.at ≤ to.old.at + 104 }
{
    let word = row.moves[4 * p as usize + a as usize];
    for r in 0..row.states {
        if (word >> r) & 1 == 1 {
            put_line(to, &[0x11, p, a, r]);
        }
    }
}

// Writes the lines of state p, letter by letter.
fn put_letters(to: &mut Writer<'_>, row: Connective, p: u8)
    requires room { to.old.at ≤ 28000 }
    requires range { p < row.states }
    ensures lines { Writes to.old to.new (text_of (each row.letters (λ a. each row.states (λ r. transition_line (connective_of row) p a r)))) }
    ensures near { to.new.at ≤ to.old.at + 416 }
{
    for a in 0..row.letters {
        put_targets(to, row, p, a);
    }
}

// Writes the lines of all transitions, state by state.
fn put_transitions(to: &mut Writer<'_>, row: Connective)
    requires { to.old.at ≤ 24000 }
    ensures lines { Writes to.old to.new (text_of (transition_lines (connective_of row))) }
    ensures near { to.new.at ≤ to.old.at + 3328 }
{
    for p in 0..row.states {
        put_letters(to, row, p);
    }
}

// Writes a connective: its numbers, and then its transitions.
fn put_connective(to: &mut Writer<'_>, row: Connective)
    requires { to.old.at ≤ 20000 }
    ensures lines { Writes to.old to.new (text_of (connective_lines (connective_of row))) }
    ensures near { to.new.at ≤ to.old.at + 3341 }
{
    put_line(to, &[0x10, row.states, row.letters, row.start, row.finals]);
    put_transitions(to, row);
}

// Writes the connectives in use.
fn put_connectives(to: &mut Writer<'_>, rows: &Rows)
    requires { to.old.at ≤ 9000 }
    ensures lines { Writes to.old to.new (text_of (flat_map connective_lines (of_rows rows.now).connectives)) }
    ensures near { to.new.at ≤ to.old.at + 13364 }
{
    for row in &rows.connectives[..rows.used as usize] {
        put_connective(to, *row);
    }
}

// Writes the line of a connective node, with as many operands as `arity` says.
fn put_application(to: &mut Writer<'_>, connective: u8, arity: u8, operands: [u8; 4])
    requires { to.old.at ≤ 30000 }
    ensures line { Writes to.old to.new (text_of ((0x25 ∷ connective ∷ take arity operands) ∷ [])) }
    ensures near { to.new.at ≤ to.old.at + 13 }
{
    let [i, j, k, l] = operands;
    let bytes = [0x25, connective, i, j, k, l];
    put_line(to, &bytes[..arity.min(4) as usize + 2]);
}

// Writes the line of a node.
fn put_node(to: &mut Writer<'_>, node: Node)
    requires { to.old.at ≤ 30000 }
    ensures line { Writes to.old to.new (text_of (node_line (node_of node) ∷ [])) }
    ensures near { to.new.at ≤ to.old.at + 13 }
{
    match node {
        Node::True => put_line(to, &[0x26]),
        Node::Proposition(p) => put_line(to, &[0x20, p]),
        Node::Not(i) => put_line(to, &[0x21, i]),
        Node::Next(i) => put_line(to, &[0x22, i]),
        Node::And(i, j) => put_line(to, &[0x23, i, j]),
        Node::Or(i, j) => put_line(to, &[0x24, i, j]),
        Node::Apply {
            connective,
            arity,
            operands,
        } => put_application(to, connective, arity, operands),
    }
}

// Writes the nodes in use.
fn put_nodes(to: &mut Writer<'_>, rows: &Rows)
    requires { to.old.at ≤ 24000 }
    ensures lines { Writes to.old to.new (text_of (map node_line (of_rows rows.now).nodes)) }
    ensures near { to.new.at ≤ to.old.at + 416 }
{
    for node in &rows.nodes[..rows.count as usize] {
        put_node(to, *node);
    }
}

// Writes the whole text.
fn put_property(to: &mut Writer<'_>, rows: &Rows)
    requires { to.old.at ≤ 9000 }
    ensures { Writes to.old to.new (canonical (of_rows rows.now)) }
{
    put_connectives(to, rows);
    put_nodes(to, rows);
    put_line(to, &[0x2f]);
}

impl Property {
    // How many bytes the canonical text has.
    pub fn shown_length(&self) -> usize
        ensures { result ≡ length (canonical (meaning self.now)) }
    {
        let mut writer = Writer {
            area: &mut [],
            at: 0,
        };
        put_property(&mut writer, &self.rows);
        writer.at
    }

    // Writes the canonical text, and tells its length; an area that is too short is refused and left as it was.
    pub fn show(&self, area: &mut [u8]) -> Result<usize, Refusal>
        ensures answer { result ≡ told (canonical (meaning self.now)) area.old }
        ensures area { area.new ≡ filled (canonical (meaning self.now)) area.old }
        ensures back { read (canonical (meaning self.now)) ≡ Ok (meaning self.now) }
    {
        if area.len() < self.shown_length() {
            return Err(Refusal::Room);
        }
        let mut writer = Writer { area, at: 0 };
        put_property(&mut writer, &self.rows);
        Ok(writer.at)
    }
}
