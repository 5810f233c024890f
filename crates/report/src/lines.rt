//! The lines of a report, written into an area as far as that goes.
ghost use Rattle.std.specs.Prelude.{◌≡◌, ◌^◌, ◌<◌, length};
ghost use Rattle.std.specs.List.{flat_map};
ghost use Rattle.frames.specs.Writers.{Writes};
ghost use Rattle.report.specs.Reports.{broken_line, broken_text, holds_line, word_line};

use frames::Writer;

// Writes the line of HOLDS.
pub(crate) fn put_holds(to: &mut Writer<'_>)
    requires { to.old.at < 2 ^ 60 }
    ensures { Writes to.old to.new holds_line }
{
    to.put_number(0x40, 2);
    to.put(b'\n');
}

// Writes the line of BROKEN with its counts.
fn put_counts(to: &mut Writer<'_>, stem: u32, turns: u32)
    requires { to.old.at < 2 ^ 60 }
    ensures { Writes to.old to.new (broken_line stem turns) }
{
    to.put_number(0x41, 2);
    to.put_number(stem, 8);
    to.put_number(turns, 8);
    to.put(b'\n');
}

// Writes the line of a word.
fn put_word(to: &mut Writer<'_>, word: u32)
    requires { to.old.at < 2 ^ 61 }
    ensures { Writes to.old to.new (word_line word) }
{
    to.put_number(0x42, 2);
    to.put_number(word, 4);
    to.put(b'\n');
}

// Writes the lines of words.
fn put_words(to: &mut Writer<'_>, words: &[u32])
    requires room { to.old.at < 2 ^ 60 }
    requires few { length words.now < 2 ^ 40 }
    ensures { Writes to.old to.new (flat_map word_line words.now) }
{
    for w in words {
        put_word(to, *w);
    }
}

// Writes BROKEN and the lines of its lasso.
pub(crate) fn put_broken(to: &mut Writer<'_>, stem: u32, turns: u32, lasso: &[u32])
    requires room { to.old.at < 2 ^ 59 }
    requires few { length lasso.now < 2 ^ 40 }
    ensures { Writes to.old to.new (broken_text stem turns lasso.now) }
{
    put_counts(to, stem, turns);
    put_words(to, lasso);
}
