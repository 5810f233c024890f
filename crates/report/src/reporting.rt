//! The public call: the report of what a check answered.
ghost use Rattle.std.specs.Prelude.{◌≡◌, ◌+◌, ◌*◌, ◌^◌, ◌<◌, length, nat_le};
ghost use Rattle.frames.specs.Areas.{filled, told};
ghost use Rattle.report.specs.Reports.{all_short, broken_report, broken_text, holds_line, report_filled, report_told, reported, tellable};

use crate::lines::{put_broken, put_holds};
use decision::Verdict;
use frames::{Refusal, Writer};

// Whether every word can be told in four digits.
fn all_short(words: &[u32]) -> bool
    ensures { result ≡ all_short words.now }
{
    words.iter().all(|w| *w <= 65535)
}

// Whether the words begin with a lasso of these counts that can be told.
fn tellable(stem: u32, turns: u32, words: &[u32]) -> bool
    ensures { result ≡ tellable stem turns words.now }
{
    let count = stem as usize + turns as usize;
    turns != 0 && count <= words.len() && all_short(&words[..count])
}

// Reports HOLDS.
fn report_holds(area: &mut [u8]) -> Result<usize, Refusal>
    ensures answer { result ≡ told holds_line area.old }
    ensures area { area.new ≡ filled holds_line area.old }
{
    if area.len() < 3 {
        return Err(Refusal::Room);
    }
    let mut writer = Writer { area, at: 0 };
    put_holds(&mut writer);
    Ok(writer.at)
}

// Reports BROKEN with a lasso that can be told.
fn report_lasso(stem: u32, turns: u32, lasso: &[u32], area: &mut [u8]) -> Result<usize, Refusal>
    requires { length lasso.now < 2 ^ 40 }
    ensures answer { result ≡ told (broken_text stem turns lasso.now) area.old }
    ensures area { area.new ≡ filled (broken_text stem turns lasso.now) area.old }
{
    if area.len() < 19 + 7 * lasso.len() {
        return Err(Refusal::Room);
    }
    let mut writer = Writer { area, at: 0 };
    put_broken(&mut writer, stem, turns, lasso);
    Ok(writer.at)
}

// Reports BROKEN with the lasso at the front of the words, if that can be told.
fn report_broken(stem: u32, turns: u32, words: &[u32], area: &mut [u8]) -> Result<usize, Refusal>
    ensures answer { result ≡ report_told (broken_report stem turns words.now) area.old }
    ensures area { area.new ≡ report_filled (broken_report stem turns words.now) area.old }
{
    if !tellable(stem, turns, words) {
        return Err(Refusal::Value { line: 0 });
    }
    let count = stem as usize + turns as usize;
    report_lasso(stem, turns, &words[..count], area)
}

// Writes what a check answered as lines of text, and tells their length: HOLDS, BROKEN with the lasso at the front of the words, or a
// refusal. A lasso that cannot be told is refused first, then an area that is too short; a refusal leaves the area as it was.
pub fn report(
    outcome: Result<Verdict, Refusal>,
    words: &[u32],
    area: &mut [u8],
) -> Result<usize, Refusal>
    ensures answer { result ≡ report_told (reported outcome words.now) area.old }
    ensures area { area.new ≡ report_filled (reported outcome words.now) area.old }
{
    match outcome {
        Ok(Verdict::Holds) => report_holds(area),
        Ok(Verdict::Broken { stem, turns }) => report_broken(stem, turns, words, area),
        Err(refusal) => refusal.show(area),
    }
}
