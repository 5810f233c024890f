//! The loop of the lasso.
ghost use Rattle.std.specs.Prelude.{◌≡◌, ◌≤◌, length};
ghost use Rattle.obligations.specs.Shapes.{layered_vertices};
ghost use Rattle.tableau.specs.Numbers.{vertices};
ghost use Rattle.loops.specs.Settings.{loop_words};

use crate::accepted::Accepted;
use graphs::Finder;
use models::Model;

impl<'a, M: Model> Accepted<'a, M> {
    ghost use Rattle.graphs.specs.Finders.{SameWords, room};
    ghost use Rattle.loops.specs.Lassos.{LoopBuilt};
    ghost use Rattle.loops.specs.Shapes.{SettingAt, model_at, property_at};

    // Writes a loop from x: rounds that discharge all obligations, a visit of each fair set, and the way back. Tells how many words it has.
    pub(crate) fn build_loop(
        &self,
        finder: &mut Finder<'_>,
        list: &mut [u32],
        words: &mut [u32],
    ) -> usize
        requires setting { SettingAt M.Model self.now }
        requires finder { layered_vertices (model_at M.Model self.now) (property_at self.now) ≤ room finder.old }
        requires list { vertices (model_at M.Model self.now) (property_at self.now) ≤ length list.old }
        requires room { loop_words (model_at M.Model self.now) (property_at self.now) ≤ length words.old }
        ensures built { LoopBuilt (model_at M.Model self.now) (property_at self.now) self.now.x words.old words.new result }
        ensures finder { SameWords finder.old finder.new }
    {
        let at = self.all_rounds(finder, words);
        let stands = self.visit_all(at, finder, list, words);
        self.close(stands, finder, list, words)
    }
}
