//! The way back to where the loop began.
ghost use Rattle.std.specs.Prelude.{◌≡◌, ◌+◌, ◌≤◌, length};
ghost use Rattle.obligations.specs.Shapes.{layered_vertices};
ghost use Rattle.tableau.specs.Numbers.{vertices};

use crate::accepted::Accepted;
use crate::copying::copy_states;
use crate::progress::Standing;
use crate::routing::route;
use graphs::{Finder, Graph};
use models::Model;

impl<'a, M: Model> Accepted<'a, M> {
    ghost use Rattle.graphs.specs.Finders.{SameWords, room};
    ghost use Rattle.loops.specs.Shapes.{SettingAt, model_at, property_at, set_at};
    ghost use Rattle.loops.specs.Visiting.{Closed, Visited};

    // Takes one more edge, and a walk back to x; tells how many words the loop has.
    // The finder and the list are no fields: each contract would then have to say that all other fields stay, and not only that the finder does.
    pub(crate) fn close(
        &self,
        stands: Standing,
        finder: &mut Finder<'_>,
        list: &mut [u32],
        words: &mut [u32],
    ) -> usize
        requires setting { SettingAt M.Model self.now }
        requires finder { layered_vertices (model_at M.Model self.now) (property_at self.now) ≤ room finder.old }
        requires list { vertices (model_at M.Model self.now) (property_at self.now) ≤ length list.old }
        requires room { stands.at + vertices (model_at M.Model self.now) (property_at self.now) ≤ length words.old }
        requires visited { Visited (model_at M.Model self.now) (property_at self.now) (set_at self.now) self.now.x (model_at M.Model self.now).sets stands words.old }
        ensures closed { Closed (model_at M.Model self.now) (property_at self.now) (set_at self.now) self.now.x stands words.old words.new result }
        ensures finder { SameWords finder.old finder.new }
    {
        let o = &self.obligations;
        let inside = &o.inside;
        let size = inside.states();
        let masks = inside.product.plan.size();
        let next = inside.next(stands.vertex, 0).unwrap();
        let count = route(inside, next, self.x, finder, list, 0, size as usize);
        words[stands.at] = stands.vertex / masks;
        copy_states(list, count - 1, size, masks, words, stands.at + 1);
        stands.at + count
    }
}
