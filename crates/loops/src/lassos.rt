//! The lasso: a stem to the component, and a loop inside it.
ghost use Rattle.std.specs.Prelude.{◌≡◌, ◌+◌, ◌≤◌, length};
ghost use Rattle.obligations.specs.Shapes.{layered_vertices};
ghost use Rattle.tableau.specs.Numbers.{vertices};
ghost use Rattle.loops.specs.Settings.{StartVertex, loop_words};

use crate::accepted::Accepted;
use crate::copying::copy_states;
use crate::progress::Lengths;
use crate::routing::route;
use graphs::{Finder, Graph};
use models::Model;

impl<'a, M: Model> Accepted<'a, M> {
    ghost use Rattle.graphs.specs.Finders.{SameWords, room};
    ghost use Rattle.loops.specs.Lassos.{LassoWritten, StemWritten};
    ghost use Rattle.loops.specs.Shapes.{SettingAt, model_at, property_at};

    // Writes a stem from u to before x, and tells how many words it has.
    fn write_stem(
        &self,
        u: u32,
        finder: &mut Finder<'_>,
        list: &mut [u32],
        trace: &mut [u32],
    ) -> usize
        requires setting { SettingAt M.Model self.now }
        requires finder { layered_vertices (model_at M.Model self.now) (property_at self.now) ≤ room finder.old }
        requires first { StartVertex (model_at M.Model self.now) (property_at self.now) u self.now.x }
        requires list { vertices (model_at M.Model self.now) (property_at self.now) ≤ length list.old }
        requires room { vertices (model_at M.Model self.now) (property_at self.now) ≤ length trace.old }
        ensures stem { StemWritten (model_at M.Model self.now) (property_at self.now) u self.now.x trace.old trace.new result }
        ensures finder { SameWords finder.old finder.new }
    {
        let o = &self.obligations;
        let product = o.inside.product;
        let size = product.states();
        let count = route(product, u, self.x, finder, list, 0, size as usize);
        copy_states(list, count - 1, size, product.plan.size(), trace, 0);
        count - 1
    }

    // Writes a fair lasso on which the property is false into the first words of the trace: a stem from the start vertex u to the vertex x, and
    // a loop inside the component.
    pub fn write_lasso(
        &self,
        u: u32,
        finder: &mut Finder<'_>,
        list: &mut [u32],
        trace: &mut [u32],
    ) -> Lengths
        requires setting { SettingAt M.Model self.now }
        requires finder { layered_vertices (model_at M.Model self.now) (property_at self.now) ≤ room finder.old }
        requires first { StartVertex (model_at M.Model self.now) (property_at self.now) u self.now.x }
        requires list { vertices (model_at M.Model self.now) (property_at self.now) ≤ length list.old }
        requires room { vertices (model_at M.Model self.now) (property_at self.now) + loop_words (model_at M.Model self.now) (property_at self.now) ≤ length trace.old }
        ensures lasso { LassoWritten (model_at M.Model self.now) (property_at self.now) trace.old trace.new result }
        ensures finder { SameWords finder.old finder.new }
    {
        let stem = self.write_stem(u, finder, list, trace);
        let turns = self.build_loop(finder, list, &mut trace[stem..]);
        Lengths { stem, turns }
    }
}
