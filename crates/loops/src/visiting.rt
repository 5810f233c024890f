//! A visit of each fair set.
ghost use Rattle.std.specs.Prelude.{◌≡◌, ℕ, ◌+◌, ◌*◌, ◌<◌, ◌≤◌, length, take, drop};
ghost use Rattle.obligations.specs.Shapes.{layered_vertices};
ghost use Rattle.tableau.specs.Built.{OpenLoop};
ghost use Rattle.tableau.specs.Numbers.{vertices};

use crate::accepted::Accepted;
use crate::copying::copy_states;
use crate::progress::Standing;
use crate::routing::route;
use graphs::{Finder, Graph};
use models::Model;
use obligations::Component;

impl<'a, M: Model> Accepted<'a, M> {
    ghost use Rattle.graphs.specs.Finders.{SameWords, room};
    ghost use Rattle.loops.specs.Shapes.{SettingAt, model_at, property_at, set_at};
    ghost use Rattle.loops.specs.Visiting.{Visited};

    // Goes on to a vertex of the fair set j.
    fn visit(
        &self,
        j: u32,
        stands: Standing,
        finder: &mut Finder<'_>,
        list: &mut [u32],
        words: &mut [u32],
    ) -> Standing
        requires setting { SettingAt M.Model self.now }
        requires finder { layered_vertices (model_at M.Model self.now) (property_at self.now) ≤ room finder.old }
        requires list { vertices (model_at M.Model self.now) (property_at self.now) ≤ length list.old }
        requires room { stands.at + vertices (model_at M.Model self.now) (property_at self.now) ≤ length words.old }
        requires set { j < (model_at M.Model self.now).sets }
        requires visited { Visited (model_at M.Model self.now) (property_at self.now) (set_at self.now) self.now.x j stands words.old }
        ensures visited { Visited (model_at M.Model self.now) (property_at self.now) (set_at self.now) self.now.x (j + 1) result words.new }
        ensures further { (stands.at ≤ result.at) × (result.at ≤ stands.at + vertices (model_at M.Model self.now) (property_at self.now)) }
        ensures rest { drop result.at words.new ≡ drop result.at words.old }
        ensures finder { SameWords finder.old finder.new }
    {
        let o = &self.obligations;
        let inside = &o.inside;
        let product = inside.product;
        let component = Component {
            segment: inside.segment,
            stack: self.stack,
        };
        let vertex = component
            .fair_vertex(product.model, product.plan, j)
            .unwrap();
        let size = inside.states();
        let count = route(
            inside,
            stands.vertex,
            vertex,
            finder,
            list,
            0,
            size as usize,
        );
        copy_states(list, count - 1, size, product.plan.size(), words, stands.at);
        Standing {
            at: stands.at + count - 1,
            vertex,
        }
    }

    // Goes on through a vertex of each fair set.
    pub(crate) fn visit_all(
        &self,
        at: usize,
        finder: &mut Finder<'_>,
        list: &mut [u32],
        words: &mut [u32],
    ) -> Standing
        requires setting { SettingAt M.Model self.now }
        requires finder { layered_vertices (model_at M.Model self.now) (property_at self.now) ≤ room finder.old }
        requires list { vertices (model_at M.Model self.now) (property_at self.now) ≤ length list.old }
        requires room { at + (model_at M.Model self.now).sets * vertices (model_at M.Model self.now) (property_at self.now) ≤ length words.old }
        requires open { OpenLoop (model_at M.Model self.now) (property_at self.now) (set_at self.now) self.now.x self.now.x 0 (take at words.old) }
        ensures visited { Visited (model_at M.Model self.now) (property_at self.now) (set_at self.now) self.now.x (model_at M.Model self.now).sets result words.new }
        ensures further { (at ≤ result.at) × (result.at ≤ at + (model_at M.Model self.now).sets * vertices (model_at M.Model self.now) (property_at self.now)) }
        ensures rest { drop result.at words.new ≡ drop result.at words.old }
        ensures finder { SameWords finder.old finder.new }
    {
        let o = &self.obligations;
        let product = o.inside.product;
        let mut stands = Standing { at, vertex: self.x };
        for j in 0..product.model.fair_sets() {
            stands = self.visit(j, stands, finder, list, words);
        }
        stands
    }
}
