//! The rounds of the loop: each discharges one obligation, and carries the others along.
ghost use Rattle.std.specs.Prelude.{◌≡◌, suc, ◌*◌, ◌<◌, ◌≤◌, ◌+◌, length, take, drop};
ghost use Rattle.logic.specs.Product.{mask_width};
ghost use Rattle.obligations.specs.Shapes.{layered_vertices};
ghost use Rattle.tableau.specs.Built.{OpenLoop};
ghost use Rattle.tableau.specs.Numbers.{vertices};

use crate::accepted::Accepted;
use crate::carrying::{carry_along, lowest, pending};
use crate::copying::to_states;
use crate::progress::Progress;
use crate::routing::route;
use graphs::{Finder, Graph};
use models::Model;
use product::plan::node_width;

impl<'a, M: Model> Accepted<'a, M> {
    ghost use Rattle.graphs.specs.Finders.{SameWords, room};
    ghost use Rattle.loops.specs.Rounding.{NodesDone, RoundMade, RoundReady};
    ghost use Rattle.loops.specs.Shapes.{SettingAt, model_at, property_at, set_at};

    // One round: discharges the lowest obligation of node k that is due, on a walk from x back to x.
    fn round(
        &self,
        k: usize,
        done: Progress,
        finder: &mut Finder<'_>,
        words: &mut [u32],
    ) -> Progress
        requires setting { SettingAt M.Model self.now }
        requires finder { layered_vertices (model_at M.Model self.now) (property_at self.now) ≤ room finder.old }
        requires ready { RoundReady (model_at M.Model self.now) (property_at self.now) (set_at self.now) self.now.x k done words.old }
        ensures made { RoundMade (model_at M.Model self.now) (property_at self.now) (set_at self.now) self.now.x k done words.old words.new result }
        ensures finder { SameWords finder.old finder.new }
    {
        let o = &self.obligations;
        let plan = o.inside.product.plan;
        let size = o.inside.states();
        let q = lowest(done.due, node_width(&plan.property, k) as u32).unwrap();
        let from = self.x + (plan.starts[k] as u32 + q + 1) * size;
        let room = o.states() as usize;
        let at = done.at;
        let count = route(o, from, self.x, finder, words, at, room);
        let end = at + count - 1;
        let left = done.due - (1 << q);
        let due = carry_along(o.inside.product.model, plan, size, k, &words[at..end], left);
        to_states(words, at, end, size, plan.size());
        Progress { at: end, due }
    }

    // The rounds of node k, until none of its obligations is due.
    fn node_rounds(&self, k: usize, finder: &mut Finder<'_>, words: &mut [u32], at: usize) -> usize
        requires setting { SettingAt M.Model self.now }
        requires finder { layered_vertices (model_at M.Model self.now) (property_at self.now) ≤ room finder.old }
        requires node { k < length (property_at self.now).nodes }
        requires done { NodesDone (model_at M.Model self.now) (property_at self.now) (set_at self.now) self.now.x k at words.old }
        requires room { mask_width (property_at self.now) * mask_width (property_at self.now) * vertices (model_at M.Model self.now) (property_at self.now) ≤ length words.old }
        ensures done { NodesDone (model_at M.Model self.now) (property_at self.now) (set_at self.now) self.now.x (suc k) result words.new }
        ensures further { at ≤ result }
        ensures rest { drop (result + 1) words.new ≡ drop (result + 1) words.old }
        ensures finder { SameWords finder.old finder.new }
    {
        let o = &self.obligations;
        let product = o.inside.product;
        let plan = product.plan;
        let masks = plan.size();
        let label = product.model.label(self.x / masks);
        let mut done = Progress {
            at,
            due: pending(plan, label, self.x % masks, k),
        };
        while done.due != 0 {
            done = self.round(k, done, finder, words);
        }
        done.at
    }

    // The rounds of all nodes: the words that are written are a loop on which every obligation at x is discharged.
    pub(crate) fn all_rounds(&self, finder: &mut Finder<'_>, words: &mut [u32]) -> usize
        requires setting { SettingAt M.Model self.now }
        requires finder { layered_vertices (model_at M.Model self.now) (property_at self.now) ≤ room finder.old }
        requires room { mask_width (property_at self.now) * mask_width (property_at self.now) * vertices (model_at M.Model self.now) (property_at self.now) ≤ length words.old }
        ensures open { OpenLoop (model_at M.Model self.now) (property_at self.now) (set_at self.now) self.now.x self.now.x 0 (take result words.new) }
        ensures longer { result ≤ mask_width (property_at self.now) * mask_width (property_at self.now) * vertices (model_at M.Model self.now) (property_at self.now) }
        ensures rest { drop (result + 1) words.new ≡ drop (result + 1) words.old }
        ensures finder { SameWords finder.old finder.new }
    {
        let o = &self.obligations;
        let plan = o.inside.product.plan;
        let mut at = 0;
        for k in 0..plan.property.rows.count as usize {
            at = self.node_rounds(k, finder, words, at);
        }
        at
    }
}
