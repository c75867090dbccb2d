// The arcs from the nodes of one station, or of one item.
ghost use Rattle.std.specs.Prelude.{◌<◌, ◌≤◌, length};
ghost use Rattle.lists.specs.Entries.{entries};
ghost use Rattle.compile.specs.Drafts.{GrewBoth};
ghost use Rattle.compile.specs.Arcs.{LeadsOne, Leads};

use crate::draft::Draft;
use crate::step::Step;
use graph::Row;
use limits::kind::Kind;

impl<'r, 'l, L: Copy> Draft<'r, 'l, L> {
    // The arc of node `n`, if the step leads anywhere: to the station that begins at `high`, where a new node gets `row`.
    // None if there is no room for the node to which it leads.
    fn arc<K: Kind<Load = L>>(
        &mut self,
        kind: &K,
        n: usize,
        high: usize,
        step: &Step<L>,
        row: Row,
    ) -> Option<()>
        requires node { n < length (entries self.old.loads) }
        requires within { high ≤ length (entries self.old.loads) }
        ensures kept { GrewBoth self.old self.new }
        ensures leads { LeadsOne K.amount (K.meaning kind.now) step.now row high n self.old self.new result }
    {
        let load = self.loads.as_slice()[n];
        if let Some(next) = step.next(kind, &load) {
            let to = self.node(kind, high, next, row)?;
            self.lead(n, step, to);
        }
        Some(())
    }

    // The arcs of the nodes from `low` on, to a new station, whose nodes get `row`.
    // The answer is the node at which that begins; none if there is no room for it.
    pub(crate) fn arcs<K: Kind<Load = L>>(
        &mut self,
        kind: &K,
        low: usize,
        step: &Step<L>,
        row: Row,
    ) -> Option<usize>
        requires { low ≤ length (entries self.old.loads) }
        ensures kept { GrewBoth self.old self.new }
        ensures leads { Leads K.amount (K.meaning kind.now) step.now row low self.old self.new result }
    {
        let high = self.loads.len();
        // By number, since each turn may add a node to the list.
        for n in low..high {
            self.arc(kind, n, high, step, row)?;
        }
        Some(high)
    }
}
