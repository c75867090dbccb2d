// The nodes and arcs of one item.
ghost use Rattle.std.specs.Prelude.{◌≡◌, ◌+◌, ◌≤◌, ◌++◌, map, length, take, drop, MatchOption};
ghost use Rattle.lists.specs.Entries.{entries};
ghost use Rattle.compile.specs.Drafts.{GrewBoth, Short};
ghost use Rattle.compile.specs.Steps.{passing};
ghost use Rattle.compile.specs.Items.{Opened, nodes_of, next_of, Stations, Followed, Ended};

use crate::draft::Draft;
use crate::step::Step;
use crate::weighed::Weighed;
use graph::Row;
use limits::kind::Kind;

impl<'r, 'l, L: Copy> Draft<'r, 'l, L> {
    // All stations of an item, from the first, which begins at `low`, to that of its most copies, and the take arcs between
    // them. None if there is no room for them.
    fn stations<K: Kind<Load = L>>(&mut self, kind: &K, low: usize, item: &Weighed<L>) -> Option<()>
        requires { Opened K.amount item.now.number low self.old }
        ensures kept { GrewBoth self.old self.new }
        ensures cases { MatchOption result
            (Short self.old (low + length (nodes_of K.amount (K.meaning kind.now) item.now low self.old)))
            (λ _. Stations K.amount (K.meaning kind.now) item.now low self.old self.new) }
    {
        let take = Step::Take(item.weight);
        let mut from = low;
        for copies in 1..=item.most {
            from = self.arcs(kind, from, &take, Row::new(item.number, copies))?;
        }
        Some(())
    }

    // Leads the pass arcs of the nodes from `low` on to the next node, which is to be the target.
    fn pass_to_target(&mut self, low: usize)
        requires { low ≤ length (entries self.old.rows) }
        ensures kept { GrewBoth self.old self.new }
        ensures rows { entries self.new.rows ≡ take low (entries self.old.rows) ++ map (passing (length (entries self.old.rows))) (drop low (entries self.old.rows)) }
        ensures loads { self.new.loads ≡ self.old.loads }
    {
        let high = self.rows.len();
        // By number, since a list lends no entry to be changed.
        for n in low..high {
            self.lead(n, &Step::Pass, high as u32);
        }
    }

    // The nodes and arcs of an item that another one follows; its first station begins at `low`.
    // The answer is the node at which the next item begins; none if there is no room for that item's first station.
    pub(crate) fn inner_item<K: Kind<Load = L>>(
        &mut self,
        kind: &K,
        low: usize,
        item: &Weighed<L>,
    ) -> Option<usize>
        requires { Opened K.amount item.now.number low self.old }
        ensures kept { GrewBoth self.old self.new }
        ensures cases { MatchOption result
            (Short self.old (low + length (nodes_of K.amount (K.meaning kind.now) item.now low self.old)
            + length (next_of K.amount (K.meaning kind.now) item.now low self.old)))
            (Followed K.amount (K.meaning kind.now) item.now low self.old self.new) }
    {
        self.stations(kind, low, item)?;
        self.arcs(kind, low, &Step::Pass, Row::new(item.number + 1, 0))
    }

    // The nodes and arcs of the last item, whose first station begins at `low`, for a target that is to come next.
    // None if there is no room for them.
    pub(crate) fn last_item<K: Kind<Load = L>>(
        &mut self,
        kind: &K,
        low: usize,
        item: &Weighed<L>,
    ) -> Option<()>
        requires { Opened K.amount item.now.number low self.old }
        ensures kept { GrewBoth self.old self.new }
        ensures cases { MatchOption result
            (Short self.old (low + length (nodes_of K.amount (K.meaning kind.now) item.now low self.old)))
            (λ _. Ended K.amount (K.meaning kind.now) item.now low self.old self.new) }
    {
        self.stations(kind, low, item)?;
        self.pass_to_target(low);
        Some(())
    }
}
