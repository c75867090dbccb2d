// Scans of a graph and its flow.
ghost use Rattle.std.specs.Prelude.{◌≡◌, ◌+◌, ◌-◌, ◌*◌, ◌<◌, ◌≤◌, [], length, nat_lt, position};
ghost use Rattle.flow.specs.Flow.{on, outflow, copies_of, carrying};
ghost use Rattle.flow.specs.Job.{lowest, unbalanced, lacking};
ghost use Rattle.flow.specs.Scans.{Inflows, Upward, demands_of, holding};

use crate::ItemRecord;
use crate::flows::Flow;
use crate::walks::target_of;
use graph::MAX_NODES;

impl<'a> Flow<'a> {
    // Adds the flow of an arc to the inflow of the node that it leads to.
    fn add_inflow(&self, arc: u32, inflows: &mut [u64])
        requires upward { Upward self.now.rows.now }
        requires there { arc < length self.now.arcs.now }
        requires before { Inflows self.now.rows.now self.now.arcs.now arc inflows.old }
        ensures { Inflows self.now.rows.now self.now.arcs.now (arc + 1) inflows.new }
    {
        if let Some(target) = target_of(self.rows, arc) {
            inflows[target as usize] += u64::from(self.arcs[arc as usize]);
        }
    }

    // Adds the flow out of a node to the inflow of the nodes that its arcs lead to.
    fn pass_on(&self, node: u32, inflows: &mut [u64])
        requires upward { Upward self.now.rows.now }
        requires there { node < length self.now.rows.now }
        requires before { Inflows self.now.rows.now self.now.arcs.now (2 * node) inflows.old }
        ensures { Inflows self.now.rows.now self.now.arcs.now (2 * (node + 1)) inflows.new }
    {
        self.add_inflow(2 * node, inflows);
        self.add_inflow(2 * node + 1, inflows);
    }

    // The flow out of a node.
    fn outflow(&self, node: u32) -> u64
        requires { node < length self.now.rows.now }
        ensures { result ≡ outflow self.now.arcs.now node }
    {
        let pass = 2 * node as usize;
        u64::from(self.arcs[pass]) + u64::from(self.arcs[pass + 1])
    }

    // The lowest node but for source and target whose inflow is not its outflow. Arcs lead to higher numbers, so that the
    // inflow of a node is complete once the nodes before it have passed on their flow.
    pub fn first_unbalanced(&self) -> Option<u32>
        requires upward { Upward self.now.rows.now }
        requires two { 1 < length self.now.rows.now }
        ensures { result ≡ unbalanced (holding self.now.rows.now self.now.arcs.now []) }
    {
        let target = self.rows.len() as u32 - 1;
        let mut inflows = [0; MAX_NODES];
        self.pass_on(0, &mut inflows);
        // by number: a node is a cell of the inflows and two of the flow
        for node in 1..target {
            if inflows[node as usize] != self.outflow(node) {
                return Some(node);
            }
            self.pass_on(node, &mut inflows);
        }
        None
    }

    // The flow on the take arcs of an item, from 1.
    pub fn copies_of(&self, item: u32) -> u64
        ensures { result ≡ copies_of self.now.rows.now self.now.arcs.now item }
    {
        let mut sum = 0;
        // numbered: a node is a row and two cells
        for (node, row) in self.rows.iter().enumerate() {
            if row.item == item && row.take.is_some() {
                sum += u64::from(self.arcs[2 * node + 1]);
            }
        }
        sum
    }

    // The lowest item with fewer copies than its demand.
    pub fn first_short(&self, items: &[ItemRecord]) -> Option<u32>
        requires { length items.now ≤ 64 }
        ensures { result ≡ lacking (holding self.now.rows.now self.now.arcs.now (demands_of items.now)) }
    {
        // numbered by place: with `zip(1..)` the proof lacks which number comes with an item
        for (place, item) in items.iter().enumerate() {
            let number = place as u32 + 1;
            if self.copies_of(number) < u64::from(item.demand) {
                return Some(number);
            }
        }
        None
    }
}

// How many arcs carry flow. This scan and the next take the cells alone: they need no graph, and no limit on a flow.
pub fn count_carrying(arcs: &[u32]) -> u32
    requires { length arcs.now ≤ 131070 }
    ensures { result ≡ carrying arcs.now }
{
    arcs.iter().filter(|flow| **flow > 0).count() as u32
}

// The place of the first cell that is not 0. It stands alone, as the answer of `position` is not told past a `map`.
fn first_loaded(arcs: &[u32]) -> Option<usize>
    ensures { result ≡ position (λ x. nat_lt 0 x) arcs.now }
{
    arcs.iter().position(|flow| *flow > 0)
}

// The lowest arc that carries flow.
pub fn first_carrying(arcs: &[u32]) -> Option<u32>
    requires { length arcs.now ≤ 131070 }
    ensures { result ≡ lowest (λ a. nat_lt 0 (on arcs.now a)) (length arcs.now) }
{
    first_loaded(arcs).map(|arc| arc as u32)
}
