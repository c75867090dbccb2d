// The arcs into each node as linked lists, so that a node's are found without a search over all arcs.
ghost use Rattle.std.specs.Prelude.{◌≡◌, ℕ, ◌*◌, ◌<◌, ◌≤◌, length, Some};
ghost use Rattle.std.specs.Iterator.{YieldsFirst, item_count};
ghost use Rattle.graph.specs.Graph.{Layered, head};
ghost use Rattle.flow.specs.Arcs.{arcs_into};
ghost use Rattle.lp.specs.Links.{Linked};
ghost use Rattle.lp.specs.Writing.{Begins, InOrder};

use graph::{Row, head_of};
use std::mem;

// A graph with the arcs into each node linked: the first arc into a node, and the next after an arc into the same node.
// The number past the last arc ends a list: fixed memory has no room for an Option at each place.
#[derive(Clone, Copy)]
pub(crate) struct LinkedGraph<'a> {
    pub(crate) rows: &'a [Row],
    first: &'a [u32],
    next: &'a [u32],
    ghost few: { length rows.now ≤ 65535 },
    ghost order: { InOrder rows.now },
    ghost begin: { Begins rows.now 0 1 },
    ghost links: { Linked rows.now first.now next.now },
}

impl<'a> LinkedGraph<'a> {
    // Links the arcs into each node, by rising number, in memory with a place for each node and each arc.
    pub(crate) fn new(rows: &'a [Row], first: &'a mut [u32], next: &'a mut [u32]) -> LinkedGraph<'a>
        requires few { length rows.now ≤ 65535 }
        requires layered { (m : ℕ) × Layered m rows.now }
        requires nodes { length first.old ≡ length rows.now }
        requires arcs { length next.old ≡ 2 * length rows.now }
        ensures { result.rows.now ≡ rows.now }
    {
        let end = next.len();
        first.fill(end as u32);
        next.fill(end as u32);
        // the number of an arc is what is stored, so the loop goes over the numbers
        for arc in (0..end).rev() {
            if let Some(to) = head_of(rows, arc) {
                next[arc] = mem::replace(&mut first[to as usize], arc as u32);
            }
        }
        LinkedGraph { rows, first, next }
    }
}

// The arcs into a node that are still to come, by rising number: `arc` is the next of them, or the number past the last arc.
#[derive(Drop)]
pub(crate) struct Incoming<'a> {
    graph: LinkedGraph<'a>,
    node: usize,
    arc: usize,
    ghost into: { arc < 2 * length graph.rows.now → head graph.rows.now arc ≡ Some node },
    ghost within: { arc ≤ 2 * length graph.rows.now },
}

impl<'a> LinkedGraph<'a> {
    ghost use Rattle.lp.specs.Incoming.{arcs_left};

    // The arcs into a node.
    pub(crate) fn incoming(self, node: usize) -> Incoming<'a>
        requires { node < length self.rows.now }
        ensures { arcs_left result ≡ arcs_into self.entry.rows.now node }
    {
        Incoming {
            graph: self,
            node,
            arc: self.first[node] as usize,
        }
    }
}

impl Iterator for Incoming<'_> {
    type Item = usize;

    ghost use Rattle.lp.specs.Incoming.{arcs_left};

    ghost next_gives = { YieldsFirst arcs_left };

    ghost remaining = { item_count arcs_left };

    fn next(&mut self) -> Option<usize> {
        let after = *self.graph.next.get(self.arc)?;
        Some(mem::replace(&mut self.arc, after as usize))
    }
}
