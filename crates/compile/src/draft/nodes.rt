// Single nodes: one is looked up or added, or gets an arc.
ghost use Rattle.std.specs.Prelude.{◌≡◌, suc, ◌≤◌, length, position, MatchOption, slice_set};
ghost use Rattle.lists.specs.Entries.{entries};
ghost use Rattle.packing.specs.Distinct.{same_list};
ghost use Rattle.graph.specs.Graph.{at};
ghost use Rattle.compile.specs.Drafts.{Added, GrewBoth, Short, amounts};
ghost use Rattle.compile.specs.Nodes.{Found, Reached};
ghost use Rattle.compile.specs.Steps.{putting};

use super::Draft;
use crate::step::Step;
use graph::Row;
use limits::kind::Kind;

// Whether two loads have equal amounts, by an equation: `position` needs one of its test.
fn same<K: Kind>(kind: &K, a: &K::Load, b: &K::Load) -> bool
    ensures { result ≡ same_list (K.amount a.now) (K.amount b.now) }
{
    kind.same(a, b)
}

// The place of the first load with the amount of `sought`.
fn place_of<K: Kind>(kind: &K, loads: &[K::Load], sought: &K::Load) -> Option<usize>
    ensures { result ≡ position (λ load. same_list (K.amount sought.now) (K.amount load)) loads.now }
{
    loads.iter().position(|load| same(kind, sought, load))
}

impl<'r, 'l, L: Copy> Draft<'r, 'l, L> {
    // Adds a node and answers its number. None if there is no room for it.
    pub(crate) fn add(&mut self, row: Row, load: L) -> Option<usize>
        ensures kept { GrewBoth self.old self.new }
        ensures cases { MatchOption result (Short self.old (suc (length (entries self.old.loads)))) (Added self.old self.new row load) }
    {
        if self.loads.len() >= self.loads.capacity() {
            return None;
        }
        self.rows.push(row)?;
        self.loads.push(load)
    }

    // The first node from `from` on with the amount of `sought`.
    fn find<K: Kind<Load = L>>(&self, kind: &K, from: usize, sought: &L) -> Option<usize>
        requires { from ≤ length (entries self.now.loads) }
        ensures { Found (K.amount sought.now) from (amounts K.amount self.now) result }
    {
        let place = place_of(kind, &self.loads.as_slice()[from..], sought)?;
        Some(from + place)
    }

    // The node with this load in the station that begins at `from`; without one, a new node with this row.
    // None if there is no room for a new one.
    pub(crate) fn node<K: Kind<Load = L>>(
        &mut self,
        kind: &K,
        from: usize,
        load: L,
        row: Row,
    ) -> Option<u32>
        requires { from ≤ length (entries self.old.loads) }
        ensures kept { GrewBoth self.old self.new }
        ensures reached { Reached K.amount from (K.amount load) row self.old self.new result }
    {
        // No `or_else`: what its closure did to the draft stayed open in the proof.
        let n = match self.find(kind, from, &load) {
            Some(n) => n,
            None => self.add(row, load)?,
        };
        Some(n as u32)
    }

    // Leads the arc of a step from node `n` to node `to`.
    pub(crate) fn lead(&mut self, n: usize, step: &Step<L>, to: u32)
        ensures kept { GrewBoth self.old self.new }
        ensures rows { entries self.new.rows ≡ slice_set (entries self.old.rows) n (putting step.now to (at (entries self.old.rows) n)) }
        ensures loads { self.new.loads ≡ self.old.loads }
    {
        if let Some(row) = self.rows.get(n) {
            let _ = self.rows.set(n, step.led(row, to));
        }
    }
}
