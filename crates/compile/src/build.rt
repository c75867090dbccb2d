// The whole graph, item by item.
ghost use Rattle.std.specs.Prelude.{◌≡◌, suc, ◌≤◌, [], ◌∷◌, ◌++◌, length, None, MatchOption};
ghost use Rattle.lists.specs.Entries.{entries, SameMemory};
ghost use Rattle.packing.specs.Given.{orders_of};
ghost use Rattle.packing.specs.Problem.{flaw};
ghost use Rattle.graph.specs.Graph.{row};
ghost use Rattle.compile.specs.Growth.{capacity, Grew, ShortOf};
ghost use Rattle.compile.specs.Drafts.{GrewBoth};
ghost use Rattle.compile.specs.Build.{items_of, Built, TargetAdded};
ghost use Rattle.compile.specs.Memory.{Compiles};

use crate::draft::Draft;
use crate::weighed::Weighed;
use graph::Row;
use limits::kind::Kind;
use lists::list::List;
use packing::Item;
use std::mem;

impl<'r, 'l, L: Copy> Draft<'r, 'l, L> {
    // The graph of the items but for the target, in a draft without nodes. None if there is no room for the whole graph.
    fn fill<K: Kind<Load = L>>(&mut self, kind: &K, items: &[Item<'_>]) -> Option<()>
        requires sound { flaw (K.meaning kind.now) (orders_of items.now) ≡ None }
        requires empty { entries self.old.rows ≡ [] }
        ensures kept { GrewBoth self.old self.new }
        ensures built { Built K.amount (K.meaning kind.now) (items_of (K.meaning kind.now) items.now)
            self.old.rows self.new.rows self.old.loads self.new.loads result }
    {
        let (last, inner) = items.split_last()?;
        self.add(Row::new(1, 0), kind.empty())?;
        let mut low = 0;
        for (i, item) in inner.iter().enumerate() {
            let item = Weighed::new(kind, item, i as u32 + 1)?;
            low = self.inner_item(kind, low, &item)?;
        }
        let last = Weighed::new(kind, last, items.len() as u32)?;
        self.last_item(kind, low, &last)
    }
}

// The graph of the items but for the target, in lists that are still empty. None if there is no room for the whole graph.
fn build<K: Kind>(
    kind: &K,
    items: &[Item<'_>],
    rows: &mut List<'_, Row>,
    loads: &mut List<'_, K::Load>,
) -> Option<()>
    requires sound { flaw (K.meaning kind.now) (orders_of items.now) ≡ None }
    requires few { capacity loads.old ≤ 65535 }
    requires no_rows { entries rows.old ≡ [] }
    requires no_loads { entries loads.old ≡ [] }
    ensures rows { Grew rows.old rows.new }
    ensures loads { Grew loads.old loads.new }
    ensures built { Built K.amount (K.meaning kind.now) (items_of (K.meaning kind.now) items.now) rows.old rows.new loads.old loads.new result }
{
    // Meanwhile a draft holds the lists, and keeps the facts about both.
    let mut draft = Draft {
        rows: mem::replace(rows, List::over(&mut [])),
        loads: mem::replace(loads, List::over(&mut [])),
    };
    let built = draft.fill(kind, items);
    *rows = draft.rows;
    *loads = draft.loads;
    built
}

// Adds the target, in station (`item`, 0), and answers the number of nodes. It has no load, but its place among the loads has
// to be there. None if there is no room.
fn add_target<L: Copy>(rows: &mut List<'_, Row>, loads: &List<'_, L>, item: u32) -> Option<usize>
    ensures kept { Grew rows.old rows.new }
    ensures cases { MatchOption result (ShortOf rows.old loads.now (suc (length (entries rows.old)))) (TargetAdded item rows.old rows.new loads.now) }
{
    let at = rows.len();
    if at >= loads.capacity() {
        return None;
    }
    rows.push(Row::new(item, 0))?;
    Some(at + 1)
}

// The graph of the items in place of the rows, with `memory` for the loads: that of node n lies at place n. The answer is the
// number of nodes; none if that is above the memory for the rows or for the loads, and both may then hold anything.
// Nothing is wrong with the items, as `check_items` tells, and a graph has at most 65,535 nodes.
pub fn compile<K: Kind>(
    kind: &K,
    items: &[Item<'_>],
    rows: &mut List<'_, Row>,
    memory: &mut [K::Load],
) -> Option<usize>
    requires sound { flaw (K.meaning kind.now) (orders_of items.now) ≡ None }
    requires few { length memory.old ≤ 65535 }
    ensures room { capacity rows.new ≡ capacity rows.old }
    ensures memory { SameMemory rows.new rows.old }
    ensures compiles { Compiles K.amount (K.meaning kind.now) (items_of (K.meaning kind.now) items.now)
        rows.old rows.new memory.old memory.new result }
{
    rows.truncate(0);
    let mut loads = List::over(memory);
    build(kind, items, rows, &mut loads)?;
    add_target(rows, &loads, items.len() as u32 + 1)
}
