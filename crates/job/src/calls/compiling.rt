// Compile: the graph of the items in place of the job's.
ghost use Rattle.std.specs.Prelude.{◌≡◌, ◌≤◌, length, All};
ghost use Rattle.packing.specs.Given.{orders_of};
ghost use Rattle.packing.specs.Problem.{demands};
ghost use Rattle.flow.specs.Scans.{demands_of};
ghost use Rattle.graph.specs.Laws.{SpellsPatterns};
ghost use Rattle.graph.specs.Numbering.{CompiledStepped, NumberingFixed};
ghost use Rattle.job.specs.Building.{Compiles};

use crate::job::Job;
use crate::state::State;
use arrayvec::ArrayVec;
use compile::check_items;
use flow::ItemRecord;
use flow::walks::wipe;
use limits::kind::Kind;
use packing::{Item, MAX_ITEMS};
use refusal::Refusal;

// Takes over the demands of the items, with no copies left.
fn set_items(records: &mut ArrayVec<ItemRecord, MAX_ITEMS>, items: &[Item<'_>])
    requires { length items.now ≤ 64 }
    ensures demands { demands_of records.new.items ≡ demands (orders_of items.now) }
    ensures fresh { All (λ item. item.left ≡ 0) records.new.items }
{
    records.clear();
    for item in items {
        records.push(ItemRecord {
            demand: item.demand,
            left: 0,
        });
    }
}

impl<'a> Job<'a> {
    // Opens the job with the graph of the items and no flow, and answers the number of nodes. The load of node n then lies at
    // place n of `loads`. The paths of the graph are the patterns of the items, and its plain rule leaves no other graph.
    pub fn compile<K: Kind>(
        &mut self,
        kind: &K,
        items: &[Item<'_>],
        loads: &mut [K::Load],
    ) -> Result<usize, Refusal>
        ensures compiled { Compiles K.amount (K.meaning kind.now) (orders_of items.now) self.old self.new loads.old loads.new result }
        ensures spells { SpellsPatterns }
        ensures numbered { CompiledStepped }
        ensures fixed { NumberingFixed }
    {
        check_items(kind, items)?;
        let room = self.size().min(loads.len());
        // empty while rows and cells do not fit each other, and so where there are too many nodes
        self.state = State::Empty;
        let nodes = compile::compile(kind, items, &mut self.rows, &mut loads[..room]).ok_or(
            Refusal::TooManyNodes,
        )?;
        wipe(&mut *self.cells, 2 * nodes);
        set_items(&mut self.items, items);
        self.state = State::Open;
        Ok(nodes)
    }
}
