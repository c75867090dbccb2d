// What a job holds. Its calls lie in `calls`, as what they cite names the job.
ghost use Rattle.lists.specs.Entries.{entries};
ghost use Rattle.job.specs.Standing.{Kept};

use crate::state::State;
use arrayvec::ArrayVec;
use flow::ItemRecord;
use graph::Row;
use lists::list::List;
use packing::MAX_ITEMS;

// A packing graph with its flow, in lent memory. The nodes are the entries of `rows`. Cell k holds the flow of arc k: 2n is the
// pass arc of node n, and 2n + 1 its take arc. The invariant goes with the job, so that no call asks for anything.
#[derive(Drop)]
pub struct Job<'a> {
    pub(crate) rows: List<'a, Row>,
    pub(crate) cells: &'a mut [u32],
    pub(crate) items: ArrayVec<ItemRecord, MAX_ITEMS>,
    pub(crate) state: State,
    ghost sound: { ∥ Kept state (entries rows) cells.now items.items ∥₁ },
}
