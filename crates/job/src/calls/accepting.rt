// Accepting a flow.
ghost use Rattle.std.specs.Prelude.{◌≡◌, suc, ◌≤◌, length};
ghost use Rattle.flow.specs.Flow.{copies_of};
ghost use Rattle.flow.specs.Job.{Call, lacking};
ghost use Rattle.job.specs.View.{answered, content, worth};
ghost use Rattle.job.specs.Sound.{Loaded};
ghost use Rattle.job.specs.Contract.{Follows};
ghost use Rattle.job.specs.Changes.{LeftsSet};

use super::flow_in;
use crate::job::Job;
use crate::state::{Acceptance, State};
use flow::flows::Flow;
use flow::scans::count_carrying;
use flow::{ItemRecord, LIMIT};
use refusal::Refusal;

// Writes the copies left of every item.
fn tally(flow: &Flow<'_>, items: &mut [ItemRecord])
    requires { length items.old ≤ 64 }
    ensures { LeftsSet items.old items.new (λ i. copies_of flow.now.rows.now flow.now.arcs.now (suc i)) }
{
    for (place, item) in items.iter_mut().enumerate() {
        item.left = flow.copies_of(place as u32 + 1);
    }
}

impl<'a> Job<'a> {
    // The lowest item with fewer copies than its demand.
    fn first_short(&self) -> Option<u32>
        requires { Loaded self.now }
        ensures { result ≡ lacking (content self.now) }
    {
        self.flow().first_short(self.items.as_slice())
    }

    // Accepts the flow, and answers its value and the number of arcs that carry flow.
    pub fn accept(&mut self) -> Result<Acceptance, Refusal>
        ensures { Follows self.old self.new Call.Accept (answered worth result) }
    {
        self.expect(State::Open)?;
        if let Some(node) = self.flow().first_unbalanced() {
            return Err(Refusal::Unbalanced { node });
        }
        let value = self.value();
        if value > LIMIT {
            return Err(Refusal::ValueOverLimit);
        }
        if let Some(item) = self.first_short() {
            return Err(Refusal::BelowDemand { item });
        }
        let arcs = count_carrying(self.flow().arcs);
        // the cells are taken out meanwhile: lent beside the records, the proof lacks that they stay as they are
        let cells = std::mem::take(&mut self.cells);
        tally(&flow_in(&self.rows, &*cells), self.items.as_mut_slice());
        self.cells = cells;
        self.state = State::Accepted;
        Ok(Acceptance { value, arcs })
    }
}
