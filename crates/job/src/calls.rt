// The calls of a job.
ghost use Rattle.std.specs.Prelude.{◌≡◌, ◌*◌, ◌↔◌, length, take, IfErr, IsOk, ◌≢◌};
ghost use Rattle.lists.specs.Entries.{entries};
ghost use Rattle.flow.specs.Scans.{Fits};
ghost use Rattle.job.specs.View.{graph_of, flow_of};
ghost use Rattle.job.specs.Sound.{Loaded};

mod accepting;
mod changes;
mod compiling;
mod peeling;
mod placing;
mod questions;
mod reducing;
mod writing;

use crate::job::Job;
use crate::state::State;
use flow::flows::Flow;
use graph::Row;
use lists::list::List;
use refusal::Refusal;

// A graph with its flow, which lies in the first cells.
fn flow_in<'f>(rows: &'f List<'_, Row>, cells: &'f [u32]) -> Flow<'f>
    requires { Fits (entries rows.now) (take (2 * length (entries rows.now)) cells.now) }
    ensures rows { result.rows.now ≡ entries rows.now }
    ensures arcs { result.arcs.now ≡ take (2 * length (entries rows.now)) cells.now }
{
    Flow {
        rows: rows.as_slice(),
        arcs: &cells[..2 * rows.len()],
    }
}

impl<'a> Job<'a> {
    // The graph with its flow.
    fn flow(&self) -> Flow<'_>
        requires { Loaded self.now }
        ensures rows { result.rows.now ≡ graph_of self.now }
        ensures arcs { result.arcs.now ≡ flow_of self.now }
    {
        flow_in(&self.rows, &*self.cells)
    }

    // Refuses a call that another state is for.
    fn expect(&self, state: State) -> Result<(), Refusal>
        ensures ok { IsOk result ↔ (self.now.state ≡ state) }
        ensures err { IfErr result (λ e. e ≡ Refusal.WrongState) }
    {
        if self.state == state {
            Ok(())
        } else {
            Err(Refusal::WrongState)
        }
    }

    // Refuses a call that an empty job does not answer.
    fn expect_loaded(&self) -> Result<(), Refusal>
        ensures ok { IsOk result ↔ (self.now.state ≢ State.Empty) }
        ensures err { IfErr result (λ e. e ≡ Refusal.WrongState) }
    {
        if self.state == State::Empty {
            Err(Refusal::WrongState)
        } else {
            Ok(())
        }
    }
}
