// A new job, and the calls that set flow without a look at the graph as a whole.
ghost use Rattle.std.specs.Prelude.{◌≡◌, ◌/◌, min, length};
ghost use Rattle.lists.specs.Entries.{spare};
ghost use Rattle.flow.specs.Job.{Call, View};
ghost use Rattle.flow.specs.Law.{PacksSoundly};
ghost use Rattle.job.specs.View.{size, view, answered, plain};
ghost use Rattle.job.specs.Contract.{Follows};

use crate::job::Job;
use crate::state::State;
use arrayvec::ArrayVec;
use flow::LIMIT;
use flow::walks::{target_of, wipe};
use graph::Row;
use lists::list::List;
use refusal::Refusal;

impl<'a> Job<'a> {
    // An empty job over the memory. Whatever calls then follow one another on it, the law holds after each.
    pub fn new(rows: &'a mut [Row], cells: &'a mut [u32]) -> Job<'a>
        ensures empty { view result ≡ View.Empty }
        ensures size { size result ≡ min (min (length rows.old) (length cells.old / 2)) 65535 }
        ensures rows { spare result.rows ≡ rows.old }
        ensures cells { result.cells.now ≡ cells.old }
        ensures lent_rows { result.rows.cells.ghost_name ≡ rows.entry.ghost_name }
        ensures lent_cells { result.cells.ghost_name ≡ cells.entry.ghost_name }
        ensures law { PacksSoundly }
    {
        Job {
            rows: List::over(rows),
            cells,
            items: ArrayVec::new(),
            state: State::Empty,
        }
    }

    // Sets all flow to 0.
    pub fn clear(&mut self) -> Result<(), Refusal>
        ensures { Follows self.old self.new Call.Clear (answered plain result) }
    {
        self.expect_loaded()?;
        wipe(&mut *self.cells, 2 * self.rows.len());
        self.state = State::Open;
        Ok(())
    }

    // Sets the flow of one arc.
    pub fn carry(&mut self, arc: u32, flow: u32) -> Result<(), Refusal>
        ensures { Follows self.old self.new (Call.Carry arc flow) (answered plain result) }
    {
        self.expect(State::Open)?;
        target_of(self.rows.as_slice(), arc).ok_or(Refusal::Absent { number: arc })?;
        if flow > LIMIT {
            return Err(Refusal::FlowOutOfRange);
        }
        self.cells[arc as usize] = flow;
        Ok(())
    }
}
