// Placing a pattern.
ghost use Rattle.flow.specs.Job.{Call};
ghost use Rattle.job.specs.View.{answered, plain};
ghost use Rattle.job.specs.Contract.{Follows};

use crate::job::Job;
use crate::state::State;
use flow::LIMIT;
use flow::walks::add_route;
use refusal::Refusal;

impl<'a> Job<'a> {
    // Adds `times` to each arc of the path that spells the counts.
    pub fn place(&mut self, counts: &[u32], times: u32) -> Result<(), Refusal>
        ensures { Follows self.old self.new (Call.Place counts.now times) (answered plain result) }
    {
        self.expect(State::Open)?;
        if times == 0 || times > LIMIT {
            return Err(Refusal::FlowOutOfRange);
        }
        if counts.len() != self.items.len() {
            return Err(Refusal::NoPattern);
        }
        self.flow().check_route(counts, times)?;
        let rows = self.rows.as_slice();
        add_route(rows, &mut self.cells[..2 * rows.len()], counts, times);
        Ok(())
    }
}
