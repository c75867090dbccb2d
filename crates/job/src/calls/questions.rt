// The questions.
ghost use Rattle.std.specs.Prelude.{◌≡◌};
ghost use Rattle.flow.specs.Flow.{value};
ghost use Rattle.flow.specs.Job.{Answer, Fact, Question, Reply};
ghost use Rattle.job.specs.View.{size, flow_of, answered, node, quantity, phase_of, Asked};
ghost use Rattle.job.specs.Sound.{Loaded};

use crate::job::Job;
use crate::state::State;
use flow::walks::target_of;
use graph::{MAX_NODES, Row};
use refusal::Refusal;

impl<'a> Job<'a> {
    // The most nodes that the job can have.
    pub fn size(&self) -> usize
        ensures { result ≡ size self.now }
    {
        self.rows
            .capacity()
            .min(self.cells.len() / 2)
            .min(MAX_NODES)
    }

    pub fn state(&self) -> State
        ensures { Asked self.now Question.State (Answer.Done (Reply.Told (Fact.Is (phase_of result)))) }
    {
        self.state
    }

    // The row of a node.
    pub fn node_row(&self, number: u32) -> Result<Row, Refusal>
        ensures { Asked self.now (Question.RowOf number) (answered node result) }
    {
        self.expect_loaded()?;
        self.rows
            .get(number as usize)
            .ok_or(Refusal::Absent { number })
    }

    // The flow of an arc.
    pub fn arc_flow(&self, arc: u32) -> Result<u32, Refusal>
        ensures { Asked self.now (Question.FlowOf arc) (answered quantity result) }
    {
        self.expect_loaded()?;
        target_of(self.rows.as_slice(), arc).ok_or(Refusal::Absent { number: arc })?;
        Ok(self.cells[arc as usize])
    }

    // The flow out of the source.
    pub(crate) fn value(&self) -> u32
        requires { Loaded self.now }
        ensures { result ≡ value (flow_of self.now) }
    {
        self.cells[0] + self.cells[1]
    }

    // The flow left out of the source.
    pub fn value_left(&self) -> Result<u32, Refusal>
        ensures { Asked self.now Question.ValueLeft (answered quantity result) }
    {
        self.expect(State::Accepted)?;
        Ok(self.value())
    }

    // The copies of an item, from 1, that are left on its take arcs.
    pub fn copies_left(&self, item: u32) -> Result<u64, Refusal>
        ensures { Asked self.now (Question.CopiesLeft item) (answered quantity result) }
    {
        self.expect(State::Accepted)?;
        if item == 0 || item as usize > self.items.len() {
            return Err(Refusal::Absent { number: item });
        }
        Ok(self.items.as_slice()[item as usize - 1].left)
    }
}
