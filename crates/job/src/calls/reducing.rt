// Reduce: joins the nodes with equal futures.
ghost use Rattle.graph.specs.Laws.{JoinsFix, Reduces};
ghost use Rattle.job.specs.Building.{ReducedSo};

use crate::job::Job;
use crate::state::State;
use flow::scans::first_carrying;
use refusal::Refusal;

impl<'a> Job<'a> {
    // Joins the nodes with equal futures, and answers how many nodes are left. The paths spell what they spelled, and the rule of
    // joining leaves no other graph. Refused while an arc carries flow; the cells, all 0, are then lent for labels.
    pub fn reduce(&mut self) -> Result<usize, Refusal>
        ensures reduced { ReducedSo self.old self.new result }
        ensures keeps { Reduces }
        ensures joined { JoinsFix }
    {
        self.expect(State::Open)?;
        if let Some(arc) = first_carrying(self.flow().arcs) {
            return Err(Refusal::CarriesFlow { arc });
        }
        let cells = &mut *self.cells;
        Ok(reduce::reduce(&mut self.rows, cells))
    }
}
