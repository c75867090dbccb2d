// The model text of the job's graph and demands.
ghost use Rattle.std.specs.Prelude.{◌≡◌, ◌≤◌, length, take, drop, MatchResult};
ghost use Rattle.flow.specs.Exact.{ModelsExactly};
ghost use Rattle.flow.specs.Job.{Question};
ghost use Rattle.flow.specs.Scans.{demands_of};
ghost use Rattle.lp.specs.Reading.{GraphsReadBack};
ghost use Rattle.job.specs.View.{answered, Asked};
ghost use Rattle.job.specs.Building.{text_in};

use crate::job::Job;
use arrayvec::ArrayVec;
use flow::ItemRecord;
use lp::render;
use packing::MAX_ITEMS;
use refusal::Refusal;

// The demands of the items.
fn demands_in(items: &[ItemRecord]) -> ArrayVec<u32, MAX_ITEMS>
    requires { length items.now ≤ 64 }
    ensures { result.items ≡ demands_of items.now }
{
    let mut demands = ArrayVec::new();
    for item in items {
        demands.push(item.demand);
    }
    demands
}

impl<'a> Job<'a> {
    // Writes the model text at the start of the memory, and answers its length. The model has a solution of value z if and only if
    // there is a packing in z bins, and the text tells the whole model.
    pub fn model_text(&self, out: &mut [u8]) -> Result<usize, Refusal>
        ensures step { Asked self.now (Question.ModelText (length out.old)) (answered (text_in out.new) result) }
        ensures past { MatchResult result (λ n. drop n out.new ≡ drop n out.old) (λ _. out.new ≡ out.old) }
        ensures exact { ModelsExactly }
        ensures legible { GraphsReadBack }
    {
        self.expect_loaded()?;
        let demands = demands_in(self.items.as_slice());
        render::model_text(self.rows.as_slice(), demands.as_slice(), out).ok_or(
            Refusal::TooLittleMemory,
        )
    }
}
