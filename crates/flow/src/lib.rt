// Flows on the graph of a packing problem: what a job's calls mean, the law over its runs, and the scans and walks of which
// its calls are made.
#![tactic(auto)]

ghost use Rattle.flow.specs.Cases.{CasesRuled, MarkedCases, RefusedInOrder};
ghost use Rattle.flow.specs.Exact.{ModelsExactly};
ghost use Rattle.flow.specs.Law.{PacksSoundly};

pub mod flows;
pub mod scans;
pub mod walks;

// No flow, times or value is above this.
pub const LIMIT: u32 = 1_000_000_000;

// An item's demand, and the copies of it that are left on its take arcs.
#[derive(Clone, Copy, Default)]
pub struct ItemRecord {
    pub demand: u32,
    pub left: u64,
}

// The worked cases of the definitions, as equations that compute.
pub fn marked_cases_hold()
    ensures marked { MarkedCases }
    ensures ruled { CasesRuled }
    ensures refusals { RefusedInOrder }
{}

// Whatever calls follow one another on a new job, the law holds after each.
pub fn jobs_pack_soundly()
    ensures { PacksSoundly }
{}

// The model of a problem has a solution of value z if and only if there is a packing in z bins.
pub fn model_is_exact()
    ensures { ModelsExactly }
{}
