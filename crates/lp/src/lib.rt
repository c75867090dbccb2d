// The integer model of a graph as text, for a solver.
#![tactic(auto)]

ghost use Rattle.lp.specs.Reading.{GraphsReadBack, ReadsBack, TextsDistinguish};
ghost use Rattle.lp.specs.Samples.{Samples};

mod arcs;
mod constraints;
mod links;
pub mod render;
mod sink;

// Models with their texts written out.
pub fn samples_hold()
    ensures { Samples }
{}

// The text of a model tells the whole model.
pub fn text_reads_back()
    ensures models { ReadsBack }
    ensures distinct { TextsDistinguish }
    ensures graphs { GraphsReadBack }
{}
