// Compilation: the layered graph of a packing problem, built node by node in lent memory, for every kind of limit.
#![tactic(auto)]

mod arcs;
mod build;
mod checks;
mod draft;
mod items;
mod step;
mod weighed;

pub use build::compile;
pub use checks::check_items;
