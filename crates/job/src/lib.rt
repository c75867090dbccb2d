// A job: a packing graph with its flow, in lent memory, and the calls on it.
#![tactic(auto)]

mod calls;
pub mod job;
pub mod state;
