// Texts with the refusals that they get, and texts at the edges that are read.
#![tactic(auto)]

pub mod tables;
#[cfg(test)]
mod tests;
