// Reading packing instances from text.
#![tactic(auto)]

pub mod fields;
pub mod instance;
pub mod laws;
pub mod lines;
mod split;
pub mod words;

pub use instance::reading::read_instance;
pub use instance::{Base, Instance, Limits, ReadError};
