// Kinds of limit for packing: what a bin may hold, and how loads are put together.
#![tactic(auto)]

pub mod colours;
pub mod counted;
pub mod kind;
pub mod length;
pub mod number;
pub mod vector;
