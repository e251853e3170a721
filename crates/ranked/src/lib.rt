// Records in rank order at the front of a lent slice.
#![tactic(auto)]

pub mod ranking;
pub mod slice;

pub use ranking::Ranking;
pub use slice::{insert, place, remove};
