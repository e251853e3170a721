// The theoretical result of an auction, and its fixing.
#![tactic(auto)]

mod offer;
pub mod theoretical;
mod walk;

// The trades of a fixing are those that all layers speak of.
pub use rules::{Trade, trade};
pub use theoretical::{Theoretical, theoretical_result};
