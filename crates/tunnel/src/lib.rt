// What a tunnel means to a market, and what every kind of tunnel needs.
#![tactic(auto)]

pub mod limits;
pub mod meaning;
pub mod retell;
pub mod trade;

pub use limits::{EVERY_PRICE, NO_PRICE, askable, every_price};
pub use meaning::Tunnel;
pub use trade::ToldTrade;
