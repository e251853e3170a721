// What every layer shares: the limits, the one list of refusals, the tick, and what a trade is.
#![tactic(auto)]

pub mod limits;
pub mod refusal;
pub mod tick;
pub mod trade;

pub use limits::{
    GREATEST_BAND, GREATEST_MEMBER, GREATEST_PRICE, GREATEST_QUANTITY, GREATEST_SECOND,
    GREATEST_STAMP, GREATEST_TALLY, GREATEST_TICK, MOST_ORDERS, MOST_TAPE_BYTES, MOST_TRADES,
};
pub use refusal::Refusal;
pub use tick::Tick;
pub use trade::Trade;
