// The two sides of the book: orders that rest, in rank order.
#![tactic(auto)]

pub mod buy;
mod fills;
pub mod order;
pub mod rank;
pub mod sell;
pub mod side;
mod table;

pub use buy::BuyBook;
pub use order::Order;
pub use rank::{BuyRank, SellRank};
pub use sell::SellBook;
pub use side::Book;
