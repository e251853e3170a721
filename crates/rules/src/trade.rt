// A trade of two orders.

// The numbers of the two orders, and what was traded at which price.
#[derive(Clone, Copy, PartialEq, Eq, Debug)]
pub struct Trade {
    pub buy: u32,
    pub sell: u32,
    pub price: u32,
    pub quantity: u32,
}
