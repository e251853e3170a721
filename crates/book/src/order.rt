// An order that rests in the book.
ghost use Rattle.std.specs.Prelude.{◌≡◌};
ghost use Rattle.book.specs.Orders.{within_limits};

use rules::{GREATEST_PRICE, GREATEST_QUANTITY};

#[derive(Clone, Copy, PartialEq, Eq, Debug)]
pub struct Order {
    // what it is found by; an amendment keeps it
    pub number: u32,
    // of two orders at one price, the one with the smaller stamp comes first
    pub stamp: u32,
    pub member: u16,
    pub price: u32,
    // what is left of it
    pub quantity: u32,
}

impl Order {
    // Whether price and quantity are within their limits.
    pub fn within_limits(self) -> bool
        ensures { result ≡ within_limits self }
    {
        (1..=GREATEST_PRICE).contains(&self.price)
            && (1..=GREATEST_QUANTITY).contains(&self.quantity)
    }
}
