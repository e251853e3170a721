// A trade as a tunnel is told of it.
ghost use Rattle.std.specs.Prelude.{◌≡◌};
ghost use Rattle.tunnel.specs.Trades.{counts};

use rules::{GREATEST_PRICE, GREATEST_QUANTITY, GREATEST_SECOND, GREATEST_TALLY};

#[derive(Clone, Copy, PartialEq, Eq, Debug)]
pub struct ToldTrade {
    pub price: u32,
    pub quantity: u32,
    // the market's second at the trade
    pub second: u32,
}

impl ToldTrade {
    // Whether a tunnel with this tally counts the trade: price, quantity and second are within their limits, and the
    // quantity does not carry the tally above its greatest.
    pub fn counts(self, tally: u64) -> bool
        ensures { result ≡ counts tally self }
    {
        (1..=GREATEST_PRICE).contains(&self.price)
            && (1..=GREATEST_QUANTITY).contains(&self.quantity)
            && self.second <= GREATEST_SECOND
            && u64::from(self.quantity) <= GREATEST_TALLY.saturating_sub(tally)
    }
}
