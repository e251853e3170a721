// What a tunnel means to a market.
ghost use Rattle.std.specs.Prelude.{◌≡◌, ℕ, ◌+◌};
ghost use Rattle.tunnel.specs.Ranges.{Range, Askable, no_price};
ghost use Rattle.tunnel.specs.Trades.{Counts};
ghost use Rattle.tunnel.specs.declared.trade.ToldTrade.{ToldTrade};

use crate::trade::ToldTrade;

// A tunnel tells which prices a buy order, a sell order and a trade may have, and is told the trades.
// A market knows of it what stands here and nothing else, so that it works over any implementation.
// A question is its base price and its second, and a range its two ends, as plain numbers: makers outside implement the trait.
pub trait Tunnel {
    // The quantity of the trades that counted since the day's start.
    ghost tally: { Self → ℕ };

    // The range for buy orders, at a base price and a second.
    ghost buying: { Self → ℕ → ℕ → Range };

    // The range for sell orders.
    ghost selling: { Self → ℕ → ℕ → Range };

    // The range for trades: outside of it an auction starts.
    ghost auction: { Self → ℕ → ℕ → Range };

    // The implementation's own rule of what a day's start makes of a tunnel.
    ghost starts: { Self → Self → Type 0 };

    // Its own rule of what a told trade makes of a tunnel.
    ghost tells: { Self → ToldTrade → Self → Type 0 };

    // The tally.
    fn tally(&self) -> u64
        ensures { result ≡ tally self.now };

    // The low and the high end of the range for buy orders, both inside.
    fn buy_range(&self, base: u32, second: u32) -> (i64, i64)
        ensures { result ≡ buying self.now base second };

    // The low and the high end of the range for sell orders, both inside.
    fn sell_range(&self, base: u32, second: u32) -> (i64, i64)
        ensures { result ≡ selling self.now base second };

    // The low and the high end of the range for trades, both inside.
    fn auction_range(&self, base: u32, second: u32) -> (i64, i64)
        ensures { result ≡ auction self.now base second };

    // Starts a day.
    fn start_day(&mut self)
        ensures { starts self.old self.new };

    // Tells a trade.
    fn tell(&mut self, trade: ToldTrade)
        ensures { tells self.old trade self.new };

    ghost no_price_outside_limits: { (t : Self) (base second : ℕ) → ¬ Askable base second → (buying t base second ≡ no_price) × (selling t base second ≡ no_price) × (auction t base second ≡ no_price) };

    ghost day_starts_at_zero: { (t u : Self) → starts t u → tally u ≡ 0 };

    ghost told_trade_adds_its_quantity: { (t : Self) (trade : ToldTrade) (u : Self) → tells t trade u → Counts (tally t) trade → tally u ≡ tally t + trade.quantity };

    ghost other_trade_leaves_the_tally: { (t : Self) (trade : ToldTrade) (u : Self) → tells t trade u → ¬ Counts (tally t) trade → tally u ≡ tally t };

    ghost other_trade_leaves_the_ranges: { (t : Self) (trade : ToldTrade) (u : Self) → tells t trade u → ¬ Counts (tally t) trade → (base second : ℕ) → (buying u base second ≡ buying t base second) × (selling u base second ≡ selling t base second) × (auction u base second ≡ auction t base second) };
}
