// The layer of daily limits.
ghost use Rattle.std.specs.Prelude.{◌≡◌};
ghost use Rattle.daily.specs.Narrowing.{limited};
ghost use Rattle.std.proofs.Common.{rules, tests};

use crate::limits::DailyLimits;
use tunnel::{ToldTrade, Tunnel, askable};

// A tunnel whose ranges for buy and sell orders are kept within daily limits. All else is that of the tunnel below.
#[derive(Drop)]
pub struct Limited<T> {
    limits: DailyLimits,
    below: T,
}

impl DailyLimits {
    // Lays the limits over a tunnel.
    pub fn over<T: Tunnel>(self, tunnel: T) -> Limited<T>
        ensures limits { result.limits ≡ self }
        ensures below { result.below ≡ tunnel }
    {
        Limited {
            limits: self,
            below: tunnel,
        }
    }

    // What the limits leave of a range of the tunnel below.
    fn limit(self, base: u32, second: u32, below: (i64, i64)) -> (i64, i64)
        ensures { result ≡ limited self.low self.high base second below }
    {
        if !askable(base, second) {
            return below;
        }
        let (low, high) = below;
        (i64::from(self.low).max(low), i64::from(self.high).min(high))
    }
}

// The trait has a method for each range, so `buy_range` and `sell_range` have bodies of one shape.
impl<T: Tunnel> Tunnel for Limited<T> {
    ghost tally = { λ t. T.Tunnel.tally t.below };

    ghost buying = { λ t base second. limited t.limits.low t.limits.high base second (T.Tunnel.buying t.below base second) };

    ghost selling = { λ t base second. limited t.limits.low t.limits.high base second (T.Tunnel.selling t.below base second) };

    ghost auction = { λ t base second. T.Tunnel.auction t.below base second };

    ghost starts = { λ t u. (u.limits ≡ t.limits) × T.Tunnel.starts t.below u.below };

    ghost tells = { λ t trade u. (u.limits ≡ t.limits) × T.Tunnel.tells t.below trade u.below };

    ghost no_price_outside_limits = { Prim.search (rules, tests) };

    ghost day_starts_at_zero = { Prim.search rules };

    ghost told_trade_adds_its_quantity = { Prim.search rules };

    ghost other_trade_leaves_the_tally = { Prim.search rules };

    ghost other_trade_leaves_the_ranges = { Prim.search rules };

    fn tally(&self) -> u64 {
        self.below.tally()
    }

    fn buy_range(&self, base: u32, second: u32) -> (i64, i64) {
        self.limits
            .limit(base, second, self.below.buy_range(base, second))
    }

    fn sell_range(&self, base: u32, second: u32) -> (i64, i64) {
        self.limits
            .limit(base, second, self.below.sell_range(base, second))
    }

    fn auction_range(&self, base: u32, second: u32) -> (i64, i64) {
        self.below.auction_range(base, second)
    }

    fn start_day(&mut self) {
        self.below.start_day();
    }

    fn tell(&mut self, trade: ToldTrade) {
        self.below.tell(trade);
    }
}
