// The mean-price tunnel as a tunnel.
ghost use Rattle.std.specs.Prelude.{◌≡◌, List};
ghost use Rattle.tunnel.specs.Ranges.{Askable, asked, every_price_range};
ghost use Rattle.tunnel.specs.declared.trade.ToldTrade.{ToldTrade};
ghost use Rattle.mean.specs.Means.{between, period};
ghost use Rattle.mean.specs.Summaries.{RemembersSome, centre_in};
ghost use Rattle.mean.specs.Tunnels.{ByTheRule, RangeByWhatCounted, Remembered, Starts, Tells, auctioning};
ghost use Rattle.std.proofs.Common.{rules};

use crate::mean_tunnel::MeanTunnel;
use crate::summary::{PERIOD, Summary};
use tunnel::{NO_PRICE, ToldTrade, Tunnel, askable, every_price};

impl MeanTunnel {
    // The range around the mean price at a second.
    #[tactic(auto, using(crate::proofs::Days::ruled))]
    fn around_mean(&self, second: u32) -> (i64, i64)
        ensures range { result ≡ between self.now.tick.value self.now.half_width (centre_in self.now.summary (period second)) }
        ensures rule { (told : List ToldTrade) → Remembered self.now told → ByTheRule self.now told second result }
    {
        let centre = self.summary.centre(second / PERIOD);
        centre.range(self.tick, self.half_width)
    }

    // Forgets the trades. It promises what `start_day` does, so that a wrong day start fails there, and not in a proof that
    // was written for another text.
    fn restart(&mut self)
        ensures started { Starts self.old self.new }
        ensures range_by_what_counted { RangeByWhatCounted }
    {
        self.summary = Summary::start(self.settlement);
    }
}

// The trait has a method for each range, so `buy_range` and `sell_range` have one body.
impl Tunnel for MeanTunnel {
    ghost tally = { λ t. t.summary.tally };

    ghost buying = { λ _ base second. asked base second every_price_range };

    ghost selling = { λ _ base second. asked base second every_price_range };

    ghost auction = { auctioning };

    ghost starts = { Starts };

    ghost tells = { Tells };

    ghost no_price_outside_limits = { Prim.search rules };

    ghost day_starts_at_zero = { Prim.search rules };

    ghost told_trade_adds_its_quantity = { Prim.search rules };

    ghost other_trade_leaves_the_tally = { Prim.search rules };

    ghost other_trade_leaves_the_ranges = { Prim.search rules };

    fn tally(&self) -> u64 {
        self.summary.tally
    }

    fn buy_range(&self, base: u32, second: u32) -> (i64, i64) {
        every_price(base, second)
    }

    fn sell_range(&self, base: u32, second: u32) -> (i64, i64) {
        every_price(base, second)
    }

    fn auction_range(&self, base: u32, second: u32) -> (i64, i64)
        ensures range { result ≡ auctioning self.now base second }
        ensures remembers { RemembersSome self.now.settlement self.now.summary }
        ensures rule { (told : List ToldTrade) → Remembered self.now told → Askable base second → ByTheRule self.now told second result }
    {
        if !askable(base, second) {
            return NO_PRICE;
        }
        self.around_mean(second)
    }

    fn start_day(&mut self)
        ensures started { Starts self.old self.new }
        ensures range_by_what_counted { RangeByWhatCounted }
    {
        self.restart();
    }

    fn tell(&mut self, trade: ToldTrade) {
        if trade.counts(self.summary.tally) {
            self.summary = self.summary.plus(trade);
        }
    }
}
