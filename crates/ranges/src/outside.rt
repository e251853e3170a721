// A tunnel of an outside maker, with a rule of its own: trades stay within a width of the price last told.
ghost use Rattle.std.specs.Prelude.{◌≡◌, if◌then◌else◌};
ghost use Rattle.tunnel.specs.Ranges.{asked, every_price_range};
ghost use Rattle.tunnel.specs.Trades.{counts, tallied};
ghost use Rattle.ranges.specs.Outside.{beside};
ghost use Rattle.std.proofs.Common.{rules, tests};

use tunnel::{NO_PRICE, ToldTrade, Tunnel, askable, every_price};

#[derive(Drop)]
pub(crate) struct LastPriceTunnel {
    width: u32,
    last: u32,
    tally: u64,
}

impl LastPriceTunnel {
    pub(crate) fn new(width: u32, first: u32) -> LastPriceTunnel
        ensures width { result.width ≡ width }
        ensures last { result.last ≡ first }
        ensures tally { result.tally ≡ 0 }
    {
        LastPriceTunnel {
            width,
            last: first,
            tally: 0,
        }
    }
}

// An outside maker's tunnel shares no code with the kinds, so its day start and its tally are its own.
// The trait has a method for each range, so `buy_range` and `sell_range` have one body.
impl Tunnel for LastPriceTunnel {
    ghost tally = { λ t. t.tally };

    ghost buying = { λ _ base second. asked base second every_price_range };

    ghost selling = { λ _ base second. asked base second every_price_range };

    ghost auction = { λ t base second. asked base second (beside t.width t.last) };

    ghost starts = { λ t u. u ≡ record { width = t.width; last = t.last; tally = 0 } };

    ghost tells = { λ t trade u. u ≡ record { width = t.width; last = (if counts t.tally trade then trade.price else t.last); tally = tallied t.tally trade } };

    ghost no_price_outside_limits = { Prim.search rules };

    ghost day_starts_at_zero = { Prim.search rules };

    ghost told_trade_adds_its_quantity = { Prim.search rules };

    ghost other_trade_leaves_the_tally = { Prim.search (rules, tests) };

    ghost other_trade_leaves_the_ranges = { Prim.search rules };

    fn tally(&self) -> u64 {
        self.tally
    }

    fn buy_range(&self, base: u32, second: u32) -> (i64, i64) {
        every_price(base, second)
    }

    fn sell_range(&self, base: u32, second: u32) -> (i64, i64) {
        every_price(base, second)
    }

    fn auction_range(&self, base: u32, second: u32) -> (i64, i64) {
        if !askable(base, second) {
            return NO_PRICE;
        }
        let last = i64::from(self.last);
        let width = i64::from(self.width);
        (last - width, last + width)
    }

    fn start_day(&mut self) {
        self.tally = 0;
    }

    fn tell(&mut self, trade: ToldTrade) {
        if trade.counts(self.tally) {
            self.tally += u64::from(trade.quantity);
            self.last = trade.price;
        }
    }
}
