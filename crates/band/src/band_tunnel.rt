// The band tunnel.
ghost use Rattle.std.specs.Prelude.{◌≡◌, ◌↔◌, IsOk, IsErrOf, IfOk};
ghost use Rattle.std.proofs.Common.{rules, tests};
ghost use Rattle.rules.specs.Ticks.{IsTick};
ghost use Rattle.tunnel.specs.Trades.{tallied};
ghost use Rattle.band.specs.Tunnels.{ranging, Ranging};

use crate::band::Band;
use rules::{Refusal, Tick};
use tunnel::{NO_PRICE, ToldTrade, Tunnel, askable};

// A tunnel of one tick and three bands. Day starts and trades leave its ranges.
#[derive(Drop)]
pub struct BandTunnel {
    tick: Tick,
    buy: Band,
    sell: Band,
    auction: Band,
    tally: u64,
}

impl BandTunnel {
    // A tunnel with tally 0.
    pub fn new(tick: u32, buy: Band, sell: Band, auction: Band) -> Result<BandTunnel, Refusal>
        ensures within { IsOk result ↔ IsTick tick }
        ensures refused { IsErrOf result Refusal.TunnelOutsideLimits ↔ ¬ IsTick tick }
        ensures tick { IfOk result (λ tunnel. tunnel.tick.value ≡ tick) }
        ensures bands { IfOk result (λ tunnel. (tunnel.buy ≡ buy) × (tunnel.sell ≡ sell) × (tunnel.auction ≡ auction)) }
        ensures tally { IfOk result (λ tunnel. tunnel.tally ≡ 0) }
    {
        let tick = Tick::new(tick).ok_or(Refusal::TunnelOutsideLimits)?;
        Ok(BandTunnel {
            tick,
            buy,
            sell,
            auction,
            tally: 0,
        })
    }

    // The range that a band gives.
    fn range(&self, band: Band, base: u32, second: u32) -> (i64, i64)
        ensures range { result ≡ ranging self.now band base second }
        ensures rounded { Ranging self.now band base second result }
    {
        if !askable(base, second) {
            return NO_PRICE;
        }
        band.around(self.tick, base)
    }
}

// The trait has a method for each range, so the clauses stand at each, with the band that it is of.
impl Tunnel for BandTunnel {
    ghost tally = { λ t. t.tally };

    ghost buying = { λ t. ranging t t.buy };

    ghost selling = { λ t. ranging t t.sell };

    ghost auction = { λ t. ranging t t.auction };

    ghost starts = { λ t u. u ≡ record { tick = t.tick; buy = t.buy; sell = t.sell; auction = t.auction; tally = 0 } };

    ghost tells = { λ t trade u. u ≡ record { tick = t.tick; buy = t.buy; sell = t.sell; auction = t.auction; tally = tallied t.tally trade } };

    ghost no_price_outside_limits = { Prim.search rules };

    ghost day_starts_at_zero = { Prim.search rules };

    ghost told_trade_adds_its_quantity = { Prim.search rules };

    ghost other_trade_leaves_the_tally = { Prim.search (rules, tests) };

    ghost other_trade_leaves_the_ranges = { Prim.search rules };

    fn tally(&self) -> u64 {
        self.tally
    }

    fn buy_range(&self, base: u32, second: u32) -> (i64, i64)
        ensures range { result ≡ ranging self.now self.now.buy base second }
        ensures rounded { Ranging self.now self.now.buy base second result }
    {
        self.range(self.buy, base, second)
    }

    fn sell_range(&self, base: u32, second: u32) -> (i64, i64)
        ensures range { result ≡ ranging self.now self.now.sell base second }
        ensures rounded { Ranging self.now self.now.sell base second result }
    {
        self.range(self.sell, base, second)
    }

    fn auction_range(&self, base: u32, second: u32) -> (i64, i64)
        ensures range { result ≡ ranging self.now self.now.auction base second }
        ensures rounded { Ranging self.now self.now.auction base second result }
    {
        self.range(self.auction, base, second)
    }

    fn start_day(&mut self) {
        self.tally = 0;
    }

    fn tell(&mut self, trade: ToldTrade) {
        if trade.counts(self.tally) {
            self.tally += u64::from(trade.quantity);
        }
    }
}
