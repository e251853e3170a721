// What a mean-price tunnel keeps of the trades it was told.
ghost use Rattle.std.specs.Prelude.{◌≡◌, ℕ, ◌+◌, ◌<◌, ◌≤◌, List, [], ◌∷◌};
ghost use Rattle.rules.specs.Limits.{greatest_price, greatest_tally};
ghost use Rattle.tunnel.specs.Trades.{Counts};
ghost use Rattle.tunnel.specs.declared.trade.ToldTrade.{ToldTrade};
ghost use Rattle.mean.specs.Averages.{fraction, together, totals};

use crate::average::Average;
use tunnel::ToldTrade;

// Seconds in a period: in specs/Means.antt, `period`.
pub const PERIOD: u32 = 15;

// The trades that were told since the day's start, in short.
#[derive(Clone, Copy)]
pub struct Summary {
    // the quantity of them all
    pub(crate) tally: u64,
    // the latest period of them
    period: u32,
    // those of that period, if there are any
    current: Option<Average>,
    // the centre in that period
    centre: Average,
    // the price last told, or the settlement price if there is none
    last: u32,
    ghost counted: { tally ≤ greatest_tally },
    ghost part: { (totals current).1 ≤ tally },
    ghost priced: { last ≤ greatest_price },
}

impl Summary {
    ghost use Rattle.mean.specs.Summaries.{Remembers, RemembersSome, centre_in};

    // No trade was told yet.
    pub(crate) fn start(settlement: u32) -> Summary
        requires { settlement ≤ greatest_price }
        ensures remembers { Remembers settlement result [] }
        ensures some { RemembersSome settlement result }
    {
        Summary {
            tally: 0,
            period: 0,
            current: None,
            centre: Average::of(settlement, 1),
            last: settlement,
        }
    }

    // The centre in a period.
    pub(crate) fn centre(self, period: u32) -> Average
        ensures { fraction result ≡ centre_in self period }
    {
        if period <= self.period {
            return self.centre;
        }
        match self.current {
            Some(told) if period - 1 == self.period => told,
            _ => Average::of(self.last, 1),
        }
    }

    // What was told in the period that a trade of this period counts in, with the trade.
    fn told_with(self, period: u32, traded: Average) -> Average
        requires { self.tally + traded.quantity ≤ greatest_tally }
        ensures latest { period ≤ self.period → fraction result ≡ together (totals self.current) (fraction traded) }
        ensures later { self.period < period → result ≡ traded }
        ensures part { result.quantity ≤ self.tally + traded.quantity }
    {
        match self.current {
            Some(told) if period <= self.period => told.plus(traded),
            _ => traded,
        }
    }

    // With one trade more, which counts.
    pub(crate) fn plus(self, trade: ToldTrade) -> Summary
        requires { Counts self.tally trade }
        ensures tally { result.tally ≡ self.tally + trade.quantity }
        ensures remembers { (settlement : ℕ) (told : List ToldTrade) → Remembers settlement self told → Remembers settlement result (trade ∷ told) }
        ensures some { (settlement : ℕ) → RemembersSome settlement self → RemembersSome settlement result }
    {
        let period = trade.second / PERIOD;
        let traded = Average::of(trade.price, trade.quantity);
        Summary {
            tally: self.tally + u64::from(trade.quantity),
            period: self.period.max(period),
            current: Some(self.told_with(period, traded)),
            centre: self.centre(period),
            last: trade.price,
        }
    }
}
