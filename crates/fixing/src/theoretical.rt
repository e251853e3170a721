// What an auction would be fixed at.
ghost use Rattle.std.specs.Prelude.{◌≡◌};
ghost use Rattle.book.specs.Tables.{held};
ghost use Rattle.fixing.specs.Prices.{IsTheoretical, OnlyTheoretical};
ghost use Rattle.fixing.specs.Results.{TakenFrom};
ghost use Rattle.fixing.specs.Volumes.{TradesTheMost};

use crate::offer::Offer;
use crate::walk::Sides;
use book::{Book, BuyBook, SellBook};

// The fixing price, the volume that trades there, and demand less supply. Without a price the numbers are 0.
// A rule of the project: the price is an Option, and the numbers stand beside it.
#[derive(Clone, Copy, PartialEq, Eq, Debug)]
pub struct Theoretical {
    pub price: Option<u32>,
    pub volume: u32,
    pub leftover: i32,
}

// Nothing trades. A constant and no `Default`, since its name says what it means.
const NO_PRICE: Theoretical = Theoretical {
    price: None,
    volume: 0,
    leftover: 0,
};

impl Offer {
    // The result at this price.
    fn result(self) -> Theoretical
        ensures { TakenFrom self result }
    {
        let volume = self.volume();
        if volume == 0 {
            return NO_PRICE;
        }
        Theoretical {
            price: Some(self.price),
            volume,
            // With `as`: what a side holds fits, and `try_from` would answer an error that never comes.
            leftover: self.demand as i32 - self.supply as i32,
        }
    }
}

impl<'a> Sides<'a> {
    // What the auction of these orders would be fixed at.
    fn theoretical(&self, base: u32) -> Theoretical
        ensures result { IsTheoretical self.now.buys.now self.now.sells.now base result }
        ensures only { OnlyTheoretical self.now.buys.now self.now.sells.now base result }
        ensures trades_the_most { TradesTheMost self.now.buys.now self.now.sells.now result.volume }
    {
        self.best_offer(base).map_or(NO_PRICE, Offer::result)
    }
}

// What the auction of the orders of two books would be fixed at.
pub fn theoretical_result(buys: &BuyBook, sells: &SellBook, base: u32) -> Theoretical
    ensures result { IsTheoretical (held buys.now.table) (held sells.now.table) base result }
    ensures only { OnlyTheoretical (held buys.now.table) (held sells.now.table) base result }
    ensures trades_the_most { TradesTheMost (held buys.now.table) (held sells.now.table) result.volume }
{
    let sides = Sides {
        buys: buys.orders(),
        sells: sells.orders(),
    };
    sides.theoretical(base)
}
