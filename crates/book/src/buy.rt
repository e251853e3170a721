// The buy side of the book.
ghost use Rattle.std.specs.Prelude.{◌≡◌, ◌≤◌, []};
ghost use Rattle.rules.specs.Limits.{most_orders};
ghost use Rattle.book.specs.Lists.{Sound};
ghost use Rattle.book.specs.Orders.{buys_before};
ghost use Rattle.book.specs.Tables.{held};

use crate::order::Order;
use crate::rank::BuyRank;
use crate::side::Book;
use crate::table::OrderTable;

// The buy orders that rest: the higher price first, then the smaller stamp.
// A rule of the project: each side is a type, with its rank written out in its invariant.
#[derive(Drop)]
pub struct BuyBook {
    table: OrderTable,
    ghost few: { table.count ≤ most_orders },
    ghost sound: { Sound buys_before (held table) },
}

impl BuyBook {
    // A book without orders.
    pub fn new() -> BuyBook
        ensures { held result.table ≡ [] }
    {
        BuyBook {
            table: OrderTable::new(),
        }
    }
}

impl Book for BuyBook {
    ghost held = { λ b. held b.table };

    ghost before = { buys_before };

    ghost sound = { λ b. b.sound };

    fn orders(&self) -> &[Order] {
        self.table.orders()
    }

    fn insert(&mut self, order: Order) -> Option<usize> {
        self.table.insert(&BuyRank, order)
    }

    fn remove(&mut self, place: usize) -> Option<Order> {
        self.table.remove(place)
    }

    fn reduce(&mut self, place: usize, by: u32) -> Option<u32> {
        self.table.reduce(place, by)
    }

    fn fill(&mut self, volume: u32) {
        self.table.fill(volume);
    }
}
