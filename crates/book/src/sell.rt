// The sell side of the book.
ghost use Rattle.std.specs.Prelude.{◌≡◌, ◌≤◌, []};
ghost use Rattle.rules.specs.Limits.{most_orders};
ghost use Rattle.book.specs.Lists.{Sound};
ghost use Rattle.book.specs.Orders.{sells_before};
ghost use Rattle.book.specs.Tables.{held};

use crate::order::Order;
use crate::rank::SellRank;
use crate::side::Book;
use crate::table::OrderTable;

// The sell orders that rest: the lower price first, then the smaller stamp.
// A rule of the project: each side is a type, with its rank written out in its invariant.
#[derive(Drop)]
pub struct SellBook {
    table: OrderTable,
    ghost few: { table.count ≤ most_orders },
    ghost sound: { Sound sells_before (held table) },
}

impl SellBook {
    // A book without orders.
    pub fn new() -> SellBook
        ensures { held result.table ≡ [] }
    {
        SellBook {
            table: OrderTable::new(),
        }
    }
}

impl Book for SellBook {
    ghost held = { λ b. held b.table };

    ghost before = { sells_before };

    ghost sound = { λ b. b.sound };

    fn orders(&self) -> &[Order] {
        self.table.orders()
    }

    fn insert(&mut self, order: Order) -> Option<usize> {
        self.table.insert(&SellRank, order)
    }

    fn remove(&mut self, place: usize) -> Option<Order> {
        self.table.remove(place)
    }

    fn reduce(&mut self, place: usize, by: u32) -> Option<u32> {
        self.table.reduce(place, by)
    }

    fn fill(&mut self, volume: u32) {
        self.table.fill(volume);
    }
}
