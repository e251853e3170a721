// The rank of an order on each side.
ghost use Rattle.std.specs.Prelude.{◌≡◌};
ghost use Rattle.book.specs.Orders.{SameRank, buys_before, sells_before};
ghost use Rattle.std.proofs.Common.{rules};

use crate::order::Order;
use ranked::Ranking;

// The rank of buy orders: the higher price first, then the smaller stamp.
#[derive(Clone, Copy)]
pub struct BuyRank;

// The rank of sell orders: the lower price first, then the smaller stamp. It differs from that of buy orders in the one comparison alone.
#[derive(Clone, Copy)]
pub struct SellRank;

impl Ranking<Order> for BuyRank {
    ghost before = { buys_before };

    ghost alike = { SameRank };

    ghost one_of_two_comes_first = { Prim.search rules };

    ghost only_one_comes_first = { Prim.search rules };

    ghost neither_of_two_alike = { Prim.search rules };

    ghost transitive = { Prim.search rules };

    fn before(&self, one: &Order, other: &Order) -> bool {
        one.price > other.price || one.price == other.price && one.stamp < other.stamp
    }
}

impl Ranking<Order> for SellRank {
    ghost before = { sells_before };

    ghost alike = { SameRank };

    ghost one_of_two_comes_first = { Prim.search rules };

    ghost only_one_comes_first = { Prim.search rules };

    ghost neither_of_two_alike = { Prim.search rules };

    ghost transitive = { Prim.search rules };

    fn before(&self, one: &Order, other: &Order) -> bool {
        one.price < other.price || one.price == other.price && one.stamp < other.stamp
    }
}
