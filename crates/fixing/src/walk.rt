// A walk over the prices of both sides, from the lowest up: one pass, in which each order is met once.
ghost use Rattle.std.specs.Prelude.{◌≡◌, ℕ, ◌+◌, ◌^◌, ◌<◌, ◌≤◌, ◌⊎◌, length, MatchOption};
ghost use Rattle.book.specs.Lists.{Sound, resting};
ghost use Rattle.book.specs.Orders.{buys_before, sells_before};
ghost use Rattle.fixing.specs.Volumes.{buy_counts, sell_counts};
ghost use Rattle.fixing.specs.Walks.{Beats, BestOf, Counts, LowestLeft};

use crate::offer::Offer;
use book::Order;

// The orders of both sides, each in its rank order.
#[derive(Clone, Copy)]
pub(crate) struct Sides<'a> {
    pub(crate) buys: &'a [Order],
    pub(crate) sells: &'a [Order],
    ghost buyers: { Sound buys_before buys.now },
    ghost sellers: { Sound sells_before sells.now },
}

// The front of a side: how many orders it has, and their quantity.
#[derive(Clone, Copy)]
pub struct Front {
    pub(crate) orders: usize,
    pub(crate) quantity: u32,
}

// The front that is the whole side.
fn whole(orders: &[Order]) -> Front
    requires { resting orders.now < 2 ^ 32 }
    ensures orders { result.orders ≡ length orders.now }
    ensures quantity { result.quantity ≡ resting orders.now }
{
    Front {
        orders: orders.len(),
        quantity: orders.iter().map(|order| order.quantity).sum(),
    }
}

// The better one of the best offer so far and a new one.
fn better(best: Option<Offer>, offer: Offer, base: u32) -> Offer
    ensures { MatchOption best (result ≡ offer) (λ old. (Beats offer old base × (result ≡ offer)) ⊎ ((Beats offer old base → ⊥) × (result ≡ old))) }
{
    best.map_or(
        offer,
        |old| if offer.beats(old, base) { offer } else { old },
    )
}

impl<'a> Sides<'a> {
    // The front of the sell side with the orders at a price or below it, from one of orders below it.
    fn up_to(&self, mut front: Front, price: u32) -> Front
        requires { (below : ℕ) × (below ≤ price) × Counts (sell_counts below) self.now.sells.now front }
        ensures { Counts (sell_counts price) self.now.sells.now result }
    {
        let next = self.sells[front.orders..].iter();
        for order in next.take_while(|order| order.price <= price) {
            front.orders += 1;
            front.quantity += order.quantity;
        }
        front
    }

    // The front of the buy side with the orders above a price, from one of orders at it or above it.
    // The mirror of `up_to`: that adds orders behind a front, this takes them off its end.
    fn above(&self, mut front: Front, price: u32) -> Front
        requires { Counts (buy_counts price) self.now.buys.now front }
        ensures { Counts (buy_counts (price + 1)) self.now.buys.now result }
    {
        let last = self.buys[..front.orders].iter().rev();
        for order in last.take_while(|order| order.price <= price) {
            front.orders -= 1;
            front.quantity -= order.quantity;
        }
        front
    }

    // The lowest price of the first `above` buy orders and of the sell orders from `below` on.
    fn lowest(&self, above: usize, below: usize) -> Option<u32>
        requires { above ≤ length self.now.buys.now }
        ensures { MatchOption result ((above ≡ 0) × (length self.now.sells.now ≤ below)) (λ p. LowestLeft self.now.buys.now self.now.sells.now above below p) }
    {
        // An arm for each case: an `or` of the two would hide of which side the price is.
        match (self.buys[..above].last(), self.sells.get(below)) {
            (Some(buy), Some(sell)) => Some(buy.price.min(sell.price)),
            (Some(buy), None) => Some(buy.price),
            (None, Some(sell)) => Some(sell.price),
            (None, None) => None,
        }
    }

    // The best offer of all; `None` if there is no order.
    pub(crate) fn best_offer(&self, base: u32) -> Option<Offer>
        ensures { BestOf self.now.buys.now self.now.sells.now base result }
    {
        let mut best = None;
        let mut left = whole(self.buys);
        let mut done = Front {
            orders: 0,
            quantity: 0,
        };
        while let Some(price) = self.lowest(left.orders, done.orders) {
            done = self.up_to(done, price);
            let offer = Offer {
                price,
                demand: left.quantity,
                supply: done.quantity,
            };
            best = Some(better(best, offer, base));
            left = self.above(left, price);
        }
        best
    }
}
