// A table of orders, which says nothing of their rank.
ghost use Rattle.std.specs.Prelude.{◌≡◌, ℕ, ◌+◌, ◌-◌, ◌<◌, ◌≤◌, min, Bool, [], length, ◌↔◌, IsTrue, All, MatchOption};
ghost use Rattle.std.specs.List.{insert, remove};
ghost use Rattle.rules.specs.Limits.{most_orders};
ghost use Rattle.ranked.specs.Ranks.{Alike, Place};
ghost use Rattle.book.specs.Lists.{Acceptable, Apart, At, KeepsRank, RanksByStamp, Sound, filled, reduced, remaining, resting};
ghost use Rattle.book.specs.Orders.{lessened};
ghost use Rattle.book.specs.declared.order.Order.{Order};
ghost use Rattle.book.specs.Tables.{held};

use crate::fills::{fills, settle};
use crate::order::Order;
use ranked::{Ranking, insert, remove};
use rules::MOST_ORDERS;

// What stands where there is no order. It is not the `Default` of an order, since no book takes it.
const NO_ORDER: Order = Order {
    number: 0,
    stamp: 0,
    member: 0,
    price: 0,
    quantity: 0,
};

// Room for the orders of one side; those that it holds stand at the front.
// A rule of the project: a plain table without an invariant, of a fixed array and a count, so each method asks for few orders.
#[derive(Drop)]
pub struct OrderTable {
    pub(crate) orders: [Order; MOST_ORDERS],
    pub(crate) count: usize,
}

impl OrderTable {
    pub(crate) fn new() -> OrderTable
        ensures { (held result ≡ []) × (result.count ≡ 0) }
    {
        OrderTable {
            orders: [NO_ORDER; MOST_ORDERS],
            count: 0,
        }
    }

    // The orders that it holds.
    pub(crate) fn orders(&self) -> &[Order]
        requires { self.now.count ≤ most_orders }
        ensures { result.now ≡ held self.now }
    {
        &self.orders[..self.count]
    }

    // Whether no order that it holds has the number or the stamp of this one.
    fn is_apart(&self, order: Order) -> bool
        requires { self.now.count ≤ most_orders }
        ensures { IsTrue result ↔ All (λ x. Apart x order) (held self.now) }
    {
        self.orders().iter().all(|other| other.number != order.number && other.stamp != order.stamp)
    }

    // Puts an order in by its rank and answers its place; `None` if it may not be put in, and then the table is as it was.
    pub(crate) fn insert<K: Ranking<Order>>(&mut self, ranking: &K, order: Order) -> Option<usize>
        requires { self.old.count ≤ most_orders }
        ensures answer { MatchOption result ((Acceptable (held self.old) order → ⊥) × (self.new ≡ self.old)) (λ place. Acceptable (held self.old) order × Place K.before (held self.old) order place × (held self.new ≡ insert (held self.old) place order)) }
        ensures few { self.new.count ≤ most_orders }
        ensures sound { RanksByStamp (Alike K.before) → Sound K.before (held self.old) → Sound K.before (held self.new) }
    {
        if !order.within_limits() || !self.is_apart(order) {
            return None;
        }
        let place = insert(ranking, &mut self.orders, self.count, order)?;
        self.count += 1;
        Some(place)
    }

    // Takes the order at a place out and answers it; `None` if there is none, and then the table is as it was.
    pub(crate) fn remove(&mut self, place: usize) -> Option<Order>
        requires { self.old.count ≤ most_orders }
        ensures answer { MatchOption result ((length (held self.old) ≤ place) × (self.new ≡ self.old)) (λ x. At place (held self.old) x × (held self.new ≡ remove (held self.old) place)) }
        ensures few { self.new.count ≤ most_orders }
        ensures sound { (before : Order → Order → Bool) → Sound before (held self.old) → Sound before (held self.new) }
    {
        let order = remove(&mut self.orders, self.count, place)?;
        self.count -= 1;
        Some(order)
    }

    // Takes a quantity off the order at a place and answers what is left; an order with nothing left is taken out.
    // `None` if there is no such order or it has less, and then the table is as it was.
    pub(crate) fn reduce(&mut self, place: usize, by: u32) -> Option<u32>
        requires { self.old.count ≤ most_orders }
        ensures answer { MatchOption result (((x : Order) → At place (held self.old) x → by ≤ x.quantity → ⊥) × (self.new ≡ self.old)) (λ left. (x : Order) × At place (held self.old) x × (by ≤ x.quantity) × (left ≡ x.quantity - by) × (held self.new ≡ reduced (held self.old) place x by)) }
        ensures few { self.new.count ≤ most_orders }
        ensures sound { (before : Order → Order → Bool) → KeepsRank before → Sound before (held self.old) → Sound before (held self.new) }
    {
        let order = self.orders().get(place)?;
        let left = order.quantity.checked_sub(by)?;
        if left == 0 {
            let _ = self.remove(place);
        } else {
            self.orders[place].quantity = left;
        }
        Some(left)
    }

    // Gives a volume out to the orders in rank order; those that are filled whole are taken out.
    pub(crate) fn fill(&mut self, volume: u32)
        requires { self.old.count ≤ most_orders }
        ensures left { held self.new ≡ remaining (held self.old) (filled volume (held self.old)) }
        ensures resting { resting (held self.new) + min volume (resting (held self.old)) ≡ resting (held self.old) }
        ensures few { self.new.count ≤ most_orders }
        ensures sound { (before : Order → Order → Bool) → KeepsRank before → Sound before (held self.old) → Sound before (held self.new) }
    {
        let fills = fills(self.orders(), volume);
        self.count = settle(&mut self.orders[..self.count], &fills);
    }
}
