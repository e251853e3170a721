// What each side of the book does.
ghost use Rattle.std.specs.Prelude.{◌≡◌, ℕ, ◌+◌, ◌-◌, ◌<◌, ◌≤◌, min, Bool, List, ◌++◌, length, take, replicate, All, MatchOption, ◌≢◌};
ghost use Rattle.std.specs.List.{insert, remove};
ghost use Rattle.rules.specs.Limits.{most_orders};
ghost use Rattle.ranked.specs.Ranks.{Place};
ghost use Rattle.book.specs.Lists.{Acceptable, At, OnlyFills, Sound, filled, first, reduced, remaining, resting};
ghost use Rattle.book.specs.declared.order.Order.{Order};

use crate::fills::fills;
use crate::order::Order;
use rules::MOST_ORDERS;

// One side of the book: the orders that rest there, in rank order.
pub trait Book {
    // The orders that rest.
    ghost held: { Self → List Order };

    // Whether the one order ranks before the other.
    ghost before: { Order → Order → Bool };

    // The orders that rest, in rank order.
    fn orders(&self) -> &[Order]
        ensures { result.now ≡ held self.now };

    // Puts an order in by its rank and answers its place; `None` if the book may not take it, and then it is as it was.
    fn insert(&mut self, order: Order) -> Option<usize>
        ensures { MatchOption result ((Acceptable (held self.old) order → ⊥) × (held self.new ≡ held self.old)) (λ place. Acceptable (held self.old) order × Place before (held self.old) order place × (held self.new ≡ insert (held self.old) place order)) };

    // Takes the order at a place out and answers it; `None` if there is none, and then the book is as it was.
    fn remove(&mut self, place: usize) -> Option<Order>
        ensures { MatchOption result ((length (held self.old) ≤ place) × (held self.new ≡ held self.old)) (λ x. At place (held self.old) x × (held self.new ≡ remove (held self.old) place)) };

    // Takes a quantity off the order at a place and answers what is left; an order with nothing left leaves.
    // `None` if there is no such order or it has less, and then the book is as it was.
    fn reduce(&mut self, place: usize, by: u32) -> Option<u32>
        ensures { MatchOption result (((x : Order) → At place (held self.old) x → by ≤ x.quantity → ⊥) × (held self.new ≡ held self.old)) (λ left. (x : Order) × At place (held self.old) x × (by ≤ x.quantity) × (left ≡ x.quantity - by) × (held self.new ≡ reduced (held self.old) place x by)) };

    // Gives a volume out to the orders in rank order; those that are filled whole leave.
    fn fill(&mut self, volume: u32)
        ensures left { held self.new ≡ remaining (held self.old) (filled volume (held self.old)) }
        ensures resting { resting (held self.new) + min volume (resting (held self.old)) ≡ resting (held self.old) };

    // The order that comes first; a rule of the project: an Option.
    fn best(&self) -> Option<Order>
        ensures { result ≡ first (held self.now) }
    {
        self.orders().first().copied()
    }

    // The place of the order with this number.
    fn find(&self, number: u32) -> Option<usize>
        ensures { MatchOption result (All (λ x. x.number ≢ number) (held self.now)) (λ place. (x : Order) × At place (held self.now) x × (x.number ≡ number)) }
    {
        self.orders()
            .iter()
            .position(|order| order.number == number)
    }

    // What each order gets of a volume that is given out in rank order, by its place; 0 behind the orders.
    // A rule of the project: a fixed array by value.
    fn fills(&self, volume: u32) -> [u32; MOST_ORDERS]
        ensures value { result ≡ filled volume (held self.now) ++ replicate (most_orders - length (held self.now)) 0 }
        ensures by_rank { OnlyFills volume (held self.now) (take (length (held self.now)) result) }
    {
        fills(self.orders(), volume)
    }

    // There is no book that is out of rank, holds a number or a stamp twice, more orders than it may, or one outside its limits.
    ghost sound: { (book : Self) → Sound before (held book) };
}
