// Orders filled in rank order, over a slice.
ghost use Rattle.std.specs.Prelude.{◌≡◌, ◌-◌, ◌≤◌, ◌++◌, length, take, replicate};
ghost use Rattle.rules.specs.Limits.{most_orders};
ghost use Rattle.book.specs.Lists.{OnlyFills, filled, remaining};

use crate::order::Order;
use rules::MOST_ORDERS;

// What each of the orders gets of a volume that is given out in rank order, by its place; 0 behind them.
pub(crate) fn fills(orders: &[Order], volume: u32) -> [u32; MOST_ORDERS]
    requires { length orders.now ≤ most_orders }
    ensures value { result ≡ filled volume orders.now ++ replicate (most_orders - length orders.now) 0 }
    ensures by_rank { OnlyFills volume orders.now (take (length orders.now) result) }
{
    let mut fills = [0; MOST_ORDERS];
    let mut left = volume;
    // A rule of the project: a `for` over the ranked orders, with a running remainder.
    // By place: nothing is known of elements that are written through a `zip` of `iter_mut`.
    for (i, order) in orders.iter().enumerate() {
        let fill = left.min(order.quantity);
        fills[i] = fill;
        left -= fill;
    }
    fills
}

// Takes its fill off each order, moves those with something left to the front, and answers how many these are.
pub(crate) fn settle(orders: &mut [Order], fills: &[u32; MOST_ORDERS]) -> usize
    requires { length orders.old ≤ most_orders }
    ensures left { take result orders.new ≡ remaining orders.old fills.now }
    ensures fewer { result ≤ length orders.old }
{
    let mut count = 0;
    // By index: each turn reads one place of the slice and may write another.
    for i in 0..orders.len() {
        let order = orders[i];
        let fill = fills[i];
        if fill < order.quantity {
            orders[count] = Order {
                quantity: order.quantity - fill,
                ..order
            };
            count += 1;
        }
    }
    count
}
