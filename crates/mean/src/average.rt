// Mean prices.
ghost use Rattle.std.specs.Prelude.{◌≡◌, ◌+◌, ◌*◌, ◌/◌, ◌%◌, ◌≤◌, min, pos, ◌≤ℤ◌};
ghost use Rattle.rules.specs.Limits.{greatest_price, greatest_quantity, greatest_band, greatest_tally};

use rules::Tick;

// A mean price as a fraction, not rounded: what was paid in all, by the quantity it was paid for.
#[derive(Clone, Copy)]
pub struct Average {
    value: u64,
    quantity: u64,
    ghost some: { 1 ≤ quantity },
    ghost counted: { quantity ≤ greatest_tally },
    ghost priced: { value ≤ greatest_price * quantity },
}

impl Average {
    ghost use Rattle.mean.specs.Averages.{fraction, together};
    ghost use Rattle.mean.specs.Means.{between};

    // A quantity at one price.
    pub(crate) fn of(price: u32, quantity: u32) -> Average
        requires price { price ≤ greatest_price }
        requires some { 1 ≤ quantity }
        requires counted { quantity ≤ greatest_quantity }
        ensures { fraction result ≡ (price * quantity, quantity) }
    {
        Average {
            value: u64::from(price) * u64::from(quantity),
            quantity: u64::from(quantity),
        }
    }

    // Both together.
    pub(crate) fn plus(self, other: Average) -> Average
        requires { self.quantity + other.quantity ≤ greatest_tally }
        ensures { fraction result ≡ together (fraction self) (fraction other) }
    {
        Average {
            value: self.value + other.value,
            quantity: self.quantity + other.quantity,
        }
    }

    // The price rounded down to a whole number.
    #[tactic(auto, using(crate::proofs::Between::floor_within))]
    fn floor(self) -> i32
        ensures value { result ≡ pos (self.value / self.quantity) }
        ensures bound { result ≤ℤ pos greatest_price }
    {
        // With `as`, here and below: a price or a half-width fits, and `try_from` would answer an error that never comes.
        (self.value / self.quantity) as i32
    }

    // The price rounded up to a whole number.
    #[tactic(auto, using(crate::proofs::Between::ceil_within))]
    fn ceil(self) -> i32
        ensures value { result ≡ pos (self.value / self.quantity + min 1 (self.value % self.quantity)) }
        ensures bound { result ≤ℤ pos (greatest_price + 1) }
    {
        self.value.div_ceil(self.quantity) as i32
    }

    // The range between the limits around this centre, which lie the half-width away.
    pub(crate) fn range(self, tick: Tick, half_width: u32) -> (i64, i64)
        requires { half_width ≤ greatest_band }
        ensures { result ≡ between tick.value half_width (fraction self) }
    {
        let half_width = half_width as i32;
        let low = tick.down(self.floor() - half_width);
        let high = tick.up(self.ceil() + half_width);
        (low + 1, high - 1)
    }
}
