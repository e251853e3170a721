// The tick of a contract.
ghost use Rattle.std.specs.Prelude.{◌≡◌, ◌↔◌, IfSome, IsSome};
ghost use Rattle.rules.specs.Ticks.{IsTick, down, up, RoundedDown, RoundedUp};

use crate::limits::GREATEST_TICK;

// What prices are multiples of, within its limits.
#[derive(Clone, Copy)]
pub struct Tick {
    value: u32,
    ghost within: { IsTick value },
}

impl Tick {
    // The tick of this value, or `None` if the value is outside the limits.
    // An Option, since which refusal it is depends on whose tick it was to be.
    pub fn new(value: u32) -> Option<Tick>
        ensures within { IsSome result ↔ IsTick value }
        ensures value { IfSome result (λ t. t.value ≡ value) }
    {
        if (1..=GREATEST_TICK).contains(&value) {
            Some(Tick { value })
        } else {
            None
        }
    }

    pub fn value(self) -> u32
        ensures value { result ≡ self.value }
        ensures within { IsTick result }
    {
        self.value
    }

    // The number rounded down: the greatest multiple of the tick that is at most the number.
    pub fn down(self, number: i32) -> i64
        ensures value { result ≡ down self.value number }
        ensures rounded { RoundedDown self.value number result }
    {
        self.multiple_below(number)
    }

    // The number rounded up: the least multiple of the tick that is at least the number.
    pub fn up(self, number: i32) -> i64
        ensures value { result ≡ up self.value number }
        ensures rounded { RoundedUp self.value number result }
    {
        self.multiple_above(number)
    }

    // The two calls above promise what these do, so that a wrong call fails there, and not in a proof
    // that was written for another text.

    fn multiple_below(self, number: i32) -> i64
        ensures value { result ≡ down self.value number }
        ensures rounded { RoundedDown self.value number result }
    {
        let number = i64::from(number);
        number - number.rem_euclid(i64::from(self.value))
    }

    fn multiple_above(self, number: i32) -> i64
        ensures value { result ≡ up self.value number }
        ensures rounded { RoundedUp self.value number result }
    {
        let number = i64::from(number);
        number + (-number).rem_euclid(i64::from(self.value))
    }
}
