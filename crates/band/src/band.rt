// How far a range's ends lie from the base price.
ghost use Rattle.std.specs.Prelude.{◌≡◌, ◌≤◌, ◌↔◌, IsOk, IsErrOf, IfOk};
ghost use Rattle.rules.specs.Limits.{greatest_price};
ghost use Rattle.band.specs.Bands.{IsBand, around, Around};

use rules::{GREATEST_BAND, Refusal, Tick};

// The low end's distance, 0 or below, and the high end's, 0 or above, within their limits.
#[derive(Clone, Copy)]
pub struct Band {
    low: i32,
    high: i32,
    ghost within: { IsBand low high },
}

impl Band {
    // The band of these distances.
    pub fn new(low: i32, high: i32) -> Result<Band, Refusal>
        ensures within { IsOk result ↔ IsBand low high }
        ensures refused { IsErrOf result Refusal.TunnelOutsideLimits ↔ ¬ IsBand low high }
        ensures distances { IfOk result (λ band. (band.low ≡ low) × (band.high ≡ high)) }
    {
        if (-GREATEST_BAND..=0).contains(&low) && (0..=GREATEST_BAND).contains(&high) {
            Ok(Band { low, high })
        } else {
            Err(Refusal::TunnelOutsideLimits)
        }
    }

    // The range around a base price.
    pub(crate) fn around(self, tick: Tick, base: u32) -> (i64, i64)
        requires { base ≤ greatest_price }
        ensures range { result ≡ around tick.value self.low self.high base }
        ensures rounded { Around tick.value self.low self.high base result }
    {
        // With `as`: a price fits, and `try_from` would answer an error that never comes.
        let base = base as i32;
        (tick.down(base + self.low), tick.up(base + self.high))
    }
}
