// Daily limits.
ghost use Rattle.std.specs.Prelude.{◌≡◌, ◌↔◌, IsOk, IsErrOf, IfOk};
ghost use Rattle.daily.specs.Limits.{AreLimits};

use rules::{GREATEST_PRICE, Refusal};

// The lowest and the highest price of the day, checked.
#[derive(Clone, Copy)]
pub struct DailyLimits {
    pub(crate) low: u32,
    pub(crate) high: u32,
    ghost within: { AreLimits low high },
}

impl DailyLimits {
    // Limits are checked before there is a layer, so that a refusal costs no tunnel.
    pub fn new(low: u32, high: u32) -> Result<DailyLimits, Refusal>
        ensures within { IsOk result ↔ AreLimits low high }
        ensures refused { IsErrOf result Refusal.TunnelOutsideLimits ↔ ¬ AreLimits low high }
        ensures prices { IfOk result (λ limits. (limits.low ≡ low) × (limits.high ≡ high)) }
    {
        if (1..=high).contains(&low) && high <= GREATEST_PRICE {
            Ok(DailyLimits { low, high })
        } else {
            Err(Refusal::TunnelOutsideLimits)
        }
    }
}
