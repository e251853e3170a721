// The mean-price tunnel, made within its limits.
ghost use Rattle.std.specs.Prelude.{◌≡◌, ◌↔◌, [], IsOk, IsErrOf, IfOk};
ghost use Rattle.mean.specs.Means.{AreParameters, IsPrice, IsWidth};
ghost use Rattle.mean.specs.Summaries.{Remembers, RemembersSome};

use crate::summary::Summary;
use rules::{GREATEST_BAND, GREATEST_PRICE, Refusal, Tick};

// A tunnel around the mean price, with its limits the half-width away.
#[derive(Drop)]
pub struct MeanTunnel {
    pub(crate) tick: Tick,
    pub(crate) half_width: u32,
    pub(crate) settlement: u32,
    pub(crate) summary: Summary,
    ghost width: { IsWidth half_width },
    ghost settled: { IsPrice settlement },
    ghost remembering: { RemembersSome settlement summary },
}

impl MeanTunnel {
    // A tunnel that was told no trade.
    pub fn new(tick: u32, half_width: u32, settlement: u32) -> Result<MeanTunnel, Refusal>
        ensures within { IsOk result ↔ AreParameters tick half_width settlement }
        ensures refused { IsErrOf result Refusal.TunnelOutsideLimits ↔ ¬ AreParameters tick half_width settlement }
        ensures parameters { IfOk result (λ tunnel. (tunnel.tick.value ≡ tick) × (tunnel.half_width ≡ half_width) × (tunnel.settlement ≡ settlement)) }
        ensures empty { IfOk result (λ tunnel. Remembers settlement tunnel.summary []) }
    {
        let tick = Tick::new(tick).ok_or(Refusal::TunnelOutsideLimits)?;
        let half_widths = 1..=GREATEST_BAND.unsigned_abs();
        let prices = 1..=GREATEST_PRICE;
        if !half_widths.contains(&half_width) || !prices.contains(&settlement) {
            return Err(Refusal::TunnelOutsideLimits);
        }
        Ok(MeanTunnel {
            tick,
            half_width,
            settlement,
            summary: Summary::start(settlement),
        })
    }
}
