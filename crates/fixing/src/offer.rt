// A price that an auction may be fixed at.
ghost use Rattle.std.specs.Prelude.{◌≡◌, ◌↔◌, ◌≤◌, min, IsTrue};
ghost use Rattle.fixing.specs.Volumes.{distance, most_resting};

use std::cmp::Reverse;

// A price with its demand and its supply.
#[derive(Clone, Copy)]
pub struct Offer {
    pub(crate) price: u32,
    pub(crate) demand: u32,
    pub(crate) supply: u32,
    ghost bounded: { (demand ≤ most_resting) × (supply ≤ most_resting) },
}

impl Offer {
    ghost use Rattle.fixing.specs.Walks.{Beats};

    pub(crate) fn volume(self) -> u32
        ensures { result ≡ min self.demand self.supply }
    {
        self.demand.min(self.supply)
    }

    // The leftover without sign.
    pub(crate) fn imbalance(self) -> u32
        ensures { result ≡ distance self.demand self.supply }
    {
        self.demand.abs_diff(self.supply)
    }

    // What makes a price better: more volume, then a smaller leftover without sign, then nearer the base, then higher.
    fn merit(self, base: u32) -> (u32, Reverse<u32>, Reverse<u32>, u32)
        ensures { result ≡ (min self.demand self.supply, record { 0 = distance self.demand self.supply }, record { 0 = distance self.price base }, self.price) }
    {
        (
            self.volume(),
            Reverse(self.imbalance()),
            Reverse(self.price.abs_diff(base)),
            self.price,
        )
    }

    // Whether this price is better than the other.
    pub(crate) fn beats(self, other: Offer, base: u32) -> bool
        ensures { IsTrue result ↔ Beats self other base }
    {
        self.merit(base) > other.merit(base)
    }
}
