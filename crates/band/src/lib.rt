// The band tunnel: each range lies around the base price, from a low to a high band.
#![tactic(auto)]

pub mod band;
pub mod band_tunnel;

pub use band::Band;
pub use band_tunnel::BandTunnel;
