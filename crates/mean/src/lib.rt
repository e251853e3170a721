// The mean-price tunnel: a trade too far from the mean price of the period before goes to auction.
#![tactic(auto)]

mod average;
pub mod mean_tunnel;
pub mod rule;
mod summary;

pub use mean_tunnel::MeanTunnel;
