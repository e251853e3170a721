// Daily limits, as a layer over any tunnel.
#![tactic(auto)]

pub mod layer;
pub mod limits;

pub use layer::Limited;
pub use limits::DailyLimits;
