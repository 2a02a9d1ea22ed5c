// The kernels of the VP8 loop filter on one segment (RFC 6386, sections 15.2 and 15.3).
#![tactic(auto)]

pub mod answers;
mod bounds;
pub mod limits;
mod moves;
mod near;
mod passed;
pub mod segments;
mod store;
mod taps;
mod tries;
mod values;
mod whole;
