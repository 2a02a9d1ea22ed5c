// RFC 6386, sections 9.3, 9.4 and 20.6: a macroblock's loop filter level; and whether it has coefficients.
#![tactic(auto)]

pub mod answers;
pub mod cases;
pub mod coeffs;
pub mod config;
pub mod level;
pub mod modes;
