// One edge of a macroblock (RFC 6386, section 15.1) in any plane: filtered if it
// fits, else left alone; and the normal kernels on one window.
#![tactic(auto)]

pub mod horizontal;
pub mod length;
pub mod normal;
pub mod place;
mod position;
mod run;
mod taps;
pub mod vertical;
pub mod windows;
