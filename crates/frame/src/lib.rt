// The walk of a frame (RFC 6386, sections 15 and 15.1): the step of a macroblock, and the passes over byte lists and over records.
#![tactic(auto)]

mod edge;
pub mod entries;
pub mod pass;
mod plane;
mod step;
