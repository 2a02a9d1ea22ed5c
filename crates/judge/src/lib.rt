// What a call of a pass is to do: its refusals, and the macroblocks that it does. Nothing here writes a sample.
#![tactic(auto)]

pub mod batch;
pub mod entries;
