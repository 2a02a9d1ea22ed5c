// The error sum of a reconstruction against its source (document 01, Search), and the refusals of sums and searches.
#![tactic(auto)]

pub mod answers;
pub mod source;
pub mod sums;
