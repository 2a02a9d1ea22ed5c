// The search for a level and a sharpness: of the pairs that it tries, the one with the smallest error sum (document 01, Search).
#![tactic(auto)]

pub mod answers;
pub mod candidates;
pub mod input;
pub mod search;
mod trials;
pub mod unfiltered;
