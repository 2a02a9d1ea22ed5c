// The full search for stills: of unfiltered and every level with every sharpness,
// the candidate with the smallest error sum (change request 1).
#![tactic(auto)]

pub mod answers;
pub mod full_search;
