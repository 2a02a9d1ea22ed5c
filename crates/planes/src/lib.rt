// The planes of a frame: definitions of the loop filter on them (`specs`), their laws (`proofs`), the judgement of the grid that a caller
// lends, and what is lent of a picture.
#![tactic(auto)]

pub mod grid;
pub mod layout;
pub mod picture;
