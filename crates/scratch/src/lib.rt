// Scratch planes that a call borrows: it judges them, and copies the grid of the reconstruction into them.
#![tactic(auto)]

pub mod copies;
