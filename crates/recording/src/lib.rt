// What the programs share: the blocks of recorded calls that they read, the marks that they write, and pictures with their lists.
#![tactic(auto)]

pub mod input;
pub mod kinds;
pub mod marks;
pub mod picture;
