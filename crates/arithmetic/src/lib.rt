// RFC 6386, sections 15.2 and 15.4: the numbers of the loop filter, and the limits of one macroblock.
#![tactic(auto)]

pub mod limits;
pub mod numbers;
pub mod signed;
