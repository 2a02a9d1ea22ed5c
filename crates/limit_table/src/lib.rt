// The table of interior limits (change request 2).
#![tactic(auto)]

pub mod table;
