// What the passes take and answer, and which rows are final. The definitions of a pass
// and of a list of calls are in `specs`, demand 3 in `proofs`.
#![tactic(auto)]

pub mod answers;
pub mod final_rows;
pub mod records;
