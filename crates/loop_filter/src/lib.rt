// The C functions of the loop filter, what hosts link. A slice crosses as a pointer and a length, `&mut T` as a pointer. A refusal crosses
// as its number, slices, numbers and outcomes cross one by one, and each call has a name of its own that is exported: the C interface
// has no `Result`, no structs and no generics.
#![tactic(auto)]

pub mod full_search;
pub mod level;
pub mod numbers;
pub mod passes;
pub mod segments;
pub mod selects;
mod settings;
