// What the full search chooses. `specs/Answers.antt` gives its values in document 01.

use search::candidates::Pair;

// The pair and its error sum, which the other search keeps to itself.
#[derive(Clone, Copy, Debug, PartialEq, Eq)]
pub struct Best {
    pub pair: Pair,
    pub sum: u64,
}
