// What the searches choose. `specs/Answers.antt` gives their values in document 01.

use crate::candidates::Pair;

// The pair, and the number of candidates scored at a level above 0.
#[derive(Clone, Copy, Debug, Default, PartialEq, Eq)]
pub struct FilterParams {
    pub pair: Pair,
    pub count: usize,
}

// The same with the level alone.
#[derive(Clone, Copy, Debug, PartialEq, Eq)]
pub struct FilterLevel {
    pub level: u8,
    pub count: usize,
}
