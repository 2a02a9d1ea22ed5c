// The trials of a search, in document 01's order, and what each makes of the best candidate
// so far. `specs/Private/SearchCode.antt` says each as a definition.
ghost use Rattle.std.specs.Prelude.{◌≡◌, ◌+◌, ◌<◌, cond, eqb};
ghost use Rattle.search.specs.Candidates.{near};
ghost use Rattle.search.specs.Private.SearchCode.{coarse_at, near_trial, sharpness_trial, trial_of, taken, with_winner};

use crate::answers::FilterParams;
use crate::candidates::Pair;

const HIGHEST_LEVEL: usize = 63;

// Trials 0 to 15 are the coarse levels.
const COARSE_END: usize = 16;

// Trials 16 to 79 are the levels 0 to 63.
const LEVELS_END: usize = 80;

// Trials 80 to 87 are the sharpness values 0 to 7.
pub(crate) const TRIALS: usize = 88;

// What the search would answer so far, its sum, and the winner of the coarse levels.
#[derive(Clone, Copy, Debug, PartialEq, Eq)]
pub struct Best {
    pub params: FilterParams,
    pub sum: u64,
    pub winner: u8,
}

// 4, 8 to 60, 63.
fn coarse_level(i: usize) -> u8
    requires { i < 16 }
    ensures { result ≡ coarse_at i }
{
    (4 * i + 4).min(HIGHEST_LEVEL) as u8
}

// Within 3 of the winner.
#[tactic(auto, unfolding(crate::specs::Candidates::near))]
fn is_near(winner: u8, level: u8) -> bool
    ensures { result ≡ near winner level }
{
    winner.abs_diff(level) <= 3
}

// Trial i: a coarse level; a level near the winner but the best of the moment;
// another sharpness unless the best level is 0. `None`: the trial is passed over.
// One loop over the numbers of all trials: of three loops each would be a function, with the same five parameters, four clauses and
// invariant, and an enum of the phases would be one more type, where here a number chooses between three lines.
#[tactic(auto, unfolding(crate::specs::Private::SearchCode::trial_of))]
pub(crate) fn next_trial(base: u8, i: usize, best: Best) -> Option<Pair>
    requires { i < 88 }
    ensures { result ≡ trial_of base i best }
{
    if i < COARSE_END {
        let level = coarse_level(i);
        return Some(Pair {
            level,
            sharpness: base,
        });
    }
    if i < LEVELS_END {
        let level = (i - COARSE_END) as u8;
        return near_trial(base, level, best);
    }
    let sharpness = (i - LEVELS_END) as u8;
    sharpness_trial(base, sharpness, best)
}

#[tactic(auto, unfolding(crate::specs::Private::SearchCode::near_trial))]
fn near_trial(base: u8, level: u8, best: Best) -> Option<Pair>
    ensures { result ≡ near_trial base level best }
{
    let pair = Pair {
        level,
        sharpness: base,
    };
    let close = is_near(best.winner, level);
    (close & (level != best.params.pair.level)).then_some(pair)
}

#[tactic(auto, unfolding(crate::specs::Private::SearchCode::sharpness_trial))]
fn sharpness_trial(base: u8, sharpness: u8, best: Best) -> Option<Pair>
    ensures { result ≡ sharpness_trial base sharpness best }
{
    let level = best.params.pair.level;
    ((level != 0) & (sharpness != base)).then_some(Pair { level, sharpness })
}

// One more, of a level above 0. That the count is below 100 is a clause, here, below and of a trial: it holds within a search alone.
fn counted(level: u8, count: usize) -> usize
    requires { count < 100 }
    ensures { result ≡ cond (eqb level 0) 0 1 + count }
{
    count + usize::from(level != 0)
}

// Only a strictly smaller sum replaces.
#[tactic(auto, unfolding(crate::specs::Private::SearchCode::taken))]
pub(crate) fn take(best: Best, pair: Pair, sum: u64) -> Best
    requires { best.«params».«count» < 100 }
    ensures { result ≡ taken best pair sum }
{
    let count = counted(pair.level, best.params.count);
    if sum < best.sum {
        return Best {
            params: FilterParams { pair, count },
            sum,
            ..best
        };
    }
    let params = FilterParams {
        count,
        ..best.params
    };
    Best { params, ..best }
}

// The winner is the best of the coarse levels, whose trials come first: by the trial's number, as in `next_trial`.
#[tactic(auto, unfolding(crate::specs::Private::SearchCode::with_winner))]
pub(crate) fn note_winner(i: usize, best: Best) -> Best
    ensures { result ≡ with_winner i best }
{
    if i < COARSE_END {
        return Best {
            winner: best.params.pair.level,
            ..best
        };
    }
    best
}
