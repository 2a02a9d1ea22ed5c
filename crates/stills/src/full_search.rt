// The full search for stills: unfiltered and every level 1 to 63 with every sharpness 0 to 7 are tried, 505 candidates (change request 1).
// The entries say whether it is the key search or the inter search.
ghost use Rattle.std.specs.Prelude.{◌≡◌, ◌<◌};
ghost use Rattle.planes.specs.Layout.{grid_of};
ghost use Rattle.planes.specs.Pictures.{planes_in, planes_lent, SameLoans};
ghost use Rattle.sums.specs.SourceRecord.{source_in};
ghost use Rattle.sums.specs.Sums.{error_sum};
ghost use Rattle.search.specs.Search.{search_of};
ghost use Rattle.search.specs.Private.Ready.{Ready};
ghost use Rattle.stills.specs.FullSearch.{FullSearched};
ghost use Rattle.stills.specs.Answers.{full_outcome};
ghost use Rattle.stills.specs.Private.FullCode.{taken, Tried, Starts, AllTried, Ended};

use crate::answers::Best;
use judge::entries::Entries;
use planes::picture::PictureMut;
use search::candidates::{Pair, base_sharpness, make_candidate};
use search::input::SearchInput;
use search::unfiltered::unfiltered_sum;
use sums::answers::SearchRefusal;
use sums::sums::reconstruction_ssd;

// The sharpness values 0 to 7.
const SHARPNESS_VALUES: usize = 8;

// The levels 1 to 63 with the sharpness values 0 to 7. By one number: a loop of levels and
// one of sharpness values would be two functions with the same clauses.
const PAIRS: usize = 504;

// Only a strictly smaller sum replaces.
#[tactic(auto, unfolding(crate::specs::Private::FullCode::taken))]
fn take(best: Best, pair: Pair, sum: u64) -> Best
    ensures { result ≡ taken best pair sum }
{
    if sum < best.sum {
        return Best { pair, sum };
    }
    best
}

// Pair i is made in the scratch planes, and taken if it is better. Ready is a clause, and entries and scratch planes go apart, as in the
// other search. Its last lines are that search's: one function for both would answer a sum or none, and each would take it as here.
fn try_pair<E: Entries>(
    input: SearchInput<'_>,
    entries: E,
    scratch: &mut PictureMut<'_>,
    best: Best,
    i: usize,
) -> Best
    requires ready { Ready E.pass (search_of E.pass (E.carried entries) input (planes_lent scratch.old)) }
    requires i_bound { i < 504 }
    ensures loans { SameLoans scratch.old scratch.new }
    ensures tried { Tried E.pass (search_of E.pass (E.carried entries) input.entry (planes_lent scratch.old))
        i best result (planes_lent scratch.new) }
{
    let pair = Pair {
        level: (1 + i / SHARPNESS_VALUES) as u8,
        sharpness: (i % SHARPNESS_VALUES) as u8,
    };
    make_candidate(input, entries, scratch, pair);
    let made = scratch.read();
    let Ok(sum) = reconstruction_ssd(made, input.layout, input.source) else {
        return best;
    };
    take(best, pair, sum)
}

// All pairs, one after the other.
fn try_pairs<E: Entries>(
    input: SearchInput<'_>,
    entries: E,
    scratch: &mut PictureMut<'_>,
    start: Best,
) -> Best
    requires ready { Ready E.pass (search_of E.pass (E.carried entries) input (planes_lent scratch.old)) }
    requires starts { Starts E.pass (search_of E.pass (E.carried entries) input (planes_lent scratch.old)) start }
    ensures loans { SameLoans scratch.old scratch.new }
    ensures tried { AllTried E.pass (search_of E.pass (E.carried entries) input.entry (planes_lent scratch.old))
        result (planes_lent scratch.new) }
{
    let mut best = start;
    for i in 0..PAIRS {
        best = try_pair(input, entries, scratch, best, i);
    }
    best
}

// The best candidate, left in the grid of the scratch planes. `sum` is the unfiltered sum. The other search tries other pairs, and counts.
fn find_best<E: Entries>(
    input: SearchInput<'_>,
    entries: E,
    scratch: &mut PictureMut<'_>,
    sum: u64,
) -> Best
    requires ready { Ready E.pass (search_of E.pass (E.carried entries) input (planes_lent scratch.old)) }
    requires sum_value { sum ≡ error_sum (grid_of input.layout) (planes_in input.picture) (source_in input.source) }
    ensures loans { SameLoans scratch.old scratch.new }
    ensures ended { Ended E.pass (search_of E.pass (E.carried entries) input.entry (planes_lent scratch.old))
        result (planes_lent scratch.new) }
{
    let base = base_sharpness(input.config);
    let pair = Pair {
        level: 0,
        sharpness: base,
    };
    let start = Best { pair, sum };
    let best = try_pairs(input, entries, scratch, start);
    make_candidate(input, entries, scratch, best.pair);
    best
}

// The pair with the smallest sum, and that sum; or a refusal. Beside the other search, whose best has a count and a winner too.
pub fn full_search<E: Entries>(
    input: SearchInput<'_>,
    entries: E,
    scratch: &mut PictureMut<'_>,
) -> Result<Best, SearchRefusal>
    ensures loans { SameLoans scratch.old scratch.new }
    ensures searched { FullSearched E.pass (search_of E.pass (E.carried entries) input.entry (planes_lent scratch.old))
        (full_outcome result) (planes_lent scratch.new) }
{
    let lent = scratch.read();
    let sum = unfiltered_sum(input, entries, lent)?;
    Ok(find_best(input, entries, scratch, sum))
}
