// The search for a level and a sharpness: of the pairs that it tries, the one with the smallest error sum (document 01, Search; the Rust's
// select_filter_params and select_filter_level). The entries say whether it is the key search or the inter search.
ghost use Rattle.std.specs.Prelude.{◌≡◌, ◌<◌};
ghost use Rattle.planes.specs.Layout.{grid_of};
ghost use Rattle.planes.specs.Pictures.{planes_in, planes_lent, SameLoans};
ghost use Rattle.sums.specs.SourceRecord.{source_in};
ghost use Rattle.sums.specs.Sums.{error_sum};
ghost use Rattle.search.specs.Search.{search_of, Searched, LevelSearched};
ghost use Rattle.search.specs.Answers.{params_outcome, level_only_outcome};
ghost use Rattle.search.specs.Private.SearchCode.{Tried, AllTried, Ended};
ghost use Rattle.search.specs.Private.Ready.{Ready};

use crate::answers::{FilterLevel, FilterParams};
use crate::candidates::{Pair, base_sharpness, make_candidate};
use crate::input::SearchInput;
use crate::trials::{Best, TRIALS, next_trial, note_winner, take};
use crate::unfiltered::unfiltered_sum;
use judge::entries::Entries;
use planes::picture::PictureMut;
use sums::answers::SearchRefusal;
use sums::sums::reconstruction_ssd;

// A trial: a candidate is scored and taken if it is better, or passed over. Ready is a clause, here and below: it tells of the scratch
// planes as they are, and a struct would prove it anew after each candidate.
fn try_candidate<E: Entries>(
    input: SearchInput<'_>,
    entries: E,
    scratch: &mut PictureMut<'_>,
    best: Best,
    trial: Option<Pair>,
) -> Best
    requires ready { Ready E.pass (search_of E.pass (E.carried entries) input (planes_lent scratch.old)) }
    requires count_bound { best.«params».«count» < 100 }
    ensures loans { SameLoans scratch.old scratch.new }
    ensures tried { Tried E.pass (search_of E.pass (E.carried entries) input.entry (planes_lent scratch.old))
        trial best result (planes_lent scratch.new) }
{
    let Some(pair) = trial else {
        return best;
    };
    make_candidate(input, entries, scratch, pair);
    let made = scratch.read();
    let Ok(sum) = reconstruction_ssd(made, input.layout, input.source) else {
        return best;
    };
    take(best, pair, sum)
}

// The trials, one after the other; `next_trial` says in which order.
fn search_trials<E: Entries>(
    input: SearchInput<'_>,
    entries: E,
    scratch: &mut PictureMut<'_>,
    base: u8,
    start: Best,
) -> Best
    requires ready { Ready E.pass (search_of E.pass (E.carried entries) input (planes_lent scratch.old)) }
    requires count_value { start.«params».«count» ≡ 0 }
    ensures loans { SameLoans scratch.old scratch.new }
    ensures tried { AllTried E.pass (search_of E.pass (E.carried entries) input.entry (planes_lent scratch.old))
        base start result (planes_lent scratch.new) }
{
    let mut best = start;
    for i in 0..TRIALS {
        let trial = next_trial(base, i, best);
        let next = try_candidate(input, entries, scratch, best, trial);
        best = note_winner(i, next);
    }
    best
}

// The best candidate, left in the grid of the scratch planes. `sum` is the unfiltered sum.
fn search_all<E: Entries>(
    input: SearchInput<'_>,
    entries: E,
    scratch: &mut PictureMut<'_>,
    sum: u64,
) -> Best
    requires ready { Ready E.pass (search_of E.pass (E.carried entries) input (planes_lent scratch.old)) }
    requires sum_value { sum ≡ error_sum (grid_of input.layout) (planes_in input.picture) (source_in input.source) }
    ensures loans { SameLoans scratch.old scratch.new }
    ensures ended { Ended E.pass (search_of E.pass (E.carried entries) input.entry (planes_lent scratch.old))
        result (planes_lent scratch.new) }
{
    let base = base_sharpness(input.config);
    let pair = Pair {
        level: 0,
        sharpness: base,
    };
    let start = Best {
        params: FilterParams { pair, count: 0 },
        sum,
        winner: 0,
    };
    let best = search_trials(input, entries, scratch, base, start);
    make_candidate(input, entries, scratch, best.params.pair);
    best
}

// The pair that the search chooses, and the count; or a refusal. Callers are not told the sum and the winner.
pub fn select_filter_params<E: Entries>(
    input: SearchInput<'_>,
    entries: E,
    scratch: &mut PictureMut<'_>,
) -> Result<FilterParams, SearchRefusal>
    ensures loans { SameLoans scratch.old scratch.new }
    ensures searched { Searched E.pass (search_of E.pass (E.carried entries) input.entry (planes_lent scratch.old))
        (params_outcome result) (planes_lent scratch.new) }
{
    let lent = scratch.read();
    let sum = unfiltered_sum(input, entries, lent)?;
    let best = search_all(input, entries, scratch, sum);
    Ok(best.params)
}

// The level of the pair that the search chooses, and the count; or a refusal. The same without the sharpness.
pub fn select_filter_level<E: Entries>(
    input: SearchInput<'_>,
    entries: E,
    scratch: &mut PictureMut<'_>,
) -> Result<FilterLevel, SearchRefusal>
    ensures loans { SameLoans scratch.old scratch.new }
    ensures searched { LevelSearched E.pass (search_of E.pass (E.carried entries) input.entry (planes_lent scratch.old))
        (level_only_outcome result) (planes_lent scratch.new) }
{
    let params = select_filter_params(input, entries, scratch)?;
    Ok(FilterLevel {
        level: params.pair.level,
        count: params.count,
    })
}
