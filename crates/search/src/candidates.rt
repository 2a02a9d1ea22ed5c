// The candidates of a search: made in the scratch planes by a copy and a pass, that the searches share.
ghost use Rattle.std.specs.Prelude.{◌≡◌};
ghost use Rattle.planes.specs.Layout.{grid_of};
ghost use Rattle.planes.specs.Pictures.{planes_in, planes_lent, SameLoans};
ghost use Rattle.scratch.specs.Copies.{copied_grid};
ghost use Rattle.search.specs.Search.{candidate_of, settings_at, candidate_planes, base_sharpness};

use crate::input::SearchInput;
use frame::pass::filter_frame;
use judge::entries::Entries;
use levels::config::FrameFilterConfig;
use planes::picture::PictureMut;
use scratch::copies::try_copy_grid;

// What a search tries, and what it chooses.
#[derive(Clone, Copy, Debug, Default, PartialEq, Eq)]
pub struct Pair {
    pub level: u8,
    pub sharpness: u8,
}

const HIGHEST_SHARPNESS: u8 = 7;

// The lesser of the settings' own and 7.
#[tactic(auto, unfolding(crate::specs::Search::base_sharpness))]
pub fn base_sharpness(config: FrameFilterConfig) -> u8
    ensures { result ≡ base_sharpness config }
{
    config.sharpness_level.min(HIGHEST_SHARPNESS)
}

// The settings with a candidate's level and sharpness.
#[tactic(auto, unfolding(crate::specs::Search::settings_at))]
fn settings_at(config: FrameFilterConfig, pair: Pair) -> FrameFilterConfig
    ensures { result ≡ settings_at config (candidate_of pair) }
{
    FrameFilterConfig {
        loop_filter_level: pair.level,
        sharpness_level: pair.sharpness,
        ..config
    }
}

// The candidate's planes in the grid of the scratch planes: the unfiltered copy, and but for level 0 one whole pass. Where 1, 2 or 3 holds
// of planes or scratch planes, these are left alone.
// Entries go apart (see SearchInput), and so do the scratch planes, which are written.
pub fn make_candidate<E: Entries>(
    input: SearchInput<'_>,
    entries: E,
    scratch: &mut PictureMut<'_>,
    pair: Pair,
)
    ensures loans { SameLoans scratch.old scratch.new }
    ensures made { planes_lent scratch.new
        ≡ copied_grid (grid_of input.entry.layout)
        (candidate_planes E.pass (grid_of input.entry.layout) input.entry.config (E.carried entries)
        (planes_in input.entry.picture) (candidate_of pair))
        (planes_lent scratch.old) }
{
    let Ok(()) = try_copy_grid(input.picture, scratch, input.layout) else {
        return;
    };
    if pair.level == 0 {
        return;
    }
    let config = settings_at(input.config, pair);
    // A pass that is refused leaves the copy.
    let _ = filter_frame(scratch, input.layout, entries, config, 0, usize::MAX);
}
