// The sum that a search starts from, or why it is refused.
ghost use Rattle.std.specs.Prelude.{◌≡◌, ◌≤◌};
ghost use Rattle.arithmetic.specs.Outcome.{outcome, number_of};
ghost use Rattle.planes.specs.Layout.{grid_of, planes_of};
ghost use Rattle.planes.specs.Pictures.{planes_in};
ghost use Rattle.planes.specs.Planes.{macroblocks};
ghost use Rattle.sums.specs.Answers.{sum_outcome, search_refusal_number};
ghost use Rattle.sums.specs.Bytes.{BytePlanes};
ghost use Rattle.sums.specs.SourceRecord.{source_in};
ghost use Rattle.search.specs.Search.{search_of, past_entries, unfiltered_answer};

use crate::input::SearchInput;
use judge::entries::Entries;
use planes::layout::PlaneLayout;
use planes::picture::Picture;
use sums::answers::SearchRefusal;
use sums::sums::{judge_sum, reconstruction_ssd};

// 6, if there is a grid and no list has a wrong length.
#[tactic(auto, unfolding(crate::specs::Search::past_entries, arithmetic::specs::Outcome::number_of))]
fn judge_entries<E: Entries>(layout: PlaneLayout, entries: E) -> Result<(), SearchRefusal>
    requires { macroblocks (grid_of layout) ≤ 1048576 }
    ensures { number_of (outcome search_refusal_number result) ≡ past_entries E.pass (grid_of layout) (E.carried entries) 0 }
{
    let n = layout.mb_cols * layout.mb_rows;
    if layout.is_zero() | entries.wrong_length(n) {
        return Ok(());
    }
    if entries.bad_entry() {
        return Err(SearchRefusal::BadEntry);
    }
    Ok(())
}

// What their type says of lent planes: their samples are bytes. Nothing is done.
fn are_bytes(y: &[u8], u: &[u8], v: &[u8])
    ensures { BytePlanes (planes_of y.now u.now v.now) }
{}

// The unfiltered sum, or the refusal of the search.
pub fn unfiltered_sum<E: Entries>(
    input: SearchInput<'_>,
    entries: E,
    scratch: Picture<'_>,
) -> Result<u64, SearchRefusal>
    ensures answer { sum_outcome result ≡ unfiltered_answer E.pass (search_of E.pass (E.carried entries) input.entry (planes_in scratch.entry)) }
    ensures bytes { BytePlanes (planes_in input.entry.picture) × BytePlanes (source_in input.entry.source).samples }
{
    are_bytes(input.picture.y, input.picture.u, input.picture.v);
    are_bytes(input.source.y, input.source.u, input.source.v);
    let lengths = input.picture.lengths();
    input.layout.judge(lengths)?;
    judge_sum(scratch, input.layout, input.source)?;
    judge_entries(input.layout, entries)?;
    reconstruction_ssd(input.picture, input.layout, input.source)
}
