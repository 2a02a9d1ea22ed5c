// What a call of a pass is to do, from the planes' lengths and the entries; no sample is read: refusals
// 1, 2, 3, 5, 6 and 7 in this order, then the macroblocks that start and allowance name.
ghost use Rattle.std.specs.Prelude.{◌≡◌};
ghost use Rattle.planes.specs.Layout.{grid_of};
ghost use Rattle.planes.specs.Planes.{macroblocks};
ghost use Rattle.judge.specs.Batches.{seen, batch_of};

use crate::entries::Entries;
use calls::answers::{Done, PassRefusal};
use planes::layout::{PlaneLayout, PlaneLengths};

// The macroblocks to do: `from` up to `to`, none where these are equal. `done` is the answer when they are done, before what they smooth
// is counted; a walk takes the range beside it.
#[derive(Clone, Copy, Debug, Default, PartialEq, Eq)]
pub struct Batch {
    pub done: Done,
    pub from: usize,
    pub to: usize,
}

// Zero columns or rows is answered first, nothing done, next start 0.
#[tactic(auto, unfolding(crate::specs::Batches::batch_of, planes::specs::GridRefusals::grid_answer), using(planes::proofs::GridLaws::small, planes::proofs::GridLaws::grid_fits))]
pub fn judge_call<E: Entries>(
    lengths: PlaneLengths,
    layout: PlaneLayout,
    entries: E,
    start: usize,
    allowance: usize,
) -> Result<Batch, PassRefusal>
    ensures { result ≡ batch_of (seen (grid_of layout) lengths.y lengths.u lengths.v
        (E.pass.wrong_length (E.carried entries) (macroblocks (grid_of layout))) (E.pass.bad_entry (E.carried entries)) start allowance) }
{
    if layout.is_zero() {
        return Ok(Batch::default());
    }
    layout.judge(lengths)?;
    let n = layout.mb_cols * layout.mb_rows;
    let other = entries.wrong_length(n);
    if other {
        return Err(PassRefusal::WrongLength);
    }
    if entries.bad_entry() {
        return Err(PassRefusal::BadEntry);
    }
    let rest = n.checked_sub(start).ok_or(PassRefusal::StartBeyond)?;
    let count = allowance.min(rest);
    let next = start + count;
    let done = Done {
        count,
        next,
        smoothed: 0,
    };
    Ok(Batch {
        done,
        from: start,
        to: next,
    })
}
