// The leading rows of samples that are final while a pass has still macroblocks to do.
ghost use Rattle.std.specs.Prelude.{◌≡◌};
ghost use Rattle.planes.specs.Layout.{grid_of};
ghost use Rattle.calls.specs.FinalRows.{final_rows, final_rows_outcome};

use crate::answers::PassRefusal;
use planes::layout::PlaneLayout;

// Leading rows that are final, in luma and in each chroma plane.
#[derive(Clone, Copy, Debug, Default, PartialEq, Eq)]
pub struct FinalRows {
    pub luma: usize,
    pub chroma: usize,
}

// A macroblock can reach this many rows above its own.
const REACH: usize = 3;

// `start` is the start to go on from. The strides are not read. Refused with 1, or 7.
#[tactic(auto, unfolding(crate::specs::FinalRows::final_rows, crate::specs::FinalRows::rows_final, crate::specs::Answers::pass_refusal_number), using(planes::proofs::GridLaws::small, planes::proofs::GridLaws::grid_fits))]
pub fn final_rows(layout: PlaneLayout, start: usize) -> Result<FinalRows, PassRefusal>
    ensures { final_rows_outcome result ≡ final_rows (grid_of layout) start }
{
    let rows = layout.mb_rows;
    if layout.is_zero() {
        return Ok(FinalRows::default());
    }
    if layout.is_too_large() {
        return Err(PassRefusal::TooLarge);
    }
    let n = layout.mb_cols * rows;
    if start > n {
        return Err(PassRefusal::StartBeyond);
    }
    if start == n {
        return Ok(FinalRows {
            luma: 16 * rows,
            chroma: 8 * rows,
        });
    }
    let row = start / layout.mb_cols;
    Ok(FinalRows {
        luma: (16 * row).saturating_sub(REACH),
        chroma: (8 * row).saturating_sub(REACH),
    })
}
