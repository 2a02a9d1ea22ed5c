// Whether a grid of macroblocks fits the planes that a caller lends: refusals 1, 2 and 3.
// Nothing is multiplied before 1 and 2 have bounded it.
ghost use Rattle.std.specs.Prelude.{◌≡◌, ◌+◌, ◌-◌, ◌*◌, ◌≤◌, ◌<◌, ltb};
ghost use Rattle.planes.specs.GridRefusals.{zero_grid, too_large, bad_strides, short_by, grid_answer, grid_refusal, grid_refusal_number};
ghost use Rattle.arithmetic.specs.Outcome.{outcome, number_of};
ghost use Rattle.planes.specs.Layout.{grid_of};
ghost use Rattle.planes.specs.Private.GridBounds.{Small, Bounded};

use crate::layout::{PlaneLayout, PlaneLengths};

// Refusal 1, 2 or 3.
#[derive(Clone, Copy, Debug, PartialEq, Eq)]
pub enum GridRefusal {
    TooLarge,
    BadStrides,
    ShortPlane,
}

// One plane's part of 3: no sample stands at the index of the grid's last one. By the length alone: no sample is read. The bounds are of a
// layout that 1 and 2 let pass; one as callers make it has none. A public function, for sums too, would check sums that can't wrap here.
fn short_plane(len: usize, rows: usize, stride: usize, width: usize) -> bool
    requires { (0 < rows) × (rows ≤ 16384) × (stride ≤ 65536) × (0 < width) × (width ≤ 16384) }
    ensures { result ≡ ltb len ((rows - 1) * stride + width) }
{
    let last = (rows - 1) * stride + (width - 1);
    len <= last
}

impl PlaneLayout {
    // Zero columns or rows.
    #[tactic(auto, unfolding(crate::specs::GridRefusals::zero_grid))]
    pub fn is_zero(self) -> bool
        ensures { result ≡ zero_grid (grid_of self) }
    {
        (self.mb_cols == 0) | (self.mb_rows == 0)
    }

    // 1
    #[tactic(auto, unfolding(crate::specs::GridRefusals::too_large))]
    pub fn is_too_large(self) -> bool
        ensures { result ≡ too_large (grid_of self) }
    {
        (1024 < self.mb_cols) | (1024 < self.mb_rows)
    }

    // 2
    #[tactic(auto, unfolding(crate::specs::GridRefusals::bad_strides))]
    fn has_bad_strides(self) -> bool
        requires { Small self }
        ensures { result ≡ bad_strides (grid_of self) }
    {
        (self.y_stride < 16 * self.mb_cols)
            | (self.uv_stride < 8 * self.mb_cols)
            | (65536 < self.y_stride)
            | (65536 < self.uv_stride)
    }

    // 3
    #[tactic(auto, unfolding(crate::specs::GridRefusals::short_by, crate::specs::GridRefusals::needed))]
    fn is_short(self, lengths: PlaneLengths) -> bool
        requires { Bounded self }
        ensures { result ≡ short_by (grid_of self) lengths.y lengths.u lengths.v }
    {
        let cols = self.mb_cols;
        let rows = self.mb_rows;
        let y = short_plane(lengths.y, 16 * rows, self.y_stride, 16 * cols);
        let u = short_plane(lengths.u, 8 * rows, self.uv_stride, 8 * cols);
        let v = short_plane(lengths.v, 8 * rows, self.uv_stride, 8 * cols);
        y | u | v
    }

    // 1, 2 or 3 by the planes' lengths; all three are passed over if columns or rows are zero.
    #[tactic(auto, unfolding(crate::specs::GridRefusals::grid_answer, crate::specs::GridRefusals::grid_refusal, arithmetic::specs::Outcome::number_of), using(crate::proofs::GridLaws::small, crate::proofs::GridLaws::bounded))]
    pub fn judge(self, lengths: PlaneLengths) -> Result<(), GridRefusal>
        ensures answer { result ≡ grid_answer (grid_of self) lengths.y lengths.u lengths.v }
        ensures number { number_of (outcome grid_refusal_number result) ≡ grid_refusal (grid_of self) lengths.y lengths.u lengths.v }
    {
        if self.is_zero() {
            return Ok(());
        }
        if self.is_too_large() {
            return Err(GridRefusal::TooLarge);
        }
        if self.has_bad_strides() {
            return Err(GridRefusal::BadStrides);
        }
        if self.is_short(lengths) {
            return Err(GridRefusal::ShortPlane);
        }
        Ok(())
    }
}
