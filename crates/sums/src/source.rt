// The source picture as one record (document 01, Borrowed source; the Rust's SourcePlanes), and the refusals that it can cause: 8 and 9.
ghost use Rattle.std.specs.Prelude.{◌≡◌, ◌+◌, ◌-◌, ◌*◌, ◌≤◌, ◌<◌, ltb, eqb, length, ◌||◌};
ghost use Rattle.arithmetic.specs.Outcome.{outcome, number_of};
ghost use Rattle.planes.specs.Layout.{grid_of};
ghost use Rattle.sums.specs.Answers.{search_refusal_number};
ghost use Rattle.sums.specs.Source.{source_too_large, bad_source_strides, short_source};
ghost use Rattle.sums.specs.SourceRecord.{source_in};
ghost use Rattle.sums.specs.Sums.{past_source};
ghost use Rattle.sums.specs.Private.SumCode.{short_of, Small};

use crate::answers::SearchRefusal;
use planes::layout::PlaneLayout;

// Width and height count luma samples.
#[derive(Clone, Copy)]
pub struct SourcePlanes<'a> {
    pub width: usize,
    pub height: usize,
    pub y: &'a [u8],
    pub u: &'a [u8],
    pub v: &'a [u8],
    pub y_stride: usize,
    pub uv_stride: usize,
}

// n samples are more than `mbs` macroblocks have. 16 * mbs may exceed 64 bits, in a zero grid.
fn over(n: usize, mbs: usize) -> bool
    ensures { result ≡ ltb (16 * mbs) n }
{
    mbs < n.div_ceil(16)
}

// 9, of one source plane: it is short by the rule of 3. The bounds are of a source that 8 and its strides let pass.
// As `short_plane` of planes, which is private: a public function would check sums that can't wrap here.
#[tactic(auto, unfolding(crate::specs::Private::SumCode::short_of))]
fn short(plane: &[u8], rows: usize, stride: usize, width: usize) -> bool
    requires { (0 < rows) × (rows ≤ 16384) × (stride ≤ 65536) × (width ≤ 16384) }
    ensures { result ≡ short_of (length plane.now) rows stride width }
{
    plane.len() < (rows - 1) * stride + width
}

impl SourcePlanes<'_> {
    // 8
    #[tactic(auto, unfolding(crate::specs::Source::source_too_large))]
    fn is_too_large(self, layout: PlaneLayout) -> bool
        ensures { result ≡ source_too_large (grid_of layout) (source_in self.entry) }
    {
        over(self.width, layout.mb_cols) | over(self.height, layout.mb_rows)
    }

    // 9: a source stride is below its row or above 65,536.
    #[tactic(auto, unfolding(crate::specs::Source::bad_source_strides))]
    fn has_bad_strides(self) -> bool
        ensures { result ≡ bad_source_strides (source_in self.entry) }
    {
        (self.y_stride < self.width)
            | (self.uv_stride < self.width.div_ceil(2))
            | (65536 < self.y_stride)
            | (65536 < self.uv_stride)
    }

    // 9: a source plane is short.
    #[tactic(auto, unfolding(crate::specs::Source::short_source, crate::specs::Source::source_needed, crate::specs::Private::SumCode::short_of))]
    fn is_short(self) -> bool
        requires size { (0 < self.width) × (0 < self.height) × (self.width ≤ 16384) × (self.height ≤ 16384) }
        requires strides { (self.y_stride ≤ 65536) × (self.uv_stride ≤ 65536) }
        ensures { result ≡ short_source (source_in self.entry) }
    {
        let width = self.width.div_ceil(2);
        let height = self.height.div_ceil(2);
        let y = short(self.y, self.height, self.y_stride, self.width);
        let u = short(self.u, height, self.uv_stride, width);
        let v = short(self.v, height, self.uv_stride, width);
        y | u | v
    }

    // 9, of a source that has a sample.
    fn is_bad(self) -> bool
        requires { (0 < self.width) × (0 < self.height) × (self.width ≤ 16384) × (self.height ≤ 16384) }
        ensures { result ≡ (bad_source_strides (source_in self.entry) || short_source (source_in self.entry)) }
    {
        self.has_bad_strides() || self.is_short()
    }

    // A source without a sample.
    pub fn is_empty(self) -> bool
        ensures { result ≡ (eqb self.entry.width 0 || eqb self.entry.height 0) }
    {
        (self.width == 0) | (self.height == 0)
    }

    // 8 or 9 against a grid that passes 1. The halves are computed only of a source that has a sample.
    pub(crate) fn judge(self, layout: PlaneLayout) -> Result<(), SearchRefusal>
        requires { Small layout }
        ensures { number_of (outcome search_refusal_number result) ≡ past_source (grid_of layout) (source_in self.entry) 0 }
    {
        if self.is_too_large(layout) {
            return Err(SearchRefusal::SourceTooLarge);
        }
        if self.is_empty() {
            return Ok(());
        }
        if self.is_bad() {
            return Err(SearchRefusal::BadSource);
        }
        Ok(())
    }
}
