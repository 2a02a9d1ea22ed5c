// The error sum of a reconstruction against its source (document 01, Search; the Rust's reconstruction_ssd).
ghost use Rattle.std.specs.Prelude.{◌≡◌, ◌+◌, ◌*◌, ◌-◌, ◌≤◌, length};
ghost use Rattle.planes.specs.Layout.{grid_of};
ghost use Rattle.planes.specs.Pictures.{planes_in};
ghost use Rattle.sums.specs.SourceRecord.{source_in};
ghost use Rattle.planes.specs.GridRefusals.{past_grid};
ghost use Rattle.arithmetic.specs.Outcome.{outcome, number_of};
ghost use Rattle.sums.specs.Sums.{squared, row_sum, rows_sum, error_sum, past_source, sum_answer};
ghost use Rattle.sums.specs.Answers.{sum_outcome, search_refusal_number};
ghost use Rattle.sums.specs.Private.SumCode.{fitting, Summable};

use crate::answers::SearchRefusal;
use crate::source::SourcePlanes;
use planes::layout::PlaneLayout;
use planes::picture::Picture;

// The square of the difference of two samples.
#[tactic(auto, using(crate::proofs::SumLaws::squared_apart))]
fn squared_difference(a: u8, b: u8) -> u32
    ensures value { result ≡ squared a b }
    ensures bound { result ≤ 65025 }
{
    let d = u32::from(a.abs_diff(b));
    d * d
}

// The sum over a row. 65,536 squares of a byte fit 32 bits, of which a vector register holds twice as many as of 64.
fn row_sum(a: &[u8], b: &[u8]) -> u64
    requires lengths { length a.now ≡ length b.now }
    requires length_bound { length a.now ≤ 65536 }
    ensures { result ≡ row_sum a.now 0 b.now 0 (length a.now) }
{
    let mut sum: u32 = 0;
    for (x, y) in a.iter().zip(b) {
        sum += squared_difference(*x, *y);
    }
    u64::from(sum)
}

// A plane: its rows lie one stride apart.
#[derive(Clone, Copy)]
struct Rows<'a> {
    samples: &'a [u8],
    stride: usize,
}

// The sum over h rows of w samples, added to a start; 10 where that is 2 ^ 64 or more.
fn plane_sum(a: Rows<'_>, b: Rows<'_>, w: usize, h: usize, start: u64) -> Result<u64, SearchRefusal>
    requires w_in_bounds { (h - 1) * a.stride + w ≤ length a.samples.now }
    requires w_in_bounds_2 { (h - 1) * b.stride + w ≤ length b.samples.now }
    requires w_bound { w ≤ 65536 }
    ensures { result ≡ fitting (start + rows_sum a.entry.samples.now a.entry.stride b.entry.samples.now b.entry.stride w h) }
{
    let mut sum = start;
    // Each plane has its stride: `chunks` by them would have a shorter last one, and a length to prove of each.
    for n in 0..h {
        let i = n * a.stride;
        let j = n * b.stride;
        let row = row_sum(&a.samples[i..i + w], &b.samples[j..j + w]);
        sum = sum.checked_add(row).ok_or(SearchRefusal::SumTooLarge)?;
    }
    Ok(sum)
}

// The sums of the three planes, one added to the other. What a sum takes is document 01's: planes, layout, source.
fn three_sums(
    picture: Picture<'_>,
    layout: PlaneLayout,
    source: SourcePlanes<'_>,
) -> Result<u64, SearchRefusal>
    requires { Summable (grid_of layout) (planes_in picture) (source_in source) }
    ensures { result ≡ fitting (error_sum (grid_of layout) (planes_in picture.entry) (source_in source.entry)) }
{
    let width = source.width.div_ceil(2);
    let height = source.height.div_ceil(2);
    let y = plane_sum(
        Rows {
            samples: picture.y,
            stride: layout.y_stride,
        },
        Rows {
            samples: source.y,
            stride: source.y_stride,
        },
        source.width,
        source.height,
        0,
    )?;
    let u = plane_sum(
        Rows {
            samples: picture.u,
            stride: layout.uv_stride,
        },
        Rows {
            samples: source.u,
            stride: source.uv_stride,
        },
        width,
        height,
        y,
    )?;
    plane_sum(
        Rows {
            samples: picture.v,
            stride: layout.uv_stride,
        },
        Rows {
            samples: source.v,
            stride: source.uv_stride,
        },
        width,
        height,
        u,
    )
}

// 1, 2, 3, 8 or 9: what a sum is refused for before it is counted.
pub fn judge_sum(
    picture: Picture<'_>,
    layout: PlaneLayout,
    source: SourcePlanes<'_>,
) -> Result<(), SearchRefusal>
    ensures { number_of (outcome search_refusal_number result)
        ≡ past_grid (grid_of layout) (planes_in picture.entry) (past_source (grid_of layout) (source_in source.entry) 0) }
{
    let lengths = picture.lengths();
    layout.judge(lengths)?;
    source.judge(layout)
}

// The sum of the squared differences over what the source has of the three planes, or refusal 1, 2, 3, 8, 9 or 10.
pub fn reconstruction_ssd(
    picture: Picture<'_>,
    layout: PlaneLayout,
    source: SourcePlanes<'_>,
) -> Result<u64, SearchRefusal>
    ensures { sum_outcome result ≡ sum_answer (grid_of layout) (planes_in picture.entry) (source_in source.entry) }
{
    judge_sum(picture, layout, source)?;
    if source.is_empty() {
        return Ok(0);
    }
    three_sums(picture, layout, source)
}
