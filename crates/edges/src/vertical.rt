// Vertical edges (RFC 6386, section 15.1): at each row, the samples across the edge are lent from mid-row to the kernel, which writes them.
// `place.at` is the first tap in the first row.
ghost use Rattle.std.specs.Prelude.{◌≡◌, ◌+◌, ◌*◌, ◌-◌, ◌≤◌, ◌<◌, length};
ghost use Rattle.kernels.specs.Answers.{kernel_outcome};
ghost use Rattle.kernels.specs.Segment.{simple_segment, mark};
ghost use Rattle.planes.specs.Edges.{vertical};
ghost use Rattle.edges.specs.EdgeFrom.{edge_from, edge_within, smoothed_from, smoothed_within};
ghost use Rattle.edges.specs.NormalKernels.{kernel_of};
ghost use Rattle.edges.specs.Private.Windows.{passed_in};

use crate::length::{EdgeLength, Samples};
use crate::normal::{NormalEdge, limits_of};
use crate::place::EdgePlace;
use arithmetic::limits::LoopFilterParams;
use kernels::answers::KernelRefusal;
use kernels::limits::EdgeLimits;
use kernels::segments::simple_segment;

// The window's test passed.
#[tactic(auto, unfolding(crate::specs::Private::Windows::passed_in))]
fn passed_in(answer: Result<bool, KernelRefusal>) -> bool
    ensures { result ≡ passed_in (kernel_outcome answer) }
{
    answer.unwrap_or(false)
}

// Counts a window whose test did not pass. The number is lent, so that it stays in memory:
// such windows are few, and the others are left without a step for it.
fn note(passed: bool, missed: &mut usize)
    requires { missed.old < 18446744073709551615 }
    ensures { missed.new + mark passed ≡ missed.old + 1 }
{
    if passed {
        return;
    }
    *missed += 1;
}

// A normal edge that fits, `rows` rows of it. The rows whose test did not pass are counted in
// `missed`. A function of its own, into which the compiler puts the kernel.
#[inline(never)]
pub(crate) fn normal_rows<E: NormalEdge>(
    plane: &mut [u8],
    place: EdgePlace,
    rows: usize,
    edge: EdgeLimits,
    missed: &mut usize,
)
    requires stride_in_bounds { place.at + (rows - 1) * place.stride + 8 ≤ length plane.old }
    requires missed_value { missed.old ≡ 0 }
    ensures plane_after { plane.new ≡ edge_from vertical (E.kernel edge.threshold edge.interior edge.limit) place.stride place.at rows plane.old }
    ensures missed_after { missed.new + smoothed_from vertical (E.kernel edge.threshold edge.interior edge.limit) place.stride place.at rows plane.old ≡ rows }
{
    // Not `chunks_mut` by the stride, of whose writes a proof knows only the length, and whose last chunk is shorter.
    for n in 0..rows {
        let a = place.at + n * place.stride;
        let e = a + 8;
        let answer = E::on_window(edge, &mut plane[a..e]);
        let passed = passed_in(answer);
        note(passed, missed);
    }
}

// An edge of the simple filter that fits, `rows` rows of it.
#[inline(never)]
fn simple_rows(plane: &mut [u8], place: EdgePlace, rows: usize, edge_limit: u8) -> usize
    requires { place.at + (rows - 1) * place.stride + 4 ≤ length plane.old }
    ensures plane_after { plane.new ≡ edge_from vertical (simple_segment edge_limit) place.stride place.at rows plane.old }
    ensures value { result ≡ smoothed_from vertical (simple_segment edge_limit) place.stride place.at rows plane.old }
{
    let mut smoothed: usize = 0;
    // By the stride again, as above.
    for n in 0..rows {
        let a = place.at + n * place.stride;
        let e = a + 4;
        let answer = simple_segment(edge_limit, &mut plane[a..e], 0);
        let passed = passed_in(answer);
        smoothed += usize::from(passed);
    }
    smoothed
}

// A normal edge of N rows: a macroblock's left border, or one between subblocks. The function across the rows asks for eight rows of room
// and gathers them, where this asks for N and lends each.
pub fn normal_edge<E: NormalEdge, const N: usize>(
    plane: &mut [u8],
    place: EdgePlace,
    limits: LoopFilterParams,
) -> usize
where
    Samples: EdgeLength<N>,
    ensures plane_after { plane.new ≡ edge_within vertical (kernel_of E.kernel E.edge_limit limits) place.stride place.at N plane.old }
    ensures value { result ≡ smoothed_within vertical (kernel_of E.kernel E.edge_limit limits) place.stride place.at N plane.old }
{
    if place.has_room(plane.len(), N - 1, 8) {
        let mut missed: usize = 0;
        normal_rows::<E>(plane, place, N, limits_of::<E>(limits), &mut missed);
        N - missed
    } else {
        0
    }
}

// Any edge of N rows of the simple filter; across the rows it asks for four rows of room.
pub fn simple_edge<const N: usize>(plane: &mut [u8], place: EdgePlace, edge_limit: u8) -> usize
where
    Samples: EdgeLength<N>,
    ensures plane_after { plane.new ≡ edge_within vertical (simple_segment edge_limit) place.stride place.at N plane.old }
    ensures value { result ≡ smoothed_within vertical (simple_segment edge_limit) place.stride place.at N plane.old }
{
    if place.has_room(plane.len(), N - 1, 4) {
        simple_rows(plane, place, N, edge_limit)
    } else {
        0
    }
}
