// Horizontal edges (RFC 6386, section 15.1): the rows of taps across the edge are gathered, run by value, and scattered.
// `place.at` is the first sample of the first row. The simple filter has functions of its own, here and in `run` and `vertical`: it has
// four taps and one limit where a normal kernel has eight, three and a kind.
ghost use Rattle.std.specs.Prelude.{◌≡◌, ℕ, ◌-◌, ◌≤◌, ◌<◌, [], get_or, length};
ghost use Rattle.kernels.specs.Segment.{simple_segment};
ghost use Rattle.planes.specs.Edges.{horizontal};
ghost use Rattle.edges.specs.EdgeFrom.{edge_from, edge_within, smoothed_from, smoothed_within};
ghost use Rattle.edges.specs.NormalKernels.{kernel_of};
ghost use Rattle.edges.specs.Private.Runs.{RowsIn, rows_at, store_rows, SignedRow};

use crate::length::{EdgeLength, Samples};
use crate::normal::{NormalEdge, limits_of};
use crate::place::EdgePlace;
use crate::run::{normal_run, simple_run};
use crate::taps::{gather, scatter};
use arithmetic::limits::LoopFilterParams;
use kernels::limits::EdgeLimits;

// M rows of N samples.
#[inline(always)]
fn gather_rows<const M: usize, const N: usize>(plane: &[u8], place: EdgePlace) -> [[i16; N]; M]
    requires { RowsIn M N place.stride place.at (length plane.now) }
    ensures { result ≡ rows_at M N place.stride place.at plane.now }
{
    let mut rows = [[0i16; N]; M];
    // Not `array::from_fn`, which the compiler keeps out of the loops: the rows go
    // through memory then, the normal filter takes 7 % more, and a pass the 3 % that a change may cost it at most.
    for k in 0..M {
        rows[k] = gather(plane, place.at + k * place.stride);
    }
    rows
}

// The rows from `first` to the one before `end`, stored.
fn scatter_rows<const M: usize, const N: usize>(
    plane: &mut [u8],
    place: EdgePlace,
    rows: [[i16; N]; M],
    first: usize,
    end: usize,
)
    requires rows_in { RowsIn M N place.stride place.at (length plane.old) }
    requires first_bound { first ≤ end }
    requires end_bound { end ≤ M }
    requires signed_rows { (k : ℕ) → first ≤ k → k < end → SignedRow N (get_or rows k []) }
    ensures { plane.new ≡ store_rows N place.stride place.at first (end - first) rows.entry plane.old }
{
    // By index: k places the row, and the plane is written.
    for k in first..end {
        scatter(plane, place.at + k * place.stride, rows[k]);
    }
}

// A normal edge that fits. A function of its own, into which the compiler puts the gathering of the rows, their run and their stores, so
// that vectors stay in registers.
#[inline(never)]
fn normal_rows<E: NormalEdge, const N: usize>(
    plane: &mut [u8],
    place: EdgePlace,
    edge: EdgeLimits,
) -> usize
where
    Samples: EdgeLength<N>,
    requires { RowsIn 8 N place.stride place.at (length plane.old) }
    ensures plane_after { plane.new ≡ edge_from horizontal (E.kernel edge.threshold edge.interior edge.limit) place.stride place.at N plane.old }
    ensures value { result ≡ smoothed_from horizontal (E.kernel edge.threshold edge.interior edge.limit) place.stride place.at N plane.old }
{
    let taps = gather_rows::<8, N>(plane, place);
    let (rows, passed) = normal_run::<E, N>(taps, edge);
    scatter_rows(plane, place, rows, 4 - E::CHANGED, 4 + E::CHANGED);
    usize::from(passed)
}

// An edge of the simple filter that fits. Plane, place and limit go apart: see EdgePlace.
#[inline(never)]
fn simple_rows<const N: usize>(plane: &mut [u8], place: EdgePlace, edge_limit: u8) -> usize
where
    Samples: EdgeLength<N>,
    requires { RowsIn 4 N place.stride place.at (length plane.old) }
    ensures plane_after { plane.new ≡ edge_from horizontal (simple_segment edge_limit) place.stride place.at N plane.old }
    ensures value { result ≡ smoothed_from horizontal (simple_segment edge_limit) place.stride place.at N plane.old }
{
    let taps = gather_rows::<4, N>(plane, place);
    let (rows, passed) = simple_run(taps, edge_limit);
    scatter_rows(plane, place, rows, 1, 3);
    usize::from(passed)
}

// A normal edge of N samples: a macroblock's upper border, or one between subblocks.
pub fn normal_edge<E: NormalEdge, const N: usize>(
    plane: &mut [u8],
    place: EdgePlace,
    limits: LoopFilterParams,
) -> usize
where
    Samples: EdgeLength<N>,
    ensures plane_after { plane.new ≡ edge_within horizontal (kernel_of E.kernel E.edge_limit limits) place.stride place.at N plane.old }
    ensures value { result ≡ smoothed_within horizontal (kernel_of E.kernel E.edge_limit limits) place.stride place.at N plane.old }
{
    if place.has_rows(plane.len(), 7, N) {
        normal_rows::<E, N>(plane, place, limits_of::<E>(limits))
    } else {
        0
    }
}

// Any edge of N samples of the simple filter.
pub fn simple_edge<const N: usize>(plane: &mut [u8], place: EdgePlace, edge_limit: u8) -> usize
where
    Samples: EdgeLength<N>,
    ensures plane_after { plane.new ≡ edge_within horizontal (simple_segment edge_limit) place.stride place.at N plane.old }
    ensures value { result ≡ smoothed_within horizontal (simple_segment edge_limit) place.stride place.at N plane.old }
{
    if place.has_rows(plane.len(), 3, N) {
        simple_rows::<N>(plane, place, edge_limit)
    } else {
        0
    }
}
