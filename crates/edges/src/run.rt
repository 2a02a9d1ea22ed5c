// The kernels on rows of taps, position after position, by value (RFC 6386, section 15.1). By index: a position is read at one place of all
// rows, and stored so.
ghost use Rattle.std.specs.Prelude.{◌≡◌, ◌<◌};
ghost use Rattle.kernels.specs.Segment.{simple_segment, mark};
ghost use Rattle.edges.specs.Private.Runs.{SignedRows, SignedSix, eight_at, four_at, store_inner, run_of_eight, run_of_four, simple_passes, normal_passes, marks_of};

use crate::length::{EdgeLength, Samples};
use crate::normal::NormalEdge;
use crate::position::{
    EightTaps, FourTaps, InnerTaps, normal_passes, simple_passes, simple_position,
};
use kernels::limits::EdgeLimits;

// Position n of eight rows; n < N is what the index asks for.
fn eight_at<const N: usize>(rows: &[[i16; N]; 8], n: usize) -> EightTaps
    requires signed_rows { SignedRows 8 N rows.now }
    requires n_bound { n < N }
    ensures { result ≡ eight_at rows.now n }
{
    EightTaps {
        p3: rows[0][n],
        p2: rows[1][n],
        near: FourTaps {
            p1: rows[2][n],
            p0: rows[3][n],
            q0: rows[4][n],
            q1: rows[5][n],
        },
        q2: rows[6][n],
        q3: rows[7][n],
    }
}

// The inner taps at position n become s.
fn set_inner<const N: usize>(rows: &mut [[i16; N]; 8], n: usize, s: InnerTaps)
    requires n_bound { n < N }
    requires signed { SignedSix s }
    ensures { rows.new ≡ store_inner n s rows.old }
{
    rows[1][n] = s.p2;
    rows[2][n] = s.p1;
    rows[3][n] = s.p0;
    rows[4][n] = s.q0;
    rows[5][n] = s.q1;
    rows[6][n] = s.q2;
}

// What a position counts for: 1 where its test passed.
#[tactic(auto, unfolding(kernels::specs::Segment::mark))]
fn counted(passed: bool) -> u16
    ensures { result ≡ mark passed }
{
    u16::from(passed)
}

// A normal kernel at every position, and how many pass. The compiler sees that the kernel at a position makes the same test.
pub(crate) fn normal_run<E: NormalEdge, const N: usize>(
    taps: [[i16; N]; 8],
    edge: EdgeLimits,
) -> ([[i16; N]; 8], u16)
where
    Samples: EdgeLength<N>,
    requires { SignedRows 8 N taps }
    ensures value { result.0 ≡ run_of_eight (E.kernel edge.threshold edge.interior edge.limit) N taps.entry }
    ensures passed { result.1 ≡ marks_of (λ j. normal_passes edge.interior edge.limit (eight_at taps.entry j)) N }
{
    let mut rows = taps;
    let mut marks: u16 = 0;
    for n in 0..N {
        let position = eight_at(&taps, n);
        let s = E::on_taps(edge, position);
        set_inner(&mut rows, n, s);
        marks += counted(normal_passes(edge, position));
    }
    (rows, marks)
}

// Position n of four rows.
fn four_at<const N: usize>(rows: &[[i16; N]; 4], n: usize) -> FourTaps
    requires signed_rows { SignedRows 4 N rows.now }
    requires n_bound { n < N }
    ensures { result ≡ four_at rows.now n }
{
    FourTaps {
        p1: rows[0][n],
        p0: rows[1][n],
        q0: rows[2][n],
        q1: rows[3][n],
    }
}

// simple_segment at every position, and how many pass.
pub(crate) fn simple_run<const N: usize>(
    taps: [[i16; N]; 4],
    edge_limit: u8,
) -> ([[i16; N]; 4], u16)
where
    Samples: EdgeLength<N>,
    requires { SignedRows 4 N taps }
    ensures value { result.0 ≡ run_of_four (simple_segment edge_limit) N taps.entry }
    ensures passed { result.1 ≡ marks_of (λ j. simple_passes edge_limit (four_at taps.entry j)) N }
{
    let mut rows = taps;
    let mut marks: u16 = 0;
    for n in 0..N {
        let position = four_at(&taps, n);
        let s = simple_position(edge_limit, position);
        rows[1][n] = s.p0;
        rows[2][n] = s.q0;
        marks += counted(simple_passes(edge_limit, position));
    }
    (rows, marks)
}
