// RFC 6386, sections 15.2 and 15.3: the kernels on the taps of one position, by value. Apart from those of the kernels' own crate, which
// branch and work on 64 bits: on 16 bits a single window takes longer. Taps lie in -128..127, and no step branches on them.
ghost use Rattle.std.specs.Prelude.{◌≡◌, ◌<◌, ◌≤◌, pos, ◌+ℤ◌, ◌-ℤ◌};
ghost use Rattle.std.specs.Int.Signed.{mag};
ghost use Rattle.arithmetic.specs.Numbers as num;
ghost use Rattle.kernels.specs.Kernels as kern;
ghost use Rattle.kernels.specs.Kernels.{apart, gain_of, loss_of};
ghost use Rattle.kernels.specs.Segment.{simple_segment};
ghost use Rattle.edges.specs.Taps.{SignedEight, SignedFour};
ghost use Rattle.edges.specs.Private.Runs as spec;
ghost use Rattle.edges.specs.Private.Runs.{edge_taps, simple_passes, normal_passes, high_of, value_of};

use arithmetic::signed::{at_most_123, clamp, filter_value, pick};
use kernels::limits::EdgeLimits;

// A segment p1 p0 | q0 q1, as signed numbers: the samples as stored are the kernels' own, here and of eight taps.
#[derive(Clone, Copy)]
pub struct FourTaps {
    pub p1: i16,
    pub p0: i16,
    pub q0: i16,
    pub q1: i16,
}

// A segment p3 .. p0 | q0 .. q3, of which p1 p0 | q0 q1 is `near`.
#[derive(Clone, Copy)]
pub struct EightTaps {
    pub p3: i16,
    pub p2: i16,
    pub near: FourTaps,
    pub q2: i16,
    pub q3: i16,
}

// The six inner taps of a segment of eight: no kernel gives p3 and q3.
#[derive(Clone, Copy)]
pub struct InnerTaps {
    pub p2: i16,
    pub p1: i16,
    pub p0: i16,
    pub q0: i16,
    pub q1: i16,
    pub q2: i16,
}

// The two inner taps of a segment of four.
#[derive(Clone, Copy)]
pub struct EdgeTaps {
    pub p0: i16,
    pub q0: i16,
}

// |a - b|. It is signed, as comparisons of vectors of 16 bits are. The bounds are clauses, here and below: as a ghost field
// of the taps' types, each definition that speaks of a position would bring a proof of them.
fn distance(a: i16, b: i16) -> i16
    requires a_bound { mag a < 128 }
    requires b_bound { mag b < 128 }
    ensures { result ≡ pos (apart a b) }
{
    (a - b).abs()
}

// 2 * |p0 - q0| + |p1 - q1| / 2 <= edge, with both sides doubled and the remainder let pass.
pub(crate) fn simple_passes(edge: u8, taps: FourTaps) -> bool
    requires { SignedFour taps }
    ensures { result ≡ simple_passes edge taps }
{
    4 * distance(taps.p0, taps.q0) + distance(taps.p1, taps.q1) <= 2 * i16::from(edge) + 1
}

// The larger of the two differences that tell high variance.
fn variance(taps: FourTaps) -> i16
    requires { SignedFour taps }
    ensures { result ≡ pos (spec.variance taps) }
{
    distance(taps.p1, taps.p0).max(distance(taps.q1, taps.q0))
}

// The largest of the four neighbour differences away from the edge.
fn roughness(taps: EightTaps) -> i16
    requires { SignedEight taps }
    ensures { result ≡ pos (spec.roughness taps) }
{
    let left = distance(taps.p3, taps.p2).max(distance(taps.p2, taps.near.p1));
    let right = distance(taps.q3, taps.q2).max(distance(taps.q2, taps.near.q1));
    left.max(right)
}

// filter_yes: one maximum stands for six comparisons.
pub(crate) fn normal_passes(edge: EdgeLimits, taps: EightTaps) -> bool
    requires { SignedEight taps }
    ensures { result ≡ normal_passes edge.interior edge.limit taps }
{
    let most = roughness(taps).max(variance(taps.near));
    simple_passes(edge.limit, taps.near) & (most <= i16::from(edge.interior))
}

// hev.
pub(crate) fn high_variance(threshold: u8, taps: FourTaps) -> bool
    requires { SignedFour taps }
    ensures { result ≡ high_of threshold taps }
{
    variance(taps) > i16::from(threshold)
}

// a of common_adjust, before it is divided.
pub(crate) fn tap_value(outer: bool, taps: FourTaps) -> i16
    requires { SignedFour taps }
    ensures { result ≡ value_of outer taps }
{
    filter_value(outer, taps.p1 - taps.q1, taps.q0 - taps.p0)
}

// What p0 gains and q0 loses are two rules of the RFC (section 15.2), with 3 and with 4, and two definitions.

fn gain(a: i16) -> i16
    requires { mag a < 128 }
    ensures { result ≡ gain_of a }
{
    (at_most_123(a) + 3) >> 3
}

fn loss(a: i16) -> i16
    requires { mag a < 128 }
    ensures { result ≡ loss_of a }
{
    (at_most_123(a) + 4) >> 3
}

// (k * w + 63) >> 7, which needs no clamp.
fn part(k: u8, w: i16) -> i16
    requires k_bound { k ≤ 27 }
    requires w_bound { mag w < 128 }
    ensures { result ≡ kern.part k w }
{
    (i16::from(k) * w + 63) >> 7
}

// The tap p after it gains a.
fn raised(p: i16, a: i16) -> i16
    requires p_bound { mag p < 128 }
    requires a_bound { mag a < 256 }
    ensures { result ≡ num.clamp (p +ℤ a) }
{
    clamp(p + a)
}

// The tap q after it loses a.
fn lowered(q: i16, a: i16) -> i16
    requires q_bound { mag q < 128 }
    requires a_bound { mag a < 256 }
    ensures { result ≡ num.clamp (q -ℤ a) }
{
    clamp(q - a)
}

// mb_filter after its tests: w is 0 where nothing changes.
pub(crate) fn widened(high: bool, w: i16, taps: EightTaps) -> InnerTaps
    requires w_bound { mag w < 128 }
    requires signed { SignedEight taps }
    ensures { result ≡ spec.widened high w taps }
{
    let wide = pick(high, 0, w);
    let near = pick(high, w, 0);
    let a0 = part(27, wide);
    let a1 = part(18, wide);
    let a2 = part(9, wide);
    let up = a0 + gain(near);
    let down = a0 + loss(near);
    InnerTaps {
        p2: raised(taps.p2, a2),
        p1: raised(taps.near.p1, a1),
        p0: raised(taps.near.p0, up),
        q0: lowered(taps.near.q0, down),
        q1: lowered(taps.near.q1, a1),
        q2: lowered(taps.q2, a2),
    }
}

// subblock_filter after its tests: a is 0 where nothing changes. p2 and q2 stay, and stand with the others, which do not.
pub(crate) fn softened(high: bool, a: i16, taps: EightTaps) -> InnerTaps
    requires a_bound { mag a < 128 }
    requires signed { SignedEight taps }
    ensures { result ≡ spec.softened high a taps }
{
    let down = loss(a);
    let outer = pick(high, 0, (down + 1) >> 1);
    InnerTaps {
        p2: taps.p2,
        p1: raised(taps.near.p1, outer),
        p0: raised(taps.near.p0, gain(a)),
        q0: lowered(taps.near.q0, down),
        q1: lowered(taps.near.q1, outer),
        q2: taps.q2,
    }
}

// simple_segment.
pub(crate) fn simple_position(edge: u8, taps: FourTaps) -> EdgeTaps
    requires { SignedFour taps }
    ensures { result ≡ edge_taps (simple_segment edge) taps }
{
    let a = pick(simple_passes(edge, taps), tap_value(true, taps), 0);
    EdgeTaps {
        p0: raised(taps.p0, gain(a)),
        q0: lowered(taps.q0, loss(a)),
    }
}
