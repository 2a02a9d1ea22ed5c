// The two kinds of normal edge (RFC 6386, section 15.3): a macroblock's, and one between subblocks. They differ in the kernel, in the
// edge limit, and in how many rows a kernel may change.
ghost use Rattle.std.specs.Prelude.{◌≡◌, ℕ};
ghost use Rattle.kernels.specs.Answers.{kernel_outcome};
ghost use Rattle.kernels.specs.Segment.{Kernel, mb_filter, subblock_filter, windowed, window_answer};
ghost use Rattle.arithmetic.specs.declared.limits.LoopFilterParams.{LoopFilterParams};
ghost use Rattle.edges.specs.Taps.{SignedEight, inner_taps, NormalKind, macroblock, subblock};
ghost use Rattle.edges.specs.Private.Runs.{limits_of};

use crate::position::{
    EightTaps, InnerTaps, high_variance, normal_passes, softened, tap_value, widened,
};
use arithmetic::limits::LoopFilterParams;
use arithmetic::signed::pick;
use kernels::answers::KernelRefusal;
use kernels::limits::EdgeLimits;
use kernels::segments::normal_filter;

pub trait NormalEdge {
    // The kernel, by its threshold and its interior and edge limits.
    ghost kernel: { (threshold interior edge : ℕ) → Kernel };

    // Which of a macroblock's limits is its edge limit.
    ghost edge_limit: { LoopFilterParams → ℕ };

    // How many rows on each side of a horizontal edge it may change.
    ghost CHANGED: { ℕ };

    const CHANGED: usize;

    fn edge_limit(limits: LoopFilterParams) -> u8
        ensures { result ≡ edge_limit limits };

    // The kernel on taps, whose range is a clause, as in `position`.
    fn on_taps(edge: EdgeLimits, taps: EightTaps) -> InnerTaps
        requires { SignedEight taps }
        ensures { result ≡ inner_taps (kernel edge.threshold edge.interior edge.limit) taps };

    // The kernel on the first samples of a slice.
    fn on_window(edge: EdgeLimits, seg: &mut [u8]) -> Result<bool, KernelRefusal>
        ensures value { kernel_outcome result ≡ window_answer (kernel edge.threshold edge.interior edge.limit) seg.old 0 }
        ensures seg_after { seg.new ≡ windowed (kernel edge.threshold edge.interior edge.limit) seg.old 0 };

    // It is one of the two.
    ghost kind: { NormalKind kernel CHANGED };
}

// What a normal edge takes of a macroblock's limits.
pub(crate) fn limits_of<E: NormalEdge>(limits: LoopFilterParams) -> EdgeLimits
    ensures { result ≡ limits_of E.edge_limit limits }
{
    EdgeLimits {
        threshold: limits.hev_threshold,
        interior: limits.interior_limit,
        limit: E::edge_limit(limits),
    }
}

// The two kinds test alike; each then moves the taps by its own rule. Not one impl with a const parameter, in
// which each member would be an `if`.
#[derive(Clone, Copy)]
pub struct MacroblockEdge;

impl NormalEdge for MacroblockEdge {
    ghost kernel = { mb_filter };

    ghost edge_limit = { λ p. p.mbedge_limit };

    ghost CHANGED = { 3 };

    const CHANGED: usize = 3;

    fn edge_limit(limits: LoopFilterParams) -> u8 {
        limits.mbedge_limit
    }

    fn on_taps(edge: EdgeLimits, taps: EightTaps) -> InnerTaps {
        let yes = normal_passes(edge, taps);
        let high = high_variance(edge.threshold, taps.near);
        let w = pick(yes, tap_value(true, taps.near), 0);
        widened(high, w, taps)
    }

    fn on_window(edge: EdgeLimits, seg: &mut [u8]) -> Result<bool, KernelRefusal> {
        normal_filter::<true>(edge, seg, 0)
    }

    ghost kind = { macroblock };
}

#[derive(Clone, Copy)]
pub struct SubblockEdge;

impl NormalEdge for SubblockEdge {
    ghost kernel = { subblock_filter };

    ghost edge_limit = { λ p. p.sub_bedge_limit };

    ghost CHANGED = { 2 };

    const CHANGED: usize = 2;

    fn edge_limit(limits: LoopFilterParams) -> u8 {
        limits.sub_bedge_limit
    }

    fn on_taps(edge: EdgeLimits, taps: EightTaps) -> InnerTaps {
        let yes = normal_passes(edge, taps);
        let high = high_variance(edge.threshold, taps.near);
        let a = pick(yes, tap_value(high, taps.near), 0);
        softened(high, a, taps)
    }

    fn on_window(edge: EdgeLimits, seg: &mut [u8]) -> Result<bool, KernelRefusal> {
        normal_filter::<false>(edge, seg, 0)
    }

    ghost kind = { subblock };
}
