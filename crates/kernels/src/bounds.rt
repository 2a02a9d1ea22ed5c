// Bounds on the distances of a window within which the kernels' tests pass and no clamp changes a number.
ghost use Rattle.std.specs.Prelude.{◌+◌, ◌*◌, ◌≤◌};
ghost use Rattle.kernels.specs.Private.Taps.{Bounded};

use crate::limits::EdgeLimits;

// The limits of a kernel, and what follows from them.
#[derive(Clone, Copy)]
pub(crate) struct Bounds {
    pub limits: EdgeLimits,
    // Bound on 4 * |p0 - q0| + |p1 - q1|: the edge test passes, and every sum of the filter value is a signed byte.
    pub sum: u8,
    // Bound on |p1 - p0| and |q1 - q0|: the interior test passes, and the variance is low.
    pub inner: u8,
    // Bound on |p0 - q0|, which with `inner` keeps the sum: |p1 - q1| is at most |p0 - q0| + 2 * inner.
    pub step: u8,
}

// 2 * edge + 1, but at most 123: then a + 4 of common_adjust is at most 127.
// Not `2 * edge.min(61) + 1`, in which 123 does not stand, and with which the normal filter takes 1 to 2 % more.
fn sum_bound(edge: u8) -> u8
    ensures { (result ≤ 2 * edge + 1) × (result ≤ 123) }
{
    if edge < 61 { 2 * edge + 1 } else { 123 }
}

pub(crate) fn bounds_of(limits: EdgeLimits) -> Bounds
    ensures { Bounded limits result }
{
    let sum = sum_bound(limits.limit);
    let inner = limits.threshold.min(limits.interior).min(sum / 2);
    Bounds {
        limits,
        sum,
        inner,
        step: (sum - 2 * inner) / 5,
    }
}
