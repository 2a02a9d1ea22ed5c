// RFC 6386, sections 15.2 and 15.3: the tests and the numbers of one segment, from its samples
// as stored. A difference of samples is that of their signed numbers.
ghost use Rattle.std.specs.Prelude.{◌≡◌, ◌-ℤ◌};
ghost use Rattle.arithmetic.specs.Numbers as num;
ghost use Rattle.kernels.specs.Kernels as spec;
ghost use Rattle.kernels.specs.Private.Windows as win;

use crate::near::near;
use crate::taps::{Near, Taps};
use arithmetic::signed::filter_value;

// The test of simple_segment, times two: y / 2 <= z is y <= 2 * z + 1.
pub(crate) fn simple_yes(edge: u8, w: Near) -> bool
    ensures { result ≡ spec.simple_yes edge w.p1 w.p0 w.q0 w.q1 }
{
    w.p0.abs_diff(w.q0) as u64 * 4 + w.p1.abs_diff(w.q1) as u64 <= 2 * (edge as u64) + 1
}

// What filter_yes tests beyond simple_yes.
pub(crate) fn neighbours_near(interior: u8, w: Taps) -> bool
    ensures { result ≡ win.neighbours_near interior w.p3 w.p2 w.near.p1 w.near.p0 w.near.q0 w.near.q1 w.q2 w.q3 }
{
    near(w.p3, w.p2, interior)
        & near(w.p2, w.near.p1, interior)
        & near(w.near.p1, w.near.p0, interior)
        & near(w.q3, w.q2, interior)
        & near(w.q2, w.near.q1, interior)
        & near(w.near.q1, w.near.q0, interior)
}

// The negation of hev.
pub(crate) fn low_variance(threshold: u8, w: Near) -> bool
    ensures { result ≡ win.low_variance threshold w.p1 w.p0 w.q0 w.q1 }
{
    near(w.p1, w.p0, threshold) & near(w.q1, w.q0, threshold)
}

// The same test, with the samples of each distance the other way round. Of a window that both test, `low_variance` in both places would
// have the compiler compute the differences ahead of either test, and the normal filter would take 4 % more.
pub(crate) fn inner_near(limit: u8, w: Near) -> bool
    ensures { result ≡ win.low_variance limit w.p1 w.p0 w.q0 w.q1 }
{
    near(w.p0, w.p1, limit) & near(w.q0, w.q1, limit)
}

fn difference(a: u8, b: u8) -> i16
    ensures { result ≡ num.u2s a -ℤ num.u2s b }
{
    a as i16 - b as i16
}

// a of common_adjust, before it is divided.
pub(crate) fn window_value(outer: bool, w: Near) -> i16
    ensures { result ≡ spec.filter_value outer (num.u2s w.p1) (num.u2s w.p0) (num.u2s w.q0) (num.u2s w.q1) }
{
    filter_value(outer, difference(w.p1, w.q1), difference(w.q0, w.p0))
}
