// Windows within the bounds: their samples without a clamp, stored if all of them stay bytes.
ghost use Rattle.std.specs.Prelude.{◌≡◌, ◌&&◌, pos, nat_le};
ghost use Rattle.kernels.specs.Kernels.{apart};
ghost use Rattle.kernels.specs.Private.Taps as spec;

use crate::moves::{four, six, two};
use crate::near::{edge_near, near};
use crate::store::store_plain;
use crate::taps::{Near, Taps};

// a of common_adjust without the outer taps.
fn step(w: Near) -> i64
    ensures { result ≡ spec.step_of w }
{
    3 * (w.q0 as i64 - w.p0 as i64)
}

// a of common_adjust with the outer taps, and w of mb_filter.
fn sum(w: Near) -> i64
    ensures { result ≡ spec.sum_of w }
{
    step(w) + (w.p1 as i64 - w.q1 as i64)
}

// High variance, which `high` tells of, and a sum within its bound.
pub(crate) fn try_high(window: &mut [u8; 8], w: Taps, bound: u8, high: bool) -> bool
    ensures { spec.Tried (nat_le (spec.edge_sum w.near) bound && high) window.old (spec.plain_high window.old w) result window.new }
{
    edge_near(bound, w.near) & high && store_plain(window, two(sum(w.near), w.near))
}

// Low variance, and a step within its bound.
pub(crate) fn try_low<const WIDE: bool>(window: &mut [u8; 8], w: Taps, bound: u8) -> bool
    ensures { spec.Tried (nat_le (apart (pos w.near.q0) (pos w.near.p0)) bound) window.old (spec.plain_low WIDE window.old w) result window.new }
{
    if !near(w.near.q0, w.near.p0, bound) {
        false
    } else if WIDE {
        store_plain(window, six(sum(w.near), w))
    } else {
        store_plain(window, four(step(w.near), w.near))
    }
}
