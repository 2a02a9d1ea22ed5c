// Distances of samples against a limit, each by one subtraction.
ghost use Rattle.std.specs.Prelude.{◌≡◌, ℕ, ◌+◌, ◌*◌, ◌<◌, ◌&&◌, pos, nat_le};
ghost use Rattle.kernels.specs.Kernels as spec;

use crate::taps::Near;

// |a - b| <= limit where top is a + limit: 0 <= top - b <= 2 * limit. Below 0 the difference wraps to a number above every limit.
fn in_reach(top: u64, b: u64, limit: u8) -> bool
    requires { (top < 4096) × (b < 4096) }
    ensures { (a : ℕ) → top ≡ a + limit → result ≡ nat_le (spec.apart (pos a) (pos b)) limit }
{
    top.wrapping_sub(b) <= 2 * (limit as u64)
}

// |a - b| <= limit.
pub(crate) fn near(a: u8, b: u8, limit: u8) -> bool
    ensures { result ≡ nat_le (spec.apart (pos a) (pos b)) limit }
{
    in_reach(a as u64 + limit as u64, b as u64, limit)
}

// Both a and b are near mid.
pub(crate) fn both_near(mid: u8, a: u8, b: u8, limit: u8) -> bool
    ensures { result ≡ (nat_le (spec.apart (pos mid) (pos a)) limit && nat_le (spec.apart (pos mid) (pos b)) limit) }
{
    let top = mid as u64 + limit as u64;
    in_reach(top, a as u64, limit) & in_reach(top, b as u64, limit)
}

// 4 * |p0 - q0| + |p1 - q1| <= limit, since that sum is the larger of |4 * (q0 - p0) + (p1 - q1)| and |4 * (q0 - p0) - (p1 - q1)|.
pub(crate) fn edge_near(limit: u8, w: Near) -> bool
    ensures { result ≡ nat_le (spec.apart (pos w.p0) (pos w.q0) * 4 + spec.apart (pos w.p1) (pos w.q1)) limit }
{
    let a = 4 * (w.q0 as u64);
    let b = 4 * (w.p0 as u64);
    let p1 = w.p1 as u64;
    let q1 = w.q1 as u64;
    let reach = limit as u64;
    in_reach(a + p1 + reach, b + q1, limit) & in_reach(a + q1 + reach, b + p1, limit)
}
