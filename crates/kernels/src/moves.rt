// The inner samples of a window as a filter value moves them (RFC 6386, sections 15.2 and 15.3), before any clamp.
ghost use Rattle.std.specs.Prelude.{◌≡◌, ◌<◌};
ghost use Rattle.std.specs.Int.Signed.{mag};
ghost use Rattle.kernels.specs.Private.Moves as spec;

use crate::taps::{Near, Taps};

// p0 and q0, where a is that of common_adjust. The bound of a is a clause, here and below: a type of such numbers would be for these three
// alone, and each caller would make one.
pub(crate) fn two(a: i64, w: Near) -> [i64; 2]
    requires { mag a < 2048 }
    ensures { result ≡ spec.two a w }
{
    [w.p0 as i64 + ((a + 3) >> 3), w.q0 as i64 - ((a + 4) >> 3)]
}

// The inner four by subblock_filter without high variance. Half of what q0 loses is (a + 12) >> 4. Not `two` between p1 and q1: the proof
// did not close on the elements of its array.
pub(crate) fn four(a: i64, w: Near) -> [i64; 4]
    requires { mag a < 2048 }
    ensures { result ≡ spec.four a w }
{
    let half = (a + 12) >> 4;
    [
        w.p1 as i64 + half,
        w.p0 as i64 + ((a + 3) >> 3),
        w.q0 as i64 - ((a + 4) >> 3),
        w.q1 as i64 - half,
    ]
}

// The inner six by mb_filter without high variance.
pub(crate) fn six(v: i64, w: Taps) -> [i64; 6]
    requires { mag v < 2048 }
    ensures { result ≡ spec.six v w }
{
    let a0 = (27 * v + 63) >> 7;
    let a1 = (18 * v + 63) >> 7;
    let a2 = (9 * v + 63) >> 7;
    [
        w.p2 as i64 + a2,
        w.near.p1 as i64 + a1,
        w.near.p0 as i64 + a0,
        w.near.q0 as i64 - a0,
        w.near.q1 as i64 - a1,
        w.q2 as i64 - a2,
    ]
}
