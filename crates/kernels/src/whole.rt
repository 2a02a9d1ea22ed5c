// RFC 6386, sections 15.2 and 15.3: the kernels test by test as the RFC lists them, with every clamp.
ghost use Rattle.std.specs.Prelude.{◌≡◌, ◌≤◌, if◌then◌else◌};
ghost use Rattle.kernels.specs.Kernels.{adjustment, simple_yes};
ghost use Rattle.kernels.specs.Private.Moves.{capped};
ghost use Rattle.kernels.specs.Private.Windows.{adjusted, smoothed, Filtered};

use crate::limits::EdgeLimits;
use crate::moves::{four, six, two};
use crate::store::{store_cut, store_plain_or_cut};
use crate::taps::{Near, Taps, taps_of};
use crate::values::{low_variance, neighbours_near, simple_yes, window_value};
use arithmetic::signed::at_most_123;

// a of common_adjust, at most 123: then neither sum needs c, and neither quotient changes.
fn capped(outer: bool, w: Near) -> i64
    ensures { result ≡ capped outer w }
{
    at_most_123(window_value(outer, w)) as i64
}

// p0 and q0 after common_adjust, and what it answers.
pub(crate) fn adjust<const W: usize>(outer: bool, window: &mut [u8; W], w: Near) -> i64
    requires { 2 ≤ W }
    ensures value { result ≡ adjustment outer w.p1 w.p0 w.q0 w.q1 }
    ensures window_after { window.new ≡ adjusted W outer window.old w }
{
    let a = capped(outer, w);
    store_plain_or_cut(window, two(a, w));
    (a + 4) >> 3
}

// Where the kernel's tests pass.
fn smooth<const WIDE: bool>(threshold: u8, window: &mut [u8; 8], w: Taps)
    ensures { window.new ≡ smoothed WIDE threshold window.old w }
{
    if !low_variance(threshold, w.near) {
        adjust(true, window, w.near);
    } else if WIDE {
        // A signed byte, so that no part of it needs c.
        let v = window_value(true, w.near) as i64;
        store_cut(window, six(v, w));
    } else {
        store_cut(window, four(capped(false, w.near), w.near));
    }
}

// Where the neighbours are near.
fn at_edge<const WIDE: bool>(limits: EdgeLimits, window: &mut [u8; 8], w: Taps) -> bool
    ensures value { result ≡ simple_yes limits.limit w.near.p1 w.near.p0 w.near.q0 w.near.q1 }
    ensures window_after { window.new ≡ (if simple_yes limits.limit w.near.p1 w.near.p0 w.near.q0 w.near.q1 then smoothed WIDE limits.threshold window.old w else window.old) }
{
    let passes = simple_yes(limits.limit, w.near);
    if passes {
        smooth::<WIDE>(limits.threshold, window, w);
    }
    passes
}

// mb_filter or subblock_filter. A function of its own beside `passed`, whose tests it makes, since it has every clamp and `passed` none:
// few windows come here, and the compiler keeps it out of the loops over an edge's rows. The limits come one by one: of a struct the loops
// would keep a copy for this call, as a byte and a word, and wait for the word at each edge: the normal filter would take 5 % more.
#[inline(never)]
fn test_by_test<const WIDE: bool>(
    threshold: u8,
    interior: u8,
    limit: u8,
    window: &mut [u8; 8],
) -> bool
    ensures { Filtered WIDE (record { threshold = threshold; interior = interior; limit = limit }) window.old result window.new }
{
    let limits = EdgeLimits {
        threshold,
        interior,
        limit,
    };
    let w = taps_of(window);
    neighbours_near(interior, w) && at_edge::<WIDE>(limits, window, w)
}

// Where the bounds decide nothing.
pub(crate) fn whole<const WIDE: bool>(limits: EdgeLimits, window: &mut [u8; 8]) -> bool
    ensures { Filtered WIDE limits window.old result window.new }
{
    test_by_test::<WIDE>(limits.threshold, limits.interior, limits.limit, window)
}
