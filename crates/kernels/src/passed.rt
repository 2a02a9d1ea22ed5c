// The normal kernels, decided within bounds where a window allows it, and else as a whole.
ghost use Rattle.std.specs.Prelude.{◌≡◌, true, false};
ghost use Rattle.kernels.specs.Private.Windows.{Filtered};
ghost use Rattle.kernels.specs.Private.Taps.{inner_near, Outer, Window};

use crate::bounds::{Bounds, bounds_of};
use crate::limits::EdgeLimits;
use crate::taps::{Taps, outer_near, taps_of};
use crate::tries::{try_high, try_low};
use crate::values::{inner_near, low_variance};
use crate::whole::whole;

// Low variance. A struct of the window, its taps and its bounds would hold the window by reference, and be opened in each function.
fn low<const WIDE: bool>(window: &mut [u8; 8], w: Taps, s: Bounds) -> bool
    requires window { Window window.old w s }
    requires low { inner_near s.inner w ≡ true }
    ensures { Filtered WIDE s.limits window.old result window.new }
{
    try_low::<WIDE>(window, w, s.step) || whole::<WIDE>(s.limits, window)
}

// The neighbours are near. Apart from `low`, since its window is tried by another function, by `sum` in place of `step`, and only if the
// variance is high: it is if the threshold is the bound that they exceed.
fn high<const WIDE: bool>(window: &mut [u8; 8], w: Taps, s: Bounds) -> bool
    requires window { Window window.old w s }
    requires beyond { inner_near s.inner w ≡ false }
    requires within { inner_near s.limits.interior w ≡ true }
    ensures { Filtered WIDE s.limits window.old result window.new }
{
    try_high(window, w, s.sum, s.limits.threshold == s.inner) || whole::<WIDE>(s.limits, window)
}

// An inner distance exceeds its bound.
fn beyond<const WIDE: bool>(window: &mut [u8; 8], w: Taps, s: Bounds) -> bool
    requires window { Window window.old w s }
    requires beyond { inner_near s.inner w ≡ false }
    ensures { Filtered WIDE s.limits window.old result window.new }
{
    inner_near(s.limits.interior, w.near) && high::<WIDE>(window, w, s)
}

// The outer distances are near.
fn inner<const WIDE: bool>(limits: EdgeLimits, window: &mut [u8; 8], w: Taps) -> bool
    requires { Outer limits.interior window.old w }
    ensures { Filtered WIDE limits window.old result window.new }
{
    let s = bounds_of(limits);
    if low_variance(s.inner, w.near) {
        low::<WIDE>(window, w, s)
    } else {
        beyond::<WIDE>(window, w, s)
    }
}

// mb_filter, which is wide, or subblock_filter. The answer: whether filter_yes passed.
pub(crate) fn passed<const WIDE: bool>(limits: EdgeLimits, window: &mut [u8; 8]) -> bool
    ensures { Filtered WIDE limits window.old result window.new }
{
    let w = taps_of(window);
    outer_near(limits.interior, w) && inner::<WIDE>(limits, window, w)
}
