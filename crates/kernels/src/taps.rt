// The samples of a window, read at once.
ghost use Rattle.std.specs.Prelude.{◌≡◌};
ghost use Rattle.kernels.specs.Private.Taps as spec;

use crate::near::both_near;

// A segment p1 p0 | q0 q1, as stored. Not one generic type with the taps of
// `edges::position`, which are signed numbers: it would be public, for four fields.
#[derive(Clone, Copy)]
pub(crate) struct Near {
    pub p1: u8,
    pub p0: u8,
    pub q0: u8,
    pub q1: u8,
}

// A segment p3 .. p0 | q0 .. q3, of which p1 p0 | q0 q1 is `near`: that of the kernels with four samples, which have no others.
#[derive(Clone, Copy)]
pub(crate) struct Taps {
    pub p3: u8,
    pub p2: u8,
    pub near: Near,
    pub q2: u8,
    pub q3: u8,
}

pub(crate) fn near_of(window: &[u8; 4]) -> Near
    ensures { result ≡ spec.near_of window.now }
{
    let [p1, p0, q0, q1] = *window;
    Near { p1, p0, q0, q1 }
}

pub(crate) fn taps_of(window: &[u8; 8]) -> Taps
    ensures { result ≡ spec.taps_of window.now }
{
    let [p3, p2, p1, p0, q0, q1, q2, q3] = *window;
    Taps {
        p3,
        p2,
        near: Near { p1, p0, q0, q1 },
        q2,
        q3,
    }
}

// The four distances of filter_yes that neither p0 nor q0 is part of.
pub(crate) fn outer_near(interior: u8, w: Taps) -> bool
    ensures { result ≡ spec.outer_near interior w }
{
    both_near(w.p2, w.p3, w.near.p1, interior) & both_near(w.q2, w.q3, w.near.q1, interior)
}
