// Taps: the samples of a horizontal edge, row by row, as signed numbers of 16 bits (RFC 6386, section 15.2).
ghost use Rattle.std.specs.Prelude.{◌≡◌, ◌+◌, ◌≤◌, ◌<◌, length};
ghost use Rattle.std.specs.Int.Signed.{mag};
ghost use Rattle.arithmetic.specs.Numbers.{u2s, s2u};
ghost use Rattle.edges.specs.Private.Runs.{row_at, store_row, SignedRow};

use std::array;

// A sample as a tap: on 16 bits, as the taps are, so that a distance of two needs no other type.
fn u2s16(v: u8) -> i16
    ensures { result ≡ u2s v }
{
    i16::from(v) - 128
}

// A tap of -128..127 as a sample.
fn s2u16(v: i16) -> u8
    requires { mag v < 128 }
    ensures { result ≡ s2u v }
{
    (v + 128) as u8
}

// N samples from `at` on. `at` goes beside the plane: of a part of it a caller would name the end too, which N says.
pub(crate) fn gather<const N: usize>(plane: &[u8], at: usize) -> [i16; N]
    requires { at + N ≤ length plane.now }
    ensures { result ≡ row_at N at plane.now }
{
    array::from_fn(|n| u2s16(plane[at + n]))
}

// N samples stored from `at` on, which goes beside the plane as in `gather`. By index: `copy_from_slice` would want an array of
// the samples first, and of a part that is lent to `iter_mut` a proof knows only the length.
pub(crate) fn scatter<const N: usize>(plane: &mut [u8], at: usize, row: [i16; N])
    requires at_in_bounds { at + N ≤ length plane.old }
    requires signed_row { SignedRow N row }
    ensures { plane.new ≡ store_row N at row.entry plane.old }
{
    for n in 0..N {
        plane[at + n] = s2u16(row[n]);
    }
}
