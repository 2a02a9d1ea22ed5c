// The grid's rows of the three planes, put into the scratch planes.
ghost use Rattle.std.specs.Prelude.{◌≡◌, ◌+◌, ◌*◌, ◌-◌, ◌≤◌, length};
ghost use Rattle.arithmetic.specs.Outcome.{outcome, number_of};
ghost use Rattle.planes.specs.GridRefusals.{past_grid, grid_refusal_number};
ghost use Rattle.planes.specs.Layout.{grid_of};
ghost use Rattle.planes.specs.Pictures.{planes_in, planes_lent, SameLoans};
ghost use Rattle.scratch.specs.Copies.{copy_row, copy_rows, copy_grid, copied_grid};

use planes::grid::GridRefusal;
use planes::layout::PlaneLayout;
use planes::picture::{Picture, PictureMut};

// n samples from `from` on, in both planes. By index: `copy_from_slice` is a call of `memmove`, which a caller without a C library would
// have to bring (docs/BOARD.md), and of a part that is lent to `iter_mut` a proof knows only the length.
fn copy_row(source: &[u8], into: &mut [u8], from: usize, n: usize)
    requires { (from + n ≤ length source.now) × (from + n ≤ length into.old) }
    ensures { into.new ≡ copy_row source.now from n into.old }
{
    for k in 0..n {
        let i = from + k;
        into[i] = source[i];
    }
}

// n rows of w samples in both planes, which have one stride.
fn copy_rows(source: &[u8], into: &mut [u8], stride: usize, w: usize, n: usize)
    requires { ((n - 1) * stride + w ≤ length source.now) × ((n - 1) * stride + w ≤ length into.old) }
    ensures { into.new ≡ copy_rows source.now stride w n into.old }
{
    // Not `chunks` by the stride: the last would be shorter, and of what is written through them a proof knows only the length.
    for r in 0..n {
        copy_row(source, into, r * stride, w);
    }
}

// Planes and scratch planes that pass 1, 2 and 3. They and the layout go apart, here and below: a struct of them would hold the scratch
// planes by reference, and be made and opened once in a call.
fn copy_planes(picture: Picture<'_>, scratch: &mut PictureMut<'_>, layout: PlaneLayout)
    requires lent { past_grid (grid_of layout) (planes_in picture) 0 ≡ 0 }
    requires scratch { past_grid (grid_of layout) (planes_lent scratch.old) 0 ≡ 0 }
    ensures loans { SameLoans scratch.old scratch.new }
    ensures copied { planes_lent scratch.new ≡ copy_grid (grid_of layout) (planes_in picture.entry) (planes_lent scratch.old) }
{
    if layout.is_zero() {
        return;
    }
    let PlaneLayout {
        mb_cols,
        mb_rows,
        y_stride,
        uv_stride,
    } = layout;
    copy_rows(picture.y, scratch.y, y_stride, 16 * mb_cols, 16 * mb_rows);
    copy_rows(picture.u, scratch.u, uv_stride, 8 * mb_cols, 8 * mb_rows);
    copy_rows(picture.v, scratch.v, uv_stride, 8 * mb_cols, 8 * mb_rows);
}

// The planes' grid in the scratch planes; or 1, 2 or 3 of the planes, then of the scratch planes, and nothing is copied.
pub fn try_copy_grid(
    picture: Picture<'_>,
    scratch: &mut PictureMut<'_>,
    layout: PlaneLayout,
) -> Result<(), GridRefusal>
    ensures loans { SameLoans scratch.old scratch.new }
    ensures number { number_of (outcome grid_refusal_number result)
        ≡ past_grid (grid_of layout) (planes_in picture.entry) (past_grid (grid_of layout) (planes_lent scratch.old) 0) }
    ensures copied { planes_lent scratch.new ≡ copied_grid (grid_of layout) (planes_in picture.entry) (planes_lent scratch.old) }
{
    let lent = picture.lengths();
    let held = scratch.lengths();
    layout.judge(lent)?;
    layout.judge(held)?;
    copy_planes(picture, scratch, layout);
    Ok(())
}

// The same, for a caller that asks for no refusal. Where 1, 2 or 3 holds of planes or scratch planes, these are left alone.
pub fn copy_grid(picture: Picture<'_>, scratch: &mut PictureMut<'_>, layout: PlaneLayout)
    ensures loans { SameLoans scratch.old scratch.new }
    ensures copied { planes_lent scratch.new ≡ copied_grid (grid_of layout) (planes_in picture.entry) (planes_lent scratch.old) }
{
    let _ = try_copy_grid(picture, scratch, layout);
}
