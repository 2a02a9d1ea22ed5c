// The step of one macroblock (RFC 6386, section 15.1). No plane's edges depend on another plane's samples, so each plane is done whole.
ghost use Rattle.std.specs.Prelude.{◌≡◌, ◌≤◌, ◌<◌};
ghost use Rattle.planes.specs.Layout.{grid_of};
ghost use Rattle.planes.specs.Pictures.{planes_lent, SameLoans};
ghost use Rattle.calls.specs.Pass.{plan_at, plan_with};
ghost use Rattle.frame.specs.Private.PlaneEdges.{square_at};
ghost use Rattle.planes.specs.Planes.{macroblocks};
ghost use Rattle.frame.specs.Private.Ranges.{Sound, Stepped};

use crate::edge::{Normal, Simple};
use crate::plane::{Square, filter_plane};
use arithmetic::limits::LoopFilterParams;
use edges::normal::{MacroblockEdge, SubblockEdge};
use judge::entries::MacroblockPlan;
use levels::config::FrameFilterConfig;
use limit_table::table::limits_at;
use planes::layout::PlaneLayout;
use planes::picture::PictureMut;

// The square of `side` samples of the macroblock in this row and column. The bounds are
// of a layout that was judged; one as callers make it has none.
fn square(side: usize, stride: usize, row: usize, column: usize) -> Square
    requires side_bound { side ≤ 16 }
    requires stride_bound { stride ≤ 65536 }
    requires row_bound { row ≤ 1024 }
    requires column_bound { column ≤ 1024 }
    ensures { result ≡ square_at side stride row column }
{
    Square {
        stride,
        corner: side * row * stride + side * column,
        row,
        column,
    }
}

// Macroblock m, whose level is not 0, with its limits.
fn filter_with(
    picture: &mut PictureMut<'_>,
    layout: PlaneLayout,
    simple: bool,
    m: usize,
    limits: LoopFilterParams,
    inside: bool,
) -> usize
    requires sound { Sound layout picture.old.y.now picture.old.u.now picture.old.v.now }
    requires m_bound { m < macroblocks (grid_of layout) }
    ensures loans { SameLoans picture.old picture.new }
    ensures stepped { Stepped layout (plan_with simple limits inside) m (planes_lent picture.old) (planes_lent picture.new) result }
{
    let row = m / layout.mb_cols;
    let column = m % layout.mb_cols;
    let luma = square(16, layout.y_stride, row, column);
    // One branch a macroblock: the simple filter has no chroma, and its edges are of another type.
    if simple {
        let (outer, inner) = (Simple(limits.mbedge_limit), Simple(limits.sub_bedge_limit));
        filter_plane::<_, _, 16>(outer, inner, picture.y, luma, inside)
    } else {
        let chroma = square(8, layout.uv_stride, row, column);
        let outer = Normal {
            kind: MacroblockEdge,
            limits,
        };
        let inner = Normal {
            kind: SubblockEdge,
            limits,
        };
        let a = filter_plane::<_, _, 16>(outer, inner, picture.y, luma, inside);
        let b = a + filter_plane::<_, _, 8>(outer, inner, picture.u, chroma, inside);
        b + filter_plane::<_, _, 8>(outer, inner, picture.v, chroma, inside)
    }
}

// Macroblock m by its plan: at its level, with its inner edges or without.
pub(crate) fn filter_macroblock(
    picture: &mut PictureMut<'_>,
    layout: PlaneLayout,
    config: FrameFilterConfig,
    m: usize,
    plan: MacroblockPlan,
) -> usize
    requires sound { Sound layout picture.old.y.now picture.old.u.now picture.old.v.now }
    requires m_bound { m < macroblocks (grid_of layout) }
    ensures loans { SameLoans picture.old picture.new }
    ensures stepped { Stepped layout (plan_at config plan.level plan.inside) m (planes_lent picture.old) (planes_lent picture.new) result }
{
    let limits = limits_at(plan.level, config.sharpness_level, config.key_frame);
    if plan.level != 0 {
        filter_with(picture, layout, config.simple, m, limits, plan.inside)
    } else {
        0
    }
}
