// The normal kernels on one window, as an edge of one row: the loops over an edge's rows stay the kernels' only callers, so the compiler
// can put the kernels into them.
ghost use Rattle.std.specs.Prelude.{◌≡◌};
ghost use Rattle.kernels.specs.Answers.{kernel_outcome};
ghost use Rattle.kernels.specs.Segment.{windowed, window_answer};

use crate::normal::NormalEdge;
use crate::place::EdgePlace;
use crate::vertical::normal_rows;
use kernels::answers::KernelRefusal;
use kernels::limits::EdgeLimits;
use kernels::segments::has_window;

// kernels::segments::normal_filter, with document 01's `base`.
pub fn filter_window<E: NormalEdge>(
    limits: EdgeLimits,
    seg: &mut [u8],
    base: usize,
) -> Result<bool, KernelRefusal>
    ensures result_value { kernel_outcome result ≡ window_answer (E.kernel limits.threshold limits.interior limits.limit) seg.old base }
    ensures seg_after { seg.new ≡ windowed (E.kernel limits.threshold limits.interior limits.limit) seg.old base }
{
    if has_window(seg.len(), 8, base) {
        let mut missed: usize = 0;
        let place = EdgePlace {
            stride: 8,
            at: base,
        };
        normal_rows::<E>(seg, place, 1, limits, &mut missed);
        Ok(missed == 0)
    } else {
        Err(KernelRefusal::NoWindow)
    }
}
