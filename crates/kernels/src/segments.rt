// RFC 6386, sections 15.2 and 15.3: the kernels on the window of a slice that starts at `base`, as document 01 has callers name it.
ghost use Rattle.std.specs.Prelude.{◌≡◌, ◌+◌, nat_le};
ghost use Rattle.kernels.specs.Answers.{adjust_outcome, kernel_outcome};
ghost use Rattle.kernels.specs.Segment.{common_adjust, simple_segment, passes_at, segment, normal, windowed, window_answer, adjust_answer};

use crate::answers::KernelRefusal;
use crate::limits::EdgeLimits;
use crate::passed::passed;
use crate::taps::near_of;
use crate::values::simple_yes;
use crate::whole::adjust;

// A window of `taps` samples fits at base of a slice of n samples. No sum of the two can wrap.
pub fn has_window(n: usize, taps: usize, base: usize) -> bool
    ensures { result ≡ nat_le (base + taps) n }
{
    n.checked_sub(taps).is_some_and(|last| base <= last)
}

// common_adjust on the first samples of a slice. Each kernel has these two steps: of `seg[base..].first_chunk_mut()` in one function, and
// of a part from `get_mut(base..)`, a proof loses the bytes, and a function that gave back the window that it lends would need a clause on
// what they end as. Three pairs, since windows and answers are of three kinds: one over a closure on the window would have their clauses
// as its own.
#[tactic(auto, unfolding(crate::specs::Segment::adjust_answer, crate::specs::Segment::windowed, crate::specs::Segment::fits_at, crate::specs::Segment::taps, crate::specs::Segment::half))]
fn adjust_first(outer: bool, seg: &mut [u8]) -> Result<i32, KernelRefusal>
    ensures result_value { adjust_outcome result ≡ adjust_answer outer seg.old 0 }
    ensures seg_after { seg.new ≡ windowed (common_adjust outer) seg.old 0 }
{
    let window = seg.first_chunk_mut::<4>().ok_or(KernelRefusal::NoWindow)?;
    let taps = near_of(window);
    Ok(adjust(outer, window, taps) as i32)
}

#[tactic(auto, unfolding(crate::specs::Segment::adjust_answer, crate::specs::Segment::windowed, crate::specs::Segment::fits_at, crate::specs::Segment::taps, crate::specs::Segment::half))]
pub fn common_adjust(
    use_outer_taps: bool,
    seg: &mut [u8],
    base: usize,
) -> Result<i32, KernelRefusal>
    ensures result_value { adjust_outcome result ≡ adjust_answer use_outer_taps seg.old base }
    ensures seg_after { seg.new ≡ windowed (common_adjust use_outer_taps) seg.old base }
{
    if base > seg.len() {
        return Err(KernelRefusal::NoWindow);
    }
    adjust_first(use_outer_taps, &mut seg[base..])
}

// simple_segment on a window. The answer: whether its test passed.
fn simple_passed(edge: u8, window: &mut [u8; 4]) -> bool
    ensures value { result ≡ passes_at (simple_segment edge) (λ t. t) window.old }
    ensures window_after { window.new ≡ segment (simple_segment edge) (λ t. t) window.old }
{
    let w = near_of(window);
    let passes = simple_yes(edge, w);
    if passes {
        adjust(true, window, w);
    }
    passes
}

// The same on the first samples of a slice.
#[tactic(auto, unfolding(crate::specs::Segment::window_answer, crate::specs::Segment::windowed, crate::specs::Segment::fits_at, crate::specs::Segment::taps, crate::specs::Segment::half))]
fn simple_first(edge: u8, seg: &mut [u8]) -> Result<bool, KernelRefusal>
    ensures result_value { kernel_outcome result ≡ window_answer (simple_segment edge) seg.old 0 }
    ensures seg_after { seg.new ≡ windowed (simple_segment edge) seg.old 0 }
{
    let window = seg.first_chunk_mut::<4>().ok_or(KernelRefusal::NoWindow)?;
    Ok(simple_passed(edge, window))
}

#[tactic(auto, unfolding(crate::specs::Segment::window_answer, crate::specs::Segment::windowed, crate::specs::Segment::fits_at, crate::specs::Segment::taps, crate::specs::Segment::half))]
pub fn simple_segment(edge_limit: u8, seg: &mut [u8], base: usize) -> Result<bool, KernelRefusal>
    ensures result_value { kernel_outcome result ≡ window_answer (simple_segment edge_limit) seg.old base }
    ensures seg_after { seg.new ≡ windowed (simple_segment edge_limit) seg.old base }
{
    if base > seg.len() {
        return Err(KernelRefusal::NoWindow);
    }
    simple_first(edge_limit, &mut seg[base..])
}

// mb_filter, which is wide, or subblock_filter, on the first samples of a slice.
#[tactic(auto, unfolding(crate::specs::Segment::window_answer, crate::specs::Segment::windowed, crate::specs::Segment::fits_at, crate::specs::Segment::taps, crate::specs::Segment::half))]
fn normal_first<const WIDE: bool>(limits: EdgeLimits, seg: &mut [u8]) -> Result<bool, KernelRefusal>
    ensures result_value { kernel_outcome result ≡ window_answer (normal WIDE limits.threshold limits.interior limits.limit) seg.old 0 }
    ensures seg_after { seg.new ≡ windowed (normal WIDE limits.threshold limits.interior limits.limit) seg.old 0 }
{
    let window = seg.first_chunk_mut::<8>().ok_or(KernelRefusal::NoWindow)?;
    Ok(passed::<WIDE>(limits, window))
}

#[tactic(auto, unfolding(crate::specs::Segment::window_answer, crate::specs::Segment::windowed, crate::specs::Segment::fits_at, crate::specs::Segment::taps, crate::specs::Segment::half))]
pub fn normal_filter<const WIDE: bool>(
    limits: EdgeLimits,
    seg: &mut [u8],
    base: usize,
) -> Result<bool, KernelRefusal>
    ensures result_value { kernel_outcome result ≡ window_answer (normal WIDE limits.threshold limits.interior limits.limit) seg.old base }
    ensures seg_after { seg.new ≡ windowed (normal WIDE limits.threshold limits.interior limits.limit) seg.old base }
{
    if base > seg.len() {
        return Err(KernelRefusal::NoWindow);
    }
    normal_first::<WIDE>(limits, &mut seg[base..])
}
