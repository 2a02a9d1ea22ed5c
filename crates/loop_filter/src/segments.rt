// C functions: the kernels. Each returns 0 or document 01's number of the refusal; a refusal writes nothing.
// Whether a kernel's test passed goes through `passed`: 1 if it did, else 0.
ghost use Rattle.std.specs.Prelude.{◌≡◌};
ghost use Rattle.kernels.specs.Answers.{kernel_outcome};
ghost use Rattle.kernels.specs.Segment.{common_adjust, simple_segment, subblock_filter, mb_filter, mark, windowed, window_answer, adjust_answer};
ghost use Rattle.loop_filter.specs.Returned.{Returned, PassedReturned};

use edges::normal::{MacroblockEdge, SubblockEdge};
use edges::windows::filter_window;
use kernels::answers::KernelRefusal;
use kernels::limits::EdgeLimits;

// Returns 0 and puts 1 where the test passed and 0 where it did not, or returns the number of the refusal.
// Each answer has a function of its own: see `put_choice` of `selects`.
#[tactic(auto, unfolding(arithmetic::specs::Outcome::number_of, crate::specs::Returned::out_of), using(crate::proofs::Returns::mark_byte))]
fn put_passed(answer: Result<bool, KernelRefusal>, passed: &mut u8) -> u8
    ensures { PassedReturned (kernel_outcome answer) result passed.old passed.new }
{
    match answer {
        Ok(yes) => {
            *passed = u8::from(yes);
            0
        }
        Err(refusal) => u8::from(refusal),
    }
}

// The adjustment goes through `adjustment`, which a refusal leaves alone.
#[tactic(auto, unfolding(arithmetic::specs::Outcome::number_of, crate::specs::Returned::out_of), using(crate::proofs::Numbers16::crossed))]
#[unsafe(no_mangle)]
pub extern "C" fn vp8lf_common_adjust(
    use_outer_taps: bool,
    seg: &mut [u8],
    base: usize,
    adjustment: &mut i32,
) -> u8
    ensures returned { Returned (adjust_answer use_outer_taps seg.old base) result adjustment.old adjustment.new }
    ensures seg_after { seg.new ≡ windowed (common_adjust use_outer_taps) seg.old base }
{
    match kernels::segments::common_adjust(use_outer_taps, seg, base) {
        Ok(a) => {
            *adjustment = a;
            0
        }
        Err(refusal) => u8::from(refusal),
    }
}

#[unsafe(no_mangle)]
pub extern "C" fn vp8lf_simple_segment(
    edge_limit: u8,
    seg: &mut [u8],
    base: usize,
    passed: &mut u8,
) -> u8
    ensures passed_returned { PassedReturned (window_answer (simple_segment edge_limit) seg.old base) result passed.old passed.new }
    ensures seg_after { seg.new ≡ windowed (simple_segment edge_limit) seg.old base }
{
    let answer = kernels::segments::simple_segment(edge_limit, seg, base);
    put_passed(answer, passed)
}

#[unsafe(no_mangle)]
pub extern "C" fn vp8lf_subblock_filter(
    hev_threshold: u8,
    interior_limit: u8,
    edge_limit: u8,
    seg: &mut [u8],
    base: usize,
    passed: &mut u8,
) -> u8
    ensures passed_returned { PassedReturned (window_answer (subblock_filter hev_threshold interior_limit edge_limit) seg.old base) result passed.old passed.new }
    ensures seg_after { seg.new ≡ windowed (subblock_filter hev_threshold interior_limit edge_limit) seg.old base }
{
    let limits = EdgeLimits {
        threshold: hev_threshold,
        interior: interior_limit,
        limit: edge_limit,
    };
    let answer = filter_window::<SubblockEdge>(limits, seg, base);
    put_passed(answer, passed)
}

#[unsafe(no_mangle)]
pub extern "C" fn vp8lf_mb_filter(
    hev_threshold: u8,
    interior_limit: u8,
    edge_limit: u8,
    seg: &mut [u8],
    base: usize,
    passed: &mut u8,
) -> u8
    ensures passed_returned { PassedReturned (window_answer (mb_filter hev_threshold interior_limit edge_limit) seg.old base) result passed.old passed.new }
    ensures seg_after { seg.new ≡ windowed (mb_filter hev_threshold interior_limit edge_limit) seg.old base }
{
    let limits = EdgeLimits {
        threshold: hev_threshold,
        interior: interior_limit,
        limit: edge_limit,
    };
    let answer = filter_window::<MacroblockEdge>(limits, seg, base);
    put_passed(answer, passed)
}
