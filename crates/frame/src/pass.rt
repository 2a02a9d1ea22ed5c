// The passes over a frame, in raster order, halted and resumed by start and allowance
// (document 01, Passes and Halting). The entries say which pass it is.
ghost use Rattle.std.specs.Prelude.{◌≡◌, ◌<◌, false};
ghost use Rattle.planes.specs.Layout.{grid_of};
ghost use Rattle.planes.specs.Planes.{macroblocks};
ghost use Rattle.planes.specs.Pictures.{planes_lent, SameLoans};
ghost use Rattle.calls.specs.Answers.{Passed};
ghost use Rattle.calls.specs.Pass.{step};
ghost use Rattle.calls.specs.PassCalls.{call_of};
ghost use Rattle.calls.specs.Smoothed.{step_smoothed};
ghost use Rattle.frame.specs.Private.Ranges.{Range, Ranged};

use crate::step::filter_macroblock;
use calls::answers::{Done, PassRefusal};
use judge::batch::judge_call;
use judge::entries::Entries;
use levels::config::FrameFilterConfig;
use planes::layout::PlaneLayout;
use planes::picture::PictureMut;

// The call's parameters are document 01's, one by one, here and in frame_calls: a struct
// of them would be opened for both callees.

// Macroblocks `from` to `to` - 1. The answer: how many positions were smoothed.
fn filter_range<E: Entries>(
    picture: &mut PictureMut<'_>,
    layout: PlaneLayout,
    entries: E,
    config: FrameFilterConfig,
    from: usize,
    to: usize,
) -> usize
    requires range { Range layout (planes_lent picture.old) from to }
    requires listed { from < to → E.pass.wrong_length (E.carried entries) (macroblocks (grid_of layout)) ≡ false }
    ensures loans { SameLoans picture.old picture.new }
    ensures ranged { Ranged (step E.pass (grid_of layout) config (E.pass.entry (E.carried entries)))
        (step_smoothed E.pass (grid_of layout) config (E.pass.entry (E.carried entries)))
        from to (planes_lent picture.old) (planes_lent picture.new) result }
{
    let mut smoothed = 0;
    for m in from..to {
        let plan = entries.plan(config, m);
        smoothed += filter_macroblock(picture, layout, config, m, plan);
    }
    smoothed
}

// A pass, or its refusal 1, 2, 3, 5, 6 or 7.
pub fn filter_frame<E: Entries>(
    picture: &mut PictureMut<'_>,
    layout: PlaneLayout,
    entries: E,
    config: FrameFilterConfig,
    start: usize,
    allowance: usize,
) -> Result<Done, PassRefusal>
    ensures loans { SameLoans picture.old picture.new }
    ensures passed { Passed E.pass
        (call_of E.pass layout (E.carried entries) config (planes_lent picture.old) start allowance)
        result (planes_lent picture.new) }
{
    let lengths = picture.lengths();
    let batch = judge_call(lengths, layout, entries, start, allowance)?;
    let smoothed = filter_range(picture, layout, entries, config, batch.from, batch.to);
    Ok(Done {
        smoothed,
        ..batch.done
    })
}
