// The frame call beside a pass, over byte lists and over records. A refusal is the pass's own, judged before anything is skipped.
ghost use Rattle.std.specs.Prelude.{◌≡◌};
ghost use Rattle.planes.specs.Pictures.{planes_lent, SameLoans};
ghost use Rattle.calls.specs.Answers.{Passed};
ghost use Rattle.calls.specs.PassCalls.{call_of};
ghost use Rattle.frame_calls.specs.Skip.{filter_off, skipping, frame_call};

use calls::answers::{Done, PassRefusal};
use frame::pass::filter_frame;
use judge::batch::judge_call;
use judge::entries::Entries;
use levels::config::FrameFilterConfig;
use planes::layout::PlaneLayout;
use planes::picture::PictureMut;

// The header level turns the filter off.
#[tactic(auto, unfolding(crate::specs::Skip::filter_off))]
fn is_off(config: FrameFilterConfig) -> bool
    ensures { result ≡ filter_off config }
{
    config.loop_filter_level == 0
}

// The pass of the entries, turned off by header level 0: then its macroblocks count as done, and nothing is smoothed. It takes what the
// pass takes.
pub fn loop_filter_frame<E: Entries>(
    picture: &mut PictureMut<'_>,
    layout: PlaneLayout,
    entries: E,
    config: FrameFilterConfig,
    start: usize,
    allowance: usize,
) -> Result<Done, PassRefusal>
    ensures loans { SameLoans picture.old picture.new }
    ensures passed { Passed (skipping E.pass)
        (frame_call E.pass (call_of E.pass layout (E.carried entries) config (planes_lent picture.old) start allowance))
        result (planes_lent picture.new) }
{
    if !is_off(config) {
        return filter_frame(picture, layout, entries, config, start, allowance);
    }
    let lengths = picture.lengths();
    let batch = judge_call(lengths, layout, entries, start, allowance)?;
    Ok(Done {
        smoothed: 0,
        ..batch.done
    })
}
