// C functions: the passes over a frame. Settings cross as numbers.
ghost use Rattle.planes.specs.Layout.{grid_of, planes_of};
ghost use Rattle.calls.specs.Answers.{pass_outcome, part_outcome};
ghost use Rattle.calls.specs.FinalRows.{final_rows};
ghost use Rattle.calls.specs.Pass.{key_pass, inter_pass};
ghost use Rattle.calls.specs.PassCalls.{key_call, inter_call, key_lists, inter_lists};
ghost use Rattle.frame_calls.specs.Skip.{key_frame_pass, inter_frame_pass, frame_call};
ghost use Rattle.loop_filter.specs.Returned.{ProgressReturned, PassReturned, RowsReturned};
ghost use Rattle.loop_filter.specs.Settings.{settings_of, layout_of};

use crate::settings::settings;
use calls::answers::{Done, PassRefusal};
use calls::final_rows::final_rows;
use frame::entries::{InterLists, KeyLists};
use frame::pass::filter_frame;
use frame_calls::frame_call::loop_filter_frame;
use planes::layout::PlaneLayout;
use planes::picture::PictureMut;

// Returns 0 and puts the count, the next start and the positions smoothed, or returns the number of the refusal.
// Each answer has a function of its own: see `put_choice` of `selects`.
#[tactic(auto, unfolding(calls::specs::Answers::pass_refusal_number, arithmetic::specs::Outcome::number_of, crate::specs::Returned::out_of))]
fn put_progress(
    answer: Result<Done, PassRefusal>,
    count: &mut usize,
    next: &mut usize,
    smoothed: &mut usize,
) -> u8
    ensures { ProgressReturned (pass_outcome answer) (part_outcome answer) result
        count.old next.old smoothed.old count.new next.new smoothed.new }
{
    match answer {
        Ok(done) => {
            *count = done.count;
            *next = done.next;
            *smoothed = done.smoothed;
            0
        }
        Err(refusal) => u8::from(refusal),
    }
}

// Count, next start and positions smoothed go through `count`, `next` and `smoothed`, which a refusal leaves alone.
#[unsafe(no_mangle)]
pub extern "C" fn vp8lf_filter_frame(
    y: &mut [u8],
    u: &mut [u8],
    v: &mut [u8],
    mb_cols: usize,
    mb_rows: usize,
    y_stride: usize,
    uv_stride: usize,
    modes: &[u8],
    segments: &[u8],
    flags: &[u8],
    simple: bool,
    key_frame: bool,
    loop_filter_level: u8,
    sharpness_level: u8,
    segmentation_enabled: bool,
    segment_abs: bool,
    segment_level_0: i16,
    segment_level_1: i16,
    segment_level_2: i16,
    segment_level_3: i16,
    delta_enabled: bool,
    ref_delta_current: i16,
    bpred_mode_delta: i16,
    ref_delta_last: i16,
    ref_delta_golden: i16,
    ref_delta_altref: i16,
    zero_mv_mode_delta: i16,
    other_mv_mode_delta: i16,
    split_mv_mode_delta: i16,
    start: usize,
    allowance: usize,
    count: &mut usize,
    next: &mut usize,
    smoothed: &mut usize,
) -> u8
    ensures { PassReturned key_pass
        (key_call (planes_of y.old u.old v.old) (layout_of mb_cols mb_rows y_stride uv_stride)
        (key_lists modes.now segments.now flags.now)
        (settings_of simple key_frame loop_filter_level sharpness_level segmentation_enabled segment_abs
        segment_level_0 segment_level_1 segment_level_2 segment_level_3 delta_enabled ref_delta_current bpred_mode_delta
        ref_delta_last ref_delta_golden ref_delta_altref zero_mv_mode_delta other_mv_mode_delta split_mv_mode_delta)
        start allowance)
        result (planes_of y.new u.new v.new)
        count.old next.old smoothed.old count.new next.new smoothed.new }
{
    let config = settings(
        simple,
        key_frame,
        loop_filter_level,
        sharpness_level,
        segmentation_enabled,
        segment_abs,
        segment_level_0,
        segment_level_1,
        segment_level_2,
        segment_level_3,
        delta_enabled,
        ref_delta_current,
        bpred_mode_delta,
        ref_delta_last,
        ref_delta_golden,
        ref_delta_altref,
        zero_mv_mode_delta,
        other_mv_mode_delta,
        split_mv_mode_delta,
    );
    let layout = PlaneLayout {
        mb_cols,
        mb_rows,
        y_stride,
        uv_stride,
    };
    let mut picture = PictureMut { y, u, v };
    let key_lists = KeyLists {
        modes,
        segments,
        flags,
    };
    let answer = filter_frame(&mut picture, layout, key_lists, config, start, allowance);
    put_progress(answer, count, next, smoothed)
}

// Count, next start and positions smoothed go through `count`, `next` and `smoothed`, which a refusal leaves alone.
#[unsafe(no_mangle)]
pub extern "C" fn vp8lf_filter_inter_frame(
    y: &mut [u8],
    u: &mut [u8],
    v: &mut [u8],
    mb_cols: usize,
    mb_rows: usize,
    y_stride: usize,
    uv_stride: usize,
    modes: &[u8],
    segments: &[u8],
    flags: &[u8],
    references: &[u8],
    inter_modes: &[u8],
    simple: bool,
    key_frame: bool,
    loop_filter_level: u8,
    sharpness_level: u8,
    segmentation_enabled: bool,
    segment_abs: bool,
    segment_level_0: i16,
    segment_level_1: i16,
    segment_level_2: i16,
    segment_level_3: i16,
    delta_enabled: bool,
    ref_delta_current: i16,
    bpred_mode_delta: i16,
    ref_delta_last: i16,
    ref_delta_golden: i16,
    ref_delta_altref: i16,
    zero_mv_mode_delta: i16,
    other_mv_mode_delta: i16,
    split_mv_mode_delta: i16,
    start: usize,
    allowance: usize,
    count: &mut usize,
    next: &mut usize,
    smoothed: &mut usize,
) -> u8
    ensures { PassReturned inter_pass
        (inter_call (planes_of y.old u.old v.old) (layout_of mb_cols mb_rows y_stride uv_stride)
        (inter_lists modes.now segments.now flags.now references.now inter_modes.now)
        (settings_of simple key_frame loop_filter_level sharpness_level segmentation_enabled segment_abs
        segment_level_0 segment_level_1 segment_level_2 segment_level_3 delta_enabled ref_delta_current bpred_mode_delta
        ref_delta_last ref_delta_golden ref_delta_altref zero_mv_mode_delta other_mv_mode_delta split_mv_mode_delta)
        start allowance)
        result (planes_of y.new u.new v.new)
        count.old next.old smoothed.old count.new next.new smoothed.new }
{
    let config = settings(
        simple,
        key_frame,
        loop_filter_level,
        sharpness_level,
        segmentation_enabled,
        segment_abs,
        segment_level_0,
        segment_level_1,
        segment_level_2,
        segment_level_3,
        delta_enabled,
        ref_delta_current,
        bpred_mode_delta,
        ref_delta_last,
        ref_delta_golden,
        ref_delta_altref,
        zero_mv_mode_delta,
        other_mv_mode_delta,
        split_mv_mode_delta,
    );
    let layout = PlaneLayout {
        mb_cols,
        mb_rows,
        y_stride,
        uv_stride,
    };
    let mut picture = PictureMut { y, u, v };
    let inter_lists = InterLists {
        key: KeyLists {
            modes,
            segments,
            flags,
        },
        references,
        inter_modes,
    };
    let answer = filter_frame(&mut picture, layout, inter_lists, config, start, allowance);
    put_progress(answer, count, next, smoothed)
}

// The key pass, turned off by header level 0: the planes stay, and the macroblocks count
// as done. A refusal leaves `count`, `next` and `smoothed` alone.
#[unsafe(no_mangle)]
pub extern "C" fn vp8lf_loop_filter_frame(
    y: &mut [u8],
    u: &mut [u8],
    v: &mut [u8],
    mb_cols: usize,
    mb_rows: usize,
    y_stride: usize,
    uv_stride: usize,
    modes: &[u8],
    segments: &[u8],
    flags: &[u8],
    simple: bool,
    key_frame: bool,
    loop_filter_level: u8,
    sharpness_level: u8,
    segmentation_enabled: bool,
    segment_abs: bool,
    segment_level_0: i16,
    segment_level_1: i16,
    segment_level_2: i16,
    segment_level_3: i16,
    delta_enabled: bool,
    ref_delta_current: i16,
    bpred_mode_delta: i16,
    ref_delta_last: i16,
    ref_delta_golden: i16,
    ref_delta_altref: i16,
    zero_mv_mode_delta: i16,
    other_mv_mode_delta: i16,
    split_mv_mode_delta: i16,
    start: usize,
    allowance: usize,
    count: &mut usize,
    next: &mut usize,
    smoothed: &mut usize,
) -> u8
    ensures { PassReturned key_frame_pass
        (frame_call key_pass (key_call (planes_of y.old u.old v.old) (layout_of mb_cols mb_rows y_stride uv_stride)
        (key_lists modes.now segments.now flags.now)
        (settings_of simple key_frame loop_filter_level sharpness_level segmentation_enabled segment_abs
        segment_level_0 segment_level_1 segment_level_2 segment_level_3 delta_enabled ref_delta_current bpred_mode_delta
        ref_delta_last ref_delta_golden ref_delta_altref zero_mv_mode_delta other_mv_mode_delta split_mv_mode_delta)
        start allowance))
        result (planes_of y.new u.new v.new)
        count.old next.old smoothed.old count.new next.new smoothed.new }
{
    let config = settings(
        simple,
        key_frame,
        loop_filter_level,
        sharpness_level,
        segmentation_enabled,
        segment_abs,
        segment_level_0,
        segment_level_1,
        segment_level_2,
        segment_level_3,
        delta_enabled,
        ref_delta_current,
        bpred_mode_delta,
        ref_delta_last,
        ref_delta_golden,
        ref_delta_altref,
        zero_mv_mode_delta,
        other_mv_mode_delta,
        split_mv_mode_delta,
    );
    let layout = PlaneLayout {
        mb_cols,
        mb_rows,
        y_stride,
        uv_stride,
    };
    let mut picture = PictureMut { y, u, v };
    let key_lists = KeyLists {
        modes,
        segments,
        flags,
    };
    let answer = loop_filter_frame(&mut picture, layout, key_lists, config, start, allowance);
    put_progress(answer, count, next, smoothed)
}

// The inter pass, turned off by header level 0: the planes stay, and the macroblocks count
// as done. A refusal leaves `count`, `next` and `smoothed` alone.
#[unsafe(no_mangle)]
pub extern "C" fn vp8lf_loop_filter_inter_frame(
    y: &mut [u8],
    u: &mut [u8],
    v: &mut [u8],
    mb_cols: usize,
    mb_rows: usize,
    y_stride: usize,
    uv_stride: usize,
    modes: &[u8],
    segments: &[u8],
    flags: &[u8],
    references: &[u8],
    inter_modes: &[u8],
    simple: bool,
    key_frame: bool,
    loop_filter_level: u8,
    sharpness_level: u8,
    segmentation_enabled: bool,
    segment_abs: bool,
    segment_level_0: i16,
    segment_level_1: i16,
    segment_level_2: i16,
    segment_level_3: i16,
    delta_enabled: bool,
    ref_delta_current: i16,
    bpred_mode_delta: i16,
    ref_delta_last: i16,
    ref_delta_golden: i16,
    ref_delta_altref: i16,
    zero_mv_mode_delta: i16,
    other_mv_mode_delta: i16,
    split_mv_mode_delta: i16,
    start: usize,
    allowance: usize,
    count: &mut usize,
    next: &mut usize,
    smoothed: &mut usize,
) -> u8
    ensures { PassReturned inter_frame_pass
        (frame_call inter_pass (inter_call (planes_of y.old u.old v.old) (layout_of mb_cols mb_rows y_stride uv_stride)
        (inter_lists modes.now segments.now flags.now references.now inter_modes.now)
        (settings_of simple key_frame loop_filter_level sharpness_level segmentation_enabled segment_abs
        segment_level_0 segment_level_1 segment_level_2 segment_level_3 delta_enabled ref_delta_current bpred_mode_delta
        ref_delta_last ref_delta_golden ref_delta_altref zero_mv_mode_delta other_mv_mode_delta split_mv_mode_delta)
        start allowance))
        result (planes_of y.new u.new v.new)
        count.old next.old smoothed.old count.new next.new smoothed.new }
{
    let config = settings(
        simple,
        key_frame,
        loop_filter_level,
        sharpness_level,
        segmentation_enabled,
        segment_abs,
        segment_level_0,
        segment_level_1,
        segment_level_2,
        segment_level_3,
        delta_enabled,
        ref_delta_current,
        bpred_mode_delta,
        ref_delta_last,
        ref_delta_golden,
        ref_delta_altref,
        zero_mv_mode_delta,
        other_mv_mode_delta,
        split_mv_mode_delta,
    );
    let layout = PlaneLayout {
        mb_cols,
        mb_rows,
        y_stride,
        uv_stride,
    };
    let mut picture = PictureMut { y, u, v };
    let inter_lists = InterLists {
        key: KeyLists {
            modes,
            segments,
            flags,
        },
        references,
        inter_modes,
    };
    let answer = loop_filter_frame(&mut picture, layout, inter_lists, config, start, allowance);
    put_progress(answer, count, next, smoothed)
}

// The rows go through `luma` and `chroma`, which a refusal leaves alone.
#[tactic(auto, unfolding(arithmetic::specs::Outcome::number_of, crate::specs::Returned::out_of))]
#[unsafe(no_mangle)]
pub extern "C" fn vp8lf_final_rows(
    mb_cols: usize,
    mb_rows: usize,
    y_stride: usize,
    uv_stride: usize,
    start: usize,
    luma: &mut usize,
    chroma: &mut usize,
) -> u8
    ensures { RowsReturned (final_rows (grid_of (layout_of mb_cols mb_rows y_stride uv_stride)) start)
        result luma.old chroma.old luma.new chroma.new }
{
    let layout = PlaneLayout {
        mb_cols,
        mb_rows,
        y_stride,
        uv_stride,
    };
    match final_rows(layout, start) {
        Ok(rows) => {
            *luma = rows.luma;
            *chroma = rows.chroma;
            0
        }
        Err(refusal) => u8::from(refusal),
    }
}
