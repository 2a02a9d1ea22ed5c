// C functions: the full search for stills. Settings cross as numbers.
ghost use Rattle.planes.specs.Layout.{planes_of};
ghost use Rattle.calls.specs.Pass.{key_pass, inter_pass};
ghost use Rattle.calls.specs.PassCalls.{key_lists, inter_lists};
ghost use Rattle.sums.specs.Source.{source_of};
ghost use Rattle.search.specs.Search.{key_search, inter_search};
ghost use Rattle.stills.specs.Answers.{full_outcome};
ghost use Rattle.loop_filter.specs.Returned.{FullChoiceReturned, FullSearchReturned};
ghost use Rattle.loop_filter.specs.Settings.{settings_of, layout_of};

use crate::settings::settings;
use frame::entries::{InterLists, KeyLists};
use planes::layout::PlaneLayout;
use planes::picture::{Picture, PictureMut};
use search::input::SearchInput;
use stills::answers::Best;
use stills::full_search::full_search;
use sums::answers::SearchRefusal;
use sums::source::SourcePlanes;

// Returns 0 and puts the chosen pair and its sum, or returns the number of the refusal. Beside `put_choice`: see there.
#[tactic(auto, unfolding(arithmetic::specs::Outcome::number_of, crate::specs::Returned::out_of))]
fn put_full_choice(
    answer: Result<Best, SearchRefusal>,
    level: &mut u8,
    sharpness: &mut u8,
    sum: &mut u64,
) -> u8
    ensures { FullChoiceReturned (full_outcome answer)
        result level.old sharpness.old sum.old level.new sharpness.new sum.new }
{
    match answer {
        Ok(best) => {
            *level = best.pair.level;
            *sharpness = best.pair.sharpness;
            *sum = best.sum;
            0
        }
        Err(refusal) => u8::from(refusal),
    }
}

// What is chosen, and its sum, go through the last parameters, which a refusal leaves alone.
#[unsafe(no_mangle)]
pub extern "C" fn vp8lf_full_search<'s>(
    y: &[u8],
    u: &[u8],
    v: &[u8],
    mb_cols: usize,
    mb_rows: usize,
    y_stride: usize,
    uv_stride: usize,
    src_y: &'s [u8],
    src_u: &'s [u8],
    src_v: &'s [u8],
    width: usize,
    height: usize,
    src_y_stride: usize,
    src_uv_stride: usize,
    modes: &[u8],
    segments: &[u8],
    flags: &[u8],
    simple: bool,
    key_frame: bool,
    loop_filter_level: u8,
    sharpness_level: u8,
    segmentation_enabled: bool,
    segment_abs: bool,
    segment_level_0: i16,
    segment_level_1: i16,
    segment_level_2: i16,
    segment_level_3: i16,
    delta_enabled: bool,
    ref_delta_current: i16,
    bpred_mode_delta: i16,
    ref_delta_last: i16,
    ref_delta_golden: i16,
    ref_delta_altref: i16,
    zero_mv_mode_delta: i16,
    other_mv_mode_delta: i16,
    split_mv_mode_delta: i16,
    scratch_y: &mut [u8],
    scratch_u: &mut [u8],
    scratch_v: &mut [u8],
    level: &mut u8,
    sharpness: &mut u8,
    sum: &mut u64,
) -> u8
    ensures { FullSearchReturned key_pass
        (key_search (layout_of mb_cols mb_rows y_stride uv_stride)
        (settings_of simple key_frame loop_filter_level sharpness_level segmentation_enabled segment_abs
        segment_level_0 segment_level_1 segment_level_2 segment_level_3 delta_enabled ref_delta_current bpred_mode_delta
        ref_delta_last ref_delta_golden ref_delta_altref zero_mv_mode_delta other_mv_mode_delta split_mv_mode_delta)
        (key_lists modes.now segments.now flags.now)
        (planes_of y.now u.now v.now)
        (planes_of scratch_y.old scratch_u.old scratch_v.old)
        (source_of width height src_y.now src_u.now src_v.now src_y_stride src_uv_stride))
        result (planes_of scratch_y.new scratch_u.new scratch_v.new)
        level.old sharpness.old sum.old level.new sharpness.new sum.new }
{
    let config = settings(
        simple,
        key_frame,
        loop_filter_level,
        sharpness_level,
        segmentation_enabled,
        segment_abs,
        segment_level_0,
        segment_level_1,
        segment_level_2,
        segment_level_3,
        delta_enabled,
        ref_delta_current,
        bpred_mode_delta,
        ref_delta_last,
        ref_delta_golden,
        ref_delta_altref,
        zero_mv_mode_delta,
        other_mv_mode_delta,
        split_mv_mode_delta,
    );
    let layout = PlaneLayout {
        mb_cols,
        mb_rows,
        y_stride,
        uv_stride,
    };
    let input = SearchInput {
        picture: Picture { y, u, v },
        layout,
        config,
        source: SourcePlanes {
            width,
            height,
            y: src_y,
            u: src_u,
            v: src_v,
            y_stride: src_y_stride,
            uv_stride: src_uv_stride,
        },
    };
    let mut scratch = PictureMut {
        y: scratch_y,
        u: scratch_u,
        v: scratch_v,
    };
    let key_lists = KeyLists {
        modes,
        segments,
        flags,
    };
    let answer = full_search(input, key_lists, &mut scratch);
    put_full_choice(answer, level, sharpness, sum)
}

// What is chosen, and its sum, go through the last parameters, which a refusal leaves alone.
#[unsafe(no_mangle)]
pub extern "C" fn vp8lf_full_search_inter<'s>(
    y: &[u8],
    u: &[u8],
    v: &[u8],
    mb_cols: usize,
    mb_rows: usize,
    y_stride: usize,
    uv_stride: usize,
    src_y: &'s [u8],
    src_u: &'s [u8],
    src_v: &'s [u8],
    width: usize,
    height: usize,
    src_y_stride: usize,
    src_uv_stride: usize,
    modes: &[u8],
    segments: &[u8],
    flags: &[u8],
    references: &[u8],
    inter_modes: &[u8],
    simple: bool,
    key_frame: bool,
    loop_filter_level: u8,
    sharpness_level: u8,
    segmentation_enabled: bool,
    segment_abs: bool,
    segment_level_0: i16,
    segment_level_1: i16,
    segment_level_2: i16,
    segment_level_3: i16,
    delta_enabled: bool,
    ref_delta_current: i16,
    bpred_mode_delta: i16,
    ref_delta_last: i16,
    ref_delta_golden: i16,
    ref_delta_altref: i16,
    zero_mv_mode_delta: i16,
    other_mv_mode_delta: i16,
    split_mv_mode_delta: i16,
    scratch_y: &mut [u8],
    scratch_u: &mut [u8],
    scratch_v: &mut [u8],
    level: &mut u8,
    sharpness: &mut u8,
    sum: &mut u64,
) -> u8
    ensures { FullSearchReturned inter_pass
        (inter_search (layout_of mb_cols mb_rows y_stride uv_stride)
        (settings_of simple key_frame loop_filter_level sharpness_level segmentation_enabled segment_abs
        segment_level_0 segment_level_1 segment_level_2 segment_level_3 delta_enabled ref_delta_current bpred_mode_delta
        ref_delta_last ref_delta_golden ref_delta_altref zero_mv_mode_delta other_mv_mode_delta split_mv_mode_delta)
        (inter_lists modes.now segments.now flags.now references.now inter_modes.now)
        (planes_of y.now u.now v.now)
        (planes_of scratch_y.old scratch_u.old scratch_v.old)
        (source_of width height src_y.now src_u.now src_v.now src_y_stride src_uv_stride))
        result (planes_of scratch_y.new scratch_u.new scratch_v.new)
        level.old sharpness.old sum.old level.new sharpness.new sum.new }
{
    let config = settings(
        simple,
        key_frame,
        loop_filter_level,
        sharpness_level,
        segmentation_enabled,
        segment_abs,
        segment_level_0,
        segment_level_1,
        segment_level_2,
        segment_level_3,
        delta_enabled,
        ref_delta_current,
        bpred_mode_delta,
        ref_delta_last,
        ref_delta_golden,
        ref_delta_altref,
        zero_mv_mode_delta,
        other_mv_mode_delta,
        split_mv_mode_delta,
    );
    let layout = PlaneLayout {
        mb_cols,
        mb_rows,
        y_stride,
        uv_stride,
    };
    let input = SearchInput {
        picture: Picture { y, u, v },
        layout,
        config,
        source: SourcePlanes {
            width,
            height,
            y: src_y,
            u: src_u,
            v: src_v,
            y_stride: src_y_stride,
            uv_stride: src_uv_stride,
        },
    };
    let mut scratch = PictureMut {
        y: scratch_y,
        u: scratch_u,
        v: scratch_v,
    };
    let inter_lists = InterLists {
        key: KeyLists {
            modes,
            segments,
            flags,
        },
        references,
        inter_modes,
    };
    let answer = full_search(input, inter_lists, &mut scratch);
    put_full_choice(answer, level, sharpness, sum)
}
