// The settings of a frame, from the numbers that a host passes.
ghost use Rattle.std.specs.Prelude.{◌≡◌};
ghost use Rattle.loop_filter.specs.Settings.{settings_of};

use levels::config::FrameFilterConfig;

pub fn settings(
    simple: bool,
    key_frame: bool,
    loop_filter_level: u8,
    sharpness_level: u8,
    segmentation_enabled: bool,
    segment_abs: bool,
    segment_level_0: i16,
    segment_level_1: i16,
    segment_level_2: i16,
    segment_level_3: i16,
    delta_enabled: bool,
    ref_delta_current: i16,
    bpred_mode_delta: i16,
    ref_delta_last: i16,
    ref_delta_golden: i16,
    ref_delta_altref: i16,
    zero_mv_mode_delta: i16,
    other_mv_mode_delta: i16,
    split_mv_mode_delta: i16,
) -> FrameFilterConfig
    ensures { result
        ≡ settings_of simple key_frame loop_filter_level sharpness_level segmentation_enabled segment_abs
        segment_level_0 segment_level_1 segment_level_2 segment_level_3 delta_enabled ref_delta_current bpred_mode_delta
        ref_delta_last ref_delta_golden ref_delta_altref zero_mv_mode_delta other_mv_mode_delta split_mv_mode_delta }
{
    let segment_lf_level = [
        segment_level_0,
        segment_level_1,
        segment_level_2,
        segment_level_3,
    ];
    FrameFilterConfig {
        simple,
        key_frame,
        loop_filter_level,
        sharpness_level,
        segmentation_enabled,
        segment_abs,
        segment_lf_level,
        delta_enabled,
        ref_delta_current,
        bpred_mode_delta,
        ref_delta_last,
        ref_delta_golden,
        ref_delta_altref,
        zero_mv_mode_delta,
        other_mv_mode_delta,
        split_mv_mode_delta,
    }
}
