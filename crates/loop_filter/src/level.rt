// C functions: the level of a macroblock, the coefficient test, and the first coefficient's place. Settings cross as numbers.
ghost use Rattle.std.specs.Prelude.{◌≡◌};
ghost use Rattle.arithmetic.specs.Outcome.{number_of};
ghost use Rattle.levels.specs.Levels.{key_answer, inter_answer};
ghost use Rattle.levels.specs.Coefficients.{has_coeffs, first_coeff};
ghost use Rattle.loop_filter.specs.Returned.{Returned};
ghost use Rattle.loop_filter.specs.Settings.{settings_of};

use crate::settings::settings;

// The level goes through `level`, which a refusal leaves alone.
#[unsafe(no_mangle)]
pub extern "C" fn vp8lf_calculate_mb_filter_level(
    simple: bool,
    key_frame: bool,
    loop_filter_level: u8,
    sharpness_level: u8,
    segmentation_enabled: bool,
    segment_abs: bool,
    segment_level_0: i16,
    segment_level_1: i16,
    segment_level_2: i16,
    segment_level_3: i16,
    delta_enabled: bool,
    ref_delta_current: i16,
    bpred_mode_delta: i16,
    ref_delta_last: i16,
    ref_delta_golden: i16,
    ref_delta_altref: i16,
    zero_mv_mode_delta: i16,
    other_mv_mode_delta: i16,
    split_mv_mode_delta: i16,
    segment: u8,
    mode: u8,
    level: &mut u8,
) -> u8
    ensures { Returned
        (key_answer
        (settings_of simple key_frame loop_filter_level sharpness_level segmentation_enabled segment_abs
        segment_level_0 segment_level_1 segment_level_2 segment_level_3 delta_enabled ref_delta_current bpred_mode_delta
        ref_delta_last ref_delta_golden ref_delta_altref zero_mv_mode_delta other_mv_mode_delta split_mv_mode_delta)
        segment mode)
        result level.old level.new }
{
    let config = settings(
        simple,
        key_frame,
        loop_filter_level,
        sharpness_level,
        segmentation_enabled,
        segment_abs,
        segment_level_0,
        segment_level_1,
        segment_level_2,
        segment_level_3,
        delta_enabled,
        ref_delta_current,
        bpred_mode_delta,
        ref_delta_last,
        ref_delta_golden,
        ref_delta_altref,
        zero_mv_mode_delta,
        other_mv_mode_delta,
        split_mv_mode_delta,
    );
    match levels::level::calculate_mb_filter_level(config, segment, mode) {
        Ok(n) => {
            *level = n;
            0
        }
        Err(refusal) => u8::from(refusal),
    }
}

// The level goes through `level`, which a refusal leaves alone.
#[unsafe(no_mangle)]
pub extern "C" fn vp8lf_calculate_mb_filter_level_inter(
    simple: bool,
    key_frame: bool,
    loop_filter_level: u8,
    sharpness_level: u8,
    segmentation_enabled: bool,
    segment_abs: bool,
    segment_level_0: i16,
    segment_level_1: i16,
    segment_level_2: i16,
    segment_level_3: i16,
    delta_enabled: bool,
    ref_delta_current: i16,
    bpred_mode_delta: i16,
    ref_delta_last: i16,
    ref_delta_golden: i16,
    ref_delta_altref: i16,
    zero_mv_mode_delta: i16,
    other_mv_mode_delta: i16,
    split_mv_mode_delta: i16,
    segment: u8,
    reference: u8,
    inter_mode: u8,
    mode: u8,
    level: &mut u8,
) -> u8
    ensures { Returned
        (inter_answer
        (settings_of simple key_frame loop_filter_level sharpness_level segmentation_enabled segment_abs
        segment_level_0 segment_level_1 segment_level_2 segment_level_3 delta_enabled ref_delta_current bpred_mode_delta
        ref_delta_last ref_delta_golden ref_delta_altref zero_mv_mode_delta other_mv_mode_delta split_mv_mode_delta)
        segment reference inter_mode mode)
        result level.old level.new }
{
    let config = settings(
        simple,
        key_frame,
        loop_filter_level,
        sharpness_level,
        segmentation_enabled,
        segment_abs,
        segment_level_0,
        segment_level_1,
        segment_level_2,
        segment_level_3,
        delta_enabled,
        ref_delta_current,
        bpred_mode_delta,
        ref_delta_last,
        ref_delta_golden,
        ref_delta_altref,
        zero_mv_mode_delta,
        other_mv_mode_delta,
        split_mv_mode_delta,
    );
    match levels::level::calculate_mb_filter_level_inter(
        config, segment, reference, inter_mode, mode,
    ) {
        Ok(n) => {
            *level = n;
            0
        }
        Err(refusal) => u8::from(refusal),
    }
}

#[unsafe(no_mangle)]
pub extern "C" fn vp8lf_mb_has_coeffs(coeffs: &[i16]) -> bool
    ensures { result ≡ has_coeffs coeffs.now }
{
    levels::coeffs::mb_has_coeffs(coeffs)
}

#[unsafe(no_mangle)]
pub extern "C" fn vp8lf_first_coeff(coeffs: &[i16]) -> usize
    ensures { result ≡ first_coeff coeffs.now }
{
    levels::coeffs::first_coeff(coeffs)
}
