// The settings of a frame's loop filter (RFC 6386, sections 9.3 and 9.4).
use arithmetic::limits::LoopFilterParams;

// The default of each is 0 or off.
#[derive(Clone, Copy, Default)]
pub struct FrameFilterConfig {
    // filter_type: the simple filter, else the normal one.
    pub simple: bool,
    pub key_frame: bool,
    pub loop_filter_level: u8,
    pub sharpness_level: u8,
    // Flag and numbers apart, here and below, as the Rust has them and the C functions pass them.
    pub segmentation_enabled: bool,
    // A segment's number replaces the header's level, else it is added to it.
    pub segment_abs: bool,
    pub segment_lf_level: [i16; LoopFilterParams::SEGMENTS],
    // loop_filter_adj_enable: the deltas below are added.
    pub delta_enabled: bool,
    // ref_delta[CURRENT_FRAME], for a macroblock with no reference.
    pub ref_delta_current: i16,
    // mode_delta[0].
    pub bpred_mode_delta: i16,
    pub ref_delta_last: i16,
    pub ref_delta_golden: i16,
    pub ref_delta_altref: i16,
    // mode_delta[1].
    pub zero_mv_mode_delta: i16,
    // mode_delta[2].
    pub other_mv_mode_delta: i16,
    // mode_delta[3].
    pub split_mv_mode_delta: i16,
}
