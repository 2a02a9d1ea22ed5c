// C functions: numbers and limits.
ghost use Rattle.std.specs.Prelude.{◌≡◌};
ghost use Rattle.arithmetic.specs.Numbers as num;
ghost use Rattle.arithmetic.specs.Limits as limits;
ghost use Rattle.limit_table.specs.InteriorLimits.{bytes_taken, with_bytes};

use arithmetic::limits::LoopFilterParams;

#[unsafe(no_mangle)]
pub extern "C" fn vp8lf_clamp_s8(v: i32) -> i8
    ensures { result ≡ num.clamp v }
{
    arithmetic::numbers::clamp_s8(v)
}

#[unsafe(no_mangle)]
pub extern "C" fn vp8lf_u2s(v: u8) -> i8
    ensures { result ≡ num.u2s v }
{
    arithmetic::numbers::u2s(v)
}

#[unsafe(no_mangle)]
pub extern "C" fn vp8lf_s2u(v: i32) -> u8
    ensures { result ≡ num.s2u v }
{
    arithmetic::numbers::s2u(v)
}

#[unsafe(no_mangle)]
pub extern "C" fn vp8lf_derive(
    loop_filter_level: u8,
    sharpness_level: u8,
    key_frame: bool,
    interior_limit: &mut u8,
    hev_threshold: &mut u8,
    mbedge_limit: &mut u8,
    sub_bedge_limit: &mut u8,
)
    ensures interior_limit_after { interior_limit.new ≡ (limits.derive loop_filter_level sharpness_level key_frame).interior_limit }
    ensures hev_threshold_after { hev_threshold.new ≡ (limits.derive loop_filter_level sharpness_level key_frame).hev_threshold }
    ensures mbedge_limit_after { mbedge_limit.new ≡ (limits.derive loop_filter_level sharpness_level key_frame).mbedge_limit }
    ensures sub_bedge_limit_after { sub_bedge_limit.new ≡ (limits.derive loop_filter_level sharpness_level key_frame).sub_bedge_limit }
{
    let p = LoopFilterParams::derive(loop_filter_level, sharpness_level, key_frame);
    *interior_limit = p.interior_limit;
    *hev_threshold = p.hev_threshold;
    *mbedge_limit = p.mbedge_limit;
    *sub_bedge_limit = p.sub_bedge_limit;
}

// Writes the first bytes of the table of interior limits, as many as the buffer takes, and returns how many.
#[unsafe(no_mangle)]
pub extern "C" fn vp8lf_interior_limits(limits: &mut [u8]) -> usize
    ensures value { result ≡ bytes_taken limits.old }
    ensures limits_after { limits.new ≡ with_bytes limits.old }
{
    limit_table::table::copy_interior_limits(limits)
}
