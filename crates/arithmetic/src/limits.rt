// RFC 6386, section 15.4: the limits of one macroblock.
ghost use Rattle.std.specs.Prelude.{◌≡◌};
ghost use Rattle.arithmetic.specs.Limits as spec;

#[derive(Clone, Copy)]
pub struct LoopFilterParams {
    pub interior_limit: u8,
    pub hev_threshold: u8,
    pub mbedge_limit: u8,
    pub sub_bedge_limit: u8,
}

#[tactic(auto, unfolding(crate::specs::Limits::interior_limit, crate::specs::Limits::at_least_one))]
pub fn interior_limit(level: u8, sharpness: u8) -> u8
    ensures { result ≡ spec.interior_limit level sharpness }
{
    if sharpness == 0 {
        return level.max(1);
    }
    let shifted = if sharpness > 4 {
        level >> 2
    } else {
        level >> 1
    };
    shifted.min(9u8.saturating_sub(sharpness)).max(1)
}

#[tactic(auto, unfolding(crate::specs::Limits::hev_threshold))]
fn hev_threshold(level: u8, key: bool) -> u8
    ensures { result ≡ spec.hev_threshold level key }
{
    if key {
        if level >= 40 {
            return 2;
        }
        if level >= 15 {
            return 1;
        }
        return 0;
    }
    if level >= 40 {
        return 3;
    }
    if level >= 20 {
        return 2;
    }
    if level >= 15 {
        return 1;
    }
    0
}

impl LoopFilterParams {
    // Segments of a picture, and the limits of a level.
    pub const SEGMENTS: usize = 4;

    pub const MIN_LEVEL: u8 = 0;

    pub const MAX_LEVEL: u8 = 63;

    // The four limits, from an interior limit that is given.
    #[tactic(auto, unfolding(crate::specs::Limits::with_interior, crate::specs::Limits::mbedge_limit, crate::specs::Limits::sub_bedge_limit))]
    pub fn with_interior(level: u8, interior: u8, key: bool) -> LoopFilterParams
        ensures { result ≡ spec.with_interior level interior key }
    {
        let threshold = hev_threshold(level, key);
        let macroblock = ((level as u16 + 2) * 2 + interior as u16).min(255) as u8;
        let inner = (level as u16 * 2 + interior as u16).min(255) as u8;
        LoopFilterParams {
            interior_limit: interior,
            hev_threshold: threshold,
            mbedge_limit: macroblock,
            sub_bedge_limit: inner,
        }
    }

    #[tactic(auto, unfolding(crate::specs::Limits::derive))]
    pub fn derive(loop_filter_level: u8, sharpness_level: u8, key_frame: bool) -> LoopFilterParams
        ensures { result ≡ spec.derive loop_filter_level sharpness_level key_frame }
    {
        LoopFilterParams::with_interior(
            loop_filter_level,
            interior_limit(loop_filter_level, sharpness_level),
            key_frame,
        )
    }
}
