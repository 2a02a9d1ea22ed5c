// RFC 6386, section 20.6, calculate_filter_parameters: the level of a macroblock.
ghost use Rattle.std.specs.Prelude.{◌≡◌, pos};
ghost use Rattle.levels.specs.Levels as spec;
ghost use Rattle.levels.specs.Answers.{level_outcome};

use crate::answers::LevelRefusal;
use crate::cases::{inter_mode_case, reference_case};
use crate::config::FrameFilterConfig;
use crate::modes::{InterMode, IntraYMode, Prediction, RefFrame};
use arithmetic::limits::LoopFilterParams;

// Limits to 0..63.
#[tactic(auto, using(crate::proofs::Levels::level_limits))]
fn clamp_level(v: i32) -> u8
    ensures { pos result ≡ spec.clamp_level v }
{
    v.clamp(
        i32::from(LoopFilterParams::MIN_LEVEL),
        i32::from(LoopFilterParams::MAX_LEVEL),
    ) as u8
}

impl FrameFilterConfig {
    // What the settings hold for the segment. A segment above 3 counts as 3.
    #[tactic(auto, unfolding(crate::specs::Levels::segment_number))]
    fn segment_number(self, segment: u8) -> i16
        ensures { result ≡ spec.segment_number self segment }
    {
        self.segment_lf_level[usize::from(segment).min(LoopFilterParams::SEGMENTS - 1)]
    }

    // With segmentation: the segment's number replaces the header's level, or is added to it.
    #[tactic(auto, unfolding(crate::specs::Levels::level_in_segment))]
    fn level_in_segment(self, segment: u8) -> i32
        ensures { result ≡ spec.level_in_segment self segment }
    {
        let number = i32::from(self.segment_number(segment));
        if self.segment_abs {
            number
        } else {
            i32::from(self.loop_filter_level) + number
        }
    }

    // The level before the first clamp.
    #[tactic(auto, unfolding(crate::specs::Levels::base_level))]
    fn base_level(self, segment: u8) -> i32
        ensures { result ≡ spec.base_level self segment }
    {
        if self.segmentation_enabled {
            self.level_in_segment(segment)
        } else {
            i32::from(self.loop_filter_level)
        }
    }

    // The level after the first clamp.
    #[tactic(auto, unfolding(crate::specs::Levels::segment_level))]
    fn segment_level(self, segment: u8) -> u8
        ensures { pos result ≡ spec.segment_level self segment }
    {
        clamp_level(self.base_level(segment))
    }

    // Without a reference the current frame's delta, else that of Last, Golden or AltRef.
    #[tactic(auto, unfolding(crate::specs::Levels::ref_delta))]
    fn ref_delta(self, reference: Option<RefFrame>) -> i16
        ensures { result ≡ spec.ref_delta self reference }
    {
        match reference {
            None => self.ref_delta_current,
            Some(RefFrame::Last) => self.ref_delta_last,
            Some(RefFrame::Golden) => self.ref_delta_golden,
            Some(RefFrame::AltRef) => self.ref_delta_altref,
        }
    }

    // Of a macroblock with no reference: the B delta if the mode is B.
    #[tactic(auto, unfolding(crate::specs::Levels::intra_mode_delta))]
    fn intra_mode_delta(self, mode: IntraYMode) -> i16
        ensures { result ≡ spec.intra_mode_delta self mode }
    {
        match mode {
            IntraYMode::Dc | IntraYMode::V | IntraYMode::H | IntraYMode::Tm => 0,
            IntraYMode::B => self.bpred_mode_delta,
        }
    }

    // Of a macroblock with a reference: the Zero, the Split or the other delta.
    #[tactic(auto, unfolding(crate::specs::Levels::inter_mode_delta))]
    fn inter_mode_delta(self, inter_mode: Option<InterMode>) -> i16
        ensures { result ≡ spec.inter_mode_delta self inter_mode }
    {
        match inter_mode {
            Some(InterMode::Zero) => self.zero_mv_mode_delta,
            Some(InterMode::Split) => self.split_mv_mode_delta,
            Some(InterMode::Nearest | InterMode::Near | InterMode::New) | None => {
                self.other_mv_mode_delta
            }
        }
    }

    #[tactic(auto, unfolding(crate::specs::Levels::mode_delta))]
    fn mode_delta(self, prediction: Prediction) -> i16
        ensures { result ≡ spec.mode_delta self prediction.reference prediction.inter_mode prediction.mode }
    {
        match prediction.reference {
            None => self.intra_mode_delta(prediction.mode),
            Some(_) => self.inter_mode_delta(prediction.inter_mode),
        }
    }

    // The level before the second clamp.
    #[tactic(auto, unfolding(crate::specs::Levels::adjusted_level))]
    fn adjusted_level(self, segment: u8, prediction: Prediction) -> i32
        ensures { result ≡ spec.adjusted_level self segment prediction.reference prediction.inter_mode prediction.mode }
    {
        let level = self.segment_level(segment);
        let by_reference = self.ref_delta(prediction.reference);
        let by_mode = self.mode_delta(prediction);
        if self.delta_enabled {
            level as i32 + by_reference as i32 + by_mode as i32
        } else {
            level as i32
        }
    }

    // The inter level.
    #[tactic(auto, unfolding(crate::specs::Levels::inter_level))]
    pub fn mb_level(self, segment: u8, prediction: Prediction) -> u8
        ensures { result ≡ spec.inter_level self segment prediction.reference prediction.inter_mode prediction.mode }
    {
        clamp_level(self.adjusted_level(segment, prediction))
    }

    // The key level: that of a macroblock with no reference.
    #[tactic(auto, using(crate::proofs::Levels::inter_at_none))]
    pub fn key_mb_level(self, segment: u8, mode: IntraYMode) -> u8
        ensures { result ≡ spec.key_level self segment mode }
    {
        let prediction = Prediction {
            mode,
            reference: None,
            inter_mode: None,
        };
        self.mb_level(segment, prediction)
    }
}

// The key level, or refusal 6: mode above 4.
#[tactic(auto, using(crate::proofs::Levels::key_refuses, crate::proofs::Levels::key_gives))]
pub fn calculate_mb_filter_level(
    config: FrameFilterConfig,
    segment: u8,
    mode: u8,
) -> Result<u8, LevelRefusal>
    ensures { level_outcome result ≡ spec.key_answer config segment mode }
{
    let mode = IntraYMode::try_from(mode)?;
    let key_level = config.key_mb_level(segment, mode);
    Ok(key_level)
}

// The inter level, or refusal 6: mode above 4, reference above 3 or inter mode above 5. Apart from the key level, whose callers have no
// reference and no inter mode to give: by this one it would decode two bytes that stand for none.
#[tactic(auto, using(crate::proofs::Levels::mode_refuses, crate::proofs::Levels::reference_refuses, crate::proofs::Levels::inter_refuses, crate::proofs::Levels::inter_gives))]
pub fn calculate_mb_filter_level_inter(
    config: FrameFilterConfig,
    segment: u8,
    reference: u8,
    inter_mode: u8,
    mode: u8,
) -> Result<u8, LevelRefusal>
    ensures { level_outcome result ≡ spec.inter_answer config segment reference inter_mode mode }
{
    let mode = IntraYMode::try_from(mode)?;
    let reference = reference_case(reference)?;
    let inter_mode = inter_mode_case(inter_mode)?;
    let prediction = Prediction {
        mode,
        reference,
        inter_mode,
    };
    let level = config.mb_level(segment, prediction);
    Ok(level)
}
