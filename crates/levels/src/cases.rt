// The case that a byte of an entry stands for, or refusal 6 (document 01, Option lists).
ghost use Rattle.std.specs.Prelude.{◌≡◌};
ghost use Rattle.levels.specs.Encodings.{reference_case, inter_mode_case, mode_of, reference_of, inter_mode_of};

use crate::answers::LevelRefusal;
use crate::modes::{InterMode, IntraYMode, RefFrame};

// By hand: std derives no TryFrom for an enum.
impl TryFrom<u8> for IntraYMode {
    type Error = LevelRefusal;

    ghost use Rattle.std.specs.Prelude.{◌≡◌};
    ghost use Rattle.levels.specs.Encodings.{mode_case};

    ghost try_from_gives = { λ byte r. r ≡ mode_case byte };

    #[tactic(auto, unfolding(crate::specs::Encodings::mode_case))]
    fn try_from(byte: u8) -> Result<IntraYMode, LevelRefusal> {
        match byte {
            0 => Ok(IntraYMode::Dc),
            1 => Ok(IntraYMode::V),
            2 => Ok(IntraYMode::H),
            3 => Ok(IntraYMode::Tm),
            4 => Ok(IntraYMode::B),
            5.. => Err(LevelRefusal::BadEntry),
        }
    }
}

// 0 stands for no reference. No TryFrom: an impl of it for an Option is only std's to write.
#[tactic(auto, unfolding(crate::specs::Encodings::reference_case))]
pub fn reference_case(byte: u8) -> Result<Option<RefFrame>, LevelRefusal>
    ensures { result ≡ reference_case byte }
{
    match byte {
        0 => Ok(None),
        1 => Ok(Some(RefFrame::Last)),
        2 => Ok(Some(RefFrame::Golden)),
        3 => Ok(Some(RefFrame::AltRef)),
        4.. => Err(LevelRefusal::BadEntry),
    }
}

// 0 stands for no inter mode. No TryFrom either.
#[tactic(auto, unfolding(crate::specs::Encodings::inter_mode_case))]
pub fn inter_mode_case(byte: u8) -> Result<Option<InterMode>, LevelRefusal>
    ensures { result ≡ inter_mode_case byte }
{
    match byte {
        0 => Ok(None),
        1 => Ok(Some(InterMode::Zero)),
        2 => Ok(Some(InterMode::Nearest)),
        3 => Ok(Some(InterMode::Near)),
        4 => Ok(Some(InterMode::New)),
        5 => Ok(Some(InterMode::Split)),
        6.. => Err(LevelRefusal::BadEntry),
    }
}

// The case of a byte that 6 has passed. The definitions on all numbers (`mode_of` and its kin) count a byte without a case as the last
// case, and so do these; each names the decoding and the last case of its type.
#[tactic(auto, using(crate::proofs::Encodings::mode_or_last))]
pub fn mode_of(byte: u8) -> IntraYMode
    ensures { result ≡ mode_of byte }
{
    IntraYMode::try_from(byte).unwrap_or(IntraYMode::B)
}

#[tactic(auto, using(crate::proofs::Encodings::reference_or_last))]
pub fn reference_of(byte: u8) -> Option<RefFrame>
    ensures { result ≡ reference_of byte }
{
    reference_case(byte).unwrap_or(Some(RefFrame::AltRef))
}

#[tactic(auto, using(crate::proofs::Encodings::inter_mode_or_last))]
pub fn inter_mode_of(byte: u8) -> Option<InterMode>
    ensures { result ≡ inter_mode_of byte }
{
    inter_mode_case(byte).unwrap_or(Some(InterMode::Split))
}
