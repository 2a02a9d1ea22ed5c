// Why a level is refused, with its number in document 01: a byte of an entry stands for no case.
#[derive(Clone, Copy, Debug, PartialEq, Eq)]
pub enum LevelRefusal {
    BadEntry = 6,
}

impl From<LevelRefusal> for u8 {
    ghost use Rattle.std.specs.Prelude.{◌≡◌};
    ghost use Rattle.levels.specs.Answers.{level_refusal_number};

    ghost from_gives = { λ refusal n. n ≡ level_refusal_number refusal };

    fn from(refusal: LevelRefusal) -> u8 {
        refusal as u8
    }
}
