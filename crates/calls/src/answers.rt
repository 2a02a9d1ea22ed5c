// What the passes answer. `specs/Answers.antt` gives each answer its values in document 01.
use planes::grid::GridRefusal;

// Why a pass is refused, with its number in document 01.
#[derive(Clone, Copy, Debug, PartialEq, Eq)]
pub enum PassRefusal {
    TooLarge = 1,
    BadStrides = 2,
    ShortPlane = 3,
    WrongLength = 5,
    BadEntry = 6,
    StartBeyond = 7,
}

// The count of macroblocks done, the next start, and how many positions were smoothed.
#[derive(Clone, Copy, Debug, Default, PartialEq, Eq)]
pub struct Done {
    pub count: usize,
    pub next: usize,
    pub smoothed: usize,
}

impl From<PassRefusal> for u8 {
    ghost use Rattle.std.specs.Prelude.{◌≡◌};
    ghost use Rattle.calls.specs.Answers.{pass_refusal_number};

    ghost from_gives = { λ refusal n. n ≡ pass_refusal_number refusal };

    #[tactic(auto, unfolding(crate::specs::Answers::pass_refusal_number))]
    fn from(refusal: PassRefusal) -> u8 {
        refusal as u8
    }
}

impl From<GridRefusal> for PassRefusal {
    ghost use Rattle.std.specs.Prelude.{◌≡◌};
    ghost use Rattle.calls.specs.GridToPass.{of_grid};

    ghost from_gives = { λ refusal r. r ≡ of_grid refusal };

    fn from(refusal: GridRefusal) -> PassRefusal {
        match refusal {
            GridRefusal::TooLarge => PassRefusal::TooLarge,
            GridRefusal::BadStrides => PassRefusal::BadStrides,
            GridRefusal::ShortPlane => PassRefusal::ShortPlane,
        }
    }
}
