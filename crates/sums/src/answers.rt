// The refusals of sums and searches (document 01, Search).
use planes::grid::GridRefusal;

// Each has its number in document 01: other numbers than a pass has, 8 to 10 and neither 5 nor 7. A sum reads no entry and never gives 6.
#[derive(Clone, Copy, Debug, PartialEq, Eq)]
pub enum SearchRefusal {
    TooLarge = 1,
    BadStrides = 2,
    ShortPlane = 3,
    BadEntry = 6,
    SourceTooLarge = 8,
    BadSource = 9,
    SumTooLarge = 10,
}

impl From<SearchRefusal> for u8 {
    ghost use Rattle.std.specs.Prelude.{◌≡◌};
    ghost use Rattle.sums.specs.Answers.{search_refusal_number};

    ghost from_gives = { λ refusal n. n ≡ search_refusal_number refusal };

    fn from(refusal: SearchRefusal) -> u8 {
        refusal as u8
    }
}

// Names the cases of its own enum, as that of calls does.
impl From<GridRefusal> for SearchRefusal {
    ghost use Rattle.std.specs.Prelude.{◌≡◌};
    ghost use Rattle.sums.specs.GridToSearch.{of_grid};

    ghost from_gives = { λ refusal r. r ≡ of_grid refusal };

    fn from(refusal: GridRefusal) -> SearchRefusal {
        match refusal {
            GridRefusal::TooLarge => SearchRefusal::TooLarge,
            GridRefusal::BadStrides => SearchRefusal::BadStrides,
            GridRefusal::ShortPlane => SearchRefusal::ShortPlane,
        }
    }
}
