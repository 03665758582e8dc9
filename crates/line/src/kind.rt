// The kind of record that a line has, by its letter.
ghost use Rattle.std.specs.Prelude.{◌≡◌, MatchOption};
ghost use Rattle.line.specs.Grammar.{count_of};
ghost use Rattle.line.specs.Kind.{kind_letter};
ghost use Rattle.line.specs.Reading.{wall_of};

use cellar::CellarWall;
use storey::StoreyWall;
use walls::Wall;

#[derive(Clone, Copy)]
pub(crate) enum Kind {
    Storey,
    Cellar,
}

impl Kind {
    // None where no line begins with the letter.
    #[tactic(auto, unfolding(crate::specs::Grammar::count_of))]
    pub(crate) fn from_letter(letter: u8) -> Option<Kind>
        ensures { MatchOption result (count_of letter ≡ 0) (λ kind. kind_letter kind ≡ letter) }
    {
        match letter {
            b'S' => Some(Kind::Storey),
            b'C' => Some(Kind::Cellar),
            _ => None,
        }
    }

    // How many numbers follow the letter; no kind has more than `S`.
    #[tactic(auto, unfolding(crate::specs::Grammar::count_of))]
    pub(crate) fn count(self) -> usize
        ensures { result ≡ count_of (kind_letter self) }
    {
        match self {
            Kind::Storey => StoreyWall::NUMBERS,
            Kind::Cellar => CellarWall::NUMBERS,
        }
    }

    // The record with these numbers, of which a cellar wall has the first ten.
    #[tactic(auto, unfolding(crate::specs::Reading::wall_of))]
    pub(crate) fn wall(self, numbers: &[u64; StoreyWall::NUMBERS]) -> Wall
        ensures { result ≡ wall_of (kind_letter self) numbers.now }
    {
        match self {
            Kind::Storey => Wall::Storey(StoreyWall::from(*numbers)),
            Kind::Cellar => Wall::Cellar(CellarWall::from(*numbers.first_chunk().unwrap())),
        }
    }
}
