// A record of either kind.
#![tactic(auto)]

ghost use Rattle.std.specs.Prelude.{◌≡◌};
ghost use Rattle.walls.specs.Check.{in_range, check};

use basis::CheckResult;
use cellar::CellarWall;
use storey::StoreyWall;

#[derive(Clone, Copy)]
pub enum Wall {
    // An `S` record.
    Storey(StoreyWall),
    // A `C` record.
    Cellar(CellarWall),
}

impl Wall {
    // Whether every number of the record is in its range.
    pub fn in_range(self) -> bool
        ensures { result ≡ in_range self }
    {
        match self {
            Wall::Storey(wall) => wall.in_range(),
            Wall::Cellar(wall) => wall.in_range(),
        }
    }

    // The result of any record.
    pub fn check(self) -> CheckResult
        ensures { result ≡ check self }
    {
        match self {
            Wall::Storey(wall) => wall.check(),
            Wall::Cellar(wall) => wall.check(),
        }
    }
}
