// A record behind the range test, and what its numbers for kinds stand for.
ghost use Rattle.std.specs.Prelude.{true, ◌≡◌};
ghost use Rattle.storey.specs.Range.{in_range};
ghost use Rattle.storey.specs.Kinds.{usage_number, support_number, held_number, distance_number};

use crate::StoreyWall;

// Lengths, loads, limits and resistance are those of a record in range.
#[derive(Clone, Copy)]
pub(crate) struct WallInRange {
    pub(crate) wall: StoreyWall,
    ghost in_range: { in_range wall ≡ true },
}

// use
#[derive(Clone, Copy, Debug, PartialEq, Eq)]
pub(crate) enum Usage {
    Inner,
    OuterLeaf,
    BearingLeaf,
    Garage,
}

#[derive(Clone, Copy, Debug, PartialEq, Eq)]
pub(crate) enum Support {
    Intermediate,
    UnderFloor,
    UnderRoof,
    CentringStrip,
}

// held, and with it c in mm.
#[derive(Clone, Copy, Debug, PartialEq, Eq)]
pub(crate) enum Holding {
    TwoSides,
    // the distance of the free edge
    ThreeSides(u64),
    // the spacing of the holding walls
    FourSides(u64),
}

impl WallInRange {
    pub(crate) fn usage(self) -> Usage
        ensures { usage_number result ≡ self.wall.usage }
    {
        match self.wall.usage {
            1 => Usage::Inner,
            2 => Usage::OuterLeaf,
            3 => Usage::BearingLeaf,
            _ => Usage::Garage,
        }
    }

    pub(crate) fn support(self) -> Support
        ensures { support_number result ≡ self.wall.support }
    {
        match self.wall.support {
            1 => Support::Intermediate,
            2 => Support::UnderFloor,
            3 => Support::UnderRoof,
            _ => Support::CentringStrip,
        }
    }

    pub(crate) fn holding(self) -> Holding
        ensures held { held_number result ≡ self.wall.held }
        ensures distance { distance_number result ≡ self.wall.distance }
    {
        match self.wall.held {
            StoreyWall::THREE_SIDES => Holding::ThreeSides(self.wall.distance),
            StoreyWall::FOUR_SIDES => Holding::FourSides(self.wall.distance),
            _ => Holding::TwoSides,
        }
    }
}
