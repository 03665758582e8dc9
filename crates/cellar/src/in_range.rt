// What is asked of a record in range: its load and its resistance.
ghost use Rattle.std.specs.Prelude.{true, ◌≡◌};
ghost use Rattle.cellar.specs.Range.{in_range};
ghost use Rattle.cellar.specs.Resistance.{resistance};
ghost use Rattle.cellar.specs.Load.{load};

use crate::CellarWall;

// A record with every number in its range.
#[derive(Clone, Copy)]
pub(crate) struct WallInRange {
    pub(crate) wall: CellarWall,
    pub(crate) ghost in_range: { in_range wall ≡ true },
}

impl WallInRange {
    // N, the design load in N/m.
    #[tactic(auto, using(crate::proofs::Range::in_ranges))]
    pub(crate) fn load(self) -> u64
        ensures { result ≡ load self.wall }
    {
        basis::rounded_load(
            CellarWall::DEAD_FACTOR * self.wall.dead
                + CellarWall::IMPOSED_FACTOR * self.wall.imposed,
        )
    }

    // The resistance in N/m.
    #[tactic(auto, using(crate::proofs::Resistance::resistance_steps))]
    pub(crate) fn resistance(self) -> u64
        ensures { result ≡ resistance self.wall }
    {
        let CellarWall {
            thickness,
            strength,
            bonded,
            ..
        } = self.wall;
        let product = CellarWall::STRENGTH_FACTOR * strength * thickness;
        if bonded == 1 {
            product * CellarWall::BONDED_FIFTHS
                / (CellarWall::STRENGTH_DIVISOR * CellarWall::WHOLE_FIFTHS)
        } else {
            product / CellarWall::STRENGTH_DIVISOR
        }
    }
}
