// Load: document 01, "Storey wall", and document 02, #103; its rounding (#108) is that of `basis`.
ghost use Rattle.std.specs.Prelude.{◌≡◌};
ghost use Rattle.storey.specs.Load.{load};

use crate::StoreyWall;
use crate::in_range::WallInRange;

impl StoreyWall {
    // 1.35G + 1.5Q, in hundredths.
    const DEAD_FACTOR: u64 = 135;

    const IMPOSED_FACTOR: u64 = 150;
    // #103: 1.4(G + Q), in hundredths, where it is the smaller and q is at most SIMPLIFIED_GREATEST_FLOOR_LOAD.
    const SIMPLIFIED_FACTOR: u64 = 140;

    const SIMPLIFIED_GREATEST_FLOOR_LOAD: u64 = 3000;
}

impl WallInRange {
    // N, the design load in N/m.
    #[tactic(auto, using(crate::proofs::Range::bounds))]
    pub(crate) fn load(self) -> u64
        ensures { result ≡ load self.wall }
    {
        let StoreyWall {
            dead,
            imposed,
            floorload,
            ..
        } = self.wall;
        let general = StoreyWall::DEAD_FACTOR * dead + StoreyWall::IMPOSED_FACTOR * imposed;
        let simplified = StoreyWall::SIMPLIFIED_FACTOR * (dead + imposed);
        let smaller = simplified.min(general);
        let exact = if floorload <= StoreyWall::SIMPLIFIED_GREATEST_FLOOR_LOAD {
            smaller
        } else {
            general
        };
        basis::rounded_load(exact)
    }
}
