// What is asked of a record within every limit: the required load and the measures.
ghost use Rattle.std.specs.Prelude.{◌≡◌};
ghost use Rattle.basis.specs.Refusal.{NoneApplies};
ghost use Rattle.basis.specs.Check.{reported};
ghost use Rattle.cellar.specs.RequiredLoad.{required_load};
ghost use Rattle.cellar.specs.Limits.{limits};
ghost use Rattle.cellar.specs.Check.{parts};

use crate::CellarWall;
use crate::in_range::WallInRange;
use basis::{CheckResult, Refusal};

// A record in range to which none of refusals 14 to 17 and 11 applies.
#[derive(Clone, Copy)]
pub(crate) struct WallWithinLimits {
    pub(crate) wall: WallInRange,
    pub(crate) ghost within_limits: { NoneApplies (limits wall.wall) },
}

impl WallWithinLimits {
    // The need: the dead load that the wall requires against the fill, in N/m.
    #[tactic(auto, using(crate::proofs::RequiredLoad::required_load_steps))]
    fn required_load(self) -> u64
        ensures { result ≡ required_load self.wall.wall }
    {
        let CellarWall {
            thickness,
            height,
            fill,
            spacing,
            weight,
            ..
        } = self.wall.wall;
        let pressure = weight * height * (fill * fill);
        let divisor = CellarWall::REQUIRED_LOAD_DIVISOR * thickness;
        if CellarWall::WIDE_HEIGHTS * height <= spacing {
            basis::ceil_div(pressure, CellarWall::WIDE_FACTOR * divisor)
        } else if spacing <= height {
            basis::ceil_div(pressure, CellarWall::CLOSE_FACTOR * divisor)
        } else {
            let factor = CellarWall::BETWEEN_FACTOR * height - CellarWall::BETWEEN_SLOPE * spacing;
            basis::ceil_div(pressure * height, factor * divisor)
        }
    }

    // The result: accepted, or refusal 18 or 19.
    #[tactic(auto, using(crate::proofs::Load::load_most, crate::proofs::Resistance::resistance_most), unfolding(basis::specs::Refusal::first_or))]
    pub(crate) fn reported(self) -> CheckResult
        ensures { result ≡ reported (parts self.wall.wall) }
    {
        let required = self.required_load();
        let load = self.wall.load();
        let resistance = self.wall.resistance();
        let verdict = Refusal::CellarLoadAboveResistance
            .when(resistance < load)
            .and(Refusal::DeadLoadBelowNeed.when(self.wall.wall.dead < required));
        CheckResult::reported(verdict, required, load as u32, resistance as u32)
    }
}
