// The minimum load in the top storey: document 02, #106.
#![tactic(auto)]

ghost use Rattle.std.specs.Prelude.{true, ◌≡◌};
ghost use Rattle.basis.specs.Result.{Accepted};
ghost use Rattle.basis.specs.Range.{within};
ghost use Rattle.storey.specs.Check as StoreyCheck;
ghost use Rattle.minimum_load.specs.MinimumLoad.{minimum_load};
ghost use Rattle.minimum_load.specs.Check.{wind_range, check};

use basis::{CheckResult, Refusal};
use storey::StoreyWall;

// An `S` record in the top storey of a building, and the wind on it.
#[derive(Clone, Copy)]
pub struct TopStoreyWall {
    pub wall: StoreyWall,
    // W, the design wind load in N/m²; the wind of the record is the characteristic one
    pub designwind: u64,
}

impl TopStoreyWall {
    const RANGE_GREATEST_DESIGN_WIND: u64 = 10000;
    // 9Wh²/(160(300a - h))
    const WIND_FACTOR: u64 = 9;

    const BEARING_FACTOR: u64 = 300;

    const DIVISOR: u64 = 160;

    // Whether W is in its range.
    fn wind_in_range(self) -> bool
        ensures { result ≡ within (wind_range self.designwind) }
    {
        (1..=TopStoreyWall::RANGE_GREATEST_DESIGN_WIND).contains(&self.designwind)
    }

    // The result of any record with any W.
    #[tactic(auto, using(crate::proofs::Check::wind_out_of_range, crate::proofs::Check::refusal_passed_on))]
    pub fn check(self) -> CheckResult
        ensures { result ≡ check self }
    {
        if !self.wind_in_range() {
            return CheckResult::from(Refusal::OutOfRange);
        }
        let ordinary = self.wall.check();
        if ordinary.refusal != 0 {
            return ordinary;
        }
        AcceptedWall {
            top: self,
            ordinary,
        }
        .reported()
    }
}

// A wall that the ordinary check accepts, with the result of that check, and W in its range.
#[derive(Clone, Copy)]
struct AcceptedWall {
    top: TopStoreyWall,
    ordinary: CheckResult,
    ghost ordinary_result: { ordinary ≡ StoreyCheck.check top.wall },
    ghost accepted: { Accepted ordinary },
    ghost wind_in_range: { within (wind_range top.designwind) ≡ true },
}

impl AcceptedWall {
    // The need: the dead load that the wall requires against the wind, in N/m.
    #[tactic(auto, using(crate::proofs::MinimumLoad::minimum_load_steps), unfolding(crate::specs::MinimumLoad::minimum_load, crate::specs::MinimumLoad::exact_minimum_load))]
    fn minimum_load(self) -> u64
        ensures { result ≡ minimum_load self.top }
    {
        let StoreyWall {
            height,
            bearing,
            ..
        } = self.top.wall;
        let wind_part = TopStoreyWall::WIND_FACTOR * self.top.designwind * (height * height);
        let bearing_part = TopStoreyWall::BEARING_FACTOR * bearing - height;
        basis::ceil_div(wind_part, TopStoreyWall::DIVISOR * bearing_part)
    }

    // The ordinary result with the need in the place of E: accepted, or refusal 21.
    #[tactic(auto, using(crate::proofs::Check::need_with_ordinary))]
    fn reported(self) -> CheckResult
        ensures { result ≡ check self.top }
    {
        let required = self.minimum_load();
        let verdict = Refusal::DeadLoadBelowMinimum.when(self.top.wall.dead < required);
        let (load, resistance) = (self.ordinary.load as u32, self.ordinary.resistance as u32);
        CheckResult::reported(verdict, required, load, resistance)
    }
}
