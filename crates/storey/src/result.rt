// The check: document 01, "Results and refusals".
ghost use Rattle.std.specs.Prelude.{◌≡◌, MatchResult};
ghost use Rattle.basis.specs.Refusal.{number_of, numbered};
ghost use Rattle.basis.specs.Result.{refused_with};
ghost use Rattle.storey.specs.Check.{assessment, check};

use crate::in_range::WallInRange;
use crate::{Assessment, StoreyWall};
use basis::{CheckResult, Refusal};

impl StoreyWall {
    // 12: the greatest buckling length, in tenths of the thickness.
    const LIMIT_SLENDERNESS: u64 = 270;

    // Which refusal up to 11 applies or, if none does, E, N and the reduction: what a check with limits of its own begins with.
    #[tactic(auto, unfolding(crate::specs::Check::assessment, basis::specs::Refusal::first_or))]
    pub fn assess(self) -> Result<Assessment, Refusal>
        ensures { numbered result ≡ assessment self }
    {
        WallInRange::try_from(self)?.assess()
    }

    // The first refusal that leaves four zeros or, if none applies, all five numbers.
    #[tactic(auto, unfolding(crate::specs::Check::assessment, basis::specs::Check::result_of, basis::specs::Refusal::first_or))]
    fn checked(self) -> Result<CheckResult, Refusal>
        ensures { MatchResult result (λ filled. filled ≡ check self) (λ refusal. refused_with (number_of refusal) ≡ check self) }
    {
        WallInRange::try_from(self)?.checked()
    }

    // The result of any record.
    pub fn check(self) -> CheckResult
        ensures { result ≡ check self }
    {
        self.checked().unwrap_or_else(CheckResult::from)
    }
}

impl WallInRange {
    #[tactic(auto, unfolding(crate::specs::Check::assessment, basis::specs::Refusal::first_or))]
    fn assess(self) -> Result<Assessment, Refusal>
        ensures { numbered result ≡ assessment self.wall }
    {
        self.limits_up_to_11()?;
        Ok(Assessment {
            buckling: self.buckling_length(),
            load: self.load(),
            fifths: self.reduction_fifths(),
        })
    }

    #[tactic(auto, using(crate::proofs::Range::thickness_most, crate::proofs::Load::load_most, crate::proofs::Resistance::resistance_most), unfolding(crate::specs::Check::assessment, basis::specs::Check::result_of, basis::specs::Refusal::first_or, crate::specs::Limits::too_slender))]
    fn checked(self) -> Result<CheckResult, Refusal>
        ensures { MatchResult result (λ filled. filled ≡ check self.wall) (λ refusal. refused_with (number_of refusal) ≡ check self.wall) }
    {
        let Assessment {
            buckling,
            load,
            fifths,
        } = self.assess()?;
        let slender = StoreyWall::LIMIT_SLENDERNESS * self.wall.thickness < buckling;
        Refusal::WallTooSlender.when(slender)?;
        let resistance = self.resistance(buckling, fifths);
        let verdict = Refusal::LoadAboveResistance.when(resistance < load);
        Ok(CheckResult::reported(verdict, buckling, load as u32, resistance as u32))
    }
}
