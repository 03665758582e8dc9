// The cellar wall of document 01: its record, its ranges, limits and factors, and its check.
#![tactic(auto)]

ghost use Rattle.std.specs.Prelude.{◌∷◌, ◌≡◌, not, Ok, Err};
ghost use Rattle.basis.specs.Refusal.{first_or, numbered};
ghost use Rattle.basis.specs.Check.{reported};
ghost use Rattle.cellar.specs.Record.{cellar_of};
ghost use Rattle.cellar.specs.Range.{in_range};
ghost use Rattle.cellar.specs.Limits.{limits};
ghost use Rattle.cellar.specs.Check.{parts, check};

mod in_range;
mod within_limits;

use basis::{CheckResult, Refusal};
use in_range::WallInRange;
use within_limits::WallWithinLimits;

// The numbers of a `C` record, in document 01's order. Lengths are in mm.
#[derive(Clone, Copy)]
pub struct CellarWall {
    // t
    pub thickness: u64,
    // h, clear height
    pub height: u64,
    // e, height of fill
    pub fill: u64,
    // c, spacing of cross walls
    pub spacing: u64,
    // y, weight of fill in N/m³
    pub weight: u64,
    // F, in hundredths of N/mm²
    pub strength: u64,
    // 0 or 1
    pub bonded: u64,
    // G, dead load in N/m
    pub dead: u64,
    // Q, imposed load in N/m
    pub imposed: u64,
    // p, load on the ground in N/m²
    pub groundload: u64,
}

impl CellarWall {
    // How many numbers the record has.
    pub const NUMBERS: usize = 10;
}

// A record's numbers, as a line has them, in document 01's order.
impl From<[u64; CellarWall::NUMBERS]> for CellarWall {
    ghost from_gives = { λ numbers wall. wall ≡ cellar_of numbers };

    fn from(numbers: [u64; CellarWall::NUMBERS]) -> CellarWall {
        CellarWall {
            thickness: numbers[0],
            height: numbers[1],
            fill: numbers[2],
            spacing: numbers[3],
            weight: numbers[4],
            strength: numbers[5],
            bonded: numbers[6],
            dead: numbers[7],
            imposed: numbers[8],
            groundload: numbers[9],
        }
    }
}

// Ranges: document 01, "The two lines".
impl CellarWall {
    // The greatest number of each range.
    const RANGE_GREATEST_THICKNESS: u64 = 1000;

    const RANGE_GREATEST_HEIGHT: u64 = 20000;

    const RANGE_GREATEST_FILL: u64 = 20000;

    const RANGE_GREATEST_SPACING: u64 = 30000;

    const RANGE_GREATEST_WEIGHT: u64 = 30000;

    const RANGE_GREATEST_STRENGTH: u64 = 5000;

    const RANGE_GREATEST_BONDED: u64 = 1;

    const RANGE_GREATEST_DEAD: u64 = 10000000;

    const RANGE_GREATEST_IMPOSED: u64 = 10000000;

    const RANGE_GREATEST_GROUND: u64 = 100000;

    // Whether every number of the record is in its range: both ends of each, in the order of the definition's list.
    #[tactic(auto, using(basis::proofs::Range::contains_within, crate::proofs::Range::in_range_chain))]
    pub fn in_range(self) -> bool
        ensures { result ≡ in_range self }
    {
        (1..=CellarWall::RANGE_GREATEST_THICKNESS).contains(&self.thickness)
            & (1..=CellarWall::RANGE_GREATEST_HEIGHT).contains(&self.height)
            & (0..=CellarWall::RANGE_GREATEST_FILL).contains(&self.fill)
            & (1..=CellarWall::RANGE_GREATEST_SPACING).contains(&self.spacing)
            & (1..=CellarWall::RANGE_GREATEST_WEIGHT).contains(&self.weight)
            & (1..=CellarWall::RANGE_GREATEST_STRENGTH).contains(&self.strength)
            & (0..=CellarWall::RANGE_GREATEST_BONDED).contains(&self.bonded)
            & (1..=CellarWall::RANGE_GREATEST_DEAD).contains(&self.dead)
            & (0..=CellarWall::RANGE_GREATEST_IMPOSED).contains(&self.imposed)
            & (0..=CellarWall::RANGE_GREATEST_GROUND).contains(&self.groundload)
    }
}

// Factors of the required load, the resistance and the load.
impl CellarWall {
    // B, by the spacing of the cross walls: WIDE_FACTOR from twice the height on, CLOSE_FACTOR up to the height,
    // between them BETWEEN_FACTOR - BETWEEN_SLOPE c/h.
    const WIDE_HEIGHTS: u64 = 2;

    const WIDE_FACTOR: u64 = 20;

    const CLOSE_FACTOR: u64 = 40;

    const BETWEEN_FACTOR: u64 = 60;

    const BETWEEN_SLOPE: u64 = 20;

    const REQUIRED_LOAD_DIVISOR: u64 = 1000000;
    // 17Ft/9, times 4/5 if bonded.
    const STRENGTH_FACTOR: u64 = 17;

    const STRENGTH_DIVISOR: u64 = 9;

    const BONDED_FIFTHS: u64 = 4;

    const WHOLE_FIFTHS: u64 = 5;
    // 1.35G + 1.5Q, in hundredths.
    const DEAD_FACTOR: u64 = 135;

    const IMPOSED_FACTOR: u64 = 150;
}

// Limits: document 01's refusals 14 to 17 and 11, with 16 as document 02, #105, has it.
impl CellarWall {
    // 14
    const LIMIT_LEAST_THICKNESS: u64 = 200;
    // 15
    const LIMIT_HEIGHT: u64 = 2600;
    // 16: the fill may reach 1.15 of the height, 23 twentieths; the whole is 20.
    const LIMIT_FILL_TWENTIETHS: u64 = 23;

    const WHOLE_TWENTIETHS: u64 = 20;
    // 17
    const LIMIT_GROUND: u64 = 5000;
    // 11
    const LIMIT_LEAST_STRENGTH: u64 = 180;

    // The first of refusals 14 to 17 and 11 that applies.
    #[tactic(auto, unfolding(basis::specs::Refusal::first_or, crate::proofs::Limits::each_limit))]
    fn limits(self) -> Result<(), Refusal>
        ensures { numbered result ≡ first_or Err (limits self) (Ok tt) }
    {
        // in 128 bits the products fit, whatever the record
        let fill_too_high = CellarWall::LIMIT_FILL_TWENTIETHS as u128 * (self.height as u128)
            < CellarWall::WHOLE_TWENTIETHS as u128 * self.fill as u128;
        Refusal::CellarWallTooThin.when(self.thickness < CellarWall::LIMIT_LEAST_THICKNESS)?;
        Refusal::CellarWallTooHigh.when(CellarWall::LIMIT_HEIGHT < self.height)?;
        Refusal::FillTooHigh.when(fill_too_high)?;
        Refusal::GroundLoadTooGreat.when(CellarWall::LIMIT_GROUND < self.groundload)?;
        Refusal::StrengthTooLow.when(self.strength < CellarWall::LIMIT_LEAST_STRENGTH)
    }
}

// The check.
impl CellarWall {
    // What is reported of a record in range and within every limit, or the first refusal that leaves four zeros.
    #[tactic(auto, unfolding(basis::specs::Refusal::first_or))]
    fn reported(self) -> Result<CheckResult, Refusal>
        ensures { numbered result ≡ first_or Err ((2, not (in_range self)) ∷ limits self) (Ok (reported (parts self))) }
    {
        Refusal::OutOfRange.when(!self.in_range())?;
        self.limits()?;
        let wall = WallInRange { wall: self };
        Ok(WallWithinLimits { wall }.reported())
    }

    // The result of any record.
    #[tactic(auto, unfolding(basis::specs::Refusal::first_or, basis::specs::Check::result_of))]
    pub fn check(self) -> CheckResult
        ensures { result ≡ check self }
    {
        self.reported().unwrap_or_else(CheckResult::from)
    }
}
