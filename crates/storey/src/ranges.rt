// Ranges: document 01, "The two lines", and document 02, #101 and #102.
ghost use Rattle.std.specs.Prelude.{◌≡◌, false, MatchResult};
ghost use Rattle.basis.specs.declared.Refusal.TheVariants.{OutOfRange};
ghost use Rattle.storey.specs.Range.{in_range};

use crate::StoreyWall;
use crate::in_range::WallInRange;
use basis::Refusal;

impl StoreyWall {
    // The greatest number of each range, and the least where it is not 0 or 1.
    const RANGE_GREATEST_USAGE: u64 = 4;

    const RANGE_GREATEST_THICKNESS: u64 = 1000;

    const RANGE_GREATEST_HEIGHT: u64 = 20000;

    const RANGE_GREATEST_LENGTH: u64 = 20000;

    const RANGE_LEAST_HELD: u64 = 2;

    const RANGE_GREATEST_HELD: u64 = 4;

    const RANGE_GREATEST_DISTANCE: u64 = 30000;

    const RANGE_GREATEST_SUPPORT: u64 = 4;

    const RANGE_GREATEST_SPAN: u64 = 20000;

    pub const RANGE_GREATEST_STRENGTH: u64 = 5000;

    const RANGE_GREATEST_BONDED: u64 = 1;

    const RANGE_GREATEST_DEAD: u64 = 10000000;

    const RANGE_GREATEST_IMPOSED: u64 = 10000000;

    const RANGE_GREATEST_FLOOR_LOAD: u64 = 100000;

    const RANGE_GREATEST_BUILDING: u64 = 200000;

    const RANGE_GREATEST_STOREYS: u64 = 20;

    const RANGE_GREATEST_OTHER_SPAN: u64 = 20000;

    const RANGE_GREATEST_CALCIUM_SILICATE: u64 = 1;

    const RANGE_GREATEST_WIND: u64 = 10000;

    // Whether every number of the record is in its range: both ends of each, in the order of the definition's list.
    pub fn in_range(self) -> bool
        ensures { result ≡ in_range self }
    {
        (1..=StoreyWall::RANGE_GREATEST_USAGE).contains(&self.usage)
            & (1..=StoreyWall::RANGE_GREATEST_THICKNESS).contains(&self.thickness)
            & (1..=StoreyWall::RANGE_GREATEST_HEIGHT).contains(&self.height)
            & (1..=StoreyWall::RANGE_GREATEST_LENGTH).contains(&self.length)
            & (StoreyWall::RANGE_LEAST_HELD..=StoreyWall::RANGE_GREATEST_HELD).contains(&self.held)
            & (((self.held == StoreyWall::TWO_SIDES) & (self.distance == 0))
                | ((self.held != StoreyWall::TWO_SIDES)
                    & (1..=StoreyWall::RANGE_GREATEST_DISTANCE).contains(&self.distance)))
            & (1..=StoreyWall::RANGE_GREATEST_SUPPORT).contains(&self.support)
            & (1..=StoreyWall::RANGE_GREATEST_SPAN).contains(&self.span)
            & (1..=self.thickness).contains(&self.bearing)
            & (1..=StoreyWall::RANGE_GREATEST_STRENGTH).contains(&self.strength)
            & (0..=StoreyWall::RANGE_GREATEST_BONDED).contains(&self.bonded)
            & (1..=StoreyWall::RANGE_GREATEST_DEAD).contains(&self.dead)
            & (0..=StoreyWall::RANGE_GREATEST_IMPOSED).contains(&self.imposed)
            & (0..=StoreyWall::RANGE_GREATEST_FLOOR_LOAD).contains(&self.floorload)
            & (1..=StoreyWall::RANGE_GREATEST_BUILDING).contains(&self.building)
            & (1..=StoreyWall::RANGE_GREATEST_STOREYS).contains(&self.storeys)
            & (0..=StoreyWall::RANGE_GREATEST_OTHER_SPAN).contains(&self.otherspan)
            & (0..=StoreyWall::RANGE_GREATEST_CALCIUM_SILICATE).contains(&self.calciumsilicate)
            & (0..=StoreyWall::RANGE_GREATEST_WIND).contains(&self.wind)
    }
}

impl TryFrom<StoreyWall> for WallInRange {
    type Error = Refusal;

    ghost try_from_gives = { λ wall given. MatchResult given (λ found. found.wall ≡ wall) (λ refusal. (refusal ≡ OutOfRange) × (in_range wall ≡ false)) };

    fn try_from(wall: StoreyWall) -> Result<WallInRange, Refusal> {
        if wall.in_range() {
            Ok(WallInRange { wall })
        } else {
            Err(Refusal::OutOfRange)
        }
    }
}
