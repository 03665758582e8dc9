// Limits: document 01, refusals 3 to 11 of its table; the heights of 6 have a module of their own. Refusal 12, the slenderness, stands with the check.
ghost use Rattle.std.specs.Prelude.{eqb, ◌≡◌, Ok, Err};
ghost use Rattle.basis.specs.Refusal.{first_or, numbered};
ghost use Rattle.storey.specs.Limits.{closely_held, unfit_for_use, floor_load_too_great, span_too_long, bearing_too_shallow, limits_up_to_11};

use crate::StoreyWall;
use crate::in_range::{Holding, Support, Usage, WallInRange};
use basis::Refusal;

impl StoreyWall {
    // 3
    const LIMIT_LEAST_THICKNESS: u64 = 115;
    // 4
    const LIMIT_LEAST_AREA: u64 = 40000;
    // 5
    const LIMIT_LEAST_OUTER_THICKNESS: u64 = 150;

    const LIMIT_LEAST_LEAF_THICKNESS: u64 = 150;

    const LIMIT_GARAGE_STOREYS: u64 = 1;

    const LIMIT_THIN_LEAF_STOREYS: u64 = 2;

    const LIMIT_THIN_LEAF_SPACING: u64 = 4500;

    const LIMIT_THIN_LEAF_EDGE: u64 = 2000;
    // 7: the second for walls other than inner ones below LIMIT_FLOOR_LOAD_THICKNESS.
    const LIMIT_FLOOR_LOAD: u64 = 5000;

    const LIMIT_FLOOR_LOAD_ON_THIN: u64 = 3000;

    const LIMIT_FLOOR_LOAD_THICKNESS: u64 = 175;
    // 8
    const LIMIT_BUILDING: u64 = 20000;
    // 9: of the governing span; not for a support with centring strip.
    const LIMIT_SPAN: u64 = 6000;
    // 10: above LIMIT_BEARING, and at least half the thickness; at SPECIAL_THICKNESS at least 9/20 of it.
    const LIMIT_BEARING: u64 = 100;

    const LIMIT_BEARING_PARTS: u64 = 2;

    const SPECIAL_THICKNESS: u64 = 365;

    const LIMIT_SPECIAL_BEARING_PARTS: u64 = 20;

    const LIMIT_SPECIAL_THICKNESS_PARTS: u64 = 9;
    // 11
    const LIMIT_LEAST_STRENGTH: u64 = 180;
}

impl WallInRange {
    pub(crate) fn is_inner(self) -> bool
        ensures { result ≡ eqb self.wall.usage 1 }
    {
        self.usage() == Usage::Inner
    }

    #[tactic(auto, unfolding(crate::specs::Limits::closely_held))]
    fn closely_held(self) -> bool
        ensures { result ≡ closely_held self.wall }
    {
        match self.holding() {
            Holding::TwoSides => false,
            Holding::ThreeSides(edge) => edge <= StoreyWall::LIMIT_THIN_LEAF_EDGE,
            Holding::FourSides(spacing) => spacing <= StoreyWall::LIMIT_THIN_LEAF_SPACING,
        }
    }

    #[tactic(auto, unfolding(crate::specs::Limits::unfit_for_use))]
    fn unfit_for_use(self) -> bool
        ensures { result ≡ unfit_for_use self.wall }
    {
        let wall = self.wall;
        match self.usage() {
            Usage::Inner => false,
            Usage::OuterLeaf => wall.thickness < StoreyWall::LIMIT_LEAST_OUTER_THICKNESS,
            Usage::BearingLeaf => {
                (wall.thickness < StoreyWall::LIMIT_LEAST_LEAF_THICKNESS)
                    & ((StoreyWall::LIMIT_THIN_LEAF_STOREYS < wall.storeys) | !self.closely_held())
            }
            Usage::Garage => StoreyWall::LIMIT_GARAGE_STOREYS < wall.storeys,
        }
    }

    #[tactic(auto, unfolding(crate::specs::Limits::floor_load_too_great))]
    fn floor_load_too_great(self) -> bool
        ensures { result ≡ floor_load_too_great self.wall }
    {
        let wall = self.wall;
        (StoreyWall::LIMIT_FLOOR_LOAD < wall.floorload)
            | ((StoreyWall::LIMIT_FLOOR_LOAD_ON_THIN < wall.floorload)
                & !self.is_inner()
                & (wall.thickness < StoreyWall::LIMIT_FLOOR_LOAD_THICKNESS))
    }

    #[tactic(auto, unfolding(crate::specs::Limits::span_too_long))]
    fn span_too_long(self) -> bool
        ensures { result ≡ span_too_long self.wall }
    {
        let span = self.slab().governing_span();
        (StoreyWall::LIMIT_SPAN < span) & (self.support() != Support::CentringStrip)
    }

    #[tactic(auto, using(crate::proofs::Range::thickness_most, crate::proofs::Range::bearing_most), unfolding(crate::specs::Limits::bearing_too_shallow))]
    fn bearing_too_shallow(self) -> bool
        ensures { result ≡ bearing_too_shallow self.wall }
    {
        let wall = self.wall;
        (wall.bearing <= StoreyWall::LIMIT_BEARING)
            | ((wall.thickness == StoreyWall::SPECIAL_THICKNESS)
                & (StoreyWall::LIMIT_SPECIAL_BEARING_PARTS * wall.bearing
                    < StoreyWall::LIMIT_SPECIAL_THICKNESS_PARTS * wall.thickness))
            | ((wall.thickness != StoreyWall::SPECIAL_THICKNESS)
                & (StoreyWall::LIMIT_BEARING_PARTS * wall.bearing < wall.thickness))
    }

    // The first of refusals 3 to 11 that applies.
    #[tactic(auto, using(crate::proofs::Range::area_most), unfolding(basis::specs::Refusal::first_or, crate::specs::Limits::too_thin, crate::specs::Limits::area_too_small, crate::specs::Limits::building_too_high, crate::specs::Limits::too_weak))]
    pub(crate) fn limits_up_to_11(self) -> Result<(), Refusal>
        ensures { numbered result ≡ first_or Err (limits_up_to_11 self.wall) (Ok tt) }
    {
        let wall = self.wall;
        let area = wall.length * wall.thickness;
        Refusal::WallTooThin.when(wall.thickness < StoreyWall::LIMIT_LEAST_THICKNESS)?;
        Refusal::AreaTooSmall.when(area < StoreyWall::LIMIT_LEAST_AREA)?;
        Refusal::UnfitForUse.when(self.unfit_for_use())?;
        Refusal::WallTooHigh.when(self.too_high())?;
        Refusal::FloorLoadTooGreat.when(self.floor_load_too_great())?;
        Refusal::BuildingTooHigh.when(StoreyWall::LIMIT_BUILDING < wall.building)?;
        Refusal::SpanTooLong.when(self.span_too_long())?;
        Refusal::BearingTooShallow.when(self.bearing_too_shallow())?;
        Refusal::StrengthTooLow.when(wall.strength < StoreyWall::LIMIT_LEAST_STRENGTH)
    }
}
