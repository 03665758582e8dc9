// Heights, refusal 6: document 01, "Heights", and document 02, #102, from source document 002, Tafel 5/1.
ghost use Rattle.std.specs.Prelude.{◌≡◌};
ghost use Rattle.storey.specs.Height.{at_most, above, general_height, calcium_silicate_height, calcium_silicate_applies};
ghost use Rattle.storey.specs.Limits.{too_high};

use crate::StoreyWall;
use crate::in_range::WallInRange;

impl StoreyWall {
    // LIMIT_HEIGHT below this thickness; from it on LIMIT_HEIGHT_THICKNESSES, for an inner wall none.
    const LIMIT_HEIGHT_THICKNESS: u64 = 240;

    const LIMIT_HEIGHT: u64 = 2750;

    const LIMIT_HEIGHT_THICKNESSES: u64 = 12;
    // #102: calcium silicate walls have heights of their own from this strength on and, but for inner walls, up to this wind.
    const LIMIT_CALCIUM_SILICATE_LEAST_STRENGTH: u64 = 350;

    const LIMIT_CALCIUM_SILICATE_WIND: u64 = 1250;
    // Inner walls: LIMIT_CALCIUM_SILICATE_INNER_HEIGHT below this thickness; from it on none.
    const LIMIT_CALCIUM_SILICATE_INNER_THICKNESS: u64 = 240;

    const LIMIT_CALCIUM_SILICATE_INNER_HEIGHT: u64 = 3600;
    // Other walls: the rows of 115 and 150 mm,
    const LIMIT_CALCIUM_SILICATE_THIN_HEIGHT: u64 = 2750;
    // of 175 mm, with another height for strong masonry,
    const LIMIT_CALCIUM_SILICATE_MEDIUM_THICKNESS: u64 = 175;

    const LIMIT_CALCIUM_SILICATE_MEDIUM_HEIGHT: u64 = 3000;

    const LIMIT_CALCIUM_SILICATE_STRONG_STRENGTH: u64 = 500;

    const LIMIT_CALCIUM_SILICATE_STRONG_HEIGHT: u64 = 3300;
    // of 200 and 240 mm,
    const LIMIT_CALCIUM_SILICATE_THICK_THICKNESS: u64 = 200;

    const LIMIT_CALCIUM_SILICATE_THICK_HEIGHT: u64 = 3600;
    // and of 300 mm, in thicknesses.
    const LIMIT_CALCIUM_SILICATE_THICKEST_THICKNESS: u64 = 300;

    const LIMIT_CALCIUM_SILICATE_THICKNESSES: u64 = 12;
}

impl WallInRange {
    // Whether the wall is above document 01's height.
    #[tactic(auto, using(crate::proofs::Range::thickness_most), unfolding(crate::specs::Height::general_height))]
    fn above_general_height(self) -> bool
        ensures { result ≡ above (general_height self.wall.usage self.wall.thickness) self.wall.height }
    {
        let wall = self.wall;
        let thin = wall.thickness < StoreyWall::LIMIT_HEIGHT_THICKNESS;
        (thin & (StoreyWall::LIMIT_HEIGHT < wall.height))
            | (!thin
                & !self.is_inner()
                & (StoreyWall::LIMIT_HEIGHT_THICKNESSES * wall.thickness < wall.height))
    }

    // The height of calcium silicate walls other than inner ones, of which use 2 is one. Each row that the wall reaches takes the place of those before it:
    // choices between values at hand, and no branch.
    #[tactic(auto, using(crate::proofs::Range::thickness_most), unfolding(crate::specs::Height::general_height, crate::specs::Height::calcium_silicate_height))]
    fn outer_calcium_silicate_height(self) -> u64
        ensures { at_most result ≡ calcium_silicate_height 2 self.wall.thickness self.wall.strength }
    {
        let thickness = self.wall.thickness;
        let medium = StoreyWall::LIMIT_CALCIUM_SILICATE_MEDIUM_THICKNESS <= thickness;
        let strong = StoreyWall::LIMIT_CALCIUM_SILICATE_STRONG_STRENGTH <= self.wall.strength;
        let mut height = StoreyWall::LIMIT_CALCIUM_SILICATE_THIN_HEIGHT;
        if medium {
            height = StoreyWall::LIMIT_CALCIUM_SILICATE_MEDIUM_HEIGHT;
        }
        if medium & strong {
            height = StoreyWall::LIMIT_CALCIUM_SILICATE_STRONG_HEIGHT;
        }
        if StoreyWall::LIMIT_CALCIUM_SILICATE_THICK_THICKNESS <= thickness {
            height = StoreyWall::LIMIT_CALCIUM_SILICATE_THICK_HEIGHT;
        }
        if StoreyWall::LIMIT_CALCIUM_SILICATE_THICKEST_THICKNESS <= thickness {
            height = StoreyWall::LIMIT_CALCIUM_SILICATE_THICKNESSES * thickness;
        }
        height
    }

    // Whether the wall is above the height of a calcium silicate wall.
    #[tactic(auto, unfolding(crate::specs::Height::general_height, crate::specs::Height::calcium_silicate_height))]
    fn above_calcium_silicate_height(self) -> bool
        ensures { result ≡ above (calcium_silicate_height self.wall.usage self.wall.thickness self.wall.strength) self.wall.height }
    {
        let wall = self.wall;
        let inner = self.is_inner();
        let thin = wall.thickness < StoreyWall::LIMIT_CALCIUM_SILICATE_INNER_THICKNESS;
        (inner & thin & (StoreyWall::LIMIT_CALCIUM_SILICATE_INNER_HEIGHT < wall.height))
            | (!inner & (self.outer_calcium_silicate_height() < wall.height))
    }

    // Whether the wall has the heights of calcium silicate walls.
    #[tactic(auto, unfolding(crate::specs::Height::calcium_silicate_applies))]
    fn calcium_silicate_applies(self) -> bool
        ensures { result ≡ calcium_silicate_applies self.wall }
    {
        let wall = self.wall;
        let strong_enough = StoreyWall::LIMIT_CALCIUM_SILICATE_LEAST_STRENGTH <= wall.strength;
        let within_wind = wall.wind <= StoreyWall::LIMIT_CALCIUM_SILICATE_WIND;
        (wall.calciumsilicate == 1)
            & (wall.bearing == wall.thickness)
            & strong_enough
            & (self.is_inner() | within_wind)
    }

    #[tactic(auto, unfolding(crate::specs::Limits::too_high, crate::specs::Height::height_limit))]
    pub(crate) fn too_high(self) -> bool
        ensures { result ≡ too_high self.wall }
    {
        let calcium_silicate = self.calcium_silicate_applies();
        (calcium_silicate & self.above_calcium_silicate_height())
            | (!calcium_silicate & self.above_general_height())
    }
}
