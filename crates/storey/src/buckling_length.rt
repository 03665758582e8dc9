// The factor r and the buckling length E: document 01, "Storey wall".
ghost use Rattle.std.specs.Prelude.{◌≡◌, ◌+◌, ◌*◌, ◌≤◌};
ghost use Rattle.basis.specs.Fraction.{◌÷◌, ceil};
ghost use Rattle.storey.specs.BucklingLength.{bearing_suffices, factor, three_sides, four_sides, buckling_length};

use crate::StoreyWall;
use crate::in_range::{Holding, WallInRange};

impl StoreyWall {
    // From this thickness on SUFFICIENT_BEARING suffices; below it the bearing must be the whole thickness.
    const PARTIAL_BEARING_THICKNESS: u64 = 240;

    const SUFFICIENT_BEARING: u64 = 175;
    // r, in twentieths, by thickness.
    const THIN_FACTOR: u64 = 15;

    const THIN_FACTOR_THICKNESS: u64 = 175;

    const MEDIUM_FACTOR: u64 = 18;

    const MEDIUM_FACTOR_THICKNESS: u64 = 250;

    const WHOLE_FACTOR: u64 = 20;
    // The greatest distance that holds a wall, in thicknesses.
    const EDGE_THICKNESSES: u64 = 15;

    const SPACING_THICKNESSES: u64 = 30;
    // Three sides: 1800c²k/(3600c² + k²), at least 3h. Four sides: 200c²k/(400c² + k²), or 5c where the wall is narrower than high.
    const THREE_SIDES_SCALE: u64 = 1800;

    const THREE_SIDES_LEAST: u64 = 3;

    const FOUR_SIDES_SCALE: u64 = 200;

    const FOUR_SIDES_NARROW: u64 = 5;
    // Two sides: k/2.
    const TWO_SIDES_DIVISOR: u64 = 2;

    #[tactic(auto, unfolding(crate::specs::BucklingLength::bearing_suffices))]
    fn bearing_suffices(self) -> bool
        ensures { result ≡ bearing_suffices self.thickness self.bearing }
    {
        if StoreyWall::PARTIAL_BEARING_THICKNESS <= self.thickness {
            StoreyWall::SUFFICIENT_BEARING <= self.bearing
        } else {
            self.bearing == self.thickness
        }
    }

    // r, the factor of the clear height in twentieths.
    #[tactic(auto, unfolding(crate::specs::BucklingLength::factor))]
    fn factor(self) -> u64
        ensures { result ≡ factor self.thickness self.bearing }
    {
        let by_thickness = match self.thickness {
            ..=StoreyWall::THIN_FACTOR_THICKNESS => StoreyWall::THIN_FACTOR,
            ..=StoreyWall::MEDIUM_FACTOR_THICKNESS => StoreyWall::MEDIUM_FACTOR,
            _ => StoreyWall::WHOLE_FACTOR,
        };
        if self.bearing_suffices() {
            by_thickness
        } else {
            StoreyWall::WHOLE_FACTOR
        }
    }
}

// A wall that is held on three or four sides.
#[derive(Clone, Copy)]
struct StiffenedWall {
    // h
    height: u64,
    // c
    distance: u64,
    // k, the factor times the height
    product: u64,
    ghost height_most: { height ≤ 20000 },
    ghost distance_least: { 1 ≤ distance },
    ghost distance_most: { distance ≤ 30000 },
    ghost product_most: { product ≤ 400000 },
}

impl StiffenedWall {
    // n c² k / (2 n c² + k²) rounded up, with n = `scale`.
    #[tactic(auto, using(crate::proofs::BucklingLength::scaled_product_most))]
    fn curved(self, scale: u64) -> u64
        requires { scale ≤ 1800 }
        ensures { result ≡ ceil ((scale * (self.distance * self.distance) * self.product) ÷ (2 * scale * (self.distance * self.distance) + self.product * self.product)) }
    {
        let square = self.distance * self.distance;
        basis::ceil_div(
            scale * square * self.product,
            2 * scale * square + self.product * self.product,
        )
    }

    // The length on three sides.
    #[tactic(auto, using(crate::proofs::BucklingLength::three_sides_rounded))]
    fn three_sides(self) -> u64
        ensures { result ≡ ceil (three_sides self.height self.distance self.product) }
    {
        self.curved(StoreyWall::THREE_SIDES_SCALE)
            .max(StoreyWall::THREE_SIDES_LEAST * self.height)
    }

    // The length on four sides.
    #[tactic(auto, using(basis::proofs::Fraction::ceil_whole), unfolding(crate::specs::BucklingLength::four_sides))]
    fn four_sides(self) -> u64
        ensures { result ≡ ceil (four_sides self.height self.distance self.product) }
    {
        if self.height <= self.distance {
            self.curved(StoreyWall::FOUR_SIDES_SCALE)
        } else {
            StoreyWall::FOUR_SIDES_NARROW * self.distance
        }
    }
}

impl WallInRange {
    // E, the buckling length in tenths of a mm.
    #[tactic(auto, using(crate::proofs::Range::bounds, crate::proofs::BucklingLength::lengths), unfolding(crate::specs::BucklingLength::buckling_length, crate::specs::BucklingLength::two_sides))]
    pub(crate) fn buckling_length(self) -> u64
        ensures { result ≡ buckling_length self.wall }
    {
        let StoreyWall {
            thickness,
            height,
            ..
        } = self.wall;
        let product = self.wall.factor() * height;
        let edge_limit = StoreyWall::EDGE_THICKNESSES * thickness;
        let spacing_limit = StoreyWall::SPACING_THICKNESSES * thickness;
        match self.holding() {
            Holding::ThreeSides(distance) if distance <= edge_limit => StiffenedWall {
                height,
                distance,
                product,
            }
            .three_sides(),
            Holding::FourSides(distance) if distance <= spacing_limit => StiffenedWall {
                height,
                distance,
                product,
            }
            .four_sides(),
            _ => basis::ceil_div(product, StoreyWall::TWO_SIDES_DIVISOR),
        }
    }
}
