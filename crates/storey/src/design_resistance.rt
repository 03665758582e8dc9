// Resistance: document 01, "Storey wall", with the span of document 02, #101.
ghost use Rattle.std.specs.Prelude.{◌≡◌, ◌*◌, ◌≤◌};
ghost use Rattle.basis.specs.Fraction.{◌÷◌, whole, floor, times};
ghost use Rattle.storey.specs.BucklingLength.{buckling_length};
ghost use Rattle.storey.specs.Resistance.{at_mid_height, support_factor_of, at_support, reduction_fifths, resistance, SupportFactor};

use crate::StoreyWall;
use crate::in_range::{Support, WallInRange};

impl StoreyWall {
    // m: the smaller of FULL_SUPPORT and SPAN_SUPPORT less the span under a floor, ROOF_SUPPORT under a roof, else
    // FULL_SUPPORT. In twentieths, as the span is that enters it.
    const FULL_SUPPORT: u64 = 5400 * StoreyWall::TWENTIETHS;

    const SPAN_SUPPORT: u64 = 9600 * StoreyWall::TWENTIETHS;

    const ROOF_SUPPORT: u64 = 1998 * StoreyWall::TWENTIETHS;
    // 17 × F × a × m/18000, with m in twentieths
    const SUPPORT_DIVISOR: u64 = 18000 * StoreyWall::TWENTIETHS;
    // 17F(850000at - 11E²)/(3000000t)
    const STRENGTH_FACTOR: u64 = 17;

    const BEARING_FACTOR: u64 = 850000;

    const SLENDERNESS_FACTOR: u64 = 11;

    const MID_HEIGHT_DIVISOR: u64 = 3000000;
    // The reduction in fifths, for a small area or a bonded wall.
    const REDUCED_AREA: u64 = 100000;

    const REDUCED_FIFTHS: u64 = 4;

    const WHOLE_FIFTHS: u64 = 5;
}

// What both resistances are worked out from.
#[derive(Clone, Copy)]
struct CrossSection {
    // t
    thickness: u64,
    // a
    bearing: u64,
    // F
    strength: u64,
    // The reduction
    fifths: u64,
    ghost thickness_least: { 1 ≤ thickness },
    ghost thickness_most: { thickness ≤ 1000 },
    ghost bearing_most: { bearing ≤ thickness },
    ghost strength_most: { strength ≤ 5000 },
    ghost fifths_most: { fifths ≤ 5 },
}

impl CrossSection {
    // The resistance at mid-height, reduced and rounded down, with E the buckling length.
    #[tactic(auto, using(crate::proofs::Resistance::mid_height_quotient))]
    fn at_mid_height(self, buckling: u64) -> u64
        requires { buckling ≤ 270000 }
        ensures { result ≡ floor (times (self.fifths ÷ 5) (at_mid_height self.thickness self.bearing self.strength (whole buckling))) }
    {
        let bearing_part = StoreyWall::BEARING_FACTOR * self.bearing * self.thickness;
        let slenderness_part = StoreyWall::SLENDERNESS_FACTOR * (buckling * buckling);
        let strength_part = self.fifths * (StoreyWall::STRENGTH_FACTOR * self.strength);
        strength_part * bearing_part.saturating_sub(slenderness_part)
            / (StoreyWall::WHOLE_FIFTHS * (StoreyWall::MID_HEIGHT_DIVISOR * self.thickness))
    }

    // The resistance at the support, reduced and rounded down, with m in twentieths.
    #[tactic(auto, using(crate::proofs::Resistance::support_product_most, crate::proofs::Resistance::support_quotient))]
    fn at_support(self, m: u64) -> u64
        requires { m ≤ 108000 }
        ensures { result ≡ floor (times (self.fifths ÷ 5) (at_support self.bearing self.strength (m ÷ 20))) }
    {
        let strength_part = self.fifths
            * (StoreyWall::STRENGTH_FACTOR * self.strength * self.bearing);
        strength_part * m / (StoreyWall::WHOLE_FIFTHS * StoreyWall::SUPPORT_DIVISOR)
    }
}

impl WallInRange {
    // The reduction, 4/5 or 5/5, as its number of fifths.
    #[tactic(auto, using(crate::proofs::Range::bounds), unfolding(crate::specs::Resistance::reduction_fifths))]
    pub(crate) fn reduction_fifths(self) -> u64
        ensures { result ≡ reduction_fifths self.wall }
    {
        let area = self.wall.length * self.wall.thickness;
        if (area < StoreyWall::REDUCED_AREA) | (self.wall.bonded == 1) {
            StoreyWall::REDUCED_FIFTHS
        } else {
            StoreyWall::WHOLE_FIFTHS
        }
    }

    // m in twentieths, for supports 2 to 4.
    #[tactic(auto, using(crate::proofs::Span::support_span_den, crate::proofs::Resistance::under_floor, crate::proofs::Resistance::other_support), unfolding(crate::specs::Resistance::support_factor))]
    fn support_factor(self) -> u64
        ensures { SupportFactor result (support_factor_of self.wall) }
    {
        let left = StoreyWall::SPAN_SUPPORT.saturating_sub(self.slab().support_span());
        match self.support() {
            Support::UnderFloor => left.min(StoreyWall::FULL_SUPPORT),
            Support::UnderRoof => StoreyWall::ROOF_SUPPORT,
            Support::Intermediate | Support::CentringStrip => StoreyWall::FULL_SUPPORT,
        }
    }

    // The resistance in N/m, with the buckling length in tenths of a mm and the reduction in fifths.
    #[tactic(auto, using(crate::proofs::Range::bounds, crate::proofs::Resistance::resistances))]
    pub(crate) fn resistance(self, buckling: u64, fifths: u64) -> u64
        requires buckling_length { buckling ≡ buckling_length self.wall }
        requires not_slender { buckling ≤ 270 * self.wall.thickness }
        requires reduction { fifths ≡ reduction_fifths self.wall }
        ensures { result ≡ resistance self.wall }
    {
        let StoreyWall {
            thickness,
            bearing,
            strength,
            ..
        } = self.wall;
        let section = CrossSection {
            thickness,
            bearing,
            strength,
            fifths,
        };
        let middle = section.at_mid_height(buckling);
        let end = section.at_support(self.support_factor());
        let smaller = middle.min(end);
        match self.support() {
            Support::Intermediate => middle,
            _ => smaller,
        }
    }
}
