// Spans of a slab that spans both ways: document 02, #101.
ghost use Rattle.std.specs.Prelude.{◌≡◌, ◌≤◌};
ghost use Rattle.basis.specs.Fraction.{◌÷◌, ◌≈◌};
ghost use Rattle.storey.specs.Span.{governing_span, support_span};

use crate::StoreyWall;
use crate::in_range::WallInRange;

impl StoreyWall {
    // The reduction: neither span is more than SPAN_RATIO times the other.
    const SPAN_RATIO: u64 = 2;
    // 0.85 of a span and the whole of it, in twentieths.
    const REDUCED_TWENTIETHS: u64 = 17;

    pub(crate) const TWENTIETHS: u64 = 20;
}

// The slab on a wall.
#[derive(Clone, Copy)]
pub(crate) struct Slab {
    // L
    span: u64,
    // M, 0 for a one-way slab
    other: u64,
    ghost span_most: { span ≤ 20000 },
    ghost other_most: { other ≤ 20000 },
}

impl Slab {
    // The span that stands for L: the shorter one, where the slab has another.
    #[tactic(auto, unfolding(crate::specs::Span::governing_span))]
    pub(crate) fn governing_span(self) -> u64
        ensures { result ≡ governing_span self.span self.other }
    {
        if 0 < self.other {
            self.span.min(self.other)
        } else {
            self.span
        }
    }

    // The span that enters m, in twentieths of a mm.
    #[tactic(auto, using(crate::proofs::Span::governing_most), unfolding(crate::specs::Span::support_span, crate::specs::Span::span_reduced, basis::specs::Fraction::times))]
    pub(crate) fn support_span(self) -> u64
        ensures { (result ÷ 20) ≈ support_span self.span self.other }
    {
        let reduced = (0 < self.other)
            & (self.other <= StoreyWall::SPAN_RATIO * self.span)
            & (self.span <= StoreyWall::SPAN_RATIO * self.other);
        let governing = self.governing_span();
        if reduced {
            StoreyWall::REDUCED_TWENTIETHS * governing
        } else {
            StoreyWall::TWENTIETHS * governing
        }
    }
}

impl WallInRange {
    #[tactic(auto, using(crate::proofs::Range::bounds))]
    pub(crate) fn slab(self) -> Slab
        ensures span { result.span ≡ self.wall.span }
        ensures other { result.other ≡ self.wall.otherspan }
    {
        Slab {
            span: self.wall.span,
            other: self.wall.otherspan,
        }
    }
}
