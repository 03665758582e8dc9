// Early design with ranges: document 02, #109.
#![tactic(auto)]

ghost use Rattle.std.specs.Prelude.{◌≡◌, true, false};
ghost use Rattle.basis.specs.Refusal.{numbered};
ghost use Rattle.storey.specs.Range.{in_range};
ghost use Rattle.early_design.specs.Check.{low_above_high, another_differs, two_way_span_differs, not_low_and_high, answer, check, number_of_answer, range_result};
ghost use Rattle.early_design.specs.WorstAndBest.{worst_of, best_of};

use basis::Refusal;
use storey::StoreyWall;

// Which of the records between a low and a high one are accepted.
#[derive(Clone, Copy, Debug, PartialEq, Eq)]
pub enum RangeAnswer {
    AllAccepted = 1,
    NoneAccepted = 2,
    SomeAccepted = 3,
}

// What the functions of the C interface return: `wallcheck_range` in the header.
#[repr(C)]
#[derive(Clone, Copy, Debug, PartialEq, Eq)]
pub struct RangeResult {
    // 0, or why a line, a row or the two records are refused.
    pub refusal: u64,
    // 1, 2 or 3; 0 with a refusal.
    pub answer: u64,
}

impl From<Result<RangeAnswer, Refusal>> for RangeResult {
    ghost from_gives = { λ answered given. given ≡ range_result (numbered answered) };

    fn from(answered: Result<RangeAnswer, Refusal>) -> RangeResult {
        match answered {
            Ok(given) => RangeResult {
                refusal: 0,
                answer: given as u64,
            },
            Err(refusal) => RangeResult {
                refusal: u64::from(refusal),
                answer: 0,
            },
        }
    }
}

// Two `S` records, to be a low and a high one that agree except in G, Q, F, L, q and H; where they are not, `check` refuses them.
#[derive(Clone, Copy)]
pub struct WallRange {
    pub low: StoreyWall,
    pub high: StoreyWall,
}

impl WallRange {
    // A low value above its high value.
    fn low_above_high(self) -> bool
        ensures { result ≡ low_above_high self.low self.high }
    {
        let WallRange { low, high } = self;
        (high.dead < low.dead)
            | (high.imposed < low.imposed)
            | (high.strength < low.strength)
            | (high.span < low.span)
            | (high.floorload < low.floorload)
            | (high.building < low.building)
    }

    // Another number differs where the low record with the six of the high one is not the high one.
    fn another_differs(self) -> bool
        ensures { result ≡ another_differs self.low self.high }
    {
        let WallRange { low, high } = self;
        let with_six_of_high = StoreyWall {
            dead: high.dead,
            imposed: high.imposed,
            strength: high.strength,
            span: high.span,
            floorload: high.floorload,
            building: high.building,
            ..low
        };
        with_six_of_high != high
    }

    // Under a slab that spans both ways L must agree too: a shorter one can lose the reduction.
    fn two_way_span_differs(self) -> bool
        ensures { result ≡ two_way_span_differs self.low self.high }
    {
        (0 < self.low.otherspan) & (self.low.span != self.high.span)
    }

    // 25: they are no low and high record.
    #[tactic(auto, unfolding(crate::specs::Check::not_low_and_high))]
    fn not_low_and_high(self) -> bool
        ensures { result ≡ not_low_and_high self.low self.high }
    {
        self.low_above_high() | self.another_differs() | self.two_way_span_differs()
    }

    // The answer for any two records: the first refusal that applies, or what holds of the records between.
    #[tactic(auto, unfolding(basis::specs::Refusal::first_or))]
    pub fn check(self) -> Result<RangeAnswer, Refusal>
        ensures { numbered result ≡ check self.low self.high }
    {
        Refusal::OutOfRange.when(!self.low.in_range())?;
        Refusal::OutOfRange.when(!self.high.in_range())?;
        Refusal::NotLowAndHigh.when(self.not_low_and_high())?;
        Ok(ComparableRange { range: self }.answer())
    }
}

// A range that is not refused.
#[derive(Clone, Copy)]
struct ComparableRange {
    range: WallRange,
    ghost low_in_range: { in_range range.low ≡ true },
    ghost high_in_range: { in_range range.high ≡ true },
    ghost low_and_high: { not_low_and_high range.low range.high ≡ false },
}

impl ComparableRange {
    // None of the records between is worse.
    fn worst(self) -> StoreyWall
        ensures { result ≡ worst_of self.range.low self.range.high }
    {
        StoreyWall {
            strength: self.range.low.strength,
            ..self.range.high
        }
    }

    // None of the records between is better.
    fn best(self) -> StoreyWall
        ensures { result ≡ best_of self.range.low self.range.high }
    {
        StoreyWall {
            strength: self.range.high.strength,
            ..self.range.low
        }
    }

    // Two records stand for all: where the worst is accepted so is every other, and where one is accepted so is the best.
    fn answer(self) -> RangeAnswer
        ensures { result ≡ answer self.range.low self.range.high }
    {
        if self.worst().check().refusal == 0 {
            return RangeAnswer::AllAccepted;
        }
        if self.best().check().refusal == 0 {
            return RangeAnswer::SomeAccepted;
        }
        RangeAnswer::NoneAccepted
    }
}
