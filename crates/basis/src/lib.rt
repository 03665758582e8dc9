// What both kinds of wall share: the result, the first refusal that applies, and rounding.
#![tactic(auto)]

ghost use Rattle.std.specs.Prelude.{cond, ◌≡◌, Ok, Err};
ghost use Rattle.basis.specs.Fraction.{◌÷◌, ceil};
ghost use Rattle.basis.specs.Load.{rounded_load};
ghost use Rattle.basis.specs.Refusal.{number_of, verdict_number};
ghost use Rattle.basis.specs.Result.{refused_with, filled_with};

// Why a record, a line, a buffer, a block of an archive, a text, a pair of records or a list of building blocks is refused, with the numbers of document 01's table and, from 21 on, of document 02.
#[derive(Clone, Copy, Debug, PartialEq, Eq)]
pub enum Refusal {
    NotALine = 1,
    OutOfRange = 2,
    WallTooThin = 3,
    AreaTooSmall = 4,
    UnfitForUse = 5,
    WallTooHigh = 6,
    FloorLoadTooGreat = 7,
    BuildingTooHigh = 8,
    SpanTooLong = 9,
    BearingTooShallow = 10,
    StrengthTooLow = 11,
    WallTooSlender = 12,
    LoadAboveResistance = 13,
    CellarWallTooThin = 14,
    CellarWallTooHigh = 15,
    FillTooHigh = 16,
    GroundLoadTooGreat = 17,
    CellarLoadAboveResistance = 18,
    DeadLoadBelowNeed = 19,
    BufferTooShort = 20,
    DeadLoadBelowMinimum = 21,
    BlockDamaged = 23,
    TextNotStored = 24,
    NotLowAndHigh = 25,
    BadBlockList = 26,
    NoBlockAccepted = 27,
}

impl Refusal {
    // This refusal where it applies. With `?` behind it, what follows is asked only where it does not: "the first that applies is given".
    pub fn when(self, applies: bool) -> Result<(), Refusal>
        ensures { result ≡ cond applies (Err self) (Ok tt) }
    {
        first_refusal(Err(self), applies, Ok(()))
    }
}

impl From<Refusal> for u64 {
    ghost from_gives = { λ refusal number. number ≡ number_of refusal };

    fn from(refusal: Refusal) -> u64 {
        refusal as u64
    }
}

// The five numbers of a result, in the order in which they are printed.
#[repr(C)]
#[derive(Clone, Copy, Debug, PartialEq, Eq)]
pub struct CheckResult {
    // The number of the refusal; 0 is accepted.
    pub refusal: u64,
    // E, the buckling length in tenths of a mm; for a cellar wall, and in the check of the minimum load, the need, a dead load in N/m.
    pub second: u64,
    // N, the design load in N/m.
    pub load: u64,
    // The resistance in N/m.
    pub resistance: u64,
    // The resistance less the load, signed.
    pub spare: i64,
}

impl CheckResult {
    // A refusal that leaves four zeros.
    pub fn refused(refusal: u64) -> CheckResult
        ensures { result ≡ refused_with refusal }
    {
        CheckResult {
            refusal,
            second: 0,
            load: 0,
            resistance: 0,
            spare: 0,
        }
    }

    // All five numbers, of a record that is accepted or refused by a measure.
    pub fn reported(
        verdict: Result<(), Refusal>,
        second: u64,
        load: u32,
        resistance: u32,
    ) -> CheckResult
        ensures { result ≡ filled_with (verdict_number verdict) second load resistance }
    {
        let refusal = match verdict {
            Ok(()) => 0,
            Err(refusal) => u64::from(refusal),
        };
        CheckResult::filled(refusal, second, load, resistance)
    }

    // All five numbers. Load and resistance are u32, so that the spare always fits.
    pub fn filled(refusal: u64, second: u64, load: u32, resistance: u32) -> CheckResult
        ensures { result ≡ filled_with refusal second load resistance }
    {
        CheckResult {
            refusal,
            second,
            load: load as u64,
            resistance: resistance as u64,
            spare: resistance as i64 - load as i64,
        }
    }
}

impl From<Refusal> for CheckResult {
    ghost from_gives = { λ refusal outcome. outcome ≡ refused_with (number_of refusal) };

    fn from(refusal: Refusal) -> CheckResult {
        CheckResult::refused(u64::from(refusal))
    }
}

// A refusal where it applies, else the later ones: numbers, or verdicts.
pub fn first_refusal<T: Drop>(refusal: T, applies: bool, later: T) -> T
    ensures { result ≡ cond applies refusal later }
{
    if applies {
        return refusal;
    }
    later
}

// The quotient rounded up; 0 where the divisor is 0.
pub fn ceil_div(dividend: u64, divisor: u64) -> u64
    ensures { result ≡ ceil (dividend ÷ divisor) }
{
    if divisor == 0 {
        0
    } else {
        dividend.div_ceil(divisor)
    }
}

// Loads with their factors are in hundredths of N/m: half a N/m.
const LOAD_HALF: u64 = 50;

// #108: a load in hundredths of N/m, to the nearest N/m. In halves of a N/m: one more, then down to whole N/m.
pub fn rounded_load(hundredths: u64) -> u64
    ensures { result ≡ rounded_load (hundredths ÷ 100) }
{
    (hundredths / LOAD_HALF + 1) / 2
}
