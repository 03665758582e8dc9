// The whole number that a cell holds, taken from the bits of its f64.
ghost use Rattle.std.specs.Prelude.{◌≡◌};
ghost use Rattle.std.specs.Option.{unwrap_or};
ghost use Rattle.worksheet.specs.Cell.{no_number, cell_number};

// The bits of an f64 are a sign, an exponent of 11 bits and 52 digits. These are the weights of the sign and of the
// exponent; the second is also that of the leading digit, which is not stored.
const SIGN: u64 = 0x8000_0000_0000_0000;

const LEADING: u64 = 0x10_0000_0000_0000;

// The bits of 2^53 - 1, the largest number: none of its digits stands behind the point.
const LARGEST: u64 = 0x433f_ffff_ffff_ffff;

// Stands for a cell that is no whole number; no range has it.
const NO_NUMBER: u64 = 0xffff_ffff_ffff_ffff;

// The number of a cell in a record, or beside one.
pub fn number(x: f64) -> u64
    ensures { result ≡ cell_number x }
{
    whole_number(x).unwrap_or(NO_NUMBER)
}

// Each exponent below that of the largest number moves one more digit behind the point. The number is whole where
// these digits are 0, and what stands before them is then the number. A significand ends in 52 zeros at most; below 1
// more than 52 digits stand behind the point, and for a negative or too large x the difference wraps to more than 1000.
// The last test chooses between values at hand: a branch would have to guess which cells are 0.
fn whole_number(x: f64) -> Option<u64>
    ensures { unwrap_or result no_number ≡ cell_number x }
{
    if x.is_nan() {
        return None;
    }
    let bits = x.to_bits();
    let places = LARGEST.wrapping_sub(bits) / LEADING;
    let significand = LEADING + bits % LEADING;
    let zero = (bits % SIGN == 0).then_some(0); // zero of either sign
    if places <= significand.trailing_zeros() as u64 {
        Some(significand >> places)
    } else {
        zero // or none: a fraction, negative, too large, or infinite
    }
}
