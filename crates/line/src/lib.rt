// A line of bytes, read as the record that it stands for.
#![tactic(auto)]

mod cursor;
mod kind;

ghost use Rattle.std.specs.Prelude.{◌≡◌, []};
ghost use Rattle.line.specs.Automaton.{start, inside};
ghost use Rattle.line.specs.Kind.{kind_letter};
ghost use Rattle.line.specs.Reading.{ReadFrom, counted_reading};

use cursor::Cursor;
use kind::Kind;
use storey::StoreyWall;
use walls::Wall;

// How many digits a number has at most.
const MOST_DIGITS: u64 = 9;

// A line of so many bytes is none of the form, whatever they are: nobody has to hold more of one.
pub const OVERLONG: usize = 201;

// What a line is read as, and how many of its bytes were taken: up to and including the first wrong one, or all.
#[derive(Clone, Copy)]
pub struct CountedReading {
    // The record of the line, in range or not; None where the bytes are not a line of the form.
    pub reading: Option<Wall>,
    pub taken: usize,
}

// The numbers behind the letter and its space, left by the label at the first fault. Each byte is looked at once, as it is taken;
// a wrong one is the last that is taken.
fn read_numbers(bytes: &mut Cursor, kind: Kind) -> Option<Wall>
    ensures { ReadFrom (inside (kind_letter kind) [] 0 0) bytes.old result bytes.new }
{
    let mut numbers = [0; StoreyWall::NUMBERS];
    let count = kind.count();
    'line: {
        for k in 0..count {
            let mut digits = 0;
            let mut value = 0;
            while let Some(byte) = bytes.next() {
                if (byte == b' ') & (0 < digits) & (k + 1 < count) {
                    break;
                }
                if !byte.is_ascii_digit()
                    | (digits == MOST_DIGITS)
                    | ((digits == 1) & (value == 0))
                {
                    break 'line None;
                }
                value = 10 * value + (byte - b'0') as u64;
                digits += 1;
            }
            if digits == 0 {
                break 'line None;
            }
            numbers[k] = value;
        }
        Some(kind.wall(&numbers))
    }
}

// The letter, its space and the numbers.
fn read_record(bytes: &mut Cursor) -> Option<Wall>
    ensures { ReadFrom start bytes.old result bytes.new }
{
    let kind = Kind::from_letter(bytes.next()?)?;
    if bytes.next()? != b' ' {
        return None;
    }
    read_numbers(bytes, kind)
}

// One pass, front to back, each byte looked at once at most.
#[tactic(auto, unfolding(crate::specs::Reading::counted_reading, crate::specs::Reading::read_line, crate::specs::Reading::taken))]
pub fn read(line: &[u8]) -> CountedReading
    ensures { result ≡ counted_reading line.now }
{
    let mut bytes = Cursor { line, taken: 0 };
    let reading = read_record(&mut bytes);
    CountedReading {
        reading,
        taken: bytes.taken,
    }
}
