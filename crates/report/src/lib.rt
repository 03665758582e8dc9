// A result, and three numbers, as text in a lent buffer.
#![tactic(auto)]

use basis::CheckResult;
use tail::Tail;

mod tail;

ghost use Rattle.std.specs.Prelude.{◌≡◌};
ghost use Rattle.report.specs.Text.{numbers_text};
ghost use Rattle.report.specs.Written.{text_written, written};

// Puts the text of `outcome` over the first bytes of `out` and returns its length. Where it does not fit, leaves `out` alone and returns 0.
pub fn write(outcome: CheckResult, out: &mut [u8]) -> usize
    ensures { record { buffer = out.new; count = result } ≡ written outcome out.old }
{
    let mut tail = Tail::new();
    tail.prepend_signed(outcome.spare, b'\n');
    tail.prepend(outcome.resistance, b' ');
    tail.prepend(outcome.load, b' ');
    tail.prepend(outcome.second, b' ');
    tail.prepend(outcome.refusal, b' ');
    put(tail.as_bytes(), out)
}

// The same of three numbers: those of the choice of a block.
pub fn write_numbers(first: u64, second: u64, third: u64, out: &mut [u8]) -> usize
    ensures { record { buffer = out.new; count = result } ≡ text_written (numbers_text first second third) out.old }
{
    let mut tail = Tail::new();
    tail.prepend(third, b'\n');
    tail.prepend(second, b' ');
    tail.prepend(first, b' ');
    put(tail.as_bytes(), out)
}

// Puts a text over the first bytes of `out` and returns its length. Where it does not fit, leaves `out` alone and returns 0.
fn put(text: &[u8], out: &mut [u8]) -> usize
    ensures { record { buffer = out.new; count = result } ≡ text_written text.now out.old }
{
    if out.len() < text.len() {
        return 0;
    }
    buffer::copy(out, 0, text);
    text.len()
}
