// The line of a block: two numbers with one space between.
ghost use Rattle.std.specs.Prelude.{◌≡◌, ◌≤◌, eqb, length, position};
ghost use Rattle.block_list.specs.Reading.{value_of, read_number, read_block};

use selection::Block;

// How many digits a number has at most.
const MOST_DIGITS: usize = 9;

// The number whose digits these are.
fn read_number(digits: &[u8]) -> Option<u64>
    ensures { result ≡ read_number digits.now }
{
    if MOST_DIGITS < digits.len() {
        return None;
    }
    let value = value_of(digits);
    let mut written = itoa::Buffer::new();
    if written.format(value).as_bytes() != digits {
        return None;
    }
    Some(value)
}

// The value of at most nine digits.
fn value_of(digits: &[u8]) -> u64
    requires { length digits.now ≤ 9 }
    ensures { result ≡ value_of digits.now }
{
    let mut value = 0;
    for &digit in digits {
        value = 10 * value + u64::from(digit.saturating_sub(b'0'));
    }
    value
}

// F, a space, the price.
pub(crate) fn read_block(line: &[u8]) -> Option<Block>
    ensures { result ≡ read_block line.now }
{
    let space = first_space(line)?;
    let strength = read_number(&line[..space])?;
    let price = read_number(&line[space + 1..])?;
    Some(Block { strength, price })
}

fn first_space(line: &[u8]) -> Option<usize>
    ensures { result ≡ position (λ byte. eqb byte 32) line.now }
{
    line.iter().position(|&byte| byte == b' ')
}
