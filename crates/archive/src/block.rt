// One block: how many bytes are used, the sum of the others, whole lines, zeros.
ghost use Rattle.std.specs.Prelude.{ℕ, ◌≡◌, ◌≤◌, ◌+◌, ◌%◌, ◌<◌, eqb, length, sum};
ghost use Rattle.std.specs.List.{list_all};
ghost use Rattle.std.specs.Result.{result_map_both};
ghost use Rattle.basis.specs.Refusal.{number_of};
ghost use Rattle.archive.specs.Block.{number_at, block_of, whole_lines, valid, read_block};

use crate::LINE_END;
use basis::Refusal;

// How many bytes a block has.
pub const BLOCK: usize = 512;

// Where the number of bytes used, the sum of the others and the lines begin.
const COUNT: usize = 0;

const SUM: usize = 2;

const LINES: usize = 4;

// How many bytes of lines a block holds at most.
pub const CAPACITY: usize = BLOCK - LINES;

// Writes the block that holds `lines`.
pub(crate) fn write_block(lines: &[u8], block: &mut [u8])
    requires capacity { length lines.now ≤ 508 }
    requires block { length block.old ≡ 512 }
    ensures { block.new ≡ block_of lines.now }
{
    let (head, rest) = block.split_at_mut(LINES);
    buffer::copy(rest, 0, lines);
    buffer::clear(rest, lines.len(), CAPACITY - lines.len());
    let count = (lines.len() as u16).to_le_bytes();
    let sum = sum_of(&count).wrapping_add(sum_of(rest)).to_le_bytes();
    head.copy_from_slice(&[count[0], count[1], sum[0], sum[1]]);
}

// The lines of a block: its used part.
pub fn read_block(block: &[u8]) -> Result<&[u8], Refusal>
    ensures { result_map_both (λ lines. lines.now) number_of result ≡ read_block block.now }
{
    if !is_valid(block) {
        return Err(Refusal::BlockDamaged);
    }
    let count = usize::from(number_at(block, COUNT));
    let (_, rest) = block.split_at(LINES);
    let (lines, _) = rest.split_at(count);
    Ok(lines)
}

// Whether length, count, sum and remainder are right, and the used part is whole lines.
fn is_valid(block: &[u8]) -> bool
    ensures { result ≡ valid block.now }
{
    if block.len() != BLOCK {
        return false;
    }
    let count = usize::from(number_at(block, COUNT));
    if count > CAPACITY {
        return false;
    }
    let (_, rest) = block.split_at(LINES);
    let (lines, remainder) = rest.split_at(count);
    // All 512 bytes, less those of the sum: no bytes are left over where many are summed at once.
    let others = sum_of(block).wrapping_sub(sum_of(&block[SUM..LINES]));
    (number_at(block, SUM) == others) & are_zero(remainder) & whole_lines(lines)
}

// The number of the two bytes at a place, low byte first.
fn number_at(block: &[u8], place: usize) -> u16
    requires { place + 1 < length block.now }
    ensures { result ≡ number_at place block.now }
{
    u16::from_le_bytes([block[place], block[place + 1]])
}

fn whole_lines(bytes: &[u8]) -> bool
    ensures { result ≡ whole_lines bytes.now }
{
    match bytes.last() {
        Some(&last) => last == LINE_END,
        None => true,
    }
}

fn are_zero(bytes: &[u8]) -> bool
    ensures { result ≡ list_all (λ byte. eqb byte 0) bytes.now }
{
    let mut gathered = 0;
    for &byte in bytes {
        gathered |= byte;
    }
    gathered == 0
}

// The sum modulo 65536.
fn sum_of(bytes: &[u8]) -> u16
    ensures { result ≡ sum bytes.now % 65536 }
{
    let mut sum: u16 = 0;
    for &byte in bytes {
        let addend = u16::from(byte);
        sum = sum.wrapping_add(addend);
    }
    sum
}
