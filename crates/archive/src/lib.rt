// Archived schedules: lines, each ended by byte 10, in blocks of 512 bytes, so that one bad block costs its own lines alone.
// Document 02, #107.
#![tactic(auto)]

ghost use Rattle.std.specs.Prelude.{◌≡◌, ◌≤◌, eqb, length};
ghost use Rattle.std.specs.List.{count_by};
ghost use Rattle.basis.specs.Refusal.{numbered};
ghost use Rattle.archive.specs.Entry.{block_count, stored, archived};
ghost use Rattle.archive.specs.Stream.{last_end, first_length, packed_into, held_packed};
ghost use Rattle.archive.specs.Unpacking.{unpacked_into};

mod block;

use basis::Refusal;
pub use block::{BLOCK, CAPACITY, read_block};
use memchr::memrchr;

const LINE_END: u8 = b'\n';

// How many bytes are counted in one go: so few that a byte holds the count, and then many of them are compared at once.
const PART: usize = 192;

// What the functions of the C interface return: `wallcheck_archived` in the header.
#[repr(C)]
#[derive(Clone, Copy, Debug, PartialEq, Eq)]
pub struct Archived {
    // 0, or why a text or a block is refused.
    pub refusal: u64,
    // How many blocks a text takes, or how many bytes a block yields.
    pub count: u64,
}

impl From<Result<usize, Refusal>> for Archived {
    ghost from_gives = { λ answer given. given ≡ archived (numbered answer) };

    fn from(answer: Result<usize, Refusal>) -> Archived {
        match answer {
            Ok(count) => Archived {
                refusal: 0,
                count: count as u64,
            },
            Err(refusal) => Archived {
                refusal: u64::from(refusal),
                count: 0,
            },
        }
    }
}

// How many blocks the lines of `text` take.
pub fn count_blocks(text: &[u8]) -> Result<usize, Refusal>
    ensures { numbered result ≡ block_count text.now }
{
    let mut taken = 0;
    let mut count = 0;
    while taken < text.len() {
        let length = first_length(&text[taken..]);
        if length == 0 {
            return Err(Refusal::TextNotStored);
        }
        taken += length;
        count += 1;
    }
    Ok(count)
}

// Writes these blocks, one behind the other from the first byte of `out` on, and returns their number. Where they do not fit, or the text
// cannot be stored, nothing is written.
pub fn write_blocks(text: &[u8], out: &mut [u8]) -> Result<usize, Refusal>
    ensures { record { answer = numbered result; buffer = out.new } ≡ stored text.now out.old }
{
    let Ok(count) = count_blocks(text) else {
        return Err(Refusal::TextNotStored);
    };
    if out.len() / BLOCK < count {
        return Err(Refusal::TextNotStored);
    }
    pack(text, true, out);
    Ok(count)
}

// How far `pack` has come.
#[derive(Clone, Copy)]
struct Progress {
    // How many bytes of the text are packed.
    taken: usize,
    // How many blocks these take.
    blocks: usize,
}

// Writes the first blocks of a text, as many as `out` has room for, up to a line that no block can hold. With `complete` nothing comes behind `text`. Else
// only those blocks are written whose lines are known whatever comes.
fn pack(text: &[u8], complete: bool, out: &mut [u8]) -> Progress
    ensures { record { progress = result; buffer = out.new } ≡ packed_into complete text.now out.old }
{
    let mut taken = 0;
    let mut blocks = 0;
    while blocks < out.len() / BLOCK {
        let rest = &text[taken..];
        let settled = complete | (rest.len() >= CAPACITY);
        if !settled {
            break;
        }
        let length = first_length(rest);
        if length == 0 {
            break;
        }
        let place = BLOCK * blocks;
        block::write_block(&rest[..length], &mut out[place..place + BLOCK]);
        taken += length;
        blocks += 1;
    }
    Progress { taken, blocks }
}

// What `pack_held` has packed.
#[derive(Clone, Copy)]
pub struct Packed {
    // How many bytes are no longer held.
    pub taken: usize,
    // How many blocks stand first in the output.
    pub blocks: usize,
    // How many lines these have.
    pub lines: usize,
}

// Packs the bytes of an input that are read and not packed yet: the first `held` of a buffer, or all where it has no more. Those that are left are moved to
// its front. With `complete` the whole input is read.
pub fn pack_held(input: &mut [u8], held: usize, complete: bool, output: &mut [u8]) -> Packed
    ensures { record { packed = result; input = input.new; output = output.new } ≡ held_packed complete input.old held output.old }
{
    let held = held.min(input.len());
    let progress = pack(&input[..held], complete, output);
    let taken = progress.taken;
    let lines = count_line_ends(&input[..taken]);
    input.copy_within(taken..held, 0);
    Packed {
        taken,
        blocks: progress.blocks,
        lines,
    }
}

fn count_line_ends(text: &[u8]) -> usize
    ensures { result ≡ count_by (λ byte. eqb byte 10) text.now }
{
    let mut uncounted = text;
    let mut ends = 0;
    while !uncounted.is_empty() {
        let (part, behind) = uncounted.split_at(uncounted.len().min(PART));
        ends += usize::from(count_in_part(part));
        uncounted = behind;
    }
    ends
}

fn count_in_part(part: &[u8]) -> u8
    requires { length part.now ≤ 255 }
    ensures { result ≡ count_by (λ byte. eqb byte 10) part.now }
{
    let mut ends: u8 = 0;
    for &byte in part {
        if byte == LINE_END {
            ends += 1;
        }
    }
    ends
}

// What `unpack` has read.
#[derive(Clone, Copy)]
pub struct Unpacked {
    // How many blocks yield their lines.
    pub blocks: usize,
    // How many bytes these have: they stand first in the output.
    pub written: usize,
}

// Writes the lines of the first blocks of an archive, as many as `out` surely has room for, up to the first that is refused. A last piece under 512 bytes is.
pub fn unpack(archive: &[u8], out: &mut [u8]) -> Unpacked
    ensures { record { unpacked = result; buffer = out.new } ≡ unpacked_into archive.now out.old }
{
    let mut rest = archive;
    let mut blocks = 0;
    let mut written = 0;
    while blocks < out.len() / BLOCK {
        let (block, behind) = rest.split_at(rest.len().min(BLOCK));
        let Ok(lines) = read_block(block) else {
            break;
        };
        buffer::copy(out, written, lines);
        written += lines.len();
        blocks += 1;
        rest = behind;
    }
    Unpacked { blocks, written }
}

// How many bytes the first block of a text takes: of the first 508 those that are whole lines.
fn first_length(text: &[u8]) -> usize
    ensures { result ≡ first_length text.now }
{
    last_end(&text[..text.len().min(CAPACITY)])
}

// How many bytes stand up to and including the last byte 10. One copy for both callers of `first_length`, which is quicker than one in each.
#[inline(never)]
fn last_end(bytes: &[u8]) -> usize
    ensures { result ≡ last_end bytes.now }
{
    match memrchr(LINE_END, bytes) {
        Some(place) => place + 1,
        None => 0,
    }
}
