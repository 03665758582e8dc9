// What a writer does to a lent buffer: a text or zeros put over a part of it.
// What does not fit leaves the buffer alone.
#![tactic(auto)]

ghost use Rattle.std.specs.Prelude.{◌≡◌, ◌+◌, ◌<◌, ◌≤◌, length, replicate, MatchOption};
ghost use Rattle.buffer.specs.Overwrite.{overwrite};

use std::ops::Range;

// The bytes of `text`.
pub fn copy(out: &mut [u8], at: usize, text: &[u8])
    ensures { out.new ≡ overwrite out.old at text.now }
{
    if let Some(part) = part(out.len(), at, text.len()) {
        out[part].copy_from_slice(text);
    }
}

// `count` zeros.
pub fn clear(out: &mut [u8], at: usize, count: usize)
    ensures { out.new ≡ overwrite out.old at (replicate count 0) }
{
    if let Some(part) = part(out.len(), at, count) {
        out[part].fill(0);
    }
}

// The part of `count` bytes from byte `at` on, where a buffer of `length` bytes has it.
fn part(length: usize, at: usize, count: usize) -> Option<Range<usize>>
    ensures { MatchOption result (length < at + count) (λ part. (part.start ≡ at) × (part.end ≡ at + count) × (part.end ≤ length)) }
{
    let end = at.checked_add(count)?;
    (end <= length).then_some(at..end)
}
