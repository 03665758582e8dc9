// Numbers, quoted texts and lines as bytes: definitions and laws that others share, and the search for the end of a line.
#![tactic(auto)]

ghost use Rattle.std.specs.Prelude.{◌≡◌, ◌+◌, drop};
ghost use Rattle.text.specs.LineEnd.{line_length};

use memchr::memchr;

// Byte 10.
const LINE_END: u8 = b'\n';

// Where the line that begins at `from` ends: at byte 10, or with the block. A line that begins behind the block ends where it begins.
pub fn line_end(block: &[u8], from: usize) -> usize
    ensures { result ≡ from + line_length (drop from block.now) }
{
    let Some(rest) = block.get(from..) else {
        return from;
    };
    from + memchr(LINE_END, rest).unwrap_or(rest.len())
}
