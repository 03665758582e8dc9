// The lines of an input that comes in blocks, each answered by the text of its result.
#![tactic(auto)]

ghost use Rattle.std.specs.Prelude.{cond, ◌≡◌, ◌+◌, ◌≤◌, min, length, take, drop};
ghost use Rattle.buffer.specs.Overwrite.{overwrite};
ghost use Rattle.lines.specs.Output.{output_of};
ghost use Rattle.lines.specs.Answer.{ended_length, answered_of, room_for, answered, answered_last};

use line::OVERLONG;
use wallcheck::Checked;

// The text of every result fits this many bytes.
const LONGEST_TEXT: usize = 64;

// The bytes of an input that are read and not answered yet: they stand first in a buffer.
#[derive(Drop)]
pub struct Input<'a> {
    pub buffer: &'a mut [u8],
    pub held: usize,
    ghost within: { held ≤ length buffer.now },
}

// How far `answer` has come.
#[derive(Clone, Copy)]
pub struct Progress {
    // How many bytes the text has. It stands first in the output.
    pub written: usize,
    // Whether an ended line is among the bytes held: then `answer` is called again before more is read.
    pub more: bool,
}

impl<'a> Input<'a> {
    // The first `held` bytes of a buffer, or all where it has no more.
    pub fn new(buffer: &'a mut [u8], held: usize) -> Input<'a>
        ensures buffer { result.buffer ≡ buffer.entry }
        ensures held { result.held ≡ min held (length buffer.old) }
    {
        let held = held.min(buffer.len());
        Input { buffer, held }
    }

    // Answers ended lines, as many as `output` surely has room for.
    pub fn answer(&mut self, output: &mut [u8]) -> Progress
        ensures { record { progress = result; input = self.new.buffer.now; held = self.new.held; output = output.new } ≡ answered self.old.buffer.now self.old.held output.old }
    {
        let held = self.held;
        let buffer = &mut *self.buffer;
        let counts = answer_lines(&buffer[..held], output);
        let taken = counts.taken;
        let more = text::line_end(&buffer[..held], taken) < held;
        let left = kept(held - taken, more);
        buffer.copy_within(taken..taken + left, 0);
        self.held = left;
        Progress {
            written: counts.written,
            more,
        }
    }
}

// Answers the line behind the last byte 10 of the whole input, unless it is empty, and returns the length of the text.
pub fn answer_last(line: &[u8], output: &mut [u8]) -> usize
    ensures { record { buffer = output.new; count = result } ≡ answered_last line.now output.old }
{
    if line.len() == 0 {
        return 0;
    }
    report::write(line.check(), output)
}

#[derive(Clone, Copy)]
struct Counts {
    // How many bytes of the block are answered.
    taken: usize,
    // How many bytes of text are written.
    written: usize,
}

// Answers the ended lines of `block`, as many as `output` surely has room for.
fn answer_lines(block: &[u8], output: &mut [u8]) -> Counts
    ensures taken { result.taken ≡ ended_length (room_for output.old) block.now }
    ensures written { result.written ≡ length (output_of (answered_of (room_for output.old) block.now)) }
    ensures text { output.new ≡ overwrite output.old 0 (output_of (answered_of (room_for output.old) block.now)) }
{
    let mut taken = 0;
    let mut written = 0;
    for _ in 0..output.len() / LONGEST_TEXT {
        let end = text::line_end(block, taken);
        if end == block.len() {
            break;
        }
        let line = &block[taken..end];
        let result = line.check();
        written += report::write(result, &mut output[written..]);
        taken = end + 1;
    }
    Counts { taken, written }
}

// How many of the `left` bytes that are not answered are held: of a line that has no end yet, as many as tell that it is too long.
fn kept(left: usize, more: bool) -> usize
    ensures { result ≡ cond more left (min 201 left) }
{
    if more { left } else { left.min(OVERLONG) }
}
