// A record and a list of blocks as text: the first line is the record, each further line a block.
#![tactic(auto)]

ghost use Rattle.std.specs.Prelude.{◌≡◌, ◌≤◌, ◌<◌, ◌+◌, List, Some, MatchOption, length, take, drop};
ghost use Rattle.text.specs.LineEnd.{lines_of};
ghost use Rattle.report.specs.Written.{text_written};
ghost use Rattle.selection.specs.declared.Block.{Block};
ghost use Rattle.block_list.specs.Choice.{choice_of_text, choice_text};
ghost use Rattle.block_list.specs.Keeping.{kept_in};
ghost use Rattle.block_list.specs.Reading.{read_blocks};

mod block_line;

use basis::Refusal;
use block_line::read_block;
use line::OVERLONG;
use selection::{Block, Choice, MOST_BLOCKS};
use wallcheck::block_choice;

// So many bytes, the end of the record's line among them, are more than 64 lines of two numbers have.
const OVERLONG_LIST: usize = 1282;

// The bytes of an input that are read: they stand first in a buffer, without those that the choice does not depend on.
#[derive(Drop)]
pub struct Input<'a> {
    pub buffer: &'a mut [u8],
    pub held: usize,
    ghost within: { held ≤ length buffer.now },
}

impl<'a> Input<'a> {
    // Drops what the choice does not depend on, whatever is read behind it.
    pub fn keep(&mut self)
        ensures { record { buffer = self.new.buffer.now; held = self.new.held } ≡ kept_in self.old.buffer.now self.old.held }
    {
        let held = self.held;
        let buffer = &mut *self.buffer;
        let end = text::line_end(&buffer[..held], 0);
        let line = end.min(OVERLONG);
        let list = (held - end).min(OVERLONG_LIST);
        buffer.copy_within(end..end + list, line);
        self.held = line + list;
    }

    // Writes refusal, place and count of the choice for the bytes held, and returns the length of the text.
    pub fn answer(&self, output: &mut [u8]) -> usize
        ensures { record { buffer = output.new; count = result } ≡ text_written (choice_text (choice_of_text (take self.now.held self.now.buffer.now))) output.old }
    {
        let Choice {
            refusal,
            place,
            checked,
        } = choose(&self.buffer[..self.held]);
        report::write_numbers(refusal, place, checked, output)
    }
}

// The choice for a text, of any bytes.
pub fn choose(text: &[u8]) -> Choice
    ensures { result ≡ choice_of_text text.now }
{
    let end = text::line_end(text, 0);
    let behind = (end + 1).min(text.len());
    let mut blocks = [Block {
        strength: 0,
        price: 0,
    }; MOST_BLOCKS];
    match read_blocks(&text[behind..], &mut blocks) {
        Some(count) => block_choice::choose(&text[..end], &blocks[..count]),
        None => Choice::from(Refusal::BadBlockList),
    }
}

// Puts the blocks of some lines first in `blocks` and returns their number. None where a line is none of a block, or there are more of them.
fn read_blocks(lines: &[u8], blocks: &mut [Block; MOST_BLOCKS]) -> Option<usize>
    ensures { MatchOption result
        ((found : List Block) → read_blocks (lines_of lines.now) ≡ Some found → 64 < length found)
        (λ count. (count ≤ 64) × (read_blocks (lines_of lines.now) ≡ Some (take count blocks.new))) }
{
    let mut taken = 0;
    let mut count = 0;
    while taken < lines.len() {
        let end = text::line_end(lines, taken);
        let block = read_block(&lines[taken..end])?;
        if count == MOST_BLOCKS {
            return None;
        }
        blocks[count] = block;
        count += 1;
        taken = end + 1;
    }
    Some(count)
}
