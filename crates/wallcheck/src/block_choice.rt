// Choosing the block, document 02, #110: a line of either kind, and the list of blocks.
ghost use Rattle.std.specs.Prelude.{◌≡◌};
ghost use Rattle.wallcheck.specs.BlockChoice.{choice_line};

use basis::Refusal;
use selection::{Block, Choice};

// The choice for a line, of any bytes, and any list. A bad list comes before what the line has.
#[tactic(auto, unfolding(line::specs::Reading::counted_reading))]
pub fn choose(line: &[u8], blocks: &[Block]) -> Choice
    ensures { result ≡ choice_line line.now blocks.now }
{
    match line::read(line).reading {
        Some(wall) => selection::choose(wall, blocks),
        None => Choice::from(basis::first_refusal(
            Refusal::BadBlockList,
            selection::is_bad_list(blocks),
            Refusal::NotALine,
        )),
    }
}
