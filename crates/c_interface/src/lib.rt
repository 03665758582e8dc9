// The C interface of include/wallcheck.h, a static library. A slice is a pointer and a length there.
#![tactic(auto)]

ghost use Rattle.std.specs.Prelude.{◌≡◌};
ghost use Rattle.wallcheck.specs.Entry.{line_result, counted_result, cells_result, lent, edition};
ghost use Rattle.archive.specs.Block.{read_block};
ghost use Rattle.archive.specs.Entry.{block_count, written_into, yielded_count, archived};
ghost use Rattle.wallcheck.specs.MinimumLoad.{minimum_load_line, minimum_load_cells};
ghost use Rattle.wallcheck.specs.EarlyDesign.{range_lines, range_cells};
ghost use Rattle.wallcheck.specs.BlockChoice.{choice_line};

use archive::Archived;
use basis::CheckResult;
use early_design::RangeResult;
use selection::{Block, Choice};
use wallcheck::storey_checks::{DesignRange, MinimumLoad};
use wallcheck::{Checked, CountedResult, block_choice};
use worksheet::cells::Cells;

const EDITION: u64 = 110;

// Which rules a result is computed by. Offices file it with their results.
#[unsafe(no_mangle)]
pub extern "C" fn wallcheck_edition() -> u64
    ensures { result ≡ edition }
{
    EDITION
}

#[unsafe(no_mangle)]
pub extern "C" fn wallcheck_line(line: &[u8]) -> CheckResult
    ensures { result ≡ line_result line.now }
{
    line.check()
}

#[unsafe(no_mangle)]
pub extern "C" fn wallcheck_line_taken(line: &[u8]) -> CountedResult
    ensures { result ≡ counted_result line.now }
{
    wallcheck::check_line_taken(line)
}

#[unsafe(no_mangle)]
pub extern "C" fn wallcheck_line_into(line: &[u8], out: &mut [u8]) -> CheckResult
    ensures { record { result = result; buffer = out.new } ≡ lent out.old (line_result line.now) }
{
    line.check_into(out)
}

#[unsafe(no_mangle)]
pub extern "C" fn wallcheck_row(cells: Cells) -> CheckResult
    ensures { result ≡ cells_result cells }
{
    cells.check()
}

#[unsafe(no_mangle)]
pub extern "C" fn wallcheck_row_into(cells: Cells, out: &mut [u8]) -> CheckResult
    ensures { record { result = result; buffer = out.new } ≡ lent out.old (cells_result cells) }
{
    cells.check_into(out)
}

// Document 02, #106: with the design wind load in N/m².

#[unsafe(no_mangle)]
pub extern "C" fn wallcheck_minimum_load_line(line: &[u8], wind: u64) -> CheckResult
    ensures { result ≡ minimum_load_line line.now wind }
{
    MinimumLoad(line, wind).check()
}

#[unsafe(no_mangle)]
pub extern "C" fn wallcheck_minimum_load_line_into(
    line: &[u8],
    wind: u64,
    out: &mut [u8],
) -> CheckResult
    ensures { record { result = result; buffer = out.new } ≡ lent out.old (minimum_load_line line.now wind) }
{
    MinimumLoad(line, wind).check_into(out)
}

#[unsafe(no_mangle)]
pub extern "C" fn wallcheck_minimum_load_row(cells: Cells, wind: f64) -> CheckResult
    ensures { result ≡ minimum_load_cells cells wind }
{
    MinimumLoad(&cells, wind).check()
}

#[unsafe(no_mangle)]
pub extern "C" fn wallcheck_minimum_load_row_into(
    cells: Cells,
    wind: f64,
    out: &mut [u8],
) -> CheckResult
    ensures { record { result = result; buffer = out.new } ≡ lent out.old (minimum_load_cells cells wind) }
{
    MinimumLoad(&cells, wind).check_into(out)
}

// Document 02, #107: schedules in blocks of 512 bytes.

#[unsafe(no_mangle)]
pub extern "C" fn wallcheck_archive_count(text: &[u8]) -> Archived
    ensures { result ≡ archived (block_count text.now) }
{
    Archived::from(archive::count_blocks(text))
}

#[unsafe(no_mangle)]
pub extern "C" fn wallcheck_archive_write(text: &[u8], out: &mut [u8]) -> Archived
    ensures { record { result = result; buffer = out.new } ≡ written_into text.now out.old }
{
    Archived::from(archive::write_blocks(text, out))
}

// What the block yields begins at its byte 4.
#[unsafe(no_mangle)]
pub extern "C" fn wallcheck_archive_read(block: &[u8]) -> Archived
    ensures { result ≡ archived (yielded_count (read_block block.now)) }
{
    Archived::from(archive::read_block(block).map(|lines| lines.len()))
}

// Document 02, #109: a low and a high record.

#[unsafe(no_mangle)]
pub extern "C" fn wallcheck_range_lines(low: &[u8], high: &[u8]) -> RangeResult
    ensures { result ≡ range_lines low.now high.now }
{
    DesignRange(low, high).check()
}

#[unsafe(no_mangle)]
pub extern "C" fn wallcheck_range_rows(low: Cells, high: Cells) -> RangeResult
    ensures { result ≡ range_cells low high }
{
    DesignRange(&low, &high).check()
}

// Document 02, #110: the cheapest block that a record is accepted with.

#[unsafe(no_mangle)]
pub extern "C" fn wallcheck_choose(line: &[u8], blocks: &[Block]) -> Choice
    ensures { result ≡ choice_line line.now blocks.now }
{
    block_choice::choose(line, blocks)
}
