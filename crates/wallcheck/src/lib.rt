// The public entries: a line or a worksheet row, each also into a lent buffer; a line also with the count of bytes taken. Those of checks that take
// `S` records alone stand in `storey_checks`, that of the choice of a block in `block_choice`. The C interface, c_interface, hands them on.
#![tactic(auto)]

pub mod block_choice;
pub mod storey_checks;

ghost use Rattle.std.specs.Prelude.{◌≡◌};
ghost use Rattle.basis.specs.declared.CheckResult.{CheckResult};
ghost use Rattle.wallcheck.specs.Entry.{line_result, counted_result, row_result, cells_result, lent};

use basis::{CheckResult, Refusal};
use line::CountedReading;
use storey::StoreyWall;
use worksheet::Row;
use worksheet::cells::Cells;

// The least length of a lent buffer; the text of every result fits it. A shorter one is refusal 20, before all others.
const LEAST_BUFFER: usize = 64;

// The result of a line, and how many of its bytes were taken: up to and including the first wrong one, or all. `wallcheck_reading` in the header.
#[repr(C)]
#[derive(Clone, Copy)]
pub struct CountedResult {
    pub result: CheckResult,
    pub taken: u64,
}

// The result of a line, and the count in `taken`. A struct of both, or the reading handed to a function of its own, is copied by every entry,
// which takes time.
fn check_counting(line: &[u8], taken: &mut u64) -> CheckResult
    ensures { record { result = result; taken = taken.new } ≡ counted_result line.now }
{
    let CountedReading {
        reading,
        taken: count,
    } = line::read(line);
    *taken = count as u64;
    match reading {
        Some(wall) => wall.check(),
        None => CheckResult::from(Refusal::NotALine),
    }
}

// The result of a line, of any bytes, with the count of bytes taken.
pub fn check_line_taken(line: &[u8]) -> CountedResult
    ensures { result ≡ counted_result line.now }
{
    let mut taken = 0;
    let result = check_counting(line, &mut taken);
    CountedResult { result, taken }
}

// What a lent buffer gets of a result, whatever it is the result of, and what is handed back.
pub fn lend(outcome: CheckResult, out: &mut [u8]) -> CheckResult
    ensures { record { result = result; buffer = out.new } ≡ lent out.old outcome }
{
    if out.len() < LEAST_BUFFER {
        return CheckResult::from(Refusal::BufferTooShort);
    }
    report::write(outcome, out);
    outcome
}

// What has a result.
pub trait Checked: Copy {
    ghost result_of: { Self → CheckResult };

    fn check(self) -> CheckResult
        ensures { result ≡ result_of self };

    // The result, also written to `out` as text.
    fn check_into(self, out: &mut [u8]) -> CheckResult
        ensures { record { result = result; buffer = out.new } ≡ lent out.old (result_of self) }
    {
        lend(self.check(), out)
    }
}

// A line, of any bytes.
impl Checked for &[u8] {
    ghost result_of = { λ line. line_result line.now };

    fn check(self) -> CheckResult {
        let mut taken = 0;
        check_counting(self, &mut taken)
    }
}

// A worksheet row, of any cells.
impl Checked for Row {
    ghost result_of = { row_result };

    fn check(self) -> CheckResult {
        StoreyWall::from(self).check()
    }
}

// The cells of a worksheet row, held and c among them, of any content.
impl Checked for Cells {
    ghost result_of = { cells_result };

    fn check(self) -> CheckResult {
        let wall = StoreyWall::from(self);
        wall.check()
    }
}
