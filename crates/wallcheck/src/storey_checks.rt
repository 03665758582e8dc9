// Checks that take `S` records alone: with a number beside the record, document 02, #106; of a low and a high record, #109.
ghost use Rattle.std.specs.Prelude.{ℕ, ◌≡◌, Option, Some};
ghost use Rattle.basis.specs.declared.CheckResult.{CheckResult};
ghost use Rattle.basis.specs.Refusal.{numbered};
ghost use Rattle.storey.specs.declared.StoreyWall.{StoreyWall};
ghost use Rattle.early_design.specs.Check.{range_result};
ghost use Rattle.worksheet.specs.Cell.{cell_number};
ghost use Rattle.worksheet.specs.Row.{row_wall};
ghost use Rattle.worksheet.specs.Cells.{cells_wall};
ghost use Rattle.wallcheck.specs.StoreyRecord.{read_storey, result_beside};
ghost use Rattle.wallcheck.specs.MinimumLoad.{check};
ghost use Rattle.wallcheck.specs.EarlyDesign.{range_read};

use crate::Checked;
use basis::{CheckResult, Refusal};
use early_design::{RangeAnswer, RangeResult, WallRange};
use minimum_load::TopStoreyWall;
use storey::StoreyWall;
use walls::Wall;
use worksheet::cells::Cells;
use worksheet::{Row, cell};

// What an `S` record is read from. It is lent: moved into `MinimumLoad`, the cells of a row would be copied twice more.
pub trait StoreyRecordSource: Copy {
    ghost read_as: { Self → Option StoreyWall };

    // None is refusal 1.
    fn storey_wall(self) -> Option<StoreyWall>
        ensures { result ≡ read_as self };
}

// A line, of any bytes. None where it is not of the form, or a `C` line.
impl StoreyRecordSource for &[u8] {
    ghost read_as = { λ line. read_storey line.now };

    #[tactic(auto, unfolding(crate::specs::StoreyRecord::read_storey, line::specs::Reading::counted_reading))]
    fn storey_wall(self) -> Option<StoreyWall> {
        match line::read(self).reading {
            Some(Wall::Storey(wall)) => Some(wall),
            _ => None,
        }
    }
}

// A worksheet row, of any cells.
impl StoreyRecordSource for &Row {
    ghost read_as = { λ row. Some (row_wall row.now) };

    fn storey_wall(self) -> Option<StoreyWall> {
        Some(StoreyWall::from(*self))
    }
}

// The cells of a worksheet row, held and c among them, of any content.
impl StoreyRecordSource for &Cells {
    ghost read_as = { λ cells. Some (cells_wall cells.now) };

    // Inlined at each of its callers: a call would copy the record.
    #[inline(always)]
    fn storey_wall(self) -> Option<StoreyWall> {
        let wall = StoreyWall::from(*self);
        Some(wall)
    }
}

// The number beside a record: as it is, or, beside a row, a cell like the others.
pub trait Number: Copy {
    ghost counts_as: { Self → ℕ };

    fn number(self) -> u64
        ensures { result ≡ counts_as self };
}

impl Number for u64 {
    ghost counts_as = { λ n. n };

    fn number(self) -> u64 {
        self
    }
}

impl Number for f64 {
    ghost counts_as = { cell_number };

    fn number(self) -> u64 {
        cell::number(self)
    }
}

// The minimum load in the top storey: what the `S` record is read from, and the design wind load W in N/m² beside it.
#[derive(Clone, Copy)]
pub struct MinimumLoad<R, W>(pub R, pub W);

impl<R: StoreyRecordSource, W: Number> Checked for MinimumLoad<R, W> {
    ghost result_of = { λ asked. result_beside check (R.read_as asked.0) (W.counts_as asked.1) };

    fn check(self) -> CheckResult {
        let MinimumLoad(record, wind) = self;
        match record.storey_wall() {
            Some(wall) => {
                let designwind = wind.number();
                TopStoreyWall { wall, designwind }.check()
            }
            None => CheckResult::from(Refusal::NotALine),
        }
    }
}

// Early design with ranges: what the low and the high `S` record are read from.
#[derive(Clone, Copy)]
pub struct DesignRange<R>(pub R, pub R);

impl<R: StoreyRecordSource> DesignRange<R> {
    // The answer, or the refusal, as two numbers.
    pub fn check(self) -> RangeResult
        ensures { result ≡ range_result (range_read (R.read_as self.0) (R.read_as self.1)) }
    {
        RangeResult::from(self.answer())
    }

    // What the low record has comes before what the high one has.
    fn answer(self) -> Result<RangeAnswer, Refusal>
        ensures { numbered result ≡ range_read (R.read_as self.0) (R.read_as self.1) }
    {
        let DesignRange(low, high) = self;
        match (low.storey_wall(), high.storey_wall()) {
            (None, _) => Err(Refusal::NotALine),
            (Some(low), None) => Err(basis::first_refusal(
                Refusal::OutOfRange,
                !low.in_range(),
                Refusal::NotALine,
            )),
            (Some(low), Some(high)) => WallRange { low, high }.check(),
        }
    }
}
