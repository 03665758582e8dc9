// A worksheet row as a spreadsheet and C have it: a cell for each number, held and c among them.
ghost use Rattle.std.specs.Prelude.{◌≡◌};
ghost use Rattle.worksheet.specs.Cells.{cells_wall};

use crate::cell;
use storey::StoreyWall;

// The cells, one for each number of `StoreyWall`, in document 01's order. Not `Row` with a type parameter for the
// holding: no struct with type arguments may cross to C.
#[repr(C)]
#[derive(Clone, Copy)]
pub struct Cells {
    pub usage: f64,
    pub thickness: f64,
    pub height: f64,
    pub length: f64,
    pub held: f64,
    pub distance: f64,
    pub support: f64,
    pub span: f64,
    pub bearing: f64,
    pub strength: f64,
    pub bonded: f64,
    pub dead: f64,
    pub imposed: f64,
    pub floorload: f64,
    pub building: f64,
    pub storeys: f64,
    pub otherspan: f64,
    pub calciumsilicate: f64,
    pub wind: f64,
}

// The record with the cells' numbers. A cell that is no whole number leaves one in its place that is in no range; held and c are
// as on a line, by their ranges.
impl From<Cells> for StoreyWall {
    ghost from_gives = { λ cells wall. wall ≡ cells_wall cells };

    // Inlined at each of its callers: a call would copy the record.
    #[inline(always)]
    fn from(cells: Cells) -> StoreyWall {
        StoreyWall {
            usage: cell::number(cells.usage),
            thickness: cell::number(cells.thickness),
            height: cell::number(cells.height),
            length: cell::number(cells.length),
            held: cell::number(cells.held),
            distance: cell::number(cells.distance),
            support: cell::number(cells.support),
            span: cell::number(cells.span),
            bearing: cell::number(cells.bearing),
            strength: cell::number(cells.strength),
            bonded: cell::number(cells.bonded),
            dead: cell::number(cells.dead),
            imposed: cell::number(cells.imposed),
            floorload: cell::number(cells.floorload),
            building: cell::number(cells.building),
            storeys: cell::number(cells.storeys),
            otherspan: cell::number(cells.otherspan),
            calciumsilicate: cell::number(cells.calciumsilicate),
            wind: cell::number(cells.wind),
        }
    }
}
