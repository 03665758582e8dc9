// A worksheet row: the numbers of an `S` record as f64 cells, turned into the record.
#![tactic(auto)]

pub mod cell;
pub mod cells;

ghost use Rattle.std.specs.Prelude.{◌≡◌};
ghost use Rattle.worksheet.specs.Entry.{entry_number};
ghost use Rattle.worksheet.specs.Row.{held_sides, distance_entry, row_wall};

use storey::StoreyWall;

// How the wall is held: on two sides, on three with the distance of the free edge, or on four with the spacing of the
// holding walls.
#[derive(Clone, Copy)]
pub enum Holding {
    TwoSides,
    ThreeSides(f64),
    FourSides(f64),
}

// A row. Each cell stands for the number of the same name of `StoreyWall`, in document 01's order; the holding stands
// for held and c.
#[derive(Clone, Copy)]
pub struct Row {
    pub usage: f64,
    pub thickness: f64,
    pub height: f64,
    pub length: f64,
    pub holding: Holding,
    pub support: f64,
    pub span: f64,
    pub bearing: f64,
    pub strength: f64,
    pub bonded: f64,
    pub dead: f64,
    pub imposed: f64,
    pub floorload: f64,
    pub building: f64,
    pub storeys: f64,
    pub otherspan: f64,
    pub calciumsilicate: f64,
    pub wind: f64,
}

impl Holding {
    // held
    fn held(self) -> u64
        ensures { result ≡ held_sides self }
    {
        match self {
            Holding::TwoSides => StoreyWall::TWO_SIDES,
            Holding::ThreeSides(_) => StoreyWall::THREE_SIDES,
            Holding::FourSides(_) => StoreyWall::FOUR_SIDES,
        }
    }

    // c
    fn distance(self) -> u64
        ensures { result ≡ entry_number (distance_entry self) }
    {
        match self {
            Holding::TwoSides => 0,
            Holding::ThreeSides(edge) => cell::number(edge),
            Holding::FourSides(spacing) => cell::number(spacing),
        }
    }
}

// The record with the row's numbers. A cell that is no whole number leaves one in its place that is in no range.
impl From<Row> for StoreyWall {
    ghost from_gives = { λ row wall. wall ≡ row_wall row };

    fn from(row: Row) -> StoreyWall {
        StoreyWall {
            usage: cell::number(row.usage),
            thickness: cell::number(row.thickness),
            height: cell::number(row.height),
            length: cell::number(row.length),
            held: row.holding.held(),
            distance: row.holding.distance(),
            support: cell::number(row.support),
            span: cell::number(row.span),
            bearing: cell::number(row.bearing),
            strength: cell::number(row.strength),
            bonded: cell::number(row.bonded),
            dead: cell::number(row.dead),
            imposed: cell::number(row.imposed),
            floorload: cell::number(row.floorload),
            building: cell::number(row.building),
            storeys: cell::number(row.storeys),
            otherspan: cell::number(row.otherspan),
            calciumsilicate: cell::number(row.calciumsilicate),
            wind: cell::number(row.wind),
        }
    }
}
