// A record's numbers, as a line has them.
ghost use Rattle.std.specs.Prelude.{◌≡◌};
ghost use Rattle.storey.specs.Record.{storey_of};

use crate::StoreyWall;

// In document 01's order, then those of document 02.
impl From<[u64; StoreyWall::NUMBERS]> for StoreyWall {
    ghost from_gives = { λ numbers wall. wall ≡ storey_of numbers };

    fn from(numbers: [u64; StoreyWall::NUMBERS]) -> StoreyWall {
        StoreyWall {
            usage: numbers[0],
            thickness: numbers[1],
            height: numbers[2],
            length: numbers[3],
            held: numbers[4],
            distance: numbers[5],
            support: numbers[6],
            span: numbers[7],
            bearing: numbers[8],
            strength: numbers[9],
            bonded: numbers[10],
            dead: numbers[11],
            imposed: numbers[12],
            floorload: numbers[13],
            building: numbers[14],
            storeys: numbers[15],
            otherspan: numbers[16],
            calciumsilicate: numbers[17],
            wind: numbers[18],
        }
    }
}
