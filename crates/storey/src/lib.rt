// The storey wall of document 01: its record; its ranges, limits, factors and check stand in one module for each heading;
// `spans` is document 02, #101; `heights` has #102 and `design_load` #103 beside document 01.
#![tactic(auto)]

mod buckling_length;
mod design_load;
mod design_resistance;
mod heights;
mod in_range;
mod numbers;
mod ranges;
mod refusals;
mod result;
mod spans;

// The numbers of an `S` record, in document 01's order, then those of document 02, #101 and #102. Lengths are in mm.
#[derive(Clone, Copy, PartialEq, Eq)]
pub struct StoreyWall {
    // use: 1 inner, 2 single-leaf outer, 3 bearing leaf or party wall, 4 garage outer
    pub usage: u64,
    // t
    pub thickness: u64,
    // h, clear height
    pub height: u64,
    // w, wall length
    pub length: u64,
    // held: 2, 3 or 4 sides
    pub held: u64,
    // c: 0 on two sides; distance of the free edge on three; spacing of the holding walls on four
    pub distance: u64,
    // 1 intermediate, 2 end under a floor, 3 end under a roof, 4 end with centring strip
    pub support: u64,
    // L
    pub span: u64,
    // a, bearing depth
    pub bearing: u64,
    // F, in hundredths of N/mm²
    pub strength: u64,
    // 0 or 1
    pub bonded: u64,
    // G, dead load in N/m
    pub dead: u64,
    // Q, imposed load in N/m
    pub imposed: u64,
    // q, imposed floor load in N/m²
    pub floorload: u64,
    // H, building height
    pub building: u64,
    // n, full storeys
    pub storeys: u64,
    // M, the other span, 0 for a one-way slab
    pub otherspan: u64,
    // mark: 1 for calcium silicate in normal or thin-bed mortar, else 0
    pub calciumsilicate: u64,
    // characteristic wind load in N/m²
    pub wind: u64,
}

impl StoreyWall {
    // How many numbers the record has.
    pub const NUMBERS: usize = 19;
    // What `held` is.
    pub const TWO_SIDES: u64 = 2;

    pub const THREE_SIDES: u64 = 3;

    pub const FOUR_SIDES: u64 = 4;
}

// What every check of a storey wall asks of a record that no refusal up to 11 applies to.
#[derive(Clone, Copy)]
pub struct Assessment {
    // E, the buckling length in tenths of a mm
    pub buckling: u64,
    // N, the design load in N/m
    pub load: u64,
    // The reduction of the resistance, in fifths
    pub fifths: u64,
}
