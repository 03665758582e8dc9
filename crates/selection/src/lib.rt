// Choosing the block: document 02, #110.
#![tactic(auto)]

ghost use Rattle.std.specs.Prelude.{◌≡◌, true, length, Err, Ok, MatchOption};
ghost use Rattle.std.specs.List.{list_all};
ghost use Rattle.basis.specs.Refusal.{first_or, number_of, numbered};
ghost use Rattle.selection.specs.Blocks.{in_range, bad_list};
ghost use Rattle.selection.specs.Choice.{with_strength, accepted, price_competes, before_best, checked_count, chosen, refused, refusals, choice};

use basis::Refusal;
use cellar::CellarWall;
use storey::StoreyWall;
use walls::Wall;

// How many blocks a list has at most.
pub const MOST_BLOCKS: usize = 64;

// A block of a merchant's list: `wallcheck_block` in the header.
#[repr(C)]
#[derive(Clone, Copy, Debug, PartialEq, Eq)]
pub struct Block {
    // F, in hundredths of N/mm²
    pub strength: u64,
    // in any unit
    pub price: u64,
}

impl Block {
    const RANGE_GREATEST_PRICE: u64 = 1000000;

    // Whether both numbers are in their range.
    #[tactic(auto, using(basis::proofs::Range::contains_within, crate::proofs::Blocks::in_range_chain))]
    pub fn in_range(self) -> bool
        ensures { result ≡ in_range self }
    {
        (1..=StoreyWall::RANGE_GREATEST_STRENGTH).contains(&self.strength)
            & (1..=Block::RANGE_GREATEST_PRICE).contains(&self.price)
    }
}

// 26: the list is empty, too long or has a number out of range.
#[tactic(auto, unfolding(crate::specs::Blocks::bad_list))]
pub fn is_bad_list(blocks: &[Block]) -> bool
    ensures { result ≡ bad_list blocks.now }
{
    (blocks.len() == 0) | (MOST_BLOCKS < blocks.len()) || !every_in_range(blocks)
}

fn every_in_range(blocks: &[Block]) -> bool
    ensures { result ≡ list_all in_range blocks.now }
{
    blocks.iter().all(|block| block.in_range())
}

// What is returned: `wallcheck_choice` in the header.
#[repr(C)]
#[derive(Clone, Copy, Debug, PartialEq, Eq)]
pub struct Choice {
    // 0, or why no block is chosen.
    pub refusal: u64,
    // The place of the block that is chosen, counted from 1; 0 with a refusal.
    pub place: u64,
    // How many blocks were checked.
    pub checked: u64,
}

// 26, 1 and 2: nothing is checked.
impl From<Refusal> for Choice {
    ghost from_gives = { λ refusal given. given ≡ refused (number_of refusal) };

    fn from(refusal: Refusal) -> Choice {
        Choice {
            refusal: u64::from(refusal),
            place: 0,
            checked: 0,
        }
    }
}

// The record with another F.
fn with_strength(wall: Wall, strength: u64) -> Wall
    ensures { result ≡ with_strength wall strength }
{
    match wall {
        Wall::Storey(wall) => Wall::Storey(StoreyWall { strength, ..wall }),
        Wall::Cellar(wall) => Wall::Cellar(CellarWall { strength, ..wall }),
    }
}

// Whether one price is below the other.
#[tactic(auto, unfolding(crate::specs::Choice::price_competes))]
fn price_competes(price: u64, other: u64) -> bool
    ensures { result ≡ price_competes price other }
{
    price < other
}

// A block and its place in the list, counted from 1.
#[derive(Clone, Copy)]
struct Placed {
    place: u64,
    block: Block,
}

// The choice for any record and list.
#[tactic(auto, unfolding(basis::specs::Refusal::first_or))]
pub fn choose(wall: Wall, blocks: &[Block]) -> Choice
    ensures { result ≡ choice wall blocks.now }
{
    match choice_or_refusal(wall, blocks) {
        Ok(choice) => choice,
        Err(refusal) => Choice::from(refusal),
    }
}

// The choice, or the refusal that comes before it: then no block is checked.
#[tactic(auto, unfolding(basis::specs::Refusal::first_or))]
fn choice_or_refusal(wall: Wall, blocks: &[Block]) -> Result<Choice, Refusal>
    ensures { numbered result ≡ first_or Err (refusals wall blocks.now) (Ok (chosen (before_best wall blocks.now) (checked_count wall blocks.now) (length blocks.now))) }
{
    Refusal::BadBlockList.when(is_bad_list(blocks))?;
    Refusal::OutOfRange.when(!wall.in_range())?;
    Ok(chosen(wall, blocks))
}

// Whether a block is to be checked where this is the best so far.
fn competes(block: Block, best: Option<Placed>) -> bool
    ensures { MatchOption best (result ≡ true) (λ best. result ≡ price_competes block.price best.block.price) }
{
    match best {
        Some(best) => price_competes(block.price, best.block.price),
        None => true,
    }
}

// Whether the record is accepted with the block's F.
#[tactic(auto, unfolding(crate::specs::Choice::accepted))]
fn accepts(wall: Wall, block: Block) -> bool
    ensures { result ≡ accepted wall block }
{
    with_strength(wall, block.strength).check().refusal == 0
}

// The price first: a block is checked only where its price competes with that of the best so far.
fn chosen(wall: Wall, blocks: &[Block]) -> Choice
    ensures { result ≡ chosen (before_best wall blocks.now) (checked_count wall blocks.now) (length blocks.now) }
{
    let mut best: Option<Placed> = None;
    let mut checked = 0;
    for (index, &block) in blocks.iter().enumerate() {
        if competes(block, best) {
            checked += 1;
            if accepts(wall, block) {
                let place = index as u64 + 1;
                best = Some(Placed { place, block });
            }
        }
    }
    match best {
        Some(Placed { place, .. }) => Choice {
            refusal: 0,
            place,
            checked,
        },
        None => Choice {
            refusal: u64::from(Refusal::NoBlockAccepted),
            place: 0,
            checked,
        },
    }
}
