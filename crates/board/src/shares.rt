// Shares of the two stores: the chips' arrays end to end in chip order, and their security registers likewise.
ghost use Rattle.std.specs.Prelude.{◌≡◌, ◌≤◌, length};
ghost use Rattle.parts.specs.Part.{geometry_of};
ghost use Rattle.board.specs.Place.{placed};
ghost use Rattle.board.specs.Shares.{size_in, sizes_of, array_start, security_start, wrong_length};

use crate::{PLACES, Place, placed};
use parts::part::geometry_of;

// Which of its two regions a chip's share is for.
#[derive(Clone, Copy, Debug, PartialEq, Eq)]
pub enum Region {
    Array,
    Security,
}

fn size_in(region: Region, part: u8) -> u32
    ensures { result ≡ size_in region (geometry_of part) }
{
    let figures = geometry_of(part);
    match region {
        Region::Array => figures.array,
        Region::Security => figures.security,
    }
}

// What the chips' shares come to.
#[tactic(auto, unfolding(crate::specs::Shares::sizes_of))]
fn sizes_of(region: Region, chips: &[Place]) -> usize
    requires { length chips.now ≤ 4 }
    ensures { result ≡ sizes_of region chips.now }
{
    chips
        .iter()
        .map(|chip| size_in(region, chip.part) as usize)
        .sum()
}

// Where the share of chip i starts, and with the count of chips where the store ends. Two public names over `sizes_of`, one for each store.
#[tactic(auto, using(crate::proofs::Laws::placed_most, crate::proofs::Laws::sizes_start))]
pub fn array_start(i: usize, places: [Place; PLACES]) -> usize
    ensures { result ≡ array_start places (placed i) }
{
    sizes_of(Region::Array, &places[..placed(i)])
}

#[tactic(auto, using(crate::proofs::Laws::placed_most, crate::proofs::Laws::sizes_start))]
pub fn security_start(i: usize, places: [Place; PLACES]) -> usize
    ensures { result ≡ security_start places (placed i) }
{
    sizes_of(Region::Security, &places[..placed(i)])
}

// Check 5: the array store, then the security store.
pub fn wrong_length(count: usize, places: [Place; PLACES], array: usize, security: usize) -> bool
    ensures { result ≡ wrong_length count places array security }
{
    array != array_start(count, places) || security != security_start(count, places)
}
