// A board: which part stands at which strap, what set-up asks of it, and the shares that its chips have of the two stores.
#![tactic(auto)]

pub mod shares;

ghost use Rattle.std.specs.Prelude.{◌≡◌};
ghost use Rattle.std.specs.List.{list_any};
ghost use Rattle.board.specs.Place.{placed};
ghost use Rattle.board.specs.Board.{wrong_count, is_unknown, is_outside, match_alike, some_alike, board_verdict};

use parts::address::share_address;
use parts::part::{geometry_of, is_part};
use refusal::Refusal;

// The most chips that a line has.
pub const PLACES: usize = 4;

// Raw numbers, since a board may be asked for with any.
#[derive(Clone, Copy, Debug, PartialEq, Eq)]
pub struct Place {
    pub part: u8,
    pub strap: u8,
}

// How many of the four places a count fills.
pub fn placed(count: usize) -> usize
    ensures { result ≡ placed count }
{
    count.min(PLACES)
}

fn wrong_count(count: usize) -> bool
    ensures { result ≡ wrong_count count }
{
    !(1..=PLACES).contains(&count)
}

fn any_unknown_part(chips: &[Place]) -> bool
    ensures { result ≡ list_any is_unknown chips.now }
{
    chips.iter().any(|chip| !is_part(chip.part))
}

fn any_strap_outside(chips: &[Place]) -> bool
    ensures { result ≡ list_any is_outside chips.now }
{
    chips
        .iter()
        .any(|chip| chip.strap >= geometry_of(chip.part).straps)
}

// Whether the chip at a place shares an address byte with one before it.
fn shares_with_earlier(chip: Place, earlier: &[Place]) -> bool
    ensures { result ≡ list_any (match_alike chip) earlier.now }
{
    earlier.iter().any(|other| share_address(chip.part, chip.strap, other.part, other.strap))
}

#[tactic(auto, unfolding(crate::specs::Board::some_alike))]
fn any_shared_address(chips: &[Place]) -> bool
    ensures { result ≡ some_alike chips.now }
{
    chips
        .iter()
        .enumerate()
        .any(|(i, chip)| shares_with_earlier(*chip, &chips[..i]))
}

// Checks 1 to 4 of set-up, in that order over all chips. Places past the count are ignored. Count and places are apart, and no struct of the two is
// asked for: definition and theorems of set-up have them so.
#[tactic(auto, unfolding(crate::specs::Board::board_verdict), using(crate::proofs::Laws::of_chips))]
pub fn board_verdict(count: usize, places: [Place; PLACES]) -> Result<(), Refusal>
    ensures { result ≡ board_verdict count places }
{
    if wrong_count(count) {
        return Err(Refusal::WrongCount);
    }
    let chips = &places[..placed(count)];
    if any_unknown_part(chips) {
        return Err(Refusal::UnknownPart);
    }
    if any_strap_outside(chips) {
        return Err(Refusal::StrapOutside);
    }
    if any_shared_address(chips) {
        return Err(Refusal::SharedAddress);
    }
    Ok(())
}
