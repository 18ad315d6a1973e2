// Chips placed on a board: a word that names a place is PART:STRAP, a digit each, as 1:0 or 2:5 (docs/DECISIONS.md, D35).
#![tactic(auto)]

pub mod layout;

ghost use Rattle.std.specs.Prelude.{◌≡◌, cond, Some, None};
ghost use Rattle.placing.specs.Placing.{is_place, place_of, place_named};

use board::Place;
use transcript::digit::digit_value;

// A digit, the colon, a digit.
pub const NAME: usize = 3;

const COLON: u8 = b':';

fn place_of(part: u8, colon: u8, strap: u8) -> Option<Place>
    ensures { result ≡ cond (is_place part colon strap) (Some (place_of part strap)) None }
{
    let part = digit_value(part)?;
    if colon != COLON {
        return None;
    }
    let strap = digit_value(strap)?;
    Some(Place { part, strap })
}

// The place that a word names: a digit, the colon, a digit.
pub fn place_named(word: &[u8]) -> Option<Place>
    ensures { result ≡ place_named word.now }
{
    let Some([part, colon, strap]) = word.as_array::<NAME>() else {
        return None;
    };
    place_of(*part, *colon, *strap)
}
