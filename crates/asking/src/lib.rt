// What the words on the command line ask for. A word that asks for a file is load:K:FILE or save:K:FILE, where K is the chip's digit
// (request E1).
#![tactic(auto)]

pub mod page;
pub mod status;
pub mod trace;
pub mod words;

ghost use Rattle.std.specs.Prelude.{◌≡◌};
ghost use Rattle.asking.specs.Asking.{opens, asked_of, asked_by};

use transcript::digit::digit_value;

// What a word asks for: the chip to be loaded or saved. `Asks`, in specs/Asking.antt, has the words of each case.
#[derive(Clone, Copy, Debug, PartialEq, Eq)]
pub enum Asked {
    Load(usize),
    Save(usize),
}

// Where the chip's digit stands in the word, the colon after it, and the path.
const CHIP: usize = 5;

const AFTER: usize = 6;

pub const PATH: usize = 7;

const COLON: u8 = b':';

// The library's method, under the name of the definition.
#[tactic(auto, using(crate::proofs::Openings::starts_opens))]
fn opens(opening: &[u8], word: &[u8]) -> bool
    ensures { result ≡ opens opening.now word.now }
{
    word.starts_with(opening)
}

// What a word that names a chip and a file asks for.
fn asked_of(word: &[u8], chip: usize) -> Option<Asked>
    ensures { result ≡ asked_of word.now chip }
{
    if opens(b"load:", word) {
        Some(Asked::Load(chip))
    } else if opens(b"save:", word) {
        Some(Asked::Save(chip))
    } else {
        None
    }
}

pub fn asked_by(word: &[u8]) -> Option<Asked>
    ensures { result ≡ asked_by word.now }
{
    if word.len() <= PATH || word[AFTER] != COLON {
        return None;
    }
    let chip = digit_value(word[CHIP])?;
    asked_of(word, chip as usize)
}
