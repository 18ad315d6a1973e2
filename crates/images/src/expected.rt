// What is expected of a file. A word is PART:NN:LLLLL:NAME: the part of the chip, the number that loading must answer (00: taken), the
// line at fault, and the file; numbers are in decimal.
ghost use Rattle.std.specs.Prelude.{◌≤◌, length, IfSome};

#[derive(Clone, Copy)]
pub struct Expected {
    pub part: u8,
    pub number: usize,
    pub line: usize,
}

// What stands before the name, with 0 for each digit.
const FORM: &[u8] = b"0:00:00000:";

// Where the part's digit stands, the number, the line, and the name.
const PART: usize = 0;

const NUMBER: usize = 2;

const NUMBER_END: usize = 4;

const LINE: usize = 5;

const LINE_END: usize = 10;

pub const NAME: usize = 11;

const ZERO: u8 = b'0';

const TEN: usize = 10;

// A number of so many digits is far from the largest.
const MOST: usize = 1_000_000_000;

// A byte that should be a digit, where the form has 0, or else what the form has.
fn fits(form: u8, byte: u8) -> bool {
    if form == ZERO {
        byte.is_ascii_digit()
    } else {
        byte == form
    }
}

// A byte below '0' is no digit.
fn value_of(digit: u8) -> u8 {
    digit.saturating_sub(ZERO)
}

fn number_in(digits: &[u8]) -> usize {
    digits.iter().fold(
        0,
        |number, digit| number % MOST * TEN + value_of(*digit) as usize,
    )
}

// Nothing is expected of a word of another form.
pub fn expected_by(word: &[u8]) -> Option<Expected>
    ensures { IfSome result (λ _. 11 ≤ length word.now) }
{
    if word.len() <= NAME || !FORM.iter().zip(word).all(|(form, byte)| fits(*form, *byte)) {
        return None;
    }
    Some(Expected {
        part: value_of(word[PART]),
        number: number_in(&word[NUMBER..NUMBER_END]),
        line: number_in(&word[LINE..LINE_END]),
    })
}
