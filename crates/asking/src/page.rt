// A page asked for: page:K:STORE:N.
ghost use Rattle.std.specs.Prelude.{◌≡◌, ◌<◌, length};
ghost use Rattle.asking.specs.Page.{number_of, page_at, page_asked};

use crate::{AFTER, CHIP, COLON, opens};
use transcript::digit::{DIGITS, digit_value};

#[derive(Clone, Copy, Debug, PartialEq, Eq)]
pub struct PageAsked {
    pub chip: usize,
    pub store: u8,
    pub page: usize,
}

// Where the store's digit stands in the word, the colon after it, and the page's number.
const STORE: usize = 7;

const AFTER_STORE: usize = 8;

const NUMBER: usize = 9;

// The most digits of a number, and how many numbers have one less.
const NUMBER_DIGITS: usize = 4;

const SHORTER: usize = 0x1000;

// One to four digits. (`from_str_radix` would take lower case and a sign.)
fn number_of(digits: &[u8]) -> Option<usize>
    ensures { result ≡ number_of digits.now }
{
    if digits.is_empty() || NUMBER_DIGITS < digits.len() {
        return None;
    }
    let mut number: usize = 0;
    for digit in digits {
        number = number % SHORTER * DIGITS as usize + digit_value(*digit)? as usize;
    }
    Some(number)
}

// What the digits of a word name, each where it should stand.
fn page_at(word: &[u8]) -> Option<PageAsked>
    requires { 9 < length word.now }
    ensures { result ≡ page_at word.now }
{
    let chip = digit_value(word[CHIP])? as usize;
    let store = digit_value(word[STORE])?;
    let page = number_of(&word[NUMBER..])?;
    Some(PageAsked { chip, store, page })
}

pub fn page_asked(word: &[u8]) -> Option<PageAsked>
    ensures { result ≡ page_asked word.now }
{
    let named = NUMBER < word.len()
        && opens(b"page:", word)
        && word[AFTER] == COLON
        && word[AFTER_STORE] == COLON;
    if named { page_at(word) } else { None }
}
