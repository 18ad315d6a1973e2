// An event and its answer as text: kind, value, status, reply as eight digits, then LF (paper, "The transcript").
#![tactic(auto)]

ghost use Rattle.std.specs.Prelude.{◌≡◌, ◌<◌};
ghost use Rattle.print.specs.Print.{digit_text, byte_text, word_text, printed, closing};

use base::word::word_of;
use transcript::digit::DIGITS;
use transcript::frame::LF;

// How many bytes an event and its answer have as text.
pub const PRINTED_BYTES: usize = 9;

// What stands for kind and value where no event was read.
const NO_EVENT: u16 = 0xFFFF;

// From this value on a digit is a letter.
const LETTERS: u8 = 10;

// The library has no method for one digit of upper case as a byte.
fn digit_text(value: u8) -> u8
    requires { value < 16 }
    ensures { result ≡ digit_text value }
{
    if value < LETTERS {
        b'0' + value
    } else {
        b'A' - LETTERS + value
    }
}

// How many digits a byte has.
pub const BYTE_DIGITS: usize = 2;

// And a word.
const WORD_DIGITS: usize = 4;

pub fn byte_text(byte: u8) -> [u8; BYTE_DIGITS]
    ensures { result ≡ byte_text byte }
{
    [digit_text(byte / DIGITS), digit_text(byte % DIGITS)]
}

fn word_text(word: u16) -> [u8; WORD_DIGITS]
    ensures { result ≡ word_text word }
{
    let [high, low] = word.to_be_bytes();
    let [a, b] = byte_text(high);
    let [c, d] = byte_text(low);
    [a, b, c, d]
}

// Kind and value, status and reply, two digits each.
pub fn printed(event: u16, answer: u16) -> [u8; PRINTED_BYTES]
    ensures { result ≡ printed event answer }
{
    let [a, b, c, d] = word_text(event);
    let [e, f, g, h] = word_text(answer);
    [a, b, c, d, e, f, g, h, LF]
}

// The line that ends a run: no event, the number of a refusal, reply 00.
pub fn closing(number: u8) -> [u8; PRINTED_BYTES]
    ensures { result ≡ closing number }
{
    printed(NO_EVENT, word_of(number, 0))
}
