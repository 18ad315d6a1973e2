// A line of a transcript: kind then value, four digits, then LF (paper, "The transcript").
ghost use Rattle.std.specs.Prelude.{◌≡◌, cond, ◌&&◌};
ghost use Rattle.transcript.specs.Digit.{is_digit};
ghost use Rattle.transcript.specs.Frame.{event_word, frame_at};

use crate::digit::{DIGITS, digit_value};
use base::word::word_of;

pub const LF: u8 = b'\n';

// The paper's number for a malformed line.
pub const MALFORMED: u8 = 9;

// How many bytes a line has.
pub const FRAME_BYTES: usize = 5;

// What stands at a place of a transcript: three cases, so neither an Option nor a Result. The paper's number and values of each case: `meaning`, in specs/Frame.antt.
#[derive(Clone, Copy, Debug, PartialEq, Eq)]
pub enum Frame {
    // An event, and the place after its line.
    Event(u16, usize),
    // No line stands here.
    Malformed,
    // Nothing is left.
    End,
}

// The event that four digits make: kind then value.
fn event_of(a: u8, b: u8, c: u8, d: u8) -> Option<u16>
    ensures { result ≡ cond (is_digit a && is_digit b && is_digit c && is_digit d) (Some (event_word a b c d)) None }
{
    let kind = digit_value(a)? * DIGITS + digit_value(b)?;
    let value = digit_value(c)? * DIGITS + digit_value(d)?;
    Some(word_of(kind, value))
}

// The line at a place: one to four bytes left at the end are malformed, a place at or past the end is the end.
pub fn frame_at(text: &[u8], at: usize) -> Frame
    ensures { result ≡ frame_at text.now at }
{
    if text.len() <= at {
        return Frame::End;
    }
    let &[a, b, c, d, LF, ..] = &text[at..] else {
        return Frame::Malformed;
    };
    match event_of(a, b, c, d) {
        Some(event) => Frame::Event(event, at + FRAME_BYTES),
        None => Frame::Malformed,
    }
}
