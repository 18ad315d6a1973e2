// A trace: each answer with its words, on its line. A block is one line then, so that the state is known before and after it.
use bus::Bus;
use print::PRINTED_BYTES;
use std::io::Result;
use stream::write_on;
use trace::{WORDS, words};
use transcript::digit::{DIGITS, digit_of};
use transcript::frame::{FRAME_BYTES, LF};

// An answer's digits, the event's first; the words stand after them and two blanks.
const ANSWER: usize = PRINTED_BYTES - 1;

// Where the event's digits end.
const EVENT: usize = 4;

// How many words have a digit less.
const SHORTER: u16 = 0x1000;

const GAP: usize = 2;

const LINE: usize = ANSWER + GAP + WORDS + 1;

// A tape for one line alone is traced.
pub fn is_traced(tape: &[u8]) -> bool {
    tape.len() == FRAME_BYTES
}

// The word of the digits that were printed.
fn word_of(digits: &[u8]) -> u16 {
    digits.iter().fold(
        0,
        |word, digit| word % SHORTER * DIGITS as u16 + (digit_of(*digit) % DIGITS) as u16,
    )
}

fn write(rt: &HostRuntime, text: &[u8]) -> Result<()> {
    write_on(rt, &mut rt.stdout(), text)
}

// Ends a line, which has room for that, and writes it.
fn write_line(rt: &HostRuntime, line: &mut [u8], end: usize) -> Result<()> {
    if line.len() <= end {
        return Ok(());
    }
    line[end] = LF;
    write(rt, &line[..end + 1])
}

// An answer and its words, on a line that has room for them.
fn write_on_line(
    rt: &HostRuntime,
    before: Bus,
    after: Bus,
    answer: &[u8],
    line: &mut [u8],
) -> Result<()> {
    if answer.len() < ANSWER || line.len() < LINE {
        return Ok(());
    }
    line[..ANSWER].copy_from_slice(&answer[..ANSWER]);
    let event = word_of(&answer[..EVENT]);
    let result = word_of(&answer[EVENT..ANSWER]);
    let room = &mut line[ANSWER + GAP..LINE - 1];
    let n = words(before, after, event, result, room);
    write_line(rt, line, ANSWER + GAP + n)
}

// A line without an event ends a run, or stands for one that is refused. Standard error says why.
pub fn write_closing(rt: &HostRuntime, closing: &[u8], words: &[u8]) -> Result<()> {
    if closing.len() < ANSWER {
        return Ok(());
    }
    write(rt, &closing[..ANSWER])?;
    write(rt, words)
}

// The line that a malformed one is answered with.
pub fn write_malformed(rt: &HostRuntime, closing: &[u8]) -> Result<()> {
    write_closing(rt, closing, b"  malformed line: the run ends\n")
}

// Where nothing is answered yet, nothing is written.
pub fn write_traced(
    rt: &HostRuntime,
    before: Bus,
    after: Bus,
    over: bool,
    answer: &[u8],
) -> Result<()> {
    if over {
        return write_malformed(rt, answer);
    }
    let mut line = [b' '; LINE];
    write_on_line(rt, before, after, answer, &mut line)
}
