// The text of an image, from a recording that leaves out the rows of sixteen FFh: they are put back, so that all of it is compared.
use print::byte_text;
use transcript::frame::LF;

const ROW_BYTES: usize = 16;

// The bytes of a row's text, of those before its data, and of a record of type 04.
const ROW_TEXT: usize = 44;

const OPENING: usize = 9;

const UPPER_TEXT: usize = 16;

// How many rows have the same upper address bits.
const UPPER_ROWS: usize = 4_096;

const BYTE: usize = 256;

// What is left of a recording, and how many bytes of the whole text there are.
#[derive(Clone, Copy)]
struct Filled<'a> {
    rest: &'a [u8],
    at: usize,
}

// A row as bytes, since it is compared with bytes. Sixteen FFh and the count are 0 together, so that the check byte hangs on the address alone.
fn erased_row(row: usize) -> [u8; ROW_TEXT] {
    let address = row % UPPER_ROWS * ROW_BYTES;
    let high = address / BYTE;
    let low = address % BYTE;
    let mut line = *b":10000000FFFFFFFFFFFFFFFFFFFFFFFFFFFFFFFF00\n";
    line[3..5].copy_from_slice(&byte_text(high as u8));
    line[5..7].copy_from_slice(&byte_text(low as u8));
    line[41..43].copy_from_slice(&byte_text(((2 * BYTE - high - low) % BYTE) as u8));
    line
}

// The line at which two texts differ, 1 for the first, if they do.
pub fn other_line(one: &[u8], other: &[u8]) -> Option<u64> {
    if one == other {
        return None;
    }
    let lines = one
        .iter()
        .zip(other)
        .take_while(|(a, b)| a == b)
        .filter(|(a, _)| **a == LF)
        .count();
    Some((lines as u64).saturating_add(1))
}

// Puts a line at a place, where it has room, and answers the place after it.
fn put(line: &[u8], whole: &mut [u8], at: usize) -> usize {
    if whole.len() < at || whole.len() - at < line.len() {
        return at;
    }
    let end = at + line.len();
    whole[at..end].copy_from_slice(line);
    end
}

// Copies so many bytes of the recording.
fn copy_on<'a>(size: usize, whole: &mut [u8], filled: Filled<'a>) -> Filled<'a> {
    if filled.rest.len() < size {
        return filled;
    }
    let (line, rest) = filled.rest.split_at(size);
    Filled {
        rest,
        at: put(line, whole, filled.at),
    }
}

// A record of type 04 stands in the recording before the first row of its upper address bits, whether or not that row does.
fn with_upper<'a>(row: usize, whole: &mut [u8], filled: Filled<'a>) -> Filled<'a> {
    if 0 < row && row % UPPER_ROWS == 0 {
        copy_on(UPPER_TEXT, whole, filled)
    } else {
        filled
    }
}

// A row of this address, from the recording where that goes on with it.
fn with_row<'a>(row: usize, whole: &mut [u8], filled: Filled<'a>) -> Filled<'a> {
    let before = with_upper(row, whole, filled);
    let line = erased_row(row);
    if before.rest.starts_with(&line[..OPENING]) {
        copy_on(ROW_TEXT, whole, before)
    } else {
        Filled {
            at: put(&line, whole, before.at),
            ..before
        }
    }
}

// Fills a buffer with the text of an array of so many bytes, and answers how long it is.
pub fn fill_in(short: &[u8], size: usize, whole: &mut [u8]) -> usize {
    let mut filled = Filled { rest: short, at: 0 };
    for row in 0..size / ROW_BYTES {
        filled = with_row(row, whole, filled);
    }
    put(filled.rest, whole, filled.at)
}
