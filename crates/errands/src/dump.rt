// A page as a person reads it, on standard output: a heading, then 16 bytes a line, with their address in the chip's store, as digits and
// as text. The address has five digits and a colon, so that no line looks like an answer.
ghost use Rattle.std.specs.Prelude.{◌≤◌, length};

use board::Place;
use parts::part::{Part24CSM01, PartAT24CM01};
use print::byte_text;
use std::io::{Result, Write};
use stream::Patient;
use transcript::frame::LF;

// The number of the array store, as in `pages`.
const ARRAY: u8 = 0;

const LINE_BYTES: usize = 16;

// Where a line has the address's colon, its bytes, and them as text between bars; and how long it is.
const COLON_AT: usize = 5;

const BYTES_AT: usize = 7;

const BAR_AT: usize = 56;

const TEXT_AT: usize = 57;

const END_AT: usize = 73;

const LINE: usize = 75;

// A byte with its digits and a blank.
const STRIDE: usize = 3;

// What the digits of an address are worth.
const WORD: usize = 65_536;

const BYTE: usize = 256;

// A byte as text, where it is a character.
fn shown_as(byte: u8) -> u8 {
    if matches!(byte, b' '..=b'~') {
        byte
    } else {
        b'.'
    }
}

// A line without its bytes, as an array, so that it is one write.
fn bare_line(address: usize) -> [u8; LINE] {
    let [_, a] = byte_text((address / WORD % BYTE) as u8);
    let [b, c] = byte_text((address / BYTE % BYTE) as u8);
    let [d, e] = byte_text((address % BYTE) as u8);
    let mut line = [b' '; LINE];
    line[..=COLON_AT].copy_from_slice(&[a, b, c, d, e, b':']);
    line[BAR_AT] = b'|';
    line[END_AT] = b'|';
    line[END_AT + 1] = LF;
    line
}

fn dump_line(address: usize, bytes: &[u8]) -> [u8; LINE] {
    let mut line = bare_line(address);
    for (i, byte) in bytes.iter().take(LINE_BYTES).enumerate() {
        let [high, low] = byte_text(*byte);
        line[BYTES_AT + STRIDE * i] = high;
        line[BYTES_AT + STRIDE * i + 1] = low;
        line[TEXT_AT + i] = shown_as(*byte);
    }
    line
}

// The lines of a page, from an address on. The address is counted beside the chunks, since it may go round and no product of it has a bound.
fn write_lines(out: &mut impl Write, start: usize, page: &[u8]) -> Result<()> {
    let mut address = start;
    for bytes in page.chunks(LINE_BYTES) {
        out.write_all(&dump_line(address, bytes))?;
        address = address.wrapping_add(LINE_BYTES);
    }
    Ok(())
}

// No twin of that of `trace`, which may meet a state of any part.
fn part_name(part: u8) -> &'static str {
    match part {
        Part24CSM01::NUMBER => "24CSM01",
        PartAT24CM01::NUMBER => "AT24CM01",
        _ => "24CS32",
    }
}

// The address of a page of this size. No page number of a word has more than four digits.
fn address_of(number: usize, size: usize) -> usize {
    number % WORD * size.min(BYTE)
}

// The word that asked for the page, its chip and store, then the page. A failure ends it.
pub fn show(
    rt: &HostRuntime,
    word: &[u8],
    chip: usize,
    place: Place,
    store: u8,
    number: usize,
    page: &[u8],
) -> Result<()> {
    let mut out = Patient::new(rt, rt.stdout());
    out.write_all(word)?;
    let part = part_name(place.part);
    let strap = place.strap;
    let store = if store == ARRAY {
        "array"
    } else {
        "security register"
    };
    writeln!(out, "  chip {chip} ({part} at strap {strap}), {store}")?;
    write_lines(&mut out, address_of(number, page.len()), page)
}
