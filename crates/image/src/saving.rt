// Saving: one chip's array as text, 16 data bytes a record (request E1).
ghost use Rattle.std.specs.Prelude.{◌+◌, ◌*◌, ◌≤◌, ◌^◌, ◌≡◌, length};
ghost use Rattle.base.specs.Store.{patched};
ghost use Rattle.refusal.specs.Checks.{first_of};
ghost use Rattle.image.specs.Rows.{upper_of, upper_changes, upper_text, bare_row, row_text, saved_size};
ghost use Rattle.image.specs.Save.{save_checks, put_row, put_rows, put_text, save};

use crate::share::share_of;
use bus::Bus;
use hexline::fields::{DATA, END, UPPER, UPPER_STEP};
use hexline::writing::put_record;
use lineup::places_of;
use parts::part::geometry_of;
use refusal::Refusal;

const ROW_BYTES: usize = 16;

// The bytes of a row's text, of a record of type 04, and of the end record.
const ROW_TEXT: usize = 44;

const UPPER_TEXT: usize = 16;

const END_TEXT: usize = 12;

// How long the text of an array is.
fn saved_size(size: u32) -> usize
    ensures { result ≡ saved_size size }
{
    let size = size as usize;
    size / ROW_BYTES * ROW_TEXT + size.saturating_sub(1) / UPPER_STEP * UPPER_TEXT + END_TEXT
}

fn upper_of(row: usize) -> usize
    requires { row ≤ 2 ^ 24 }
    ensures { result ≡ upper_of row }
{
    row * ROW_BYTES / UPPER_STEP
}

// The first row has none before it.
fn upper_changes(row: usize) -> bool
    requires { row ≤ 2 ^ 24 }
    ensures { result ≡ upper_changes row }
{
    upper_of(row) != upper_of(row.saturating_sub(1))
}

fn put_upper(upper: u16, text: &mut [u8], at: usize)
    requires { at + 16 ≤ length text.old }
    ensures { text.new ≡ patched at (upper_text upper) text.old }
{
    put_record(UPPER, 0, &upper.to_be_bytes(), text, at);
}

// A row's record of data.
fn put_bare(share: &[u8], row: usize, text: &mut [u8], at: usize)
    requires { (row * 16 + 16 ≤ length share.now) × (row ≤ 2 ^ 20) × (at + 44 ≤ length text.old) }
    ensures { text.new ≡ patched at (bare_row share.now row) text.old }
{
    let from = row * ROW_BYTES;
    let address = (from % UPPER_STEP) as u16;
    put_record(DATA, address, &share[from..from + ROW_BYTES], text, at);
}

// Writes a row, with a record of type 04 before it where the upper address bits change, and answers the place after it.
fn put_row(share: &[u8], row: usize, text: &mut [u8], at: usize) -> usize
    requires { (row * 16 + 16 ≤ length share.now) × (row ≤ 2 ^ 20) × (at + length (row_text share.now row) ≤ length text.old) }
    ensures { (result, text.new) ≡ put_row share.now row text.old at }
{
    if upper_changes(row) {
        put_upper(upper_of(row) as u16, text, at);
        put_bare(share, row, text, at + UPPER_TEXT);
        at + UPPER_TEXT + ROW_TEXT
    } else {
        put_bare(share, row, text, at);
        at + ROW_TEXT
    }
}

fn put_rows(share: &[u8], text: &mut [u8]) -> usize
    requires { (length share.now ≤ 2 ^ 24) × (saved_size (length share.now) ≤ length text.old) }
    ensures { (result, text.new) ≡ put_rows share.now text.old }
{
    let mut at = 0;
    for row in 0..share.len() / ROW_BYTES {
        at = put_row(share, row, text, at);
    }
    at
}

// Writes one chip's share, which has room, and answers how long its text is.
fn put_text(share: &[u8], text: &mut [u8]) -> usize
    requires { (length share.now ≤ 2 ^ 24) × (saved_size (length share.now) ≤ length text.old) }
    ensures { (result, text.new) ≡ put_text share.now text.old }
{
    let at = put_rows(share, text);
    put_record(END, 0, &[], text, at);
    at + END_TEXT
}

// Checks 10, 5, 7 and 19.
fn save_verdict(
    bus: Bus,
    array: &[u8],
    security: &[u8],
    chip: usize,
    text: &[u8],
) -> Result<(), Refusal>
    ensures { result ≡ first_of (save_checks bus array.now security.now chip text.now) }
{
    bus.chip_verdict(array, security, chip)?;
    let place = places_of(bus.chips)[chip];
    if text.len() < saved_size(geometry_of(place.part).array) {
        Err(Refusal::ShortText)
    } else {
        Ok(())
    }
}

// Writes the array of a chip to the start of a buffer, and answers how many bytes the text has; bytes past it stay.
pub fn save(
    bus: Bus,
    array: &[u8],
    security: &[u8],
    chip: usize,
    text: &mut [u8],
) -> Result<usize, Refusal>
    ensures { (result, text.new) ≡ save bus array.now security.now chip text.old }
{
    save_verdict(bus, array, security, chip, text)?;
    Ok(put_text(&array[share_of(bus, chip)], text))
}
