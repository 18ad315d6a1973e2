// A record as text: upper case, and LF (request E1).
ghost use Rattle.std.specs.Prelude.{◌+◌, ◌*◌, ◌≤◌, ◌≡◌, length};
ghost use Rattle.base.specs.Store.{patched};
ghost use Rattle.print.specs.Print.{byte_text};
ghost use Rattle.hexline.specs.Writing.{bytes_text, sum_with, check_of, head_of, record_text, put_record};

use crate::fields::COLON;
use print::{BYTE_DIGITS, byte_text};
use transcript::frame::LF;

// The most data bytes that a record can have.
const MOST_DATA: usize = 255;

// The bytes before the data.
const HEAD: usize = 4;

// What a record of no data bytes has: the colon, two digits for each of five bytes, LF.
const BARE: usize = 12;

// Where a record's bytes begin, behind the colon, and its data.
const HEAD_AT: usize = 1;

const DATA_AT: usize = HEAD_AT + HEAD * BYTE_DIGITS;

fn put_byte(byte: u8, text: &mut [u8], at: usize)
    requires { at + 2 ≤ length text.old }
    ensures { text.new ≡ patched at (byte_text byte) text.old }
{
    text[at..at + BYTE_DIGITS].copy_from_slice(&byte_text(byte));
}

fn put_bytes(bytes: &[u8], text: &mut [u8], at: usize)
    requires { at + 2 * length bytes.now ≤ length text.old }
    ensures { text.new ≡ patched at (bytes_text bytes.now) text.old }
{
    for (i, &byte) in bytes.iter().enumerate() {
        put_byte(byte, text, at + BYTE_DIGITS * i);
    }
}

fn sum_with(bytes: &[u8], start: u8) -> u8
    ensures { result ≡ sum_with bytes.now start }
{
    bytes
        .iter()
        .fold(start, |sum, byte| sum.wrapping_add(*byte))
}

fn check_of(sum: u8) -> u8
    ensures { result ≡ check_of sum }
{
    sum.wrapping_neg()
}

fn head_of(kind: u8, address: u16, count: u8) -> [u8; HEAD]
    ensures { result ≡ head_of kind address count }
{
    let [high, low] = address.to_be_bytes();
    [count, high, low, kind]
}

// A record that has room.
fn write_record(kind: u8, address: u16, content: &[u8], text: &mut [u8], at: usize)
    requires { (length content.now ≤ 255) × (at + (12 + 2 * length content.now) ≤ length text.old) }
    ensures { text.new ≡ patched at (record_text kind address content.now) text.old }
{
    let head = head_of(kind, address, content.len() as u8);
    let check = check_of(sum_with(content, sum_with(&head, 0)));
    let check_at = at + DATA_AT + BYTE_DIGITS * content.len();
    text[at] = COLON;
    put_bytes(&head, text, at + HEAD_AT);
    put_bytes(content, text, at + DATA_AT);
    put_byte(check, text, check_at);
    text[check_at + BYTE_DIGITS] = LF;
}

// Writes a record from a place of the buffer on. One that has no room, or too many bytes, is not written. The kind is a number, and buffer and place are
// apart, here and in those that write for it: `put_record` and `patched` have them so.
pub fn put_record(kind: u8, address: u16, content: &[u8], text: &mut [u8], at: usize)
    ensures { text.new ≡ put_record kind address content.now text.old at }
{
    let count = content.len();
    if count <= MOST_DATA && BARE + BYTE_DIGITS * count <= text.len().saturating_sub(at) {
        write_record(kind, address, content, text, at);
    }
}
