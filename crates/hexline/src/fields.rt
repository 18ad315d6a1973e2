// The fields of a record, from the text from the record on: `:`, two digits for each byte (how many data bytes, the address in two, the
// type, the data, a check byte), then LF or CR LF (request E1).
ghost use Rattle.std.specs.Prelude.{◌≡◌};
ghost use Rattle.std.specs.List.{list_all};
ghost use Rattle.hexline.specs.Digit.{is_hex_digit};
ghost use Rattle.hexline.specs.Fields.{char_at, byte_at, count_in, address_in, kind_in, upper_in, bytes_in, sum_in, end_at, end_size, line_size, is_framed, first_address, put_data};

use crate::digit::{is_hex_digit, value_of};
use base::share::put;
use base::word::word_of;
use transcript::digit::DIGITS;
use transcript::frame::LF;

pub const COLON: u8 = b':';

const CR: u8 = 13;

// The types that are read: data, the end, the upper 16 address bits. (Numbers, since `kind_in` answers any byte, and its
// contract stays.)
pub const DATA: u8 = 0;

pub const END: u8 = 1;

pub const UPPER: u8 = 4;

// Which bytes of a record are its count, its address, its type and its first data byte.
const COUNT: u16 = 0;

const ADDRESS_HIGH: u16 = 1;

const ADDRESS_LOW: u16 = 2;

const KIND: u16 = 3;

const FIRST_DATA: u16 = 4;

// The bytes of a record beside its data.
const BESIDE_DATA: u16 = 5;

// How many addresses an upper half has.
pub const UPPER_STEP: usize = 65_536;

// Past the end of the text 0 stands for a character.
fn char_at(rest: &[u8], i: usize) -> u8
    ensures { result ≡ char_at rest.now i }
{
    rest.get(i).copied().unwrap_or(0)
}

pub fn byte_at(rest: &[u8], i: u16) -> u8
    ensures { result ≡ byte_at rest.now i }
{
    let at = 1 + 2 * i as usize;
    value_of(char_at(rest, at)) * DIGITS + value_of(char_at(rest, at + 1))
}

pub fn count_in(rest: &[u8]) -> u8
    ensures { result ≡ count_in rest.now }
{
    byte_at(rest, COUNT)
}

pub fn address_in(rest: &[u8]) -> u16
    ensures { result ≡ address_in rest.now }
{
    word_of(byte_at(rest, ADDRESS_HIGH), byte_at(rest, ADDRESS_LOW))
}

pub fn kind_in(rest: &[u8]) -> u8
    ensures { result ≡ kind_in rest.now }
{
    byte_at(rest, KIND)
}

pub fn upper_in(rest: &[u8]) -> u16
    ensures { result ≡ upper_in rest.now }
{
    word_of(byte_at(rest, FIRST_DATA), byte_at(rest, FIRST_DATA + 1))
}

fn bytes_in(rest: &[u8]) -> u16
    ensures { result ≡ bytes_in rest.now }
{
    BESIDE_DATA + count_in(rest) as u16
}

pub fn sum_in(rest: &[u8]) -> u8
    ensures { result ≡ sum_in rest.now }
{
    let mut sum: u8 = 0;
    for i in COUNT..bytes_in(rest) {
        sum = sum.wrapping_add(byte_at(rest, i));
    }
    sum
}

fn end_at(rest: &[u8]) -> usize
    ensures { result ≡ end_at rest.now }
{
    1 + 2 * bytes_in(rest) as usize
}

// How many bytes the line's end has, none where there is none.
fn end_size(rest: &[u8]) -> usize
    ensures { result ≡ end_size rest.now }
{
    let at = end_at(rest);
    match char_at(rest, at) {
        LF => 1,
        CR if char_at(rest, at + 1) == LF => 2,
        _ => 0,
    }
}

pub fn line_size(rest: &[u8]) -> usize
    ensures { result ≡ line_size rest.now }
{
    end_at(rest) + end_size(rest)
}

fn all_digits(text: &[u8]) -> bool
    ensures { result ≡ list_all is_hex_digit text.now }
{
    text.iter().all(|byte| is_hex_digit(*byte))
}

// A record stands here, whatever its type. Where its line ends, its digits stand in the text.
pub fn is_framed(rest: &[u8]) -> bool
    ensures { result ≡ is_framed rest.now }
{
    char_at(rest, 0) == COLON && 0 < end_size(rest) && all_digits(&rest[1..end_at(rest)])
}

// The array address of the first data byte.
pub fn first_address(rest: &[u8], upper: u16) -> usize
    ensures { result ≡ first_address upper rest.now }
{
    upper as usize * UPPER_STEP + address_in(rest) as usize
}

// Stores the data bytes, on past FFFFh where there are as many.
pub fn put_data(rest: &[u8], upper: u16, share: &mut [u8])
    ensures { share.new ≡ put_data upper rest.now share.old }
{
    let first = first_address(rest, upper);
    for i in 0..count_in(rest) as u16 {
        put(byte_at(rest, FIRST_DATA + i), first + i as usize, share);
    }
}
