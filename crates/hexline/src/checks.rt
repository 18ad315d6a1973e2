// What is checked of a record, in the request's order: 20, 21, 22, 23 (request E1).
ghost use Rattle.std.specs.Prelude.{◌≡◌};
ghost use Rattle.refusal.specs.Checks.{first_of};
ghost use Rattle.hexline.specs.Checks.{bad_length, unknown_type, past_array, record_checks};

use crate::fields::{DATA, END, UPPER, count_in, first_address, is_framed, kind_in, sum_in};
use refusal::Refusal;

// How many data bytes a record of type 04 has.
const UPPER_BYTES: u8 = 2;

fn bad_length(rest: &[u8]) -> bool
    ensures { result ≡ bad_length rest.now }
{
    match kind_in(rest) {
        END => count_in(rest) != 0,
        UPPER => count_in(rest) != UPPER_BYTES,
        _ => false,
    }
}

fn unknown_type(rest: &[u8]) -> bool
    ensures { result ≡ unknown_type rest.now }
{
    !matches!(kind_in(rest), DATA | END | UPPER)
}

// Only bytes that the record names count.
fn past_array(rest: &[u8], size: usize, upper: u16) -> bool
    ensures { result ≡ past_array size upper rest.now }
{
    let count = count_in(rest) as usize;
    kind_in(rest) == DATA && 0 < count && size < first_address(rest, upper) + count
}

pub fn record_verdict(rest: &[u8], size: usize, upper: u16) -> Result<(), Refusal>
    ensures { result ≡ first_of (record_checks size upper rest.now) }
{
    if !is_framed(rest) || bad_length(rest) {
        Err(Refusal::BadRecord)
    } else if sum_in(rest) != 0 {
        Err(Refusal::WrongSum)
    } else if unknown_type(rest) {
        Err(Refusal::UnknownType)
    } else if past_array(rest, size, upper) {
        Err(Refusal::PastArray)
    } else {
        Ok(())
    }
}
