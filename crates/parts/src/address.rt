// The three bits of an address byte between 1010 or 1011 and the read bit, here called its code (paper, "Address byte").
ghost use Rattle.std.specs.Prelude.{◌≡◌, ◌<◌};
ghost use Rattle.parts.specs.Part.{geometry_of};
ghost use Rattle.parts.specs.Address.{codes_of, answers, a16_of, share_address};

use crate::part::geometry_of;

// Codes that three bits make.
const CODES: u8 = 8;

// How many codes a chip of the part answers.
#[tactic(auto, using(crate::proofs::address::Laws::of_codes))]
fn codes_of(part: u8) -> u8
    ensures codes { result ≡ codes_of (geometry_of part) }
    ensures some { 0 < result }
{
    CODES / geometry_of(part).straps
}

// Whether a chip at a strap answers a code.
pub fn answers(part: u8, strap: u8, code: u8) -> bool
    ensures { result ≡ answers (geometry_of part) strap code }
{
    code / codes_of(part) == strap
}

// Whether A16 is set in a code: it is the last bit where a chip answers two codes, and no bit where it answers one.
pub fn a16_of(part: u8, code: u8) -> bool
    ensures { result ≡ a16_of (geometry_of part) code }
{
    code % codes_of(part) == 1
}

// Whether two chips match one address byte.
pub fn share_address(part: u8, strap: u8, other: u8, beside: u8) -> bool
    ensures { result ≡ share_address (geometry_of part) strap (geometry_of other) beside }
{
    let codes = u16::from(codes_of(part));
    let others = u16::from(codes_of(other));
    let first = u16::from(strap) * codes;
    let second = u16::from(beside) * others;
    first < second + others && second < first + codes
}
