// A digit of an Intel HEX file is one of a transcript, or of lower case (request E1).
ghost use Rattle.std.specs.Prelude.{◌≡◌};
ghost use Rattle.transcript.specs.Digit.{digit_value};
ghost use Rattle.hexline.specs.Digit.{upper_case, is_hex_digit, value_of};

use transcript::digit::digit_value;

fn digit(byte: u8) -> Option<u8>
    ensures { result ≡ digit_value (upper_case byte) }
{
    digit_value(byte.to_ascii_uppercase())
}

pub fn is_hex_digit(byte: u8) -> bool
    ensures { result ≡ is_hex_digit byte }
{
    digit(byte).is_some()
}

// What is no digit counts 0.
pub fn value_of(byte: u8) -> u8
    ensures { result ≡ value_of byte }
{
    digit(byte).unwrap_or(0)
}
