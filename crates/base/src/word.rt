// A word of two bytes, high first.
ghost use Rattle.std.specs.Prelude.{◌≡◌};
ghost use Rattle.base.specs.Word.{word_of};

// How many values a byte has.
pub const BYTE: u16 = 256;

pub fn word_of(high: u8, low: u8) -> u16
    ensures { result ≡ word_of high low }
{
    u16::from_be_bytes([high, low])
}
