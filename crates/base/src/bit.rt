// One bit of a byte.
ghost use Rattle.std.specs.Prelude.{◌≡◌};
ghost use Rattle.base.specs.Bit.{bit_of};

pub fn bit_of(byte: u8, at: u32) -> bool
    ensures { result ≡ bit_of byte at }
{
    at < u8::BITS && (byte >> at) & 1 == 1
}
